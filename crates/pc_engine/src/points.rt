//! The effect of each event of the checkpointer.
ghost use Rattle.std.specs.Prelude.{◌≡◌, IfOk, option_copied};
ghost use Rattle.pc_answers.specs.Replies.{take_reply};
ghost use Rattle.pc_phase.specs.Agreement.{reply_of};
ghost use Rattle.pc_engine.specs.Steps.{Changes, LeavesShelf, Takes, Shelves, Joins};

use crate::shelving::{Shelvable, joined};
use crate::world::World;
use pc_answers::TakeAnswer;
use pc_capture::SharedPart;
use pc_log::TOKEN_SIZE;
use pc_phase::{Change, Held};
use pc_taken::Taken;
use pc_types::{FileNo, Key, MOST_FILES, Phase, Refusal, Reply, Value};
use std::alloc::{AllocError, Global};

impl World {
    // The phase changes by this word of the checkpointer, and its token is logged, once nothing holds that back. After the seal
    // nothing was taken yet.
    pub(crate) fn advance(&mut self, change: Change) -> Reply
        requires { LeavesShelf change }
        ensures { Changes change self.old result self.new }
    {
        if let Some(held) = self.sessions.held_back(change) {
            return reply_of(held);
        }
        if self.log.is_full() {
            return Reply::Refused(Refusal::LogFull);
        }
        if self.log.reserve(TOKEN_SIZE).is_err() {
            return Reply::Refused(Refusal::OutOfMemory);
        }
        self.sessions.change(change);
        let (phase, point) = (self.sessions.phase(), self.sessions.point());
        self.log.append_token(phase, point);
        if let Change::Seal = change {
            self.taken = Taken::new(self.alloc);
        }
        Reply::Phase(phase, point)
    }

    pub(crate) fn take_key(&mut self) -> Result<TakeAnswer, Refusal>
        ensures { Takes self.old (take_reply result) self.new }
    {
        if !self.sessions.phase().is(Phase::Capture) {
            return Err(Refusal::WrongPhase);
        }
        let Some((first, at_point)) = self.sessions.first_closed() else {
            return Ok(TakeAnswer::NoneLeft);
        };
        let Ok((key, content, kept_key, kept_content)) = copied_twice(self.alloc, first, at_point)
        else {
            return Err(Refusal::OutOfMemory);
        };
        let Ok(()) = self.taken.put(kept_key, kept_content) else {
            return Err(Refusal::OutOfMemory);
        };
        self.sessions.take();
        Ok(TakeAnswer::Took(key, content))
    }

    pub(crate) fn shelve(&mut self) -> Reply
        ensures { Shelves self.old result self.new }
    {
        if let Some(held) = self.sessions.held_back(Change::Done) {
            return reply_of(held);
        }
        if self.shelf.len() == MOST_FILES {
            return Reply::Refused(Refusal::ShelfFull);
        }
        if self.log.is_full() {
            return Reply::Refused(Refusal::LogFull);
        }
        if self.shelf.reserve(1).is_err() || self.log.reserve(TOKEN_SIZE).is_err() {
            return Reply::Refused(Refusal::OutOfMemory);
        }
        let (run, point) = (self.base.run(), self.sessions.point());
        let Ok((part, entries)) = SharedPart::of_taken(self.alloc, run, point, &mut self.taken)
        else {
            return Reply::Refused(Refusal::OutOfMemory);
        };
        self.sessions.change(Change::Done);
        self.log.append_token(Phase::Complete, point);
        self.shelf.push_reserved(part);
        Reply::PartDone(point, FileNo(self.shelf.len() as u32), entries)
    }

    pub(crate) fn join_files(&mut self, first: FileNo, second: FileNo) -> Reply
        ensures { Joins self.old first second result self.new }
    {
        match joined(self.alloc, &self.shelf, first, second) {
            Ok(
                Shelvable {
                    part,
                    points,
                    entries,
                },
            ) => {
                if self.shelf.reserve(1).is_err() {
                    return Reply::Refused(Refusal::OutOfMemory);
                }
                self.shelf.push_reserved(part);
                Reply::File(FileNo(self.shelf.len() as u32), points, entries)
            }
            Err(why) => Reply::Refused(why),
        }
    }
}

// The reply that represents what holds a change back.
fn reply_of(held: Held) -> Reply
    ensures { result ≡ reply_of held }
{
    match held {
        Held::WrongPhase => Reply::Refused(Refusal::WrongPhase),
        Held::PointsFull => Reply::Refused(Refusal::PointsFull),
        Held::NotYet(count) => Reply::NotYet(count),
    }
}

// The key with what it has, twice.
fn copied_twice(
    alloc: Global,
    key: &Key,
    content: Option<&Value>,
) -> Result<(Key, Option<Value>, Key, Option<Value>), AllocError>
    ensures { IfOk result (λ copies. copies ≡ (key.now, option_copied content.entry, key.now, option_copied content.entry)) }
{
    let (one, other) = match content {
        Some(value) => (Some(value.copy(alloc)?), Some(value.copy(alloc)?)),
        None => (None, None),
    };
    Ok((key.copy(alloc)?, one, key.copy(alloc)?, other))
}
