//! A store that is open: its world, and what was shown of it last.
ghost use Rattle.std.specs.Prelude.{◌≡◌, ◌+◌, ℕ, List, length, IfSome, slice_range};
ghost use Rattle.std.specs.List.{flat_map};
ghost use Rattle.pc_model.specs.Files.{file_at};
ghost use Rattle.pc_kept_log.specs.Logs.{entries_of};
ghost use Rattle.pc_log.specs.Texts.{entry_text, header_text};
ghost use Rattle.pc_part.specs.Texts.{part_text};
ghost use Rattle.pc_bases.specs.Texts.{base_text};
ghost use Rattle.pc_wire.specs.Calls.{event_asked};
ghost use Rattle.pc_border.specs.Stores.{IsReplyShown, IsReplied, IsShownText, IsFileShown, IsText, IsPieceOf, AreEntriesShown};

use crate::sources::copied;
use pc_engine::World;
use pc_io::Tally;
use pc_kept_log::{LentTexts, Log};
use pc_log::encode_header;
use pc_part::Part;
use pc_types::{FileNo, Items, Refusal, Reply};
use pc_wire::codes::{BASE, ENTRIES, LOG, PART};
use pc_wire::{Answer, Call, Shown, event_of, refused, text_told, told_of};
use std::alloc::Global;

// The number of entries of the log shown at most at a time.
const MOST_SHOWN: usize = 65_536;

/// A store that is open.
#[derive(Drop)]
pub struct OpenStore {
    pub world: World,
    /// The bytes that were shown last.
    pub shown: Shown,
}

impl OpenStore {
    /// The store of a world, of which nothing was shown yet.
    pub fn new(alloc: Global, world: World) -> OpenStore
        ensures { result.world ≡ world }
    {
        OpenStore {
            world,
            shown: Shown::Text(Items::new(alloc)),
        }
    }

    /// Answers a call. If it asks an event, the answer is that of `World::step`, with all that this promises, or `OutOfMemory`, which
    /// changes nothing; otherwise it is the reason why it asks none, which changes nothing. The reply is what is shown from now on.
    pub fn call(&mut self, alloc: Global, call: &Call, key: &[u8], value: &[u8]) -> Answer
        ensures { IsReplyShown self.old call.now key.now value.now result self.new }
    {
        let reply = reply_to(&mut self.world, alloc, call, key, value);
        let answer = told_of(&reply);
        self.shown = Shown::Reply(reply);
        answer
    }

    /// Shows a text: that of the base that the store started from (`BASE`); that of the file of the shelf with this number (`PART`); what
    /// comes before the entries in the log's file (`LOG`); or the texts of entries of the log, in order (`ENTRIES`): of those after the
    /// first `number`, at most 65,536, and at least one, unless none is left; the answer has their number. Returns `BadKind` if and only
    /// if it is called none of these, `NoFile` if and only if there is no such file; otherwise the only error is `OutOfMemory`; then
    /// nothing is changed.
    pub fn show_text(&mut self, alloc: Global, what: u32, number: u32) -> Answer
        ensures { IsText what number self.old result self.new }
    {
        match what {
            BASE => self.show_base(alloc),
            PART => self.show_file(alloc, number),
            LOG => self.show_header(alloc),
            ENTRIES => self.show_entries(alloc, number as usize),
            _ => refused(&Refusal::BadKind),
        }
    }

    // Shows the text of the base.
    fn show_base(&mut self, alloc: Global) -> Answer
        ensures { IsShownText (base_text self.old.world.base) 0 self.old result self.new }
    {
        let text = base_bytes(alloc, &self.world);
        self.show(text, 0)
    }

    // Shows the header of the log's file.
    fn show_header(&mut self, alloc: Global) -> Answer
        ensures { IsShownText (header_text self.old.world.base.run) 0 self.old result self.new }
    {
        let text = header_bytes(alloc, &self.world);
        self.show(text, 0)
    }

    // Shows the text of a file of the shelf.
    fn show_file(&mut self, alloc: Global, number: u32) -> Answer
        ensures { IsFileShown (file_at self.old.world.shelf number) self.old result self.new }
    {
        match self.world.file(FileNo(number)) {
            Some(part) => {
                let text = part_bytes(alloc, part);
                self.show(text, 0)
            }
            None => refused(&Refusal::NoFile),
        }
    }

    // Shows the texts of entries of the log after the first ones, whose number is given.
    fn show_entries(&mut self, alloc: Global, behind: usize) -> Answer
        ensures { AreEntriesShown behind self.old result self.new }
    {
        let LentTexts { bytes, count } = piece_behind(self.world.log(), behind);
        let text = copied(alloc, bytes);
        self.show(text, count as u64)
    }

    // Shows the text, which is that of `entries` entries; without a text, an allocation failed.
    fn show(&mut self, text: Option<Items<u8>>, entries: u64) -> Answer
        ensures { (bytes : List ℕ) → IfSome text (λ text. text ≡ bytes) → IsShownText bytes entries self.old result self.new }
    {
        match text {
            Some(text) => {
                let bytes = text.len() as u64;
                self.shown = Shown::Text(text);
                text_told(bytes, entries)
            }
            None => refused(&Refusal::OutOfMemory),
        }
    }
}

// The reply to a call.
fn reply_to(world: &mut World, alloc: Global, call: &Call, key: &[u8], value: &[u8]) -> Reply
    ensures { IsReplied (event_asked call.now key.now value.now) world.old result world.new }
{
    match event_of(alloc, call, key, value) {
        Ok(event) => world.step(&event),
        Err(why) => Reply::Refused(why),
    }
}

// The texts of some entries after the first ones, whose number is given: of one at least, unless none is left.
fn piece_behind(log: &Log, behind: usize) -> LentTexts<'_>
    ensures texts { result.bytes.now ≡ flat_map entry_text (slice_range (entries_of log.now) behind (behind + result.count)) }
    ensures piece { IsPieceOf behind (length (entries_of log.now)) result.count }
{
    if log.len() <= behind {
        return LentTexts {
            bytes: &[],
            count: 0,
        };
    }
    log.texts(behind, MOST_SHOWN)
}

// The text of the base; `None` if an allocation failed.
fn base_bytes(alloc: Global, world: &World) -> Option<Items<u8>>
    ensures { IfSome result (λ bytes. bytes ≡ base_text world.now.base) }
{
    let mut out = Tally::new(Vec::new(alloc));
    match world.base().encode(&mut out) {
        Ok(()) => Some(Items::from_vec(out.into_inner())),
        Err(_) => None,
    }
}

// The header of the log's file; `None` if an allocation failed.
fn header_bytes(alloc: Global, world: &World) -> Option<Items<u8>>
    ensures { IfSome result (λ bytes. bytes ≡ header_text world.now.base.run) }
{
    let mut out = Tally::new(Vec::new(alloc));
    match encode_header(&mut out, world.base().run()) {
        Ok(()) => Some(Items::from_vec(out.into_inner())),
        Err(_) => None,
    }
}

// The text of a part; `None` if an allocation failed.
fn part_bytes(alloc: Global, part: &Part) -> Option<Items<u8>>
    ensures { IfSome result (λ bytes. bytes ≡ part_text part.now) }
{
    let mut out = Tally::new(Vec::new(alloc));
    match part.encode(&mut out) {
        Ok(()) => Some(Items::from_vec(out.into_inner())),
        Err(_) => None,
    }
}
