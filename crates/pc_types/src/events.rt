//! Events and replies, and the entries of the log.
ghost use Rattle.std.specs.Prelude.{◌≡◌, IfOk};
ghost use Rattle.pc_types.specs.Phases.{same_phase};

use crate::changes::Write;
use crate::keys::Key;
use crate::lists::Items;
use crate::numbers::{FileNo, Lsn, Point, SessionNo, TxnNo};
use crate::refusal::Refusal;
use crate::values::Value;
use std::alloc::{AllocError, Global};

/// The five phases of a checkpoint's cycle, in their order; rest is between two cycles.
#[derive(Clone, Copy, Debug, PartialEq, Eq)]
pub enum Phase {
    Rest,
    Prepare,
    Resolve,
    Capture,
    Complete,
}

impl Phase {
    /// Whether it is this phase.
    pub fn is(self, other: Phase) -> bool
        ensures { result ≡ same_phase self other }
    {
        self == other
    }
}

/// The class of a transaction, by the phase in which it began.
#[derive(Clone, Copy, Debug, PartialEq, Eq)]
pub enum Class {
    /// It began in rest or complete.
    Before,
    /// It began in prepare.
    During,
    /// It began in resolve or capture.
    After,
}

/// An entry of the log.
#[derive(Drop)]
pub enum Entry {
    /// A commit of the session: of each key all its changes as one, in the order of first writes.
    Commit(SessionNo, Items<Write>),
    /// The phase changed, in the cycle of this point.
    Token(Phase, Point),
}

impl Entry {
    /// A copy of the entry; its list of writes has exactly the needed capacity. It fails only if an allocation fails.
    pub fn copy(&self, alloc: Global) -> Result<Entry, AllocError>
        ensures { IfOk result (λ entry. entry ≡ self.now) }
    {
        match self {
            Entry::Commit(session, writes) => {
                let writes = copy_writes(alloc, writes.as_slice())?;
                Ok(Entry::Commit(*session, Items::from_vec(writes)))
            }
            Entry::Token(phase, point) => Ok(Entry::Token(*phase, *point)),
        }
    }
}

// A copy of the writes.
fn copy_writes(alloc: Global, writes: &[Write]) -> Result<Vec<Write>, AllocError>
    ensures { IfOk result (λ copies. copies.items ≡ writes.now) }
{
    let mut copies = Vec::with_capacity(alloc, writes.len())?;
    for write in writes {
        copies.push_reserved(write.copy(alloc)?);
    }
    Ok(copies)
}

/// A request of a client or of the checkpointer to the store.
#[derive(Drop)]
pub enum Event {
    /// The session begins a transaction.
    Begin(SessionNo),
    /// The session's transaction reads the key.
    Get(SessionNo, Key),
    /// The session's transaction sets the key to the value.
    Put(SessionNo, Key, Value),
    /// The session's transaction removes the key.
    Del(SessionNo, Key),
    /// The session's transaction adds this to the number that the key has, or to 0 if it has no value.
    Add(SessionNo, Key, i64),
    /// The session's transaction commits.
    Commit(SessionNo),
    /// The session's transaction ends without effect.
    Abort(SessionNo),
    /// A cycle begins: from rest to prepare of the next point.
    StartPoint,
    /// The point of consistency: from prepare to resolve.
    Seal,
    /// From resolve to capture.
    OpenCapture,
    /// One key of the point is taken, in capture.
    Take,
    /// The point's part is complete and goes on the shelf: from capture to complete.
    Done,
    /// The cycle ends: from complete to rest.
    Rest,
    /// The join of two shelved files goes on the shelf.
    Join(FileNo, FileNo),
}

/// A reply of the store.
#[derive(Drop)]
pub enum Reply {
    /// Begin: the transaction's number.
    Begun(TxnNo),
    /// Get: the key has this value.
    Found(Value),
    /// Get: the key has no value.
    Absent,
    /// Put and Del, also of a key that has no value.
    Ok,
    /// Add: the key has this number now.
    Sum(i64),
    /// The lock request waits; the same event is asked again later.
    Wait,
    /// The lock request died; the transaction accepts only Abort.
    Died,
    /// Commit: the number of its log entry.
    Committed(Lsn),
    /// Abort.
    Aborted,
    /// The phase is now this one, in the cycle of this point.
    Phase(Phase, Point),
    /// The phase can't change yet: the number of active transactions, or, at Done, of keys left to take.
    NotYet(u32),
    /// Take: the key and what it had at the point, a value or nothing.
    Took(Key, Option<Value>),
    /// Take: no key is left.
    NoneLeft,
    /// Done: the point, its file's number on the shelf, and how many entries it has.
    PartDone(Point, FileNo, u32),
    /// Join: the file's number on the shelf, its points in ascending order, and how many entries it has.
    File(FileNo, Items<Point>, u32),
    /// The event was refused and changed nothing.
    Refused(Refusal),
}

/// A step of a run: an event with its reply.
#[derive(Drop)]
pub struct Step {
    pub event: Event,
    pub reply: Reply,
}
