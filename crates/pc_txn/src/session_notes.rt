//! A session's notes of its own calls, and the content that it found.
ghost use Rattle.std.specs.Prelude.{◌≡◌, ◌<◌, ◌∷◌, ◌++◌, [], true, false, Bool, Some, length, option_copied, slice_get};
ghost use Rattle.pc_txn.specs.Commits.{HasRoomFor, commit_note};
ghost use Rattle.pc_txn.specs.Notes.{noting, reads_after, content_of, kept_in, got_value};
ghost use Rattle.pc_txn.specs.declared.session_notes.Latest.TheVariants.{Nothing};

use crate::commits::Commits;
use crate::got::Got;
use crate::reads::ReadSet;
use pc_types::{Key, Lsn, Value};
use std::alloc::Global;

/// The value that the latest call found.
#[derive(Drop)]
pub enum Latest {
    /// It found none.
    Nothing,
    /// That of the read that is noted at this place.
    Noted(usize),
    /// One that no read notes.
    Loose(Value),
}

/// A session's notes: whether its transaction is open, its reads, a note of each commit, and the content that the latest call
/// found. The store keeps the writes of its transactions.
#[derive(Drop)]
pub struct SessionNotes {
    /// Whether its transaction is open.
    pub busy: bool,
    /// The reads of the open transaction: the first read of each key that it had not written.
    pub reads: ReadSet,
    /// A note of each commit, in their order.
    pub commits: Commits,
    /// The content that the latest call found.
    pub latest: Latest,
}

impl SessionNotes {
    /// Notes of no calls.
    pub fn new(alloc: Global) -> SessionNotes
        ensures { (result.busy ≡ false) × (result.reads.items ≡ []) × (result.commits.items ≡ []) × (result.latest ≡ Nothing) }
    {
        SessionNotes {
            busy: false,
            reads: ReadSet::new(alloc),
            commits: Commits::new(alloc),
            latest: Latest::Nothing,
        }
    }

    /// The value that the latest call found.
    pub fn found(&self) -> Option<&Value>
        ensures { option_copied result ≡ kept_in self.now.latest self.now.reads.items }
    {
        match &self.latest {
            Latest::Nothing => None,
            Latest::Noted(place) => content_at(self.reads.as_slice(), *place),
            Latest::Loose(value) => Some(value),
        }
    }

    /// A transaction begins.
    pub fn begin(&mut self)
        ensures { (self.new.busy ≡ true) × (self.new.reads.items ≡ []) × (self.new.commits.items ≡ self.old.commits.items) × (self.new.latest ≡ Nothing) }
    {
        self.latest = Latest::Nothing;
        self.reads.clear();
        self.busy = true;
    }

    /// A call was answered that found nothing: a write that was made, or a request that died.
    pub fn find_nothing(&mut self)
        ensures { (self.new.busy ≡ self.old.busy) × (self.new.reads.items ≡ self.old.reads.items) × (self.new.commits.items ≡ self.old.commits.items) × (self.new.latest ≡ Nothing) }
    {
        self.latest = Latest::Nothing;
    }

    /// A read was answered, of a key that the transaction itself has written, or has not: what it has written itself is not noted.
    pub fn read(&mut self, own: bool, key: Key, got: Got)
        requires { 0 < self.old.reads.room }
        ensures reads { self.new.reads.items ≡ reads_after got own self.old.reads.items key }
        ensures latest { kept_in self.new.latest self.new.reads.items ≡ got_value got }
        ensures others { (self.new.busy ≡ self.old.busy) × (self.new.commits.items ≡ self.old.commits.items) }
    {
        self.latest = note_got(own, &mut self.reads, key, got);
    }

    /// The transaction was aborted.
    pub fn abort(&mut self)
        ensures { (self.new.busy ≡ false) × (self.new.commits.items ≡ self.old.commits.items) × (self.new.latest ≡ Nothing) }
    {
        self.latest = Latest::Nothing;
        self.busy = false;
    }

    /// The transaction was committed with this number.
    pub fn commit(&mut self, number: Lsn)
        requires { HasRoomFor self.old.commits (length self.old.reads.items) }
        ensures { (self.new.busy ≡ false) × (self.new.commits.items ≡ self.old.commits.items ++ commit_note number self.old.reads.items ∷ []) × (self.new.latest ≡ Nothing) }
    {
        self.latest = Latest::Nothing;
        self.commits.push(number, &mut self.reads);
        self.busy = false;
    }
}

/// Makes room for one more commit, with the given number of reads, or returns false if an allocation failed.
pub fn has_room_for_commit(commits: &mut Commits, reads: usize) -> bool
    ensures same { commits.new.items ≡ commits.old.items }
    ensures room { result ≡ true → HasRoomFor commits.new reads }
{
    commits.reserve(reads).is_ok()
}

/// Makes room for one more read, or answers false if an allocation failed.
pub fn has_room_to_read(reads: &mut ReadSet) -> bool
    ensures same { reads.new.items ≡ reads.old.items }
    ensures room { result ≡ true → 0 < reads.new.room }
{
    reads.reserve().is_ok()
}

// The content read at this place.
fn content_at(reads: &[(Key, Option<Value>)], place: usize) -> Option<&Value>
    ensures { option_copied result ≡ content_of (slice_get reads.now place) }
{
    match reads.get(place) {
        Some(read) => read.1.as_ref(),
        None => None,
    }
}

// Notes the read of the value, if it is the first of its key and is not of an own write.
fn note_value(own: bool, reads: &mut ReadSet, key: Key, value: Value) -> Latest
    requires { 0 < reads.old.room }
    ensures reads { reads.new.items ≡ noting own reads.old.items key (Some value) }
    ensures latest { kept_in result reads.new.items ≡ Some value }
{
    match reads.note(own, key, Some(value)) {
        Ok(place) => Latest::Noted(place),
        Err(Some(value)) => Latest::Loose(value),
        Err(None) => Latest::Nothing,
    }
}

// Notes what a read was answered.
fn note_got(own: bool, reads: &mut ReadSet, key: Key, got: Got) -> Latest
    requires { 0 < reads.old.room }
    ensures reads { reads.new.items ≡ reads_after got own reads.old.items key }
    ensures latest { kept_in result reads.new.items ≡ got_value got }
{
    match got {
        Got::Found(value) => note_value(own, reads, key, value),
        Got::Absent => {
            let _ = reads.note(own, key, None);
            Latest::Nothing
        }
        Got::Died => Latest::Nothing,
    }
}
