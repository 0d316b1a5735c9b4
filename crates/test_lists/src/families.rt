//! The families of lists: what is asked in them, of which store, and how far a list goes.

use pc_bases::Base;
use pc_engine::World;
use pc_types::{Refusal, Reply};
use std::alloc::Global;
use std::hash::RandomState;
use test_support::Ask;

/// The store that a list is asked of; each starts from nothing.
#[derive(Clone, Copy)]
pub enum StoreFamily {
    /// One session, with room for two keys.
    OneSession,
    /// Two sessions, with room for two keys.
    TwoSessions,
    /// Two sessions, with room for one key.
    OneKey,
}

/// Which lists are gone on with, and after which the store is checked.
#[derive(Clone, Copy, PartialEq)]
pub enum Rule {
    /// A list isn't gone on with once its last event was refused. The store is checked after each list.
    CheckEach,
    /// A list isn't gone on with once its last event was refused. The store is checked after the longest lists.
    CheckLongest,
    /// A list isn't gone on with once its last event was refused or found nothing to do. The store is checked after the
    /// longest lists, if they would be gone on with.
    CheckChanged,
}

/// All lists of 1 to the given number of events, each event one of the letters, which follow on the start.
#[derive(Clone, Copy)]
pub struct Family {
    pub name: &'static str,
    pub store: StoreFamily,
    pub start: &'static [Ask<'static>],
    pub letters: &'static [Ask<'static>],
    pub most: usize,
    pub rule: Rule,
}

/// A new store of this kind, which hashes its keys under the seed.
pub fn new_world(alloc: Global, seed: RandomState, store: StoreFamily) -> Result<World, Refusal> {
    let base = Base::start(1, Vec::new(alloc));
    match store {
        StoreFamily::OneSession => World::new(alloc, base, 1, 2, seed),
        StoreFamily::TwoSessions => World::new(alloc, base, 2, 2, seed),
        StoreFamily::OneKey => World::new(alloc, base, 2, 1, seed),
    }
}

impl Rule {
    /// Whether a list with this last reply is gone on with; if it isn't, its last event has left the store as it was.
    pub fn goes_on(self, reply: &Reply) -> bool {
        match reply {
            Reply::Refused(_) => false,
            Reply::NotYet(_) | Reply::NoneLeft => self != Rule::CheckChanged,
            _ => true,
        }
    }

    /// Whether the store is checked after a list.
    pub fn is_checked(self, is_longest: bool, goes_on: bool) -> bool {
        match self {
            Rule::CheckEach => true,
            Rule::CheckLongest => is_longest,
            Rule::CheckChanged => is_longest && goes_on,
        }
    }
}

// What one session and the checkpointer do over two keys.
const ONE_SESSION: [Ask<'static>; 11] = [
    Ask::Begin(1),
    Ask::Put(1, b"a", b"1"),
    Ask::Put(1, b"b", b"2"),
    Ask::Commit(1),
    Ask::StartPoint,
    Ask::Seal,
    Ask::OpenCapture,
    Ask::Take,
    Ask::Done,
    Ask::Rest,
    Ask::Join(1, 1),
];

// What two sessions do over two keys.
const TWO_SESSIONS: [Ask<'static>; 16] = [
    Ask::Begin(1),
    Ask::Get(1, b"a"),
    Ask::Get(1, b"b"),
    Ask::Put(1, b"a", b"1"),
    Ask::Put(1, b"b", b"22"),
    Ask::Del(1, b"a"),
    Ask::Commit(1),
    Ask::Abort(1),
    Ask::Begin(2),
    Ask::Get(2, b"a"),
    Ask::Get(2, b"b"),
    Ask::Put(2, b"a", b"333"),
    Ask::Put(2, b"b", b"4444"),
    Ask::Del(2, b"a"),
    Ask::Commit(2),
    Ask::Abort(2),
];

// What two sessions do over two keys, and the checkpointer. Each session writes both keys, and reads and deletes one of
// them: with the other one the two sessions have changed places, and either is the older one in some start.
const WITH_POINTS: [Ask<'static>; 20] = [
    Ask::Begin(1),
    Ask::Get(1, b"a"),
    Ask::Put(1, b"a", b"1"),
    Ask::Put(1, b"b", b"22"),
    Ask::Del(1, b"a"),
    Ask::Commit(1),
    Ask::Abort(1),
    Ask::Begin(2),
    Ask::Get(2, b"b"),
    Ask::Put(2, b"a", b"333"),
    Ask::Put(2, b"b", b"4444"),
    Ask::Del(2, b"b"),
    Ask::Commit(2),
    Ask::Abort(2),
    Ask::StartPoint,
    Ask::Seal,
    Ask::OpenCapture,
    Ask::Take,
    Ask::Done,
    Ask::Rest,
];

// Point 1 was taken, and the other key is written since. Session 1 has read, and session 2 has begun.
const AT_REST: [Ask<'static>; 15] = [
    Ask::Begin(1),
    Ask::Put(1, b"a", b"1"),
    Ask::Commit(1),
    Ask::StartPoint,
    Ask::Seal,
    Ask::OpenCapture,
    Ask::Take,
    Ask::Done,
    Ask::Rest,
    Ask::Begin(2),
    Ask::Put(2, b"b", b"4444"),
    Ask::Commit(2),
    Ask::Begin(1),
    Ask::Get(1, b"a"),
    Ask::Begin(2),
];

// Session 1 has read since before the point, and session 2 writes since prepare.
const IN_PREPARE: [Ask<'static>; 9] = [
    Ask::Begin(1),
    Ask::Put(1, b"a", b"1"),
    Ask::Put(1, b"b", b"22"),
    Ask::Commit(1),
    Ask::Begin(1),
    Ask::Get(1, b"b"),
    Ask::StartPoint,
    Ask::Begin(2),
    Ask::Put(2, b"a", b"333"),
];

// Both keys are of the point, one of them deleted. Session 2 writes since prepare, session 1 since the seal.
const IN_RESOLVE: [Ask<'static>; 10] = [
    Ask::Begin(1),
    Ask::Del(1, b"b"),
    Ask::Put(1, b"a", b"1"),
    Ask::Commit(1),
    Ask::StartPoint,
    Ask::Begin(2),
    Ask::Put(2, b"a", b"333"),
    Ask::Seal,
    Ask::Begin(1),
    Ask::Put(1, b"b", b"22"),
];

// Both keys are of the point and left to take, and one has another value since. Session 1 writes since the seal, and
// session 2 has begun in capture.
const IN_CAPTURE: [Ask<'static>; 14] = [
    Ask::Begin(1),
    Ask::Put(1, b"a", b"1"),
    Ask::Put(1, b"b", b"22"),
    Ask::Commit(1),
    Ask::StartPoint,
    Ask::Seal,
    Ask::Begin(2),
    Ask::Put(2, b"b", b"4444"),
    Ask::Commit(2),
    Ask::Begin(1),
    Ask::Del(1, b"a"),
    Ask::Put(1, b"a", b"1"),
    Ask::OpenCapture,
    Ask::Begin(2),
];

// The first part is done. Session 2 writes since capture, and session 1 has begun since.
const IN_COMPLETE: [Ask<'static>; 11] = [
    Ask::Begin(1),
    Ask::Put(1, b"a", b"1"),
    Ask::Commit(1),
    Ask::StartPoint,
    Ask::Seal,
    Ask::OpenCapture,
    Ask::Begin(2),
    Ask::Del(2, b"a"),
    Ask::Take,
    Ask::Done,
    Ask::Begin(1),
];

// What one session does that adds to two keys, up to the ends of 64 bits, and sets and deletes one of them.
const ONE_ADDING: [Ask<'static>; 10] = [
    Ask::Begin(1),
    Ask::Get(1, b"a"),
    Ask::Add(1, b"a", 5),
    Ask::Add(1, b"a", i64::MAX),
    Ask::Add(1, b"b", -1),
    Ask::Put(1, b"a", b"\x80\x00\x00\x00\x00\x00\x00\x00"),
    Ask::Put(1, b"a", b"1"),
    Ask::Del(1, b"a"),
    Ask::Commit(1),
    Ask::Abort(1),
];

// What two sessions do that add to two keys.
const TWO_ADDING: [Ask<'static>; 14] = [
    Ask::Begin(1),
    Ask::Get(1, b"a"),
    Ask::Add(1, b"a", 1),
    Ask::Add(1, b"b", -1),
    Ask::Put(1, b"b", b"22"),
    Ask::Commit(1),
    Ask::Abort(1),
    Ask::Begin(2),
    Ask::Get(2, b"b"),
    Ask::Add(2, b"a", 10),
    Ask::Add(2, b"b", i64::MAX),
    Ask::Del(2, b"a"),
    Ask::Commit(2),
    Ask::Abort(2),
];

// The same, and the checkpointer.
const ADDING_WITH_POINTS: [Ask<'static>; 20] = [
    Ask::Begin(1),
    Ask::Get(1, b"a"),
    Ask::Add(1, b"a", 1),
    Ask::Add(1, b"b", -1),
    Ask::Put(1, b"b", b"22"),
    Ask::Commit(1),
    Ask::Abort(1),
    Ask::Begin(2),
    Ask::Get(2, b"b"),
    Ask::Add(2, b"a", 10),
    Ask::Add(2, b"b", i64::MAX),
    Ask::Del(2, b"a"),
    Ask::Commit(2),
    Ask::Abort(2),
    Ask::StartPoint,
    Ask::Seal,
    Ask::OpenCapture,
    Ask::Take,
    Ask::Done,
    Ask::Rest,
];

// Both keys have numbers and are of the point. Session 2 adds since prepare, session 1 since the seal.
const ADDED_IN_RESOLVE: [Ask<'static>; 10] = [
    Ask::Begin(1),
    Ask::Add(1, b"a", 1),
    Ask::Add(1, b"b", 2),
    Ask::Commit(1),
    Ask::StartPoint,
    Ask::Begin(2),
    Ask::Add(2, b"a", 10),
    Ask::Seal,
    Ask::Begin(1),
    Ask::Add(1, b"b", -1),
];

/// Lists of one session and the checkpointer.
pub const ALONE: Family = Family {
    name: "one session",
    store: StoreFamily::OneSession,
    start: &[],
    letters: &ONE_SESSION,
    most: 8,
    rule: Rule::CheckEach,
};

/// Lists of two sessions.
pub const BESIDE: Family = Family {
    name: "two sessions",
    store: StoreFamily::TwoSessions,
    start: &[],
    letters: &TWO_SESSIONS,
    most: 7,
    rule: Rule::CheckLongest,
};

/// Lists of two sessions of a store with room for one key.
pub const IN_ONE_ROOM: Family = Family {
    name: "room for one key",
    store: StoreFamily::OneKey,
    most: 6,
    ..BESIDE
};

/// Lists of two sessions and the checkpointer, from a start in rest.
pub const FROM_REST: Family = Family {
    name: "from rest",
    store: StoreFamily::TwoSessions,
    start: &AT_REST,
    letters: &WITH_POINTS,
    most: 6,
    rule: Rule::CheckChanged,
};

/// The same, from a start in prepare.
pub const FROM_PREPARE: Family = Family {
    name: "from prepare",
    start: &IN_PREPARE,
    ..FROM_REST
};

/// The same, from a start in resolve.
pub const FROM_RESOLVE: Family = Family {
    name: "from resolve",
    start: &IN_RESOLVE,
    ..FROM_REST
};

/// The same, from a start in capture.
pub const FROM_CAPTURE: Family = Family {
    name: "from capture",
    start: &IN_CAPTURE,
    ..FROM_REST
};

/// The same, from a start in complete.
pub const FROM_COMPLETE: Family = Family {
    name: "from complete",
    start: &IN_COMPLETE,
    ..FROM_REST
};

/// Lists of one session that adds.
pub const ADDING: Family = Family {
    name: "one session that adds",
    store: StoreFamily::OneSession,
    start: &[],
    letters: &ONE_ADDING,
    most: 7,
    rule: Rule::CheckLongest,
};

/// Lists of two sessions that add.
pub const ADDING_BESIDE: Family = Family {
    name: "two sessions that add",
    letters: &TWO_ADDING,
    most: 6,
    ..BESIDE
};

/// Lists of two sessions that add and the checkpointer, from a start in resolve.
pub const ADDING_FROM_RESOLVE: Family = Family {
    name: "adds from resolve",
    start: &ADDED_IN_RESOLVE,
    letters: &ADDING_WITH_POINTS,
    ..FROM_REST
};
