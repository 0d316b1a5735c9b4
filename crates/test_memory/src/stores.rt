//! Stores of one and of three sessions: points, waits, deaths and aborts.

use crate::asked::{Told, first_wrong, is_right};
use crate::worlds::world_again;
use pc_engine::World;
use pc_io::Tally;
use pc_part::Part;
use pc_types::{FileNo, Phase, Refusal};
use std::alloc::Global;
use std::hash::RandomState;
use std::test::Fail;
use test_support::{Ask, Pair};

// Keys and values that take memory of their own.
const A: &[u8] = b"a word of 20 letters";

const B: &[u8] = b"b word of 20 letters";

const ONE: &[u8] = b"1 word of 20 letters";

const TWO: &[u8] = b"2 word of 20 letters";

const THREE: &[u8] = b"3 word of 20 letters";

/// A file's number and its text.
pub(crate) type StoredFile = (u32, &'static [u8]);

fn text_of(alloc: Global, part: &Part) -> Result<Vec<u8>, Refusal> {
    let mut out = Tally::new(Vec::new(alloc));
    part.encode(&mut out)?;
    Ok(out.into_inner())
}

// Whether the part's text is this, written again if an allocation failed.
fn has_text(alloc: Global, part: &Part, text: &[u8]) -> Result<bool, Refusal> {
    let found = match text_of(alloc, part) {
        Err(_) => text_of(alloc, part)?,
        Ok(found) => found,
    };
    Ok(found.as_slice() == text)
}

// Whether the store's file of this number has this text.
fn is_file(alloc: Global, world: &World, number: u32, text: &[u8]) -> Result<bool, Refusal> {
    match world.file(FileNo(number)) {
        Some(part) => has_text(alloc, part, text),
        None => Ok(false),
    }
}

// The first of the files that has another text, or 0.
fn first_wrong_file(alloc: Global, world: &World, files: &[StoredFile]) -> Result<u32, Refusal> {
    for file in files {
        if !is_file(alloc, world, file.0, file.1)? {
            return Ok(file.0);
        }
    }
    Ok(0)
}

/// What comes of rows: the first wrong answer, whether the store is correct then, and the first wrong file, or 0.
pub(crate) type Ended = (Option<(usize, Told)>, bool, u32);

/// Everything is correct.
pub(crate) const RIGHT: Ended = (None, true, 0);

/// Asks the rows of the store; what comes of them and of these files.
pub(crate) fn ended(
    alloc: Global,
    world: &mut World,
    rows: &[(Ask, Told)],
    files: &[StoredFile],
) -> Result<Ended, Refusal> {
    let wrong = first_wrong(alloc, world, rows);
    let is_right = is_right(world)?;
    Ok((wrong, is_right, first_wrong_file(alloc, world, files)?))
}

// Three points, one commit before each, and joins of their files.
const THREE_POINTS: [(Ask, Told); 33] = [
    (Ask::Begin(1), Told::Begun(1)),
    (Ask::Put(1, A, ONE), Told::Ok),
    (Ask::Put(1, B, ONE), Told::Ok),
    (Ask::Commit(1), Told::Committed(1)),
    (Ask::StartPoint, Told::Phase(Phase::Prepare, 1)),
    (Ask::Seal, Told::Phase(Phase::Resolve, 1)),
    (Ask::OpenCapture, Told::Phase(Phase::Capture, 1)),
    (Ask::Take, Told::Took(b'a', b'1')),
    (Ask::Take, Told::Took(b'b', b'1')),
    (Ask::Done, Told::PartDone(1, 1, 2)),
    (Ask::Rest, Told::Phase(Phase::Rest, 1)),
    (Ask::Begin(1), Told::Begun(2)),
    (Ask::Put(1, A, TWO), Told::Ok),
    (Ask::Commit(1), Told::Committed(7)),
    (Ask::StartPoint, Told::Phase(Phase::Prepare, 2)),
    (Ask::Seal, Told::Phase(Phase::Resolve, 2)),
    (Ask::OpenCapture, Told::Phase(Phase::Capture, 2)),
    (Ask::Take, Told::Took(b'a', b'2')),
    (Ask::Done, Told::PartDone(2, 2, 1)),
    (Ask::Rest, Told::Phase(Phase::Rest, 2)),
    (Ask::Begin(1), Told::Begun(3)),
    (Ask::Put(1, B, THREE), Told::Ok),
    (Ask::Commit(1), Told::Committed(13)),
    (Ask::StartPoint, Told::Phase(Phase::Prepare, 3)),
    (Ask::Seal, Told::Phase(Phase::Resolve, 3)),
    (Ask::OpenCapture, Told::Phase(Phase::Capture, 3)),
    (Ask::Take, Told::Took(b'b', b'3')),
    (Ask::Done, Told::PartDone(3, 3, 1)),
    (Ask::Rest, Told::Phase(Phase::Rest, 3)),
    (Ask::Join(1, 2), Told::File(4, 12, 2)),
    (Ask::Join(4, 3), Told::File(5, 123, 2)),
    (Ask::Join(3, 1), Told::File(6, 13, 2)),
    (Ask::Join(6, 2), Told::File(7, 123, 2)),
];

// The file of the three points.
const THREE_FILE: [u8; 140] = *b"PCALCP02\
    \x00\x00\x00\x00\x00\x00\x00\x01\
    \x00\x00\x00\x01\x00\x00\x00\x01\x00\x00\x00\x03\
    \x00\x14\x00\x00a word of 20 letters\x00\x00\x00\x02\x01\x00\x00\x00\x142 word of 20 letters\
    \x00\x14\x00\x00b word of 20 letters\x00\x00\x00\x03\x01\x00\x00\x00\x143 word of 20 letters\
    \x00\x00\x00\x00\x00\x02";

const THREE_FILES: [StoredFile; 2] = [(5, &THREE_FILE), (7, &THREE_FILE)];

fn three_points(alloc: Global, seed: RandomState) -> Result<Ended, Refusal> {
    let mut world = world_again(alloc, seed, None, 1)?;
    ended(alloc, &mut world, &THREE_POINTS, &THREE_FILES)
}

// Whichever growth is refused, asked again the store answers as with ample memory, then and later, and its files are the
// same: the refused event used up no number.
#[test]
fn a_store_answers_the_same_at_each_refused_growth(rt: HostRuntime) -> Result<(), Fail> {
    let seed = RandomState::new(&rt)?;
    assert_eq!(rt; three_points(rt.alloc(), seed)?, RIGHT);
    Ok(())
}

// The first point, concurrently with a commit that it waits for, one that comes after it, a death, and aborts of writers of
// keys that are left to take.
const FIRST_POINT: [(Ask, Told); 32] = [
    (Ask::Begin(1), Told::Begun(1)),
    (Ask::Put(1, A, ONE), Told::Ok),
    (Ask::Put(1, B, ONE), Told::Ok),
    (Ask::Commit(1), Told::Committed(1)),
    (Ask::Begin(1), Told::Begun(2)),
    (Ask::Put(1, A, TWO), Told::Ok),
    (Ask::StartPoint, Told::Phase(Phase::Prepare, 1)),
    (Ask::Begin(2), Told::Begun(3)),
    (Ask::Del(2, B), Told::Ok),
    (Ask::Seal, Told::NotYet(1)),
    (Ask::Commit(1), Told::Committed(3)),
    (Ask::Seal, Told::Phase(Phase::Resolve, 1)),
    (Ask::Begin(3), Told::Begun(4)),
    (Ask::Put(3, A, ONE), Told::Ok),
    (Ask::Get(3, B), Told::Died),
    (Ask::Abort(3), Told::Aborted),
    (Ask::Begin(3), Told::Begun(5)),
    (Ask::Put(3, A, THREE), Told::Ok),
    (Ask::OpenCapture, Told::NotYet(1)),
    (Ask::Commit(2), Told::Committed(5)),
    (Ask::OpenCapture, Told::Phase(Phase::Capture, 1)),
    (Ask::Take, Told::Took(b'a', b'2')),
    (Ask::Commit(3), Told::Committed(7)),
    (Ask::Begin(1), Told::Begun(6)),
    (Ask::Put(1, B, THREE), Told::Ok),
    (Ask::Done, Told::NotYet(1)),
    (Ask::Abort(1), Told::Aborted),
    (Ask::Take, Told::Took(b'b', b'1')),
    (Ask::Take, Told::NoneLeft),
    (Ask::Done, Told::PartDone(1, 1, 2)),
    (Ask::Begin(2), Told::Begun(7)),
    (Ask::Rest, Told::Phase(Phase::Rest, 1)),
];

// The second point has what was committed since the seal of the first, in the order of those commits.
const SECOND_POINT: [(Ask, Told); 17] = [
    (Ask::Get(2, A), Told::Found(20)),
    (Ask::Get(2, B), Told::Absent),
    (Ask::StartPoint, Told::Phase(Phase::Prepare, 2)),
    (Ask::Commit(2), Told::Committed(11)),
    (Ask::Begin(1), Told::Begun(8)),
    (Ask::Put(1, B, ONE), Told::Ok),
    (Ask::Seal, Told::Phase(Phase::Resolve, 2)),
    (Ask::Commit(1), Told::Committed(13)),
    (Ask::OpenCapture, Told::Phase(Phase::Capture, 2)),
    (Ask::Take, Told::Took(b'b', 0)),
    (Ask::Take, Told::Took(b'a', b'3')),
    (Ask::Done, Told::PartDone(2, 2, 2)),
    (Ask::Join(1, 2), Told::File(3, 12, 2)),
    (Ask::Join(3, 1), Told::File(4, 12, 2)),
    (Ask::Rest, Told::Phase(Phase::Rest, 2)),
    (Ask::Begin(1), Told::Begun(9)),
    (Ask::Get(1, B), Told::Found(20)),
];

// The file of the first point.
const FIRST_FILE: [u8; 140] = *b"PCALCP02\
    \x00\x00\x00\x00\x00\x00\x00\x01\
    \x00\x00\x00\x01\x00\x00\x00\x01\x00\x00\x00\x01\
    \x00\x14\x00\x00a word of 20 letters\x00\x00\x00\x01\x01\x00\x00\x00\x142 word of 20 letters\
    \x00\x14\x00\x00b word of 20 letters\x00\x00\x00\x01\x01\x00\x00\x00\x141 word of 20 letters\
    \x00\x00\x00\x00\x00\x02";

// That of both points, in which the second key is deleted.
const BOTH_FILE: [u8; 116] = *b"PCALCP02\
    \x00\x00\x00\x00\x00\x00\x00\x01\
    \x00\x00\x00\x01\x00\x00\x00\x01\x00\x00\x00\x02\
    \x00\x14\x00\x00a word of 20 letters\x00\x00\x00\x02\x01\x00\x00\x00\x143 word of 20 letters\
    \x00\x14\x00\x00b word of 20 letters\x00\x00\x00\x02\x00\
    \x00\x00\x00\x00\x00\x02";

const BOTH_FILES: [StoredFile; 3] = [(1, &FIRST_FILE), (3, &BOTH_FILE), (4, &BOTH_FILE)];

// What comes of the first point, if that is wrong, or else of the second.
fn both_points(alloc: Global, world: &mut World) -> Result<Ended, Refusal> {
    let first = ended(alloc, world, &FIRST_POINT, &[])?;
    if first != RIGHT {
        return Ok(first);
    }
    ended(alloc, world, &SECOND_POINT, &BOTH_FILES)
}

fn two_points(alloc: Global, seed: RandomState) -> Result<Ended, Refusal> {
    let mut world = world_again(alloc, seed, None, 3)?;
    both_points(alloc, &mut world)
}

// Whichever growth is refused, asked again the store answers as with ample memory, then and later, and its files are the
// same bytes; an abort needs none and isn't asked again.
#[test]
fn points_are_the_same_at_each_refused_growth(rt: HostRuntime) -> Result<(), Fail> {
    let seed = RandomState::new(&rt)?;
    assert_eq!(rt; two_points(rt.alloc(), seed)?, RIGHT);
    Ok(())
}

// Adds of two transactions, of one that dies, and of two that commit after the point, the later one first.
const ADDS: [(Ask, Told); 35] = [
    (Ask::Begin(1), Told::Begun(1)),
    (Ask::Add(1, A, 5), Told::Sum(5)),
    (Ask::Add(1, B, -1), Told::Sum(-1)),
    (Ask::Add(1, A, -7), Told::Sum(-2)),
    (Ask::Get(1, A), Told::Found(8)),
    (Ask::Commit(1), Told::Committed(1)),
    (Ask::Begin(1), Told::Begun(2)),
    (Ask::Put(1, B, ONE), Told::Ok),
    (Ask::Add(1, B, 1), Told::Refused(Refusal::NotNumber)),
    (Ask::Add(1, A, i64::MIN), Told::Refused(Refusal::OutOfRange)),
    (Ask::Add(1, A, 3), Told::Sum(1)),
    (Ask::StartPoint, Told::Phase(Phase::Prepare, 1)),
    (Ask::Begin(2), Told::Begun(3)),
    (Ask::Add(2, A, 1), Told::Died),
    (Ask::Abort(2), Told::Aborted),
    (Ask::Seal, Told::NotYet(1)),
    (Ask::Commit(1), Told::Committed(3)),
    (Ask::Begin(2), Told::Begun(4)),
    (Ask::Del(2, B), Told::Ok),
    (Ask::Add(2, B, 9), Told::Sum(9)),
    (Ask::Seal, Told::Phase(Phase::Resolve, 1)),
    (Ask::Begin(3), Told::Begun(5)),
    (Ask::Add(3, A, 100), Told::Sum(101)),
    (Ask::Commit(3), Told::Committed(5)),
    (Ask::Add(2, A, 10), Told::Sum(111)),
    (Ask::OpenCapture, Told::NotYet(1)),
    (Ask::Commit(2), Told::Committed(6)),
    (Ask::OpenCapture, Told::Phase(Phase::Capture, 1)),
    (Ask::Take, Told::Took(b'a', 0)),
    (Ask::Take, Told::Took(b'b', b'1')),
    (Ask::Take, Told::NoneLeft),
    (Ask::Done, Told::PartDone(1, 1, 2)),
    (Ask::Begin(1), Told::Begun(6)),
    (Ask::Add(1, A, 0), Told::Sum(111)),
    (Ask::Add(1, B, 0), Told::Sum(9)),
];

// The file of that point.
const ADDED_FILE: [u8; 128] = *b"PCALCP02\
    \x00\x00\x00\x00\x00\x00\x00\x01\
    \x00\x00\x00\x01\x00\x00\x00\x01\x00\x00\x00\x01\
    \x00\x14\x00\x00a word of 20 letters\x00\x00\x00\x01\x01\x00\x00\x00\x08\x00\x00\x00\x00\x00\x00\x00\x01\
    \x00\x14\x00\x00b word of 20 letters\x00\x00\x00\x01\x01\x00\x00\x00\x141 word of 20 letters\
    \x00\x00\x00\x00\x00\x02";

fn adds(alloc: Global, seed: RandomState) -> Result<Ended, Refusal> {
    let mut world = world_again(alloc, seed, None, 3)?;
    ended(alloc, &mut world, &ADDS, &[(1, &ADDED_FILE)])
}

// Whichever growth is refused, asked again the store answers as with ample memory, then and later, and no add is made twice.
#[test]
fn adds_are_the_same_at_each_refused_growth(rt: HostRuntime) -> Result<(), Fail> {
    let seed = RandomState::new(&rt)?;
    assert_eq!(rt; adds(rt.alloc(), seed)?, RIGHT);
    Ok(())
}

const LONG_K: &[u8] = b"k is a key that does not lie inline";

const LONG_L: &[u8] = b"l is a key that does not lie inline";

const LONG_FIRST: &[u8] = b"a first value that does not lie inline";

const LONG_SECOND: &[u8] = b"a second value that does not lie inline";

// Waits, deaths and aborts of three sessions over two such keys.
const LONG_ROWS: [(Ask, Told); 31] = [
    (Ask::Begin(1), Told::Begun(1)),
    (Ask::Begin(2), Told::Begun(2)),
    (Ask::Begin(3), Told::Begun(3)),
    (Ask::Put(3, LONG_K, LONG_FIRST), Told::Ok),
    (Ask::Get(2, LONG_K), Told::Wait),
    (Ask::Put(1, LONG_K, LONG_SECOND), Told::Wait),
    (Ask::Put(3, LONG_L, LONG_FIRST), Told::Ok),
    (Ask::Get(3, b"another key"), Told::Refused(Refusal::Full)),
    (Ask::Commit(3), Told::Committed(1)),
    (Ask::Get(2, LONG_K), Told::Found(38)),
    (Ask::Begin(3), Told::Begun(4)),
    (Ask::Put(3, LONG_K, LONG_SECOND), Told::Died),
    (
        Ask::Put(3, LONG_K, LONG_SECOND),
        Told::Refused(Refusal::MustAbort),
    ),
    (Ask::Get(2, LONG_L), Told::Found(38)),
    (Ask::Del(2, LONG_L), Told::Ok),
    (Ask::Abort(3), Told::Aborted),
    (Ask::Abort(2), Told::Aborted),
    (Ask::Put(1, LONG_K, LONG_SECOND), Told::Ok),
    (Ask::Del(1, LONG_L), Told::Ok),
    (Ask::Begin(2), Told::Begun(5)),
    (Ask::Get(2, LONG_L), Told::Died),
    (Ask::Commit(1), Told::Committed(2)),
    (Ask::Abort(2), Told::Aborted),
    (Ask::Begin(2), Told::Begun(6)),
    (Ask::Get(2, LONG_K), Told::Found(39)),
    (Ask::Get(2, LONG_L), Told::Absent),
    (Ask::Put(2, LONG_L, LONG_FIRST), Told::Ok),
    (Ask::Put(2, LONG_K, LONG_FIRST), Told::Ok),
    (Ask::Abort(2), Told::Aborted),
    (Ask::StartPoint, Told::Phase(Phase::Prepare, 1)),
    (Ask::Seal, Told::Phase(Phase::Resolve, 1)),
];

// The pair that the store starts from.
const LONG_PAIR: Option<Pair> = Some((LONG_K, b"5"));

fn waits_and_deaths(alloc: Global, seed: RandomState) -> Result<Ended, Refusal> {
    let mut world = world_again(alloc, seed, LONG_PAIR, 3)?;
    ended(alloc, &mut world, &LONG_ROWS, &[])
}

// Whichever growth is refused, asked again the store answers as with ample memory, then and later; an abort needs none and
// isn't asked again.
#[test]
fn sessions_wait_and_die_the_same_at_each_refused_growth(rt: HostRuntime) -> Result<(), Fail> {
    let seed = RandomState::new(&rt)?;
    assert_eq!(rt; waits_and_deaths(rt.alloc(), seed)?, RIGHT);
    Ok(())
}
