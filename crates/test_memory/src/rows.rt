//! Histories of the worked examples, with their own short keys and values: what `test_scripts` has of them, with growths refused.

use crate::asked::Told;
use crate::stores::{Ended, RIGHT, StoredFile, ended};
use crate::worlds::world_again;
use pc_types::{Phase, Refusal};
use std::alloc::Global;
use std::hash::RandomState;
use std::test::Fail;
use test_support::{Ask, Pair};

// What comes of such a history of at most three sessions, from this pair or from none, and of the files that it leaves.
fn replayed(
    alloc: Global,
    seed: RandomState,
    pair: Option<Pair>,
    rows: &[(Ask, Told)],
    files: &[StoredFile],
) -> Result<Ended, Refusal> {
    let mut world = world_again(alloc, seed, pair, 3)?;
    ended(alloc, &mut world, rows, files)
}

// A transaction that began before the point's seal and commits after it, concurrently with one that commits before it.
const COMMIT_BEHIND: [(Ask, Told); 18] = [
    (Ask::Begin(1), Told::Begun(1)),
    (Ask::Put(1, b"a", b"1"), Told::Ok),
    (Ask::Commit(1), Told::Committed(1)),
    (Ask::StartPoint, Told::Phase(Phase::Prepare, 1)),
    (Ask::Begin(1), Told::Begun(2)),
    (Ask::Put(1, b"a", b"2"), Told::Ok),
    (Ask::Begin(2), Told::Begun(3)),
    (Ask::Put(2, b"b", b"9"), Told::Ok),
    (Ask::Commit(2), Told::Committed(3)),
    (Ask::Seal, Told::Phase(Phase::Resolve, 1)),
    (Ask::Commit(1), Told::Committed(5)),
    (Ask::OpenCapture, Told::Phase(Phase::Capture, 1)),
    (Ask::Take, Told::Took(b'a', b'1')),
    (Ask::Take, Told::Took(b'b', b'9')),
    (Ask::Take, Told::NoneLeft),
    (Ask::Take, Told::NoneLeft),
    (Ask::Done, Told::PartDone(1, 1, 2)),
    (Ask::Rest, Told::Phase(Phase::Rest, 1)),
];

// The file of the point.
const OF_THE_POINT: [u8; 64] = *b"PCALCP02\
    \x00\x00\x00\x00\x00\x00\x00\x01\
    \x00\x00\x00\x01\x00\x00\x00\x01\x00\x00\x00\x01\
    \x00\x01\x00\x00a\x00\x00\x00\x01\x01\x00\x00\x00\x011\x00\x01\x00\x00b\x00\x00\x00\x01\x01\x00\x00\x00\x019\x00\x00\x00\x00\x00\x02";

#[test]
fn a_commit_behind_the_point_is_the_same_at_each_refused_growth(
    rt: HostRuntime,
) -> Result<(), Fail> {
    let seed = RandomState::new(&rt)?;
    let ended = replayed(
        rt.alloc(),
        seed,
        None,
        &COMMIT_BEHIND,
        &[(1, &OF_THE_POINT)],
    )?;
    assert_eq!(rt; ended, RIGHT);
    Ok(())
}

// Three points, of which the last has a deletion, and their files joined in several orders.
const THREE_IN_MANY_ORDERS: [(Ask, Told); 39] = [
    (Ask::Begin(1), Told::Begun(1)),
    (Ask::Put(1, b"a", b"1"), Told::Ok),
    (Ask::Put(1, b"b", b"1"), Told::Ok),
    (Ask::Commit(1), Told::Committed(1)),
    (Ask::StartPoint, Told::Phase(Phase::Prepare, 1)),
    (Ask::Seal, Told::Phase(Phase::Resolve, 1)),
    (Ask::OpenCapture, Told::Phase(Phase::Capture, 1)),
    (Ask::Take, Told::Took(b'a', b'1')),
    (Ask::Take, Told::Took(b'b', b'1')),
    (Ask::Done, Told::PartDone(1, 1, 2)),
    (Ask::Rest, Told::Phase(Phase::Rest, 1)),
    (Ask::Begin(1), Told::Begun(2)),
    (Ask::Put(1, b"a", b"2"), Told::Ok),
    (Ask::Commit(1), Told::Committed(7)),
    (Ask::StartPoint, Told::Phase(Phase::Prepare, 2)),
    (Ask::Seal, Told::Phase(Phase::Resolve, 2)),
    (Ask::OpenCapture, Told::Phase(Phase::Capture, 2)),
    (Ask::Take, Told::Took(b'a', b'2')),
    (Ask::Done, Told::PartDone(2, 2, 1)),
    (Ask::Rest, Told::Phase(Phase::Rest, 2)),
    (Ask::Begin(1), Told::Begun(3)),
    (Ask::Del(1, b"b"), Told::Ok),
    (Ask::Commit(1), Told::Committed(13)),
    (Ask::StartPoint, Told::Phase(Phase::Prepare, 3)),
    (Ask::Seal, Told::Phase(Phase::Resolve, 3)),
    (Ask::OpenCapture, Told::Phase(Phase::Capture, 3)),
    (Ask::Take, Told::Took(b'b', 0)),
    (Ask::Done, Told::PartDone(3, 3, 1)),
    (Ask::Rest, Told::Phase(Phase::Rest, 3)),
    (Ask::Join(1, 2), Told::File(4, 12, 2)),
    (Ask::Join(4, 3), Told::File(5, 123, 2)),
    (Ask::Join(2, 1), Told::File(6, 12, 2)),
    (Ask::Join(3, 6), Told::File(7, 123, 2)),
    (Ask::Join(1, 1), Told::File(8, 1, 2)),
    (Ask::Join(8, 2), Told::File(9, 12, 2)),
    (Ask::Join(9, 3), Told::File(10, 123, 2)),
    (Ask::Join(10, 3), Told::File(11, 123, 2)),
    (Ask::Join(1, 3), Told::File(12, 13, 2)),
    (Ask::Join(1, 99), Told::Refused(Refusal::NoFile)),
];

// The file of all three.
const OF_THREE_POINTS: [u8; 59] = *b"PCALCP02\
    \x00\x00\x00\x00\x00\x00\x00\x01\
    \x00\x00\x00\x01\x00\x00\x00\x01\x00\x00\x00\x03\
    \x00\x01\x00\x00a\x00\x00\x00\x02\x01\x00\x00\x00\x012\x00\x01\x00\x00b\x00\x00\x00\x03\x00\x00\x00\x00\x00\x00\x02";

const OF_MANY_ORDERS: [StoredFile; 4] = [
    (5, &OF_THREE_POINTS),
    (7, &OF_THREE_POINTS),
    (10, &OF_THREE_POINTS),
    (11, &OF_THREE_POINTS),
];

#[test]
fn joins_in_many_orders_are_the_same_at_each_refused_growth(rt: HostRuntime) -> Result<(), Fail> {
    let seed = RandomState::new(&rt)?;
    let ended = replayed(
        rt.alloc(),
        seed,
        None,
        &THREE_IN_MANY_ORDERS,
        &OF_MANY_ORDERS,
    )?;
    assert_eq!(rt; ended, RIGHT);
    Ok(())
}

// An older transaction waits for a younger one's lock.
const OLDER_WAITS: [(Ask, Told); 8] = [
    (Ask::Begin(1), Told::Begun(1)),
    (Ask::Begin(2), Told::Begun(2)),
    (Ask::Put(2, b"k", b"6"), Told::Ok),
    (Ask::Get(1, b"k"), Told::Wait),
    (Ask::Get(1, b"k"), Told::Refused(Refusal::StillWaiting)),
    (Ask::Commit(2), Told::Committed(1)),
    (Ask::Get(1, b"k"), Told::Found(1)),
    (Ask::Commit(1), Told::Committed(2)),
];

#[test]
fn an_older_transaction_is_the_same_at_each_refused_growth(rt: HostRuntime) -> Result<(), Fail> {
    let seed = RandomState::new(&rt)?;
    let ended = replayed(rt.alloc(), seed, Some((b"k", b"5")), &OLDER_WAITS, &[])?;
    assert_eq!(rt; ended, RIGHT);
    Ok(())
}

// A younger transaction dies of an older one's lock.
const YOUNGER_DIES: [(Ask, Told); 8] = [
    (Ask::Begin(1), Told::Begun(1)),
    (Ask::Begin(2), Told::Begun(2)),
    (Ask::Put(1, b"k", b"6"), Told::Ok),
    (Ask::Get(2, b"k"), Told::Died),
    (Ask::Get(2, b"k"), Told::Refused(Refusal::MustAbort)),
    (Ask::Commit(2), Told::Refused(Refusal::MustAbort)),
    (Ask::Abort(2), Told::Aborted),
    (Ask::Commit(1), Told::Committed(1)),
];

#[test]
fn a_younger_transaction_is_the_same_at_each_refused_growth(rt: HostRuntime) -> Result<(), Fail> {
    let seed = RandomState::new(&rt)?;
    let ended = replayed(rt.alloc(), seed, Some((b"k", b"5")), &YOUNGER_DIES, &[])?;
    assert_eq!(rt; ended, RIGHT);
    Ok(())
}

// Commits in resolve, which are of the next point.
const COMMIT_IN_RESOLVE: [(Ask, Told); 19] = [
    (Ask::StartPoint, Told::Phase(Phase::Prepare, 1)),
    (Ask::Begin(1), Told::Begun(1)),
    (Ask::Seal, Told::Phase(Phase::Resolve, 1)),
    (Ask::Begin(2), Told::Begun(2)),
    (Ask::Put(2, b"k", b"3"), Told::Ok),
    (Ask::Commit(2), Told::Committed(3)),
    (Ask::Put(1, b"k", b"4"), Told::Ok),
    (Ask::OpenCapture, Told::NotYet(1)),
    (Ask::Commit(1), Told::Committed(4)),
    (Ask::OpenCapture, Told::Phase(Phase::Capture, 1)),
    (Ask::Take, Told::NoneLeft),
    (Ask::Done, Told::PartDone(1, 1, 0)),
    (Ask::Rest, Told::Phase(Phase::Rest, 1)),
    (Ask::StartPoint, Told::Phase(Phase::Prepare, 2)),
    (Ask::Seal, Told::Phase(Phase::Resolve, 2)),
    (Ask::OpenCapture, Told::Phase(Phase::Capture, 2)),
    (Ask::Take, Told::Took(b'k', b'4')),
    (Ask::Done, Told::PartDone(2, 2, 1)),
    (Ask::Join(1, 2), Told::File(3, 12, 1)),
];

// The file of both points.
const OF_TWO_POINTS: [u8; 49] = *b"PCALCP02\
    \x00\x00\x00\x00\x00\x00\x00\x01\
    \x00\x00\x00\x01\x00\x00\x00\x01\x00\x00\x00\x02\
    \x00\x01\x00\x00k\x00\x00\x00\x02\x01\x00\x00\x00\x014\x00\x00\x00\x00\x00\x01";

#[test]
fn a_commit_in_resolve_is_the_same_at_each_refused_growth(rt: HostRuntime) -> Result<(), Fail> {
    let seed = RandomState::new(&rt)?;
    let ended = replayed(
        rt.alloc(),
        seed,
        None,
        &COMMIT_IN_RESOLVE,
        &[(3, &OF_TWO_POINTS)],
    )?;
    assert_eq!(rt; ended, RIGHT);
    Ok(())
}
