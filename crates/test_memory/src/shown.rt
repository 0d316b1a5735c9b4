//! What a store shows besides its answers.

use crate::asked::{Told, answer, first_wrong, tell};
use crate::worlds::new_world;
use Phase::{Capture, Prepare, Resolve};
use pc_bases::Base;
use pc_engine::{World, run};
use pc_types::{FileNo, Phase, Refusal, Reply};
use std::alloc::Global;
use std::hash::RandomState;
use std::test::Fail;
use test_support::{Ask, Pair, are_pairs, events_of};

// The number of replies, and the content of the second one.
fn second_told(replies: &[Reply]) -> (usize, Told) {
    match replies.get(1) {
        Some(reply) => (replies.len(), tell(reply)),
        None => (replies.len(), Told::Unasked),
    }
}

// The replies to two events, by a run over both.
fn told_by_run(alloc: Global, seed: RandomState) -> Result<(usize, Told), Refusal> {
    let events = events_of(alloc, &[Ask::Begin(1), Ask::Commit(1)])?;
    let base = Base::start(1, Vec::new(alloc));
    let (_, replies) = run(alloc, base, 1, 1024, seed, &events)?;
    Ok(second_told(&replies))
}

#[test]
fn runs_to_the_end(rt: HostRuntime) -> Result<(), Fail> {
    let seed = RandomState::new(&rt)?;
    assert_eq!(rt; told_by_run(rt.alloc(), seed)?, (2, Told::Committed(1)));
    Ok(())
}

// The pair that a store of one session starts from.
const PAIR: Option<Pair> = Some((b"b", b"1"));

const ONE_PAIR: [Pair; 1] = [(b"b", b"1")];

const TWO_PAIRS: [Pair; 2] = [(b"a", b"2"), (b"b", b"1")];

// Whether the store has a file of this number, and hands it out.
fn is_handed_out(world: &World, number: FileNo) -> bool {
    match world.hand_out(number) {
        Ok(_) => world.file(number).is_some(),
        Err(_) => false,
    }
}

// How long the log is, how many files there are, and how many of the numbers 0 to 3 have a file that is handed out.
fn shown(world: &World) -> (usize, usize, usize) {
    let mut found = 0usize;
    for number in 0..4u32 {
        if is_handed_out(world, FileNo(number)) {
            found = found.wrapping_add(1);
        }
    }
    (world.log().len(), world.files().len(), found)
}

// Whether these pairs are committed, and the base is as it was.
fn is_committed(world: &World, pairs: &[Pair]) -> Result<bool, Refusal> {
    let committed = world.committed()?;
    let is_base = world.base().run() == 7 && are_pairs(world.base().pairs(), &ONE_PAIR);
    Ok(is_base && are_pairs(&committed, pairs))
}

// An event, its reply, and the log's length, the number of files and the committed pairs then.
type ShownRow = (Ask<'static>, Told, usize, usize, &'static [Pair]);

const ROWS: [ShownRow; 9] = [
    (Ask::Begin(1), Told::Begun(1), 0, 0, &ONE_PAIR),
    (Ask::Put(1, b"a", b"2"), Told::Ok, 0, 0, &ONE_PAIR),
    (Ask::Commit(1), Told::Committed(1), 1, 0, &TWO_PAIRS),
    (Ask::StartPoint, Told::Phase(Prepare, 1), 2, 0, &TWO_PAIRS),
    (Ask::Seal, Told::Phase(Resolve, 1), 3, 0, &TWO_PAIRS),
    (Ask::OpenCapture, Told::Phase(Capture, 1), 4, 0, &TWO_PAIRS),
    (Ask::Take, Told::Took(b'a', b'2'), 4, 0, &TWO_PAIRS),
    (Ask::Done, Told::PartDone(1, 1, 1), 5, 1, &TWO_PAIRS),
    (Ask::Join(1, 1), Told::File(2, 1, 1), 5, 2, &TWO_PAIRS),
];

fn is_shown(alloc: Global, world: &mut World, row: &ShownRow) -> Result<bool, Refusal> {
    let told = answer(alloc, world, row.0);
    let is_same = told == row.1 && shown(world) == (row.2, row.3, row.3);
    Ok(is_same && is_committed(world, row.4)?)
}

fn first_not_shown(alloc: Global, world: &mut World) -> Result<Option<usize>, Refusal> {
    for (i, row) in ROWS.iter().enumerate() {
        if !is_shown(alloc, world, row)? {
            return Ok(Some(i));
        }
    }
    Ok(None)
}

fn wrong_of_pair(alloc: Global, seed: RandomState) -> Result<Option<usize>, Refusal> {
    let mut world = new_world(alloc, seed, PAIR, 1, 2)?;
    first_not_shown(alloc, &mut world)
}

// The store shows its log, its files and what is committed, and its base as it was.
#[test]
fn shows_what_it_holds(rt: HostRuntime) -> Result<(), Fail> {
    let seed = RandomState::new(&rt)?;
    assert_eq!(rt; wrong_of_pair(rt.alloc(), seed)?, None);
    Ok(())
}

// The number of entries that a file has that was handed out before its store went.
fn entries_of_handed(alloc: Global, seed: RandomState) -> Result<usize, Refusal> {
    let mut world = new_world(alloc, seed, PAIR, 1, 2)?;
    first_not_shown(alloc, &mut world)?;
    let shared = world.hand_out(FileNo(2))?;
    drop(world);
    Ok(shared.part().entries().len())
}

#[test]
fn a_file_outlasts_its_store(rt: HostRuntime) -> Result<(), Fail> {
    let seed = RandomState::new(&rt)?;
    assert_eq!(rt; entries_of_handed(rt.alloc(), seed)?, 1usize);
    Ok(())
}

// The greatest number of a file has more digits than a number in a script.
const GREATEST: [(Ask<'static>, Told); 5] = [
    (Ask::StartPoint, Told::Phase(Prepare, 1)),
    (Ask::Seal, Told::Phase(Resolve, 1)),
    (Ask::OpenCapture, Told::Phase(Capture, 1)),
    (Ask::Done, Told::PartDone(1, 1, 0)),
    (Ask::Join(u32::MAX, 1), Told::Refused(Refusal::NoFile)),
];

fn wrong_of_greatest(alloc: Global, seed: RandomState) -> Result<Option<(usize, Told)>, Refusal> {
    let mut world = new_world(alloc, seed, PAIR, 1, 1)?;
    Ok(first_wrong(alloc, &mut world, &GREATEST))
}

#[test]
fn the_greatest_number_is_no_file(rt: HostRuntime) -> Result<(), Fail> {
    let seed = RandomState::new(&rt)?;
    assert_eq!(rt; wrong_of_greatest(rt.alloc(), seed)?, None);
    Ok(())
}
