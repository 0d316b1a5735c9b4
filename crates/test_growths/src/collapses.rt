//! Parts of three points that are joined by each call.
ghost use Rattle.std.specs.Prelude.{◌≤◌};

use crate::again::again;
use pc_collapse::{collapse_bag, collapse_rounds, fold};
use pc_io::Tally;
use pc_part::{Part, join};
use pc_types::{OpenGate, Refusal};
use std::alloc::Global;
use std::sync::Wait;
use std::test::Fail;
use std::thread::Threads;

// The parts of points 1, 2 and 3 of run 1. In the first `a` of space 0 and `b` of space 7 are a value that takes memory of its
// own, in the second, which is of format 01, `a` is another one, and in the third `b` is gone.
pub(crate) const TEXTS: [&[u8]; 3] = [
    b"PCALCP02\
    \x00\x00\x00\x00\x00\x00\x00\x01\
    \x00\x00\x00\x01\x00\x00\x00\x01\x00\x00\x00\x01\
    \x00\x01\x00\x00a\x00\x00\x00\x01\x01\x00\x00\x00\x12one of 18 letters.\
    \x00\x01\x00\x07b\x00\x00\x00\x01\x01\x00\x00\x00\x12one of 18 letters.\
    \x00\x00\x00\x00\x00\x02",
    b"PCALCP01\
    \x00\x00\x00\x00\x00\x00\x00\x01\
    \x00\x00\x00\x01\x00\x00\x00\x02\x00\x00\x00\x02\
    \x00\x01a\x00\x00\x00\x02\x01\x00\x00\x00\x12two of 18 letters.\
    \x00\x00\x00\x00\x00\x01",
    b"PCALCP02\
    \x00\x00\x00\x00\x00\x00\x00\x01\
    \x00\x00\x00\x01\x00\x00\x00\x03\x00\x00\x00\x03\
    \x00\x01\x00\x07b\x00\x00\x00\x03\x00\
    \x00\x00\x00\x00\x00\x01",
];

pub(crate) const JOINED: &[u8] = b"PCALCP02\
    \x00\x00\x00\x00\x00\x00\x00\x01\
    \x00\x00\x00\x01\x00\x00\x00\x01\x00\x00\x00\x03\
    \x00\x01\x00\x00a\x00\x00\x00\x02\x01\x00\x00\x00\x12two of 18 letters.\
    \x00\x01\x00\x07b\x00\x00\x00\x03\x00\
    \x00\x00\x00\x00\x00\x02";

// The parts of point 1, at which `a` was `1` and `b` was `9`, and of points 1 to 3, after which `a` is `2` and `b` is gone.
const WORKED: [&[u8]; 2] = [
    b"PCALCP02\
    \x00\x00\x00\x00\x00\x00\x00\x01\
    \x00\x00\x00\x01\x00\x00\x00\x01\x00\x00\x00\x01\
    \x00\x01\x00\x00a\x00\x00\x00\x01\x01\x00\x00\x00\x011\
    \x00\x01\x00\x00b\x00\x00\x00\x01\x01\x00\x00\x00\x019\
    \x00\x00\x00\x00\x00\x02",
    b"PCALCP02\
    \x00\x00\x00\x00\x00\x00\x00\x01\
    \x00\x00\x00\x01\x00\x00\x00\x01\x00\x00\x00\x03\
    \x00\x01\x00\x00a\x00\x00\x00\x02\x01\x00\x00\x00\x012\
    \x00\x01\x00\x00b\x00\x00\x00\x03\x00\
    \x00\x00\x00\x00\x00\x02",
];

// By which call parts are joined.
#[derive(Clone, Copy, Debug)]
enum Call {
    Join,
    Fold,
    Rounds,
    Bag,
}

const CALLS: [Call; 4] = [Call::Join, Call::Fold, Call::Rounds, Call::Bag];

// On how many threads.
const COLLAPSERS: u8 = 2;

fn parts(alloc: Global, texts: &[&[u8]]) -> Result<Vec<Part>, Refusal> {
    let mut parts = Vec::new(alloc);
    for text in texts {
        parts.push(Part::decode(alloc, text)?)?;
    }
    Ok(parts)
}

fn join_by<R: Threads + Wait + Sync>(
    rt: &R,
    alloc: Global,
    call: Call,
    parts: &[Part],
) -> Result<Part, Refusal> {
    match call {
        Call::Join => join_in_turn(alloc, parts),
        Call::Fold => fold(alloc, parts),
        Call::Rounds => collapse_rounds(rt, alloc, parts, COLLAPSERS, &OpenGate),
        Call::Bag => collapse_bag(rt, alloc, parts, COLLAPSERS, &OpenGate),
    }
}

// The first two are joined, then each further one with that.
fn join_in_turn(alloc: Global, parts: &[Part]) -> Result<Part, Refusal> {
    let (Some(first), Some(second)) = (parts.first(), parts.get(1)) else {
        return Err(Refusal::NoFile);
    };
    let mut joined = join(alloc, first, second)?;
    for part in parts.iter().skip(2) {
        joined = join(alloc, &joined, part)?;
    }
    Ok(joined)
}

fn has_text(alloc: Global, part: &Part, text: &[u8]) -> Result<bool, Refusal> {
    let mut out = Tally::new(Vec::new(alloc));
    part.encode(&mut out)?;
    Ok(out.into_inner().as_slice() == text)
}

// Whether each call gives this join of these texts.
fn all_join<R: Threads + Wait + Sync>(
    rt: &R,
    alloc: Global,
    texts: &[&[u8]],
    wanted: &[u8],
) -> Result<bool, Refusal> {
    let parts = again(|| parts(alloc, texts))?;
    for call in CALLS {
        let joined = again(|| join_by(rt, alloc, call, &parts))?;
        // An output in memory that can't grow is a device that fails.
        let is_right = match has_text(alloc, &joined, wanted) {
            Ok(is_right) => is_right,
            Err(_) => has_text(alloc, &joined, wanted)?,
        };
        if !is_right {
            return Ok(false);
        }
    }
    Ok(true)
}

// Whichever growth is refused, and on whichever thread, the same call made again gives the join: the parts stay as they were.
#[test]
fn all_join_the_same_at_each_refused_growth(rt: HostRuntime) -> Result<(), Fail> {
    assert!(rt; all_join(&rt, rt.alloc(), &TEXTS, JOINED)?);
    Ok(())
}

// The second of these files has all that the join has.
#[test]
fn worked_files_join_the_same_at_each_refused_growth(rt: HostRuntime) -> Result<(), Fail> {
    assert!(rt; all_join(&rt, rt.alloc(), &WORKED, WORKED[1])?);
    Ok(())
}
