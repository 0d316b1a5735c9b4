//! Tests: all calls give the same bytes, collapsers work side by side, and what is refused.
ghost use Rattle.std.specs.Prelude.{◌≤◌};

use pc_collapse::{
    collapse_bag, collapse_bag_owned, collapse_rounds, collapse_rounds_owned, fold, fold_owned,
};
use pc_io::Tally;
use pc_part::Part;
use pc_types::{Gate, GatePlace, OpenGate, Refusal};
use std::alloc::{AllocError, Global};
use std::sync::Wait;
use std::sync::atomic::{AtomicU64, Ordering};
use std::test::Fail;
use std::thread;
use std::thread::Threads;

const POINTS: u8 = 64;

const KEYS: u32 = 1000;

// Adds the start of a part's text.
fn put_head(out: &mut Vec<u8>, run: u64, low: u32, high: u32) -> Result<(), AllocError> {
    out.extend_from_slice(b"PCALCP02")?;
    out.extend_from_slice(&run.to_be_bytes())?;
    out.extend_from_slice(&[0, 0, 0, 1])?;
    out.extend_from_slice(&low.to_be_bytes())?;
    out.extend_from_slice(&high.to_be_bytes())
}

// Adds an entry: a key of four bytes of its own in space 0, and a value of one.
fn put_entry(out: &mut Vec<u8>, key: u32, point: u32, value: u8) -> Result<(), AllocError> {
    out.extend_from_slice(&[0, 4, 0, 0])?;
    out.extend_from_slice(&key.to_be_bytes())?;
    out.extend_from_slice(&point.to_be_bytes())?;
    out.extend_from_slice(&[1, 0, 0, 0, 1, value])
}

// Adds the end of a part's text.
fn put_end(out: &mut Vec<u8>, count: u32) -> Result<(), AllocError> {
    out.extend_from_slice(&[0, 0])?;
    out.extend_from_slice(&count.to_be_bytes())
}

// The part of a point: each third key, from the point's rest on.
fn part_of(alloc: Global, run: u64, point: u32, keys: u32, value: u8) -> Result<Part, Refusal> {
    let mut text = Vec::new(alloc);
    put_head(&mut text, run, point, point)?;
    for number in 0..keys {
        let key = number.wrapping_mul(3).wrapping_add(point % 3);
        put_entry(&mut text, key, point, value)?;
    }
    put_end(&mut text, keys)?;
    Part::decode(alloc, &text)
}

// The parts of the given number of points of a run. The value of a point is its number.
fn parts_of(alloc: Global, points: u8, keys: u32) -> Result<Vec<Part>, Refusal> {
    let mut parts = Vec::new(alloc);
    for number in 0..points {
        let point = number + 1;
        parts.push(part_of(alloc, 1, u32::from(point), keys, point)?)?;
    }
    Ok(parts)
}

// The text of the join of all 64: each key has what the last point of its rest has.
fn joined_text(alloc: Global) -> Result<Vec<u8>, AllocError> {
    let mut text = Vec::new(alloc);
    put_head(&mut text, 1, 1, u32::from(POINTS))?;
    for key in 0..3 * KEYS {
        let point: u8 = match key % 3 {
            0 => 63,
            1 => 64,
            _ => 62,
        };
        put_entry(&mut text, key, u32::from(point), point)?;
    }
    put_end(&mut text, 3 * KEYS)?;
    Ok(text)
}

fn text_of(part: &Part, alloc: Global) -> Result<Vec<u8>, Refusal> {
    let mut out = Tally::new(Vec::new(alloc));
    part.encode(&mut out)?;
    Ok(out.into_inner())
}

// How parts are joined.
#[derive(Clone, Copy, Debug)]
enum CollapseWay {
    Fold,
    Rounds,
    Bag,
}

const CALLS: [CollapseWay; 3] = [CollapseWay::Fold, CollapseWay::Rounds, CollapseWay::Bag];

// The join of parts that stay.
fn join_lent<R: Threads + Wait + Sync>(
    rt: &R,
    alloc: Global,
    call: CollapseWay,
    parts: &[Part],
    workers: u8,
) -> Result<Part, Refusal>
    requires { (1 ≤ workers) × (workers ≤ 64) }
{
    match call {
        CollapseWay::Fold => fold(alloc, parts),
        CollapseWay::Rounds => collapse_rounds(rt, alloc, parts, workers, &OpenGate),
        CollapseWay::Bag => collapse_bag(rt, alloc, parts, workers, &OpenGate),
    }
}

// The join of parts that are handed over.
fn join_owned<R: Threads + Wait + Sync>(
    rt: &R,
    alloc: Global,
    call: CollapseWay,
    parts: Vec<Part>,
    workers: u8,
) -> Result<Part, Refusal>
    requires { (1 ≤ workers) × (workers ≤ 64) }
{
    match call {
        CollapseWay::Fold => fold_owned(alloc, parts),
        CollapseWay::Rounds => collapse_rounds_owned(rt, alloc, parts, workers, &OpenGate),
        CollapseWay::Bag => collapse_bag_owned(rt, alloc, parts, workers, &OpenGate),
    }
}

// Whether the call gives this text, with the parts borrowed and with the parts handed over.
fn gives<R: Threads + Wait + Sync>(
    rt: &R,
    alloc: Global,
    call: CollapseWay,
    workers: u8,
    text: &[u8],
) -> Result<bool, Refusal>
    requires { (1 ≤ workers) × (workers ≤ 64) }
{
    let parts = parts_of(alloc, POINTS, KEYS)?;
    let lent = join_lent(rt, alloc, call, &parts, workers)?;
    let lent = text_of(&lent, alloc)?;
    let owned = join_owned(rt, alloc, call, parts, workers)?;
    let owned = text_of(&owned, alloc)?;
    Ok(lent.as_slice() == text && owned.as_slice() == text)
}

#[test]
fn all_give_the_same_bytes(rt: HostRuntime) -> Result<(), Fail> {
    let alloc = rt.alloc();
    let text = joined_text(alloc)?;
    for call in CALLS {
        for workers in [1, 3, 64] {
            assert!(rt;
                gives(&rt, alloc, call, workers, &text)?,
                "{call:?} {workers}"
            );
        }
    }
    Ok(())
}

// A gate at which collapsers 0 and 1 wait until both have been there.
#[derive(Drop)]
struct Meeting {
    first: AtomicU64,
    second: AtomicU64,
    missed: AtomicU64,
}

// How often a collapser looks for the other one.
const TURNS: u32 = 10_000_000;

impl Gate for Meeting {
    fn pass(&self, place: GatePlace) {
        let GatePlace::Pair(number) = place else {
            return;
        };
        let (own, other) = if number == 0 {
            (&self.first, &self.second)
        } else {
            (&self.second, &self.first)
        };
        own.store(1, Ordering::SeqCst);
        for _ in 0..TURNS {
            if other.load(Ordering::SeqCst) == 1 {
                return;
            }
            thread::yield_now();
        }
        self.missed.store(1, Ordering::SeqCst);
    }
}

impl Meeting {
    // Whether the first and the second have been there, and whether one missed the other.
    fn seen(&self) -> (u64, u64, u64) {
        (
            self.first.load(Ordering::SeqCst),
            self.second.load(Ordering::SeqCst),
            self.missed.load(Ordering::SeqCst),
        )
    }
}

fn empty_gate() -> Meeting {
    Meeting {
        first: AtomicU64::new(0),
        second: AtomicU64::new(0),
        missed: AtomicU64::new(0),
    }
}

// Both collapsers waited at the gate, in rounds and over the bag.
#[test]
fn collapsers_overlap(rt: HostRuntime) -> Result<(), Fail> {
    let alloc = rt.alloc();
    let parts = parts_of(alloc, 4, 2)?;
    let gate = empty_gate();
    let part = collapse_rounds(&rt, alloc, &parts, 2, &gate)?;
    assert_eq!(rt;
        (part.entries().len(), gate.seen()),
        (6, (1, 1, 0)),
        "rounds"
    );
    let gate = empty_gate();
    let part = collapse_bag(&rt, alloc, &parts, 2, &gate)?;
    assert_eq!(rt; (part.entries().len(), gate.seen()), (6, (1, 1, 0)), "bag");
    Ok(())
}

// Parts of one key each, by run, point and value, and how they are refused. A part may come twice.
const REFUSED: [(&[(u64, u32, u8)], Option<Refusal>); 6] = [
    (&[], Some(Refusal::NoFile)),
    (&[(1, 3, 7)], None),
    (&[(1, 3, 7), (1, 3, 7)], None),
    (&[(1, 3, 7), (1, 6, 7), (2, 9, 7)], Some(Refusal::OtherRun)),
    (&[(1, 3, 7), (1, 3, 8)], Some(Refusal::Conflict)),
    (&[(1, 3, 7), (1, 3, 8), (2, 6, 7)], Some(Refusal::OtherRun)),
];

// Why the call refuses the parts, if it does, borrowed or handed over.
fn refusals<R: Threads + Wait + Sync>(
    rt: &R,
    alloc: Global,
    call: CollapseWay,
    cases: &[(u64, u32, u8)],
) -> Result<(Option<Refusal>, Option<Refusal>), Refusal> {
    let mut parts = Vec::new(alloc);
    for (run, point, value) in cases {
        parts.push(part_of(alloc, *run, *point, 1, *value)?)?;
    }
    let lent = join_lent(rt, alloc, call, &parts, 2).err();
    Ok((lent, join_owned(rt, alloc, call, parts, 2).err()))
}

#[test]
fn refuses_alike(rt: HostRuntime) -> Result<(), Fail> {
    let alloc = rt.alloc();
    for call in CALLS {
        for (cases, why) in REFUSED {
            assert_eq!(rt; refusals(&rt, alloc, call, cases)?, (why, why), "{call:?}");
        }
    }
    Ok(())
}
