//! Tests of the moments of a slot.

use crate::cells::Cell;
use crate::spares::Spares;
use crate::versions::{self, Author, Stage, Writing};
use pc_chain::Blank;
use pc_dirty::Side;
use pc_types::{Class, Point, Refusal, TxnNo, Value};
use std::alloc::Global;
use std::test::Fail;

// A change of a slot; the point is that of the last closed set, and the side that of the open one.
#[derive(Clone, Copy)]
enum Moment {
    // A transaction of the class writes a value of one byte, or absence.
    Write(Class, Option<u8>),
    Commit,
    Undo,
    // The open set is closed, as that of the next point.
    Close,
    Take,
}

use Moment::{Close, Commit, Take, Undo, Write};

// The content of the place, the committed content, the content at the point if the key is in the closed set, whether anything
// is kept aside, and how many boxes are kept for later writes.
#[derive(Clone, Copy, Debug, PartialEq)]
struct SlotSeen(Option<u8>, Option<u8>, Option<u8>, bool, usize);

// A slot, the side of the open set, the point of the last closed one, and the boxes for later writes.
#[derive(Drop)]
struct Followed {
    slot: Cell,
    side: Side,
    point: Point,
    spares: Spares,
}

fn value_of(alloc: Global, content: Option<u8>) -> Result<Option<Value>, Refusal> {
    match content {
        Some(byte) => Ok(Some(Value::new(alloc, &[byte])?)),
        None => Ok(None),
    }
}

fn content_of(value: Option<&Value>) -> Option<u8> {
    match value {
        Some(value) => value.as_bytes().first().copied(),
        None => None,
    }
}

fn look_at(slot: &Cell, side: Side, spares: &Spares) -> SlotSeen {
    SlotSeen(
        content_of(slot.live.as_ref()),
        content_of(versions::committed_of(slot)),
        content_of(versions::pinned_of(slot, side)),
        slot.aside.is_some(),
        spares.boxes.len(),
    )
}

fn happen(alloc: Global, seen: &mut Followed, moment: Moment) -> Result<(), Refusal> {
    let Followed {
        slot,
        side,
        point,
        spares,
    } = seen;
    let stage = Stage {
        side: *side,
        point: *point,
    };
    match moment {
        Write(class, content) => {
            let copy = versions::copy_to_keep(alloc, slot, stage, class)?;
            let value = value_of(alloc, content)?;
            let room = spares.take_out(alloc)?;
            let author = Author {
                transaction: TxnNo(1),
                class,
            };
            let write = Writing {
                author,
                room,
                copy,
                value,
            };
            versions::put(slot, stage, write, spares);
        }
        Commit => {
            versions::settle(slot, stage, spares);
        }
        Undo => versions::undo(slot, stage, spares),
        Close => {
            *side = side.other();
            *point = Point(if point.0 < 9 { point.0 + 1 } else { 9 });
        }
        Take => versions::take(slot, *side, spares),
    }
    Ok(())
}

// A slot of a key that has the value.
fn slot_with(alloc: Global, content: u8) -> Result<Cell, Refusal> {
    let mut slot = Cell::blank();
    slot.live = value_of(alloc, Some(content))?;
    Ok(slot)
}

// The first of the rows that came out otherwise.
fn first_wrong(alloc: Global, rows: &[(Moment, SlotSeen)]) -> Result<Option<usize>, Refusal> {
    let mut seen = Followed {
        slot: slot_with(alloc, 50)?,
        side: Side::First,
        point: Point(0),
        spares: Spares::new(alloc)?,
    };
    for (i, row) in rows.iter().enumerate() {
        happen(alloc, &mut seen, row.0)?;
        if look_at(&seen.slot, seen.side, &seen.spares) != row.1 {
            return Ok(Some(i));
        }
    }
    Ok(None)
}

const BEFORE: Class = Class::Before;

const DURING: Class = Class::During;

const AFTER: Class = Class::After;

const MOMENTS: [(Moment, SlotSeen); 32] = [
    // An abort puts the committed value back, and a second write replaces the first one.
    (
        Write(BEFORE, Some(51)),
        SlotSeen(Some(51), Some(50), None, true, 0),
    ),
    (Write(BEFORE, None), SlotSeen(None, Some(50), None, true, 1)),
    (Undo, SlotSeen(Some(50), Some(50), None, false, 2)),
    (
        Write(BEFORE, Some(52)),
        SlotSeen(Some(52), Some(50), None, true, 1),
    ),
    (Commit, SlotSeen(Some(52), Some(52), None, false, 2)),
    // A writer of the prepare phase is open when the set is closed: the point has what was committed then.
    (
        Write(DURING, Some(53)),
        SlotSeen(Some(53), Some(52), None, true, 1),
    ),
    (Close, SlotSeen(Some(53), Some(52), Some(52), true, 1)),
    (
        Write(DURING, None),
        SlotSeen(None, Some(52), Some(52), true, 1),
    ),
    (Undo, SlotSeen(Some(52), Some(52), Some(52), false, 2)),
    (
        Write(AFTER, Some(54)),
        SlotSeen(Some(54), Some(52), Some(52), true, 1),
    ),
    (
        Write(AFTER, Some(55)),
        SlotSeen(Some(55), Some(52), Some(52), true, 1),
    ),
    (Commit, SlotSeen(Some(55), Some(55), Some(52), true, 1)),
    // Another one after the point, which aborts: what is kept stays.
    (
        Write(AFTER, None),
        SlotSeen(None, Some(55), Some(52), true, 1),
    ),
    (Undo, SlotSeen(Some(55), Some(55), Some(52), true, 1)),
    (Take, SlotSeen(Some(55), Some(55), None, false, 2)),
    // Once the key is taken nothing is kept of it.
    (
        Write(AFTER, Some(56)),
        SlotSeen(Some(56), Some(55), None, true, 1),
    ),
    (Commit, SlotSeen(Some(56), Some(56), None, false, 2)),
    (Close, SlotSeen(Some(56), Some(56), Some(56), false, 2)),
    (Take, SlotSeen(Some(56), Some(56), None, false, 2)),
    // A writer of the prepare phase commits after the point of a key that an earlier commit wrote.
    (Write(BEFORE, None), SlotSeen(None, Some(56), None, true, 1)),
    (Commit, SlotSeen(None, None, None, false, 2)),
    (
        Write(DURING, Some(57)),
        SlotSeen(Some(57), None, None, true, 1),
    ),
    (Close, SlotSeen(Some(57), None, None, true, 1)),
    (Commit, SlotSeen(Some(57), Some(57), None, true, 1)),
    (
        Write(AFTER, Some(58)),
        SlotSeen(Some(58), Some(57), None, true, 1),
    ),
    (Undo, SlotSeen(Some(57), Some(57), None, true, 1)),
    (Take, SlotSeen(Some(57), Some(57), None, false, 2)),
    // It commits in prepare: what it found is forgotten.
    (
        Write(DURING, Some(59)),
        SlotSeen(Some(59), Some(57), None, true, 1),
    ),
    (Commit, SlotSeen(Some(59), Some(59), None, false, 2)),
    (Close, SlotSeen(Some(59), Some(59), Some(59), false, 2)),
    (
        Write(DURING, Some(60)),
        SlotSeen(Some(60), Some(59), Some(59), true, 1),
    ),
    (Commit, SlotSeen(Some(60), Some(60), Some(59), true, 1)),
];

#[test]
fn moments(rt: HostRuntime) -> Result<(), Fail> {
    assert_eq!(rt; first_wrong(rt.alloc(), &MOMENTS)?, None);
    Ok(())
}

// How many are kept of that many new boxes that are put back.
fn kept_of(alloc: Global, count: usize) -> Result<usize, Refusal> {
    let mut spares = Spares::new(alloc)?;
    for _ in 0..count {
        spares.put_back(Box::new(alloc, versions::nothing_aside())?);
    }
    Ok(spares.boxes.len())
}

#[test]
fn no_more_are_kept_than_a_transaction_writes(rt: HostRuntime) -> Result<(), Fail> {
    let rows = [(0, 0), (1, 1), (255, 255), (256, 256), (257, 256)];
    for (count, kept) in rows {
        assert_eq!(rt; kept_of(rt.alloc(), count)?, kept);
    }
    Ok(())
}
