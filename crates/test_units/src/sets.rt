//! Tests of the two sets: worked rows, and a walk compared with plain lists, over a row of links.
ghost use Rattle.std.specs.Prelude.{◌≡◌, ◌≢◌, ◌<◌, ◌≤◌, IfOk, OnOk, IsTrue, length};
ghost use Rattle.pc_chain.specs.Chains.{Avoids};
ghost use Rattle.pc_dirty.specs.declared.side.SideSlot.{SideSlot};
ghost use Rattle.test_units.specs.Rows.{link_at, has_links, AreKept};

use pc_chain::Links;
use pc_dirty::{Dirty, Side, SideSlot};
use pc_types::SlotId;
use std::alloc::{AllocError, Global};
use std::test::Fail;
use test_support::{drawn, following};

// Two links for each number below a length.
#[derive(Drop)]
struct RowOfPlaces {
    first: Vec<Option<SideSlot>>,
    second: Vec<Option<SideSlot>>,
}

// Its two words of links.
struct BySide;

impl Links<BySide> for RowOfPlaces {
    ghost use Rattle.std.specs.Prelude.{◌≡◌, ◌≢◌, ⊤};
    ghost use Rattle.pc_dirty.specs.declared.side.SideSlot.{SideSlot};
    ghost use Rattle.test_units.specs.Rows.{link_at, has_links};

    type Id = SideSlot;

    ghost has = { λ row place. has_links row.first.items row.second.items place };

    ghost next_of = { λ row place. link_at row.first.items row.second.items place };

    ghost beside = { λ a b. ⊤ };

    fn next(&self, id: SideSlot) -> Option<SideSlot> {
        match id.side {
            Side::First => self.first[id.slot.0 as usize],
            Side::Second => self.second[id.slot.0 as usize],
        }
    }

    fn set_next(&mut self, id: SideSlot, next: Option<SideSlot>)
        requires { has_links self.old.first.items self.old.second.items id }
        ensures set { link_at self.new.first.items self.new.second.items id ≡ next }
        ensures others { (other : SideSlot) → other ≢ id → link_at self.new.first.items self.new.second.items other ≡ link_at self.old.first.items self.old.second.items other }
        ensures has { (other : SideSlot) → has_links self.old.first.items self.old.second.items other → has_links self.new.first.items self.new.second.items other }
    {
        match id.side {
            Side::First => self.first[id.slot.0 as usize] = next,
            Side::Second => self.second[id.slot.0 as usize] = next,
        }
    }

    ghost beside_same = { λ a. tt };

    ghost beside_then = { λ a b c p q. tt };
}

// A row of links to none.
fn unlinked(alloc: Global, len: usize) -> Result<RowOfPlaces, AllocError>
    ensures { IfOk result (λ row. (length row.first.items ≡ len) × (length row.second.items ≡ len)) }
{
    Ok(RowOfPlaces {
        first: vec![in alloc; None; len]?,
        second: vec![in alloc; None; len]?,
    })
}

// The sets, the links of twelve slots, and which slots the open set has.
#[derive(Drop)]
struct KeptSets {
    row: RowOfPlaces,
    sets: Dirty,
    opened: Vec<u32>,
}

// Two empty sets.
fn nothing_kept(alloc: Global) -> Result<KeptSets, AllocError>
    ensures { IfOk result (λ kept. AreKept kept.row.first.items kept.row.second.items kept.sets kept.opened.items) }
{
    Ok(KeptSets {
        row: unlinked(alloc, 12)?,
        sets: Dirty::new(),
        opened: Vec::new(alloc),
    })
}

// What is asked of the sets.
#[derive(Clone, Copy)]
enum Ask {
    Add(u32),
    Close,
    Pop,
    First,
    Counts,
    Has(u32),
}

#[derive(Clone, Copy, Debug, PartialEq)]
enum Told {
    Done,
    // The slot is in the open set, or the closed set isn't empty.
    Refused,
    Slot(u32),
    Nothing,
    // How many are open, and how many closed.
    Counted(u32, u32),
    // Whether the slot is in the open, and whether in the closed set.
    Held(bool, bool),
}

use Ask::{Add, Close, Counts, First, Has, Pop};
use Told::{Counted, Done, Held, Nothing, Refused, Slot};

fn slot_of(found: Option<SlotId>) -> Told {
    match found {
        Some(SlotId(number)) => Slot(number),
        None => Nothing,
    }
}

// Whether one of twelve slots isn't yet among these.
fn is_new(opened: &[u32], slot: u32) -> bool
    ensures { IsTrue result → (slot < 12) × (length opened.now < 12) × Avoids slot opened.now }
{
    slot < 12 && opened.len() < 12 && !opened.contains(&slot)
}

fn added(kept: &mut KeptSets, slot: u32) -> Result<Told, AllocError>
    requires { AreKept kept.old.row.first.items kept.old.row.second.items kept.old.sets kept.old.opened.items }
    ensures { OnOk result (AreKept kept.new.row.first.items kept.new.row.second.items kept.new.sets kept.new.opened.items) }
{
    if !is_new(kept.opened.as_slice(), slot) {
        add_again(kept, slot);
        return Ok(Refused);
    }
    kept.opened.push(slot)?;
    kept.sets.add_new(&mut kept.row, SlotId(slot));
    Ok(Done)
}

// Adds a slot that the open set has, so that all stays as it is.
fn add_again(kept: &mut KeptSets, slot: u32)
    requires { AreKept kept.old.row.first.items kept.old.row.second.items kept.old.sets kept.old.opened.items }
    ensures { AreKept kept.new.row.first.items kept.new.row.second.items kept.new.sets kept.new.opened.items }
{
    if slot < 12 && kept.opened.len() <= 12 && kept.sets.in_open(&kept.row, SlotId(slot)) {
        kept.sets.add(&mut kept.row, SlotId(slot));
    }
}

fn closed(kept: &mut KeptSets) -> Told
    requires { AreKept kept.old.row.first.items kept.old.row.second.items kept.old.sets kept.old.opened.items }
    ensures { AreKept kept.new.row.first.items kept.new.row.second.items kept.new.sets kept.new.opened.items }
{
    if !kept.sets.closed_is_empty(&kept.row) {
        return Refused;
    }
    kept.sets.close(&kept.row);
    kept.opened.clear();
    Done
}

fn popped(kept: &mut KeptSets) -> Told
    requires { AreKept kept.old.row.first.items kept.old.row.second.items kept.old.sets kept.old.opened.items }
    ensures { AreKept kept.new.row.first.items kept.new.row.second.items kept.new.sets kept.new.opened.items }
{
    slot_of(kept.sets.pop_closed(&kept.row))
}

fn answer(kept: &mut KeptSets, ask: Ask) -> Result<Told, AllocError>
    requires { AreKept kept.old.row.first.items kept.old.row.second.items kept.old.sets kept.old.opened.items }
    ensures { OnOk result (AreKept kept.new.row.first.items kept.new.row.second.items kept.new.sets kept.new.opened.items) }
{
    match ask {
        Add(slot) => added(kept, slot),
        Close => Ok(closed(kept)),
        Pop => Ok(popped(kept)),
        First => Ok(slot_of(kept.sets.first_closed(&kept.row))),
        Counts => Ok(Counted(
            kept.sets.open_len(&kept.row),
            kept.sets.closed_len(&kept.row),
        )),
        Has(slot) => Ok(Held(
            kept.sets.in_open(&kept.row, SlotId(slot)),
            kept.sets.in_closed(&kept.row, SlotId(slot)),
        )),
    }
}

// The number of the first row that is answered otherwise.
fn first_wrong(kept: &mut KeptSets, rows: &[(Ask, Told)]) -> Result<Option<usize>, AllocError>
    requires { AreKept kept.old.row.first.items kept.old.row.second.items kept.old.sets kept.old.opened.items }
{
    for (at, (ask, wanted)) in rows.iter().enumerate() {
        if answer(kept, *ask)? != *wanted {
            return Ok(Some(at));
        }
    }
    Ok(None)
}

const ROWS: [(Ask, Told); 53] = [
    // Empty, also once they are closed.
    (Counts, Counted(0, 0)),
    (Has(2), Held(false, false)),
    (Pop, Nothing),
    (First, Nothing),
    (Close, Done),
    (Pop, Nothing),
    (Counts, Counted(0, 0)),
    // A slot goes in once.
    (Add(2), Done),
    (Add(11), Done),
    (Add(2), Refused),
    (Has(2), Held(true, false)),
    (Has(11), Held(true, false)),
    (Has(3), Held(false, false)),
    (Counts, Counted(2, 0)),
    (First, Nothing),
    (Pop, Nothing),
    // Closed.
    (Close, Done),
    (Counts, Counted(0, 2)),
    (First, Slot(2)),
    (Has(11), Held(false, true)),
    // A slot that is added while it is closed is in both.
    (Add(11), Done),
    (Add(3), Done),
    (Add(2), Done),
    (Counts, Counted(3, 2)),
    (Has(2), Held(true, true)),
    (Has(3), Held(true, false)),
    (Has(12), Held(false, false)),
    (Close, Refused),
    // Taken in the order of first addition, while others go in.
    (First, Slot(2)),
    (Pop, Slot(2)),
    (Add(0), Done),
    (Add(2), Refused),
    (First, Slot(11)),
    (Close, Refused),
    (Counts, Counted(4, 1)),
    (Has(2), Held(true, false)),
    (Has(11), Held(true, true)),
    (Pop, Slot(11)),
    (Pop, Nothing),
    (Add(5), Done),
    // Closed again as soon as all were taken, on the other side.
    (Close, Done),
    (Counts, Counted(0, 5)),
    (Pop, Slot(11)),
    (Pop, Slot(3)),
    (Add(3), Done),
    (Pop, Slot(2)),
    (Pop, Slot(0)),
    (First, Slot(5)),
    (Pop, Slot(5)),
    (Close, Done),
    (Pop, Slot(3)),
    (Pop, Nothing),
    (Counts, Counted(0, 0)),
];

#[test]
fn sets_over_one_row(rt: HostRuntime) -> Result<(), Fail> {
    let mut kept = nothing_kept(rt.alloc())?;
    assert_eq!(rt; first_wrong(&mut kept, &ROWS)?, None);
    Ok(())
}

// The number of requests that the walk has.
const STEPS: u32 = 5000;

// A random request: most add or take, and a close is asked for about as often as the closed set is empty.
fn drawn_ask(seed: u64) -> Ask {
    match drawn(seed, 33, 18) {
        0..=6 => Add(drawn(seed, 37, 13)),
        7..=11 => Pop,
        12..=13 => Close,
        14 => First,
        15 => Counts,
        _ => Has(drawn(seed, 37, 13)),
    }
}

// The number of slots.
fn count_of(slots: &[u32]) -> u32 {
    let mut count = 0u32;
    for _ in slots {
        count = count.saturating_add(1);
    }
    count
}

// The slots of the open and of the closed set, in their order.
#[derive(Drop)]
struct PlainSets {
    opened: Vec<u32>,
    closed: Vec<u32>,
}

impl PlainSets {
    fn add(&mut self, slot: u32) -> Result<Told, AllocError> {
        if slot >= 12 || self.opened.contains(&slot) {
            return Ok(Refused);
        }
        self.opened.push(slot)?;
        Ok(Done)
    }

    fn close(&mut self) -> Result<Told, AllocError> {
        if !self.closed.is_empty() {
            return Ok(Refused);
        }
        self.closed.append(&mut self.opened)?;
        Ok(Done)
    }

    fn pop(&mut self) -> Told {
        if self.closed.is_empty() {
            return Nothing;
        }
        Slot(self.closed.remove(0))
    }

    fn first(&self) -> Told {
        match self.closed.first() {
            Some(slot) => Slot(*slot),
            None => Nothing,
        }
    }

    // What lists answer, in the place of the sets.
    fn answer(&mut self, ask: Ask) -> Result<Told, AllocError> {
        match ask {
            Add(slot) => self.add(slot),
            Close => self.close(),
            Pop => Ok(self.pop()),
            First => Ok(self.first()),
            Counts => Ok(Counted(count_of(&self.opened), count_of(&self.closed))),
            Has(slot) => Ok(Held(self.opened.contains(&slot), self.closed.contains(&slot))),
        }
    }
}

// How many requests of each kind were answered so: done, refused, with a slot, with nothing, with counts, and with sets.
type AnswerCounts = [u32; 6];

fn note(tally: &mut AnswerCounts, told: Told) {
    let place = match told {
        Done => 0,
        Refused => 1,
        Slot(_) => 2,
        Nothing => 3,
        Counted(_, _) => 4,
        Held(_, _) => 5,
    };
    tally[place] = tally[place].saturating_add(1);
}

// The number of the first request that lists answer otherwise; nothing if none is, and each answer came often.
fn first_other(kept: &mut KeptSets, lists: &mut PlainSets) -> Result<Option<u32>, AllocError>
    requires { AreKept kept.old.row.first.items kept.old.row.second.items kept.old.sets kept.old.opened.items }
{
    let mut seed = 1u64;
    let mut tally: AnswerCounts = [0; 6];
    for step in 0..STEPS {
        seed = following(seed);
        let ask = drawn_ask(seed);
        let told = answer(kept, ask)?;
        if told != lists.answer(ask)? {
            return Ok(Some(step));
        }
        note(&mut tally, told);
    }
    Ok(if tally.iter().all(|count| *count > 100) {
        None
    } else {
        Some(STEPS)
    })
}

#[test]
fn sets_beside_lists(rt: HostRuntime) -> Result<(), Fail> {
    let mut kept = nothing_kept(rt.alloc())?;
    let mut lists = PlainSets {
        opened: Vec::new(rt.alloc()),
        closed: Vec::new(rt.alloc()),
    };
    assert_eq!(rt; first_other(&mut kept, &mut lists)?, None);
    Ok(())
}
