//! Cells: what a slot keeps.
ghost use Rattle.std.specs.Prelude.{◌≡◌, ◌≢◌, ◌<◌, ℕ, length, vec_capacity};
ghost use Rattle.pc_chain.specs.Slots.{at};
ghost use Rattle.pc_arena.specs.Cells.{slot_if_linked, links_of, items_of};

use pc_chain::Links;
use pc_types::SlotId;
use std::mem;

/// A slot's cell. One without a record is free. If its link leads to a slot, `next` is that slot's number; else `next`
/// means nothing. The fields are in the variants themselves, so that everything but the record takes 8 bytes.
#[derive(Drop)]
pub(crate) enum ArenaCell<T> {
    /// No record.
    Free { leads: bool, next: u32 },
    /// A record.
    Taken { leads: bool, next: u32, item: T },
}

impl<T> ArenaCell<T> {
    ghost use Rattle.std.specs.Prelude.{◌≡◌, Some, None, IsSome, option_copied};
    ghost use Rattle.std.specs.Borrow.{sem};
    ghost use Rattle.pc_arena.specs.Cells.{item_of, link_of};
    ghost use Rattle.pc_arena.specs.SlotLending.{LendsCellRecord};

    /// A cell with the record. Its link leads to none.
    pub(crate) fn taken(item: T) -> Self
        ensures item { item_of result ≡ Some item }
        ensures link { link_of result ≡ None }
    {
        ArenaCell::Taken {
            leads: false,
            next: 0,
            item,
        }
    }

    /// Where the link leads.
    pub(crate) fn link(&self) -> Option<SlotId>
        ensures { result ≡ link_of self.now }
    {
        match self {
            ArenaCell::Free { leads, next } => slot_where(*leads, *next),
            ArenaCell::Taken { leads, next, .. } => slot_where(*leads, *next),
        }
    }

    /// Sets where the link leads. The record stays.
    pub(crate) fn put_link(&mut self, link: Option<SlotId>)
        ensures link { link_of self.new ≡ link }
        ensures item { item_of self.new ≡ item_of self.old }
    {
        let (does, slot) = words_of(link);
        match self {
            ArenaCell::Free { leads, next } => {
                *leads = does;
                *next = slot;
            }
            ArenaCell::Taken { leads, next, .. } => {
                *leads = does;
                *next = slot;
            }
        }
    }

    /// The record, if there is one.
    pub(crate) fn item(&self) -> Option<&T>
        ensures { option_copied result ≡ item_of self.now }
    {
        match self {
            ArenaCell::Free { .. } => None,
            ArenaCell::Taken { item, .. } => Some(item),
        }
    }

    /// The record, which is there.
    pub(crate) fn item_mut(&mut self) -> &mut T
        requires { IsSome (item_of self.old) }
        ensures* lends { sem 𝓛 (LendsCellRecord T.row self.entry result) }
        ensures value { item_of self.old ≡ Some result.now }
    {
        match self {
            ArenaCell::Free { .. } => unreachable!(),
            ArenaCell::Taken { item, .. } => item,
        }
    }
}

impl<T: Drop> ArenaCell<T> {
    ghost use Rattle.std.specs.Prelude.{◌≡◌, Some, None, IsSome};
    ghost use Rattle.pc_arena.specs.Cells.{item_of, link_of};

    /// Puts the record in. The link stays.
    pub(crate) fn put_item(&mut self, item: T)
        ensures item { item_of self.new ≡ Some item }
        ensures link { link_of self.new ≡ link_of self.old }
    {
        let (leads, next) = words_of(self.link());
        *self = ArenaCell::Taken { leads, next, item };
    }

    /// Takes the record, which is there, out. The link stays.
    pub(crate) fn take_item(&mut self) -> T
        requires { IsSome (item_of self.old) }
        ensures given { item_of self.old ≡ Some result }
        ensures item { item_of self.new ≡ None }
        ensures link { link_of self.new ≡ link_of self.old }
    {
        let (leads, next) = words_of(self.link());
        match mem::replace(self, ArenaCell::Free { leads, next }) {
            ArenaCell::Free { .. } => unreachable!(),
            ArenaCell::Taken { item, .. } => item,
        }
    }
}

// The slot of the number, where the link leads to one.
fn slot_where(leads: bool, next: u32) -> Option<SlotId>
    ensures { result ≡ slot_if_linked leads next }
{
    if leads { Some(SlotId(next)) } else { None }
}

// Whether the link leads to a slot, and to which; the number means nothing if it doesn't.
fn words_of(link: Option<SlotId>) -> (bool, u32)
    ensures { slot_if_linked result.0 result.1 ≡ link }
{
    match link {
        Some(SlotId(slot)) => (true, slot),
        None => (false, 0),
    }
}

/// The cells of the slots that were ever taken: the first of the arena's slots.
#[derive(Drop)]
pub(crate) struct Cells<T> {
    pub(crate) cells: Vec<ArenaCell<T>>,
}

/// Marks the one word of links that each slot has. The arena links its free slots by it; those with a record are linked by
/// whoever has the arena.
pub struct ByLink;

impl<T> Links<ByLink> for Cells<T> {
    ghost use Rattle.std.specs.Prelude.{◌<◌, ◌≡◌, length, refl, vec_capacity};
    ghost use Rattle.std.proofs.Common.{◌∙◌};
    ghost use Rattle.pc_chain.specs.Slots.{at};
    ghost use Rattle.pc_arena.specs.Cells.{links_of, items_of};

    type Id = SlotId;

    ghost has = { λ c id. id < length c.cells.items };

    ghost next_of = { λ c id. at (links_of c.cells.items) id };

    ghost beside = { λ a b. (items_of b.cells.items ≡ items_of a.cells.items) × (vec_capacity b.cells ≡ vec_capacity a.cells) };

    fn next(&self, id: SlotId) -> Option<SlotId> {
        self.cells[id.0 as usize].link()
    }

    fn set_next(&mut self, id: SlotId, next: Option<SlotId>)
        requires { id < length self.old.cells.items }
        ensures set { at (links_of self.new.cells.items) id ≡ next }
        ensures others { (other : ℕ) → other ≢ id → at (links_of self.new.cells.items) other ≡ at (links_of self.old.cells.items) other }
        ensures has { (other : ℕ) → other < length self.old.cells.items → other < length self.new.cells.items }
        ensures beside { (items_of self.new.cells.items ≡ items_of self.old.cells.items) × (vec_capacity self.new.cells ≡ vec_capacity self.old.cells) }
    {
        self.cells[id.0 as usize].put_link(next);
    }

    ghost beside_same = { λ a. (refl, refl) };

    ghost beside_then = { λ a b c p q. (q.0 ∙ p.0, q.1 ∙ p.1) };
}
