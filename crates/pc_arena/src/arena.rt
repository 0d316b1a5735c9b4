//! The arena itself.
ghost use Rattle.std.specs.Prelude.{◌≡◌, ◌≢◌, ◌≤◌, ℕ, length, IfOk, IfErr, OnErr, is_err, Some, None, option_copied, slice_set};
ghost use Rattle.std.specs.Borrow.{sem};
ghost use Rattle.pc_arena.specs.SlotLending.{LendsItem};
ghost use Rattle.pc_chain.specs.Slots.{at, is_full, with_item, IsTaken, IsFree, AllFree};

use crate::cells::{ArenaCell, ByLink, Cells};
use pc_chain::{Chain, Links};
use pc_types::{MOST_KEYS, Refusal, SlotId};
use std::alloc::{AllocError, Global};
use std::marker::Model;

/// Records in slots, which are numbered from 0; a slot without a record is free. Each slot has a word of links next to its
/// record, which leads to another slot or to none. The arena is seen as the records by slot, and the links. The memory of
/// all slots is reserved when it is made: it never has more slots, or fewer, and no record moves. A slot is written when it
/// is first taken, and is seen until then as one that is free and leads to none; so an arena of which few slots were ever
/// taken touches little of its memory.
///
/// The slots that were freed are linked by the same word, in the order in which they will be taken: all of them before a
/// slot is taken for the first time. So the link of a slot is anyone's as long as the slot has a record (`Links<ByLink>`),
/// and has no meaning that lasts beyond that.
#[derive(Drop)]
pub struct Arena<T> {
    cells: Cells<T>,
    free: Chain<SlotId>,
    capacity: u32,
}

impl<T> Model for Arena<T> {
    ghost use Rattle.std.specs.Prelude.{◌≤◌, vec_capacity};
    ghost use Rattle.pc_chain.specs.Slots.{Slots};
    ghost use Rattle.pc_arena.specs.Cells.{slots_of, AreCellsKept};

    ghost Value = { Slots T };

    ghost view = { λ a. slots_of a.capacity a.cells.cells.items };

    ghost invariant = { λ a. AreCellsKept a.capacity a.cells.cells.items a.free × (a.capacity ≤ vec_capacity a.cells.cells) };
}

impl<T> Links<ByLink> for Arena<T> {
    ghost use Rattle.std.specs.Prelude.{◌≡◌, refl};
    ghost use Rattle.std.proofs.Common.{◌∙◌};
    ghost use Rattle.pc_chain.specs.Slots.{at, IsTaken};

    type Id = SlotId;

    ghost has = { λ a id. IsTaken a.items id };

    ghost next_of = { λ a id. at a.links id };

    ghost beside = { λ a b. b.items ≡ a.items };

    fn next(&self, id: SlotId) -> Option<SlotId> {
        self.cells.cells[id.0 as usize].link()
    }

    fn set_next(&mut self, id: SlotId, next: Option<SlotId>)
        requires { IsTaken self.old.items id }
        ensures set { at self.new.links id ≡ next }
        ensures others { (other : ℕ) → other ≢ id → at self.new.links other ≡ at self.old.links other }
        ensures has { (other : ℕ) → IsTaken self.old.items other → IsTaken self.new.items other }
        ensures beside { self.new.items ≡ self.old.items }
    {
        self.cells.cells[id.0 as usize].put_link(next);
    }

    ghost beside_same = { λ a. refl };

    ghost beside_then = { λ a b c p q. q ∙ p };
}

impl<T> Arena<T> {
    /// The number of slots, taken and free.
    pub fn capacity(&self) -> u32
        ensures count { result ≡ length self.now.items }
        ensures most { result ≤ MOST_KEYS }
    {
        self.capacity
    }

    /// Whether each slot has a record.
    pub fn is_full(&self) -> bool
        ensures { result ≡ is_full self.now.items }
    {
        self.cells.cells.len() as u32 == self.capacity
            && self.free.first::<ByLink, Cells<T>>(&self.cells).is_none()
    }

    /// The record in the slot, which has one.
    pub fn get(&self, id: SlotId) -> &T
        requires { IsTaken self.now.items id }
        ensures value { at self.now.items id ≡ Some result.now }
        ensures most { length self.now.items ≤ MOST_KEYS }
    {
        match self.cells.cells[id.0 as usize].item() {
            Some(item) => item,
            None => unreachable!(),
        }
    }

    /// The record in the slot; `None` if it is free, or if there is no such slot.
    pub fn get_if_taken(&self, id: SlotId) -> Option<&T>
        ensures { option_copied result ≡ at self.now.items id }
    {
        match self.cells.cells.get(id.0 as usize) {
            Some(cell) => cell.item(),
            None => None,
        }
    }

    /// The record in the slot, which has one, to be changed in place. Nothing else changes.
    pub fn get_mut(&mut self, id: SlotId) -> &mut T
        requires { IsTaken self.old.items id }
        ensures* lends { sem 𝓛 (LendsItem T.row self.entry id result) }
        ensures value { at self.old.items id ≡ Some result.now }
    {
        self.cells.cells[id.0 as usize].item_mut()
    }
}

impl<T: Drop> Arena<T> {
    /// An arena of the given number of slots, at most 2^20, all of them free. It fails only if an allocation fails.
    pub fn with_capacity(alloc: Global, slots: u32) -> Result<Arena<T>, AllocError>
        requires { slots ≤ MOST_KEYS }
        ensures slots { IfOk result (λ arena. length arena.items ≡ slots) }
        ensures free { IfOk result (λ arena. AllFree arena.items) }
    {
        Ok(Arena {
            cells: Cells {
                cells: Vec::with_capacity(alloc, slots as usize)?,
            },
            free: Chain::new(),
            capacity: slots,
        })
    }

    /// Puts the record into a free slot and returns the slot. Returns `Full` if and only if no slot is free, and the arena
    /// is then as it was. The link of the slot leads anywhere until it is set. It allocates no memory.
    pub fn take_slot(&mut self, item: T) -> Result<SlotId, Refusal>
        ensures free { IfOk result (λ id. IsFree self.old.items id) }
        ensures taken { IfOk result (λ id. self.new ≡ with_item self.old id (Some item)) }
        ensures full { is_err result ≡ is_full self.old.items }
        ensures refusal { IfErr result (λ e. e ≡ Refusal.Full) }
        ensures err { OnErr result (self.new ≡ self.old) }
    {
        if let Some(id) = self.free.pop_front::<ByLink, Cells<T>>(&self.cells) {
            self.cells.cells[id.0 as usize].put_item(item);
            return Ok(id);
        }
        let written = self.cells.cells.len() as u32;
        if written == self.capacity {
            return Err(Refusal::Full);
        }
        self.cells.cells.push_reserved(ArenaCell::taken(item));
        Ok(SlotId(written))
    }

    /// Takes the record out of the slot, which has one, and is free from then on. Other records stay, and so do the links of
    /// the slots that have one; the slot's own link is lost, so no chain may go through it any more. It allocates no memory.
    pub fn free_slot(&mut self, id: SlotId) -> T
        requires { IsTaken self.old.items id }
        ensures given { at self.old.items id ≡ Some result }
        ensures items { self.new.items ≡ slice_set self.old.items id None }
        ensures links { (other : ℕ) → other ≢ id → IsTaken self.old.items other → at self.new.links other ≡ at self.old.links other }
    {
        let item = self.cells.cells[id.0 as usize].take_item();
        self.free.push_back::<ByLink, Cells<T>>(&mut self.cells, id);
        item
    }
}
