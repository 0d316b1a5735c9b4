//! The floor of slots: a table of slots, the locks on them and the two sets, as one value.
ghost use Rattle.std.specs.Prelude.{◌≡◌, ◌≤◌, ◌++◌, [], map, true, false, IfOk, IfSome, IfNone, IfErr, OnErr, None, option_map, option_copied, length, ◌==◌, if◌then◌else◌, List, ℕ};
ghost use Rattle.pc_model.specs.Locks.{outcome};
ghost use Rattle.pc_model.specs.Maps.{get};
ghost use Rattle.pc_model.specs.Database.{KeysRise, database_of};
ghost use Rattle.pc_slots.specs.Slots.{nothing_aside, put_slot, settled, undone, closed_slot};
ghost use Rattle.pc_records.specs.Tables.{content_behind};
ghost use Rattle.pc_records.specs.Floor.{with_spot, with_slot_changed, let_go, asked, queue_at_slot, has_spot, stands_at, stands_anywhere, waits_anywhere, newly_opened, slot_number_of, spots_with, new_spot, tidied, TakesFirstSpot, first_of_closed, of_spot, copy_kept, committed_at, IsInitialFloor, IsFloorWhole};

use crate::slots;
use pc_dirty::Dirty;
use pc_locks::Locks;
use pc_slots::{Aside, Cell, Spares, Stage, Writing};
use pc_table::Table;
use pc_types::{
    Class, Key, MOST_KEYS, Mode, Outcome, Point, Refusal, SlotId, TxnNo, Value, copy_content,
};
use std::alloc::{AllocError, Global};
use std::hash::RandomState;
use std::marker::Model;

/// The slots of keys, each with the queue of its requests, and the two sets. The locks have the requests of a slot at its number,
/// and the slot has the ends of their queue; the sets are linked through the slots. Nothing is seen of the boxes for later
/// writes.
#[derive(Drop)]
pub(crate) struct KeySlots {
    table: Table<Cell>,
    locks: Locks,
    sets: Dirty,
    spares: Spares,
}

impl Model for KeySlots {
    ghost use Rattle.pc_locks.specs.Keepers.{AreEnds};
    ghost use Rattle.pc_records.specs.Floor.{Floor, floor_of};
    ghost use Rattle.pc_records.specs.Ends.{ends_in, queues_in};
    ghost use Rattle.pc_records.specs.Slots.{slots_in, AreSlotsKept};
    ghost use Rattle.pc_records.specs.SetLists.{IsListed, open_keys, closed_keys};

    ghost Value = { Floor };

    ghost view = { λ a. floor_of a.table.capacity (queues_in a.table.rows a.locks) (slots_in a.sets.side a.table.rows) (open_keys a.table.rows a.sets) (closed_keys a.table.rows a.sets) };

    ghost invariant = { λ a. AreSlotsKept (slots_in a.sets.side a.table.rows) (queues_in a.table.rows a.locks) × AreEnds (ends_in a.table.rows) a.locks × IsListed a.table.rows a.sets };
}

impl KeySlots {
    /// A slot for each pair, whose value is committed; both sets are empty, and there is no request. An error if an allocation fails.
    pub(crate) fn of_pairs(
        alloc: Global,
        capacity: u32,
        pairs: &[(Key, Value)],
        seed: RandomState,
    ) -> Result<KeySlots, AllocError>
        requires rise { KeysRise pairs.now }
        requires capacity { capacity ≤ MOST_KEYS }
        ensures first { IfOk result (IsInitialFloor capacity pairs.now) }
        ensures whole { IfOk result IsFloorWhole }
    {
        let table = slots::table_of(alloc, capacity, pairs, seed)?;
        let locks = Locks::new(alloc);
        let sets = Dirty::new();
        let spares = Spares::new(alloc)?;
        Ok(KeySlots {
            table,
            locks,
            sets,
            spares,
        })
    }

    /// The number of the key's slot; `None` if it has none. It is looked for near the slot first.
    pub(crate) fn find(&self, key: &Key, near: Option<SlotId>) -> Option<SlotId>
        ensures found { result ≡ slot_number_of self.now.spots key.now }
        ensures there { IfSome result (λ id. has_spot self.now.spots id ≡ true) }
    {
        self.table.find_near(key, near)
    }

    /// Whether there are as many slots as there may be.
    pub(crate) fn is_full(&self) -> bool
        ensures { result ≡ (length self.now.spots == self.now.capacity) }
    {
        self.table.is_full()
    }

    /// Whether a request of the transaction waits.
    pub(crate) fn is_waiting(&self, transaction: TxnNo) -> bool
        ensures { result ≡ waits_anywhere self.now.spots transaction }
    {
        self.locks.is_waiting(transaction)
    }

    /// The committed pairs, ascending by key; an error if an allocation fails.
    pub(crate) fn committed(&self, alloc: Global) -> Result<Vec<(Key, Value)>, AllocError>
        ensures rise { IfOk result (λ pairs. KeysRise pairs.items) }
        ensures contents { IfOk result (λ pairs. (key : List ℕ) → get (database_of pairs.items) key ≡ committed_at self.now.spots key) }
    {
        slots::committed_pairs(alloc, &self.table)
    }

    /// A copy of the slot's content; an error if an allocation fails.
    pub(crate) fn copy(&self, alloc: Global, id: SlotId) -> Result<Option<Value>, AllocError>
        requires there { has_spot self.now.spots id ≡ true }
        ensures { IfOk result (λ copy. copy ≡ of_spot (λ slot. slot.live) self.now.spots id) }
    {
        copy_content(alloc, &self.table.get(id).live)
    }

    /// The slot's content.
    pub(crate) fn live(&self, id: SlotId) -> Option<&Value>
        requires there { has_spot self.now.spots id ≡ true }
        ensures { option_copied result ≡ of_spot (λ slot. slot.live) self.now.spots id }
    {
        self.table.get(id).live.as_ref()
    }

    /// A copy of the slot's content, if a write of a transaction of the class keeps one; else `None`. An error if an allocation fails.
    pub(crate) fn copy_to_keep(
        &self,
        alloc: Global,
        id: SlotId,
        point: Point,
        class: Class,
    ) -> Result<Option<Value>, AllocError>
        requires there { has_spot self.now.spots id ≡ true }
        ensures { IfOk result (λ copy. copy ≡ of_spot (copy_kept point class) self.now.spots id) }
    {
        let side = self.sets.open_side();
        pc_slots::copy_to_keep(alloc, self.table.get(id), Stage { side, point }, class)
    }

    /// A box in which nothing is kept yet, for a write; an error if an allocation fails.
    pub(crate) fn room(&mut self, alloc: Global) -> Result<Box<Aside>, AllocError>
        ensures room { IfOk result (λ room. room.value ≡ nothing_aside) }
        ensures same { self.new ≡ self.old }
    {
        self.spares.take_out(alloc)
    }

    /// Takes back a box that no write needs.
    pub(crate) fn put_back(&mut self, room: Box<Aside>)
        requires { room.value ≡ nothing_aside }
        ensures { self.new ≡ self.old }
    {
        self.spares.put_back(room);
    }

    /// A slot for the key, which has none: it keeps nothing, and there is no request there. It is refused with `Full` if there are as many
    /// slots as there may be, and otherwise only if an allocation failed; then nothing changed.
    pub(crate) fn make(&mut self, alloc: Global, key: &Key) -> Result<SlotId, Refusal>
        requires new { slot_number_of self.old.spots key.now ≡ None }
        ensures made { IfOk result (λ id. self.new ≡ record self.old { spots = spots_with (new_spot id key.now) self.old.spots }) }
        ensures fresh { IfOk result (λ id. has_spot self.old.spots id ≡ false) }
        ensures there { IfOk result (λ id. has_spot self.new.spots id ≡ true) }
        ensures room { IfOk result (λ id. (length self.old.spots == self.old.capacity) ≡ false) }
        ensures refusal { IfErr result (λ e. e ≡ (if length self.old.spots == self.old.capacity then Refusal.Full else Refusal.OutOfMemory)) }
        ensures same { OnErr result (self.new ≡ self.old) }
        ensures whole { IsFloorWhole self.new }
    {
        slots::make(alloc, &mut self.table, key)
    }

    /// Puts the write into the slot.
    pub(crate) fn put(&mut self, id: SlotId, point: Point, write: Writing)
        requires there { has_spot self.old.spots id ≡ true }
        requires room { write.room.value ≡ nothing_aside }
        ensures put { self.new ≡ with_spot (with_slot_changed (put_slot point write.author.transaction write.author.class write.copy write.value)) id self.old }
        ensures whole { IsFloorWhole self.new }
    {
        let side = self.sets.open_side();
        slots::put_at(
            &mut self.table,
            &mut self.spares,
            Stage { side, point },
            id,
            write,
        );
    }

    /// Commits the write in the slot; its key goes to the end of the open set if it isn't in it.
    pub(crate) fn settle(&mut self, id: SlotId, point: Point)
        requires there { has_spot self.old.spots id ≡ true }
        ensures settled { self.new ≡ record (with_spot (with_slot_changed (settled point)) id self.old) { opened = self.old.opened ++ newly_opened self.old.spots id } }
        ensures whole { IsFloorWhole self.new }
    {
        slots::settle_slot(&mut self.table, &mut self.sets, &mut self.spares, id, point);
    }

    /// Undoes the write in the slot.
    pub(crate) fn undo(&mut self, id: SlotId, point: Point)
        requires there { has_spot self.old.spots id ≡ true }
        ensures undone { self.new ≡ with_spot (with_slot_changed (undone point)) id self.old }
        ensures whole { IsFloorWhole self.new }
    {
        let side = self.sets.open_side();
        slots::undo_slot(&mut self.table, &mut self.spares, Stage { side, point }, id);
    }

    /// The slot is free if nothing keeps it.
    pub(crate) fn tidy(&mut self, id: SlotId)
        requires there { has_spot self.old.spots id ≡ true }
        ensures tidied { self.new ≡ record self.old { spots = tidied id self.old.spots } }
        ensures whole { IsFloorWhole self.new }
    {
        let side = self.sets.open_side();
        let is_requested = self.locks.has_request(&self.table, id);
        if !pc_slots::is_kept(self.table.get(id), side, is_requested) {
            drop(self.table.remove(id));
        }
    }

    /// The open set is closed, and another one begins; the closed one has to be empty. No slot is looked at.
    pub(crate) fn close(&mut self)
        requires none { self.old.closed ≡ [] }
        ensures closed { self.new ≡ record self.old { spots = map (with_slot_changed closed_slot) self.old.spots; opened = []; closed = self.old.opened } }
        ensures whole { IsFloorWhole self.new }
    {
        self.sets.close(&self.table);
    }

    /// How many keys are in the closed set.
    pub(crate) fn closed_len(&self) -> u32
        ensures { result ≡ length self.now.closed }
    {
        self.sets.closed_len(&self.table)
    }

    /// The first key of the closed set, with what it has at the point; `None` if the set is empty.
    pub(crate) fn first_closed(&self) -> Option<(&Key, Option<&Value>)>
        ensures { option_map content_behind result ≡ first_of_closed self.now.spots self.now.closed }
    {
        match self.sets.first_closed(&self.table) {
            Some(id) => {
                let side = self.sets.open_side();
                let pinned = pc_slots::pinned_of(self.table.get(id), side);
                Some((self.table.key(id), pinned))
            }
            None => None,
        }
    }

    /// Takes the first key of the closed set out of it, and returns its slot, which keeps no version aside any more; `None` if the set is
    /// empty.
    pub(crate) fn take_first(&mut self) -> Option<SlotId>
        ensures taken { IfSome result (TakesFirstSpot self.old self.new) }
        ensures none { IfNone result ((self.old.closed ≡ []) × (self.new ≡ self.old)) }
        ensures whole { IsFloorWhole self.new }
    {
        let side = self.sets.open_side();
        match self.sets.pop_closed(&self.table) {
            Some(id) => {
                slots::mark_taken(&mut self.table, &mut self.spares, side, id);
                Some(id)
            }
            None => None,
        }
    }

    /// The outcome that `request` would have.
    pub(crate) fn outcome(&self, transaction: TxnNo, id: SlotId, mode: Mode) -> Outcome
        requires there { has_spot self.now.spots id ≡ true }
        ensures { result ≡ outcome (queue_at_slot self.now.spots id) transaction mode }
    {
        self.locks.outcome(&self.table, transaction, id, mode)
    }

    /// Answers the transaction's request of the slot, and puts it into the queue unless it dies. It fails only if an allocation fails, and
    /// then nothing changed.
    pub(crate) fn request(
        &mut self,
        transaction: TxnNo,
        id: SlotId,
        mode: Mode,
    ) -> Result<Outcome, AllocError>
        requires there { has_spot self.old.spots id ≡ true }
        requires ready { waits_anywhere self.old.spots transaction ≡ false }
        ensures told { IfOk result (λ answer. answer ≡ outcome (queue_at_slot self.old.spots id) transaction mode) }
        ensures asked { IfOk result (λ answer. self.new ≡ with_spot (asked transaction mode answer) id self.old) }
        ensures same { OnErr result (self.new ≡ self.old) }
        ensures whole { IsFloorWhole self.new }
    {
        self.locks.request(&mut self.table, transaction, id, mode)
    }

    /// Takes the first request of the transaction away, and returns its slot; `None` if it has none.
    pub(crate) fn release_one(&mut self, transaction: TxnNo) -> Option<SlotId>
        ensures gone { IfSome result (λ id. (stands_at self.old.spots id transaction ≡ true) × (self.new ≡ with_spot (let_go transaction) id self.old)) }
        ensures none { IfNone result ((self.new ≡ self.old) × (stands_anywhere self.old.spots transaction ≡ false)) }
        ensures whole { IsFloorWhole self.new }
    {
        self.locks.release_one(&mut self.table, transaction)
    }
}
