//! The table itself.
ghost use Rattle.std.specs.Prelude.{◌≡◌, ◌≤◌, ◌==◌, [], true, length, IfOk, IfErr, IfSome, OnErr, Err, Some, None, option_map};
ghost use Rattle.std.specs.Borrow.{sem};
ghost use Rattle.pc_table.specs.Rows.{slot_of, in_slot, without_slot, pair_behind, with_record, with_row, why_refused, HasRow, IsNewSlot, IsTableFull, AreInSlots};
ghost use Rattle.pc_table.specs.Lending.{LendsRow};

use crate::entry::TableEntry;
use pc_arena::Arena;
use pc_chain::Blank;
use pc_index::Index;
use pc_types::{Key, MOST_KEYS, Refusal, SlotId};
use std::alloc::{AllocError, Global};
use std::hash::RandomState;
use std::marker::Model;

/// Records by key, each in a slot of its own, whose number is below the capacity. A key is looked for along one hash chain; a
/// slot's record is reached directly, and stays where it is until its key is removed. The table is seen as its rows, which
/// ascend by key: each has a key, its slot, and its record.
///
/// All memory for slots is taken when the table is made. Only a new key of more than 16 bytes of its own takes memory.
#[derive(Drop)]
pub struct Table<T> {
    entries: Arena<TableEntry<T>>,
    index: Index,
}

impl<T> Model for Table<T> {
    ghost use Rattle.pc_table.specs.Rows.{Contents};

    ghost Value = { Contents T };

    ghost use Rattle.pc_table.specs.Entries.{contents_of, AreEntriesKept};

    ghost view = { λ a. contents_of a.entries.items };

    ghost invariant = { λ a. AreEntriesKept a.entries a.index };
}

impl<T: Blank> Table<T> {
    /// A table for at most the given number of keys, itself at most 2^20; none has a row yet. It fails only if an allocation
    /// fails. The seed is that of the hashes of keys: a random 128-bit number (`RandomState::new`), so that a client that picks
    /// the keys can't make them share a chain.
    pub fn new(alloc: Global, capacity: u32, seed: RandomState) -> Result<Table<T>, AllocError>
        requires { capacity ≤ MOST_KEYS }
        ensures { IfOk result (λ table. table ≡ record { capacity = capacity; rows = [] }) }
    {
        let entries = Arena::with_capacity(alloc, capacity)?;
        let index = Index::new(alloc, &entries, seed)?;
        Ok(Table { entries, index })
    }

    /// The number of keys that may have a row. Each slot has a number below it.
    pub fn capacity(&self) -> u32
        ensures count { result ≡ self.now.capacity }
        ensures slots { AreInSlots self.now }
    {
        self.entries.capacity()
    }

    /// Whether as many keys have a row as may have one.
    pub fn is_full(&self) -> bool
        ensures full { result ≡ (length self.now.rows == self.now.capacity) }
        ensures slots { AreInSlots self.now }
    {
        self.entries.is_full()
    }

    /// The slot of the key; `None` if the key has no row.
    pub fn find(&self, key: &Key) -> Option<SlotId>
        ensures slot { result ≡ slot_of self.now.rows key.now }
        ensures row { IfSome result (HasRow self.now.rows) }
        ensures slots { AreInSlots self.now }
    {
        self.index.find(&self.entries, key)
    }

    /// The slot of the key, which is looked for in the given slot first: what `find` gives, without a search if it is there.
    pub fn find_near(&self, key: &Key, near: Option<SlotId>) -> Option<SlotId>
        ensures slot { result ≡ slot_of self.now.rows key.now }
        ensures row { IfSome result (HasRow self.now.rows) }
        ensures slots { AreInSlots self.now }
    {
        match near {
            Some(id) if self.is_in(key, id) => near,
            _ => self.find(key),
        }
    }

    // Whether the key has the slot.
    fn is_in(&self, key: &Key, id: SlotId) -> bool
        ensures own { result ≡ true → (slot_of self.now.rows key.now ≡ Some id) × HasRow self.now.rows id }
        ensures slots { AreInSlots self.now }
    {
        match self.get_if_taken(id) {
            Some((found, _)) => found.is(key),
            None => false,
        }
    }

    /// The key of the slot, which has a row.
    pub fn key(&self, id: SlotId) -> &Key
        requires { HasRow self.now.rows id }
        ensures key { option_map (λ pair. pair.0) (in_slot self.now.rows id) ≡ Some result.now }
        ensures slots { AreInSlots self.now }
    {
        &self.entries.get(id).key
    }

    /// The record in the slot, which has a row.
    pub fn get(&self, id: SlotId) -> &T
        requires { HasRow self.now.rows id }
        ensures record_of { option_map (λ pair. pair.1) (in_slot self.now.rows id) ≡ Some result.now }
        ensures slots { AreInSlots self.now }
    {
        &self.entries.get(id).item
    }

    /// The record in the slot, which has a row, to be changed in place. Nothing else changes.
    pub fn get_mut(&mut self, id: SlotId) -> &mut T
        requires { HasRow self.old.rows id }
        ensures* lends { sem 𝓛 (LendsRow T.row self.entry id result) }
        ensures record_of { option_map (λ pair. pair.1) (in_slot self.old.rows id) ≡ Some result.now }
        ensures slots { AreInSlots self.old }
    {
        self.entries.get_mut(id).item_mut()
    }

    /// The key and the record in the slot; `None` if the slot has no row. So a caller that asks for each slot below the capacity
    /// sees each row once.
    pub fn get_if_taken(&self, id: SlotId) -> Option<(&Key, &T)>
        ensures pair { option_map pair_behind result ≡ in_slot self.now.rows id }
        ensures slots { AreInSlots self.now }
    {
        match self.entries.get_if_taken(id) {
            Some(entry) => Some(entry.pair()),
            None => None,
        }
    }

    /// The slot of a key that has no row and gets one, in a free slot, with a blank record. Returns `Full` if and only if as
    /// many keys have a row as may; otherwise the only error is `OutOfMemory`, if a key of more than 16 bytes of its own can't
    /// be copied; the table is then as it was.
    pub fn make(&mut self, alloc: Global, key: &Key) -> Result<SlotId, Refusal>
        requires { slot_of self.old.rows key.now ≡ None }
        ensures made { IfOk result (λ id. self.new ≡ with_row self.old key.now id T.blank) }
        ensures fresh { IfOk result (IsNewSlot self.old) }
        ensures slot { IfOk result (λ id. slot_of self.new.rows key.now ≡ Some id) }
        ensures row { IfOk result (HasRow self.new.rows) }
        ensures changed { IfOk result (λ id. (x : T) → with_record self.new id x ≡ with_row self.old key.now id x) }
        ensures full { IsTableFull self.old → result ≡ Err Refusal.Full }
        ensures refusal { IfErr result (λ e. e ≡ why_refused self.old) }
        ensures err { OnErr result (self.new ≡ self.old) }
        ensures before { AreInSlots self.old }
        ensures after { AreInSlots self.new }
    {
        self.index.make(&mut self.entries, alloc, key)
    }

    /// Takes away the row in the slot, which has one, and returns its record. The slot is free from then on. It allocates no
    /// memory.
    pub fn remove(&mut self, id: SlotId) -> T
        requires { HasRow self.old.rows id }
        ensures given { option_map (λ pair. pair.1) (in_slot self.old.rows id) ≡ Some result }
        ensures rows { self.new ≡ without_slot self.old id }
        ensures before { AreInSlots self.old }
        ensures after { AreInSlots self.new }
    {
        self.index.remove(&mut self.entries, id).into_item()
    }
}
