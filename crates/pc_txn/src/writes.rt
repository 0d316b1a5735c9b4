//! A write set: of each key all its changes, as one.
ghost use Rattle.std.specs.Prelude.{◌≡◌, ◌<◌, ◌≤◌, ◌+◌, ◌++◌, [], true, length, is_some, IsOk, OnOk, OnErr, IfOk, IfErr, Err, if◌then◌else◌, vec_len, vec_capacity};
ghost use Rattle.pc_model.specs.Database.{key_cmp, with_write, written};
ghost use Rattle.pc_model.specs.DistinctWrites.{AreDistinct};
ghost use Rattle.pc_model.specs.Places.{IsAt, IsGap};
ghost use Rattle.pc_txn.specs.Orders.{key_at_position, entries, IsOrder};
ghost use Rattle.pc_txn.specs.Sets.{Roomy, written_keys, change_at_position, merged_at, is_one_more};
ghost use Rattle.pc_types.specs.Changes.{can_add, CanMerge};

use crate::order;
use pc_types::{Key, MOST_WRITES, Refusal, Write};
use std::alloc::{AllocError, Global};
use std::cmp::Ordering;
use std::marker::Model;

/// The writes of one transaction: of each key all its changes as one, in the order of first writes. A key is found by a binary
/// search.
#[derive(Drop)]
pub struct WriteSet {
    writes: Vec<Write>,
    order: Vec<usize>,
}

impl Model for WriteSet {
    ghost use Rattle.std.specs.Prelude.{◌-◌, min, vec_len, vec_capacity};
    ghost use Rattle.pc_types.specs.declared.Write.{Write};
    ghost use Rattle.pc_model.specs.DistinctWrites.{AreDistinct};
    ghost use Rattle.pc_txn.specs.Orders.{IsOrder};
    ghost use Rattle.pc_txn.specs.Sets.{Roomy, written_keys};

    ghost Value = { Roomy Write };

    ghost view = { λ a. record { items = a.writes.items; room = min (vec_capacity a.writes - vec_len a.writes) (vec_capacity a.order - vec_len a.order) } };

    ghost invariant = { λ a. IsOrder (written_keys a.writes.items) a.order.items × AreDistinct a.writes.items };
}

impl WriteSet {
    /// No writes. It allocates no memory.
    pub fn new(alloc: Global) -> WriteSet
        ensures { result.items ≡ [] }
    {
        WriteSet {
            writes: Vec::new(alloc),
            order: Vec::new(alloc),
        }
    }

    /// The writes: of each key one, in the order of first writes.
    pub fn as_slice(&self) -> &[Write]
        ensures writes { result.now ≡ self.now.items }
        ensures distinct { AreDistinct result.now }
    {
        self.writes.as_slice()
    }

    /// The number of keys written.
    pub fn len(&self) -> usize
        ensures { result ≡ length self.now.items }
    {
        self.writes.len()
    }

    /// Whether the key is written.
    pub fn has(&self, key: &Key) -> bool
        ensures { result ≡ is_some (written self.now.items key.now) }
    {
        position(self.writes.as_slice(), self.order.as_slice(), key).is_ok()
    }

    /// Whether a write of the key would be of a 257th key.
    pub fn is_full_for(&self, key: &Key) -> bool
        ensures { result ≡ is_one_more self.now.items key.now }
    {
        self.writes.len() == MOST_WRITES && !self.has(key)
    }

    /// Makes room for a write. It fails only if an allocation fails, never if there is room, and the writes stay.
    pub fn reserve(&mut self) -> Result<(), AllocError>
        ensures room { OnOk result (0 < self.new.room) }
        ensures at_hand { 0 < self.old.room → IsOk result }
        ensures same { self.new.items ≡ self.old.items }
    {
        make_room(&mut self.writes)?;
        self.order.reserve(1)?;
        Ok(())
    }

    /// Whether an add to the key can be kept as one change with what is already written of it: the sum of two adds must have
    /// 64 bits.
    pub fn can_add(&self, key: &Key, delta: i64) -> bool
        ensures { result ≡ can_add (written self.now.items key.now) delta }
    {
        match position(self.writes.as_slice(), self.order.as_slice(), key) {
            Ok(at) => can_add_at(self.writes.as_slice(), self.order.as_slice()[at], delta),
            Err(_) => true,
        }
    }

    /// Notes a write, for which there is room: merged with the earlier write of its key, or else at the end. It allocates no
    /// memory.
    pub fn note(&mut self, alloc: Global, write: Write)
        requires room { 0 < self.old.room }
        requires merges { CanMerge (written self.old.items write.key) write.change }
        ensures { self.new.items ≡ with_write self.old.items write }
    {
        match position(self.writes.as_slice(), self.order.as_slice(), &write.key) {
            Ok(at) => merge_at(alloc, &mut self.writes, self.order.as_slice()[at], write),
            Err(at) => {
                order::add(&mut self.order, at, self.writes.len());
                self.writes.push_reserved(write);
            }
        }
    }

    /// Notes a write, for which it makes room: merged with the earlier write of its key, or else at the end. Refuses with
    /// `TooManyWrites` if and only if it would be of a 257th key, and otherwise only with `OutOfMemory`; the writes are then as
    /// they were.
    pub fn note_write(&mut self, alloc: Global, write: Write) -> Result<(), Refusal>
        requires merges { CanMerge (written self.old.items write.key) write.change }
        ensures noted { OnOk result (self.new.items ≡ with_write self.old.items write) }
        ensures full { is_one_more self.old.items write.key ≡ true → result ≡ Err Refusal.TooManyWrites }
        ensures refusal { IfErr result (λ e. e ≡ (if is_one_more self.old.items write.key then Refusal.TooManyWrites else Refusal.OutOfMemory)) }
        ensures err { OnErr result (self.new.items ≡ self.old.items) }
    {
        if self.is_full_for(&write.key) {
            return Err(Refusal::TooManyWrites);
        }
        self.reserve()?;
        self.note(alloc, write);
        Ok(())
    }

    /// Takes all writes off. What memory the set has it keeps for later writes.
    pub fn clear(&mut self)
        ensures items { self.new.items ≡ [] }
        ensures room { self.old.room ≤ self.new.room }
    {
        self.writes.clear();
        self.order.clear();
    }
}

// Makes room for a write: for the first one alone, since most transactions write one key, and then for more and more at a time.
fn make_room(writes: &mut Vec<Write>) -> Result<(), AllocError>
    ensures room { OnOk result (vec_len writes.new + 1 ≤ vec_capacity writes.new) }
    ensures at_hand { vec_len writes.old + 1 ≤ vec_capacity writes.old → IsOk result }
    ensures same { writes.new.items ≡ writes.old.items }
    ensures len { vec_len writes.new ≡ vec_len writes.old }
    ensures capacity { vec_capacity writes.old ≤ vec_capacity writes.new }
{
    if writes.is_empty() {
        writes.reserve_exact(1)
    } else {
        writes.reserve(1)
    }
}

// The order of the key at the place and this one; past the last place there are no bytes.
fn compare_at(writes: &[Write], place: usize, key: &Key) -> Ordering
    ensures { result ≡ key_cmp (key_at_position (written_keys writes.now) place) key.now }
{
    match writes.get(place) {
        Some(write) => write.key.compare(key),
        None => (&[] as &[u8]).cmp(&key.as_bytes()),
    }
}

// The place of the key in the order, or else the place where it would go: a binary search.
fn position(writes: &[Write], order: &[usize], key: &Key) -> Result<usize, usize>
    requires { IsOrder (written_keys writes.now) order.now }
    ensures at { IfOk result (IsAt (entries (written_keys writes.now) order.now) key.now) }
    ensures gap { IfErr result (IsGap (entries (written_keys writes.now) order.now) key.now) }
{
    order.binary_search_by(|place| compare_at(writes, *place, key))
}

// Whether an add can be kept as one change with the write at the place.
fn can_add_at(writes: &[Write], place: usize, delta: i64) -> bool
    requires { place < length writes.now }
    ensures { result ≡ can_add (change_at_position writes.now place) delta }
{
    writes[place].change.can_add(delta)
}

// A later write of its key is merged with the write at the place.
fn merge_at(alloc: Global, writes: &mut Vec<Write>, place: usize, later: Write)
    requires place { place < length writes.old.items }
    requires merges { CanMerge (change_at_position writes.old.items place) later.change }
    ensures { writes.new.items ≡ merged_at writes.old.items place later.change }
{
    writes[place].change.merge(alloc, later.change);
}
