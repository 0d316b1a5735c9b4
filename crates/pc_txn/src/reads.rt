//! A read set: the first read of each key that was not written.
ghost use Rattle.std.specs.Prelude.{◌≡◌, ◌<◌, ◌≤◌, ◌+◌, ◌++◌, [], length, vec_len, vec_capacity, slice_get, IsOk, OnOk, OnErr, IfOk, IfErr, Some};
ghost use Rattle.pc_model.specs.Database.{key_cmp};
ghost use Rattle.pc_model.specs.Places.{IsAt, IsGap};
ghost use Rattle.pc_model.specs.Receipts.{is_read};
ghost use Rattle.pc_txn.specs.Notes.{noting};
ghost use Rattle.pc_txn.specs.Orders.{key_at_position, entries, IsOrder};
ghost use Rattle.pc_txn.specs.Sets.{Roomy, read_keys};

use crate::order;
use pc_types::{Key, Refusal, Value};
use std::alloc::{AllocError, Global};
use std::cmp::Ordering;
use std::marker::Model;

/// The reads of one transaction of keys that it had not written: of each key the first read, in their order, with the value that
/// it answered, or nothing. A key is found by a binary search.
#[derive(Drop)]
pub struct ReadSet {
    reads: Vec<(Key, Option<Value>)>,
    order: Vec<usize>,
}

impl Model for ReadSet {
    ghost use Rattle.std.specs.Prelude.{◌-◌, min, vec_len, vec_capacity};
    ghost use Rattle.pc_model.specs.Receipts.{Read};
    ghost use Rattle.pc_txn.specs.Orders.{IsOrder};
    ghost use Rattle.pc_txn.specs.Sets.{Roomy, read_keys};

    ghost Value = { Roomy Read };

    ghost view = { λ a. record { items = a.reads.items; room = min (vec_capacity a.reads - vec_len a.reads) (vec_capacity a.order - vec_len a.order) } };

    ghost invariant = { λ a. IsOrder (read_keys a.reads.items) a.order.items };
}

impl ReadSet {
    /// No reads. It allocates no memory.
    pub fn new(alloc: Global) -> ReadSet
        ensures { result.items ≡ [] }
    {
        ReadSet {
            reads: Vec::new(alloc),
            order: Vec::new(alloc),
        }
    }

    /// The reads, in their order.
    pub fn as_slice(&self) -> &[(Key, Option<Value>)]
        ensures { result.now ≡ self.now.items }
    {
        self.reads.as_slice()
    }

    /// The number of reads.
    pub fn len(&self) -> usize
        ensures { result ≡ length self.now.items }
    {
        self.reads.len()
    }

    /// Whether the key is read.
    pub fn has(&self, key: &Key) -> bool
        ensures { result ≡ is_read self.now.items key.now }
    {
        position(self.reads.as_slice(), self.order.as_slice(), key).is_ok()
    }

    /// Makes room for a read. It fails only if an allocation fails, never if there is room, and the reads stay.
    pub fn reserve(&mut self) -> Result<(), AllocError>
        ensures room { OnOk result (0 < self.new.room) }
        ensures at_hand { 0 < self.old.room → IsOk result }
        ensures same { self.new.items ≡ self.old.items }
    {
        self.reads.reserve(1)?;
        self.order.reserve(1)?;
        Ok(())
    }

    /// Notes the read of a key, for which there is room, if it is not of an own write and the key was not read before. It gives
    /// the place of the read if it is noted, and otherwise gives back what was read. It allocates no memory.
    pub fn note(
        &mut self,
        own: bool,
        key: Key,
        content: Option<Value>,
    ) -> Result<usize, Option<Value>>
        requires { 0 < self.old.room }
        ensures reads { self.new.items ≡ noting own self.old.items key content }
        ensures noted { IfOk result (λ place. slice_get self.new.items place ≡ Some (key, content)) }
        ensures other { IfErr result (λ back. back ≡ content) }
    {
        if own {
            return Err(content);
        }
        match position(self.reads.as_slice(), self.order.as_slice(), &key) {
            Ok(_) => Err(content),
            Err(at) => {
                let place = self.reads.len();
                order::add(&mut self.order, at, place);
                self.reads.push_reserved((key, content));
                Ok(place)
            }
        }
    }

    /// Notes the read of a key, for which it makes room, if it is not of an own write and the key was not read before. Refuses
    /// with `OutOfMemory` alone, and the reads are then as they were.
    pub fn note_read(&mut self, own: bool, key: Key, content: Option<Value>) -> Result<(), Refusal>
        ensures reads { OnOk result (self.new.items ≡ noting own self.old.items key content) }
        ensures refusal { IfErr result (λ e. e ≡ Refusal.OutOfMemory) }
        ensures err { OnErr result (self.new.items ≡ self.old.items) }
    {
        self.reserve()?;
        match self.note(own, key, content) {
            Ok(_) | Err(_) => Ok(()),
        }
    }

    /// Takes all reads off.
    pub fn clear(&mut self)
        ensures { self.new.items ≡ [] }
    {
        self.reads.clear();
        self.order.clear();
    }

    /// Moves all reads after the list's items, for which the list has room. What memory the set has it keeps for later reads, and
    /// it takes none.
    pub fn move_into(&mut self, list: &mut Vec<(Key, Option<Value>)>)
        requires { vec_len list.old + length self.old.items ≤ vec_capacity list.old }
        ensures list { list.new.items ≡ list.old.items ++ self.old.items }
        ensures none_left { self.new.items ≡ [] }
    {
        if list.append(&mut self.reads).is_err() {
            unreachable!();
        }
        self.order.clear();
    }
}

// The order of the key at the place and this one; past the last place there are no bytes.
fn compare_at(reads: &[(Key, Option<Value>)], place: usize, key: &Key) -> Ordering
    ensures { result ≡ key_cmp (key_at_position (read_keys reads.now) place) key.now }
{
    match reads.get(place) {
        Some(read) => read.0.compare(key),
        None => (&[] as &[u8]).cmp(&key.as_bytes()),
    }
}

// The place of the key in the order, or else the place where it would go: a binary search.
fn position(reads: &[(Key, Option<Value>)], order: &[usize], key: &Key) -> Result<usize, usize>
    requires { IsOrder (read_keys reads.now) order.now }
    ensures at { IfOk result (IsAt (entries (read_keys reads.now) order.now) key.now) }
    ensures gap { IfErr result (IsGap (entries (read_keys reads.now) order.now) key.now) }
{
    order.binary_search_by(|place| compare_at(reads, *place, key))
}
