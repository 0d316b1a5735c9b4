//! The index itself.
ghost use Rattle.std.specs.Prelude.{◌≡◌, ◌<◌, true, length, ℕ, IfOk, IfErr, OnErr, Ok, Err, Some, None, if◌then◌else◌, slice_set};
ghost use Rattle.std.specs.Int.{IsNextPowerOfTwo};
ghost use Rattle.pc_chain.specs.Slots.{at, is_full, IsTaken, AllFree};
ghost use Rattle.pc_index.specs.Indexes.{bucket_of, IsIndex};
ghost use Rattle.pc_index.specs.Keys.{IsSlotOf, IsAbsent, KeepsOtherSlots, IsRecordMade};

use crate::hashing::hash_of;
use pc_chain::{KeyedSlots, Stack};
use pc_types::{Key, Refusal, SlotId};
use std::alloc::{AllocError, Global};
use std::hash::RandomState;
use std::marker::Model;

/// Finds the slot of a key's record. The index has a chain for each place that a hash can give, and these go through the links of
/// the slots. Whoever keeps the slots (`KeyedSlots`) is handed in at each call. `IsIndex` says that an index is one of these
/// slots: each record is found by its key, and no two records have the same one. A record may be changed in its slot as long as
/// its key stays, but slots are taken and freed by the index alone.
///
/// A find goes along one chain, from the record that was made last. There are as many chains as the least power of two at or
/// above the number of slots, and the hash is SipHash under a seed of two secret words, so a client that picks the keys can't
/// tell which share a chain.
#[derive(Drop)]
pub struct Index {
    chains: Vec<Stack<SlotId>>,
    seed: RandomState,
}

impl Model for Index {
    ghost use Rattle.std.specs.Prelude.{◌<◌, length};
    ghost use Rattle.pc_index.specs.Indexes.{IndexView};

    ghost Value = { IndexView };

    ghost view = { λ a. record { chains = a.chains.items; seed = a.seed } };

    ghost invariant = { λ a. 0 < length a.chains.items };
}

impl Index {
    /// The index of slots of which none has a record. All its memory is taken here, and it fails only if an allocation fails. The
    /// seed is the store's own: a random 128-bit number of the operating system (`RandomState::new`), which no answer shows.
    pub fn new<K, S: KeyedSlots<K>>(
        alloc: Global,
        slots: &S,
        seed: RandomState,
    ) -> Result<Index, AllocError>
        requires { AllFree (S.slots_of slots.now).items }
        ensures index { IfOk result (λ index. IsIndex S.key_of (S.slots_of slots.now) index) }
        ensures chains { IfOk result (λ index. IsNextPowerOfTwo (length (S.slots_of slots.now).items) (length index.chains)) }
    {
        let count = slots.slot_count().next_power_of_two();
        let chains = vec![in alloc; Stack::new(); count as usize]?;
        Ok(Index { chains, seed })
    }

    // The place of the key.
    fn place(&self, key: &Key) -> usize
        ensures place { result ≡ bucket_of self.now key.now }
        ensures within { result < length self.now.chains }
    {
        hash_of(&self.seed, key) as usize & self.chains.len() - 1
    }

    /// The slot of the record that has the key; `None` if no record has it.
    pub fn find<K, S: KeyedSlots<K>>(&self, slots: &S, key: &Key) -> Option<SlotId>
        requires { IsIndex S.key_of (S.slots_of slots.now) self.now }
        ensures { IsSlotOf S.key_of (S.slots_of slots.now).items key.now result }
    {
        let mut at = self.chains[self.place(key)].first::<K, S>(slots);
        for _ in 0..slots.slot_count() {
            let Some(id) = at else {
                return None;
            };
            if slots.key_in(id).is(key) {
                return Some(id);
            }
            at = slots.next(id);
        }
        None
    }

    /// The slot of the record that has the key; if none has it, a blank one is made in a free slot. Each other key keeps its
    /// slot. Returns `Full` if and only if no record has the key and no slot is free; otherwise the only error is `OutOfMemory`,
    /// if no record has it and the blank one can't be made; slots and index are then as they were.
    pub fn find_or_make<K, S: KeyedSlots<K>>(
        &mut self,
        slots: &mut S,
        alloc: Global,
        key: &Key,
    ) -> Result<SlotId, Refusal>
        requires { IsIndex S.key_of (S.slots_of slots.old) self.old }
        ensures slot { IfOk result (λ id. IsSlotOf S.key_of (S.slots_of slots.new).items key.now (Some id)) }
        ensures found { (id : ℕ) → IsSlotOf S.key_of (S.slots_of slots.old).items key.now (Some id) → (result ≡ Ok id) × (slots.new ≡ slots.old) × (self.new ≡ self.old) }
        ensures made { IsAbsent S.key_of (S.slots_of slots.old).items key.now → IfOk result (λ id. IsRecordMade (S.blank_of key.now) (S.slots_of slots.old).items (S.slots_of slots.new).items id) }
        ensures others { KeepsOtherSlots S.key_of key.now (S.slots_of slots.old).items (S.slots_of slots.new).items }
        ensures index { IsIndex S.key_of (S.slots_of slots.new) self.new }
        ensures full { IsAbsent S.key_of (S.slots_of slots.old).items key.now → is_full (S.slots_of slots.old).items ≡ true → result ≡ Err Refusal.Full }
        ensures refusal { IfErr result (λ e. IsAbsent S.key_of (S.slots_of slots.old).items key.now × (e ≡ (if is_full (S.slots_of slots.old).items then Refusal.Full else Refusal.OutOfMemory))) }
        ensures err { OnErr result ((slots.new ≡ slots.old) × (self.new ≡ self.old)) }
    {
        match self.find(&*slots, key) {
            Some(id) => Ok(id),
            None => self.make(slots, alloc, key),
        }
    }

    /// The slot of the blank record of a key that no record has, which goes into a free slot; each other key keeps its slot.
    /// Returns `Full` if and only if no slot is free; otherwise the only error is `OutOfMemory`, if the blank record can't be
    /// made; slots and index are then as they were.
    pub fn make<K, S: KeyedSlots<K>>(
        &mut self,
        slots: &mut S,
        alloc: Global,
        key: &Key,
    ) -> Result<SlotId, Refusal>
        requires index { IsIndex S.key_of (S.slots_of slots.old) self.old }
        requires absent { IsAbsent S.key_of (S.slots_of slots.old).items key.now }
        ensures made { IfOk result (λ id. IsRecordMade (S.blank_of key.now) (S.slots_of slots.old).items (S.slots_of slots.new).items id) }
        ensures others { KeepsOtherSlots S.key_of key.now (S.slots_of slots.old).items (S.slots_of slots.new).items }
        ensures index { IsIndex S.key_of (S.slots_of slots.new) self.new }
        ensures full { is_full (S.slots_of slots.old).items ≡ true → result ≡ Err Refusal.Full }
        ensures refusal { IfErr result (λ e. e ≡ (if is_full (S.slots_of slots.old).items then Refusal.Full else Refusal.OutOfMemory)) }
        ensures err { OnErr result ((slots.new ≡ slots.old) × (self.new ≡ self.old)) }
    {
        let id = slots.make_blank(alloc, key)?;
        let place = self.place(key);
        self.chains[place].push_front::<K, S>(slots, id);
        Ok(id)
    }

    /// Takes the record out of the slot, which has one, and returns it. The slot is free from then on, and no record has the key;
    /// each other key keeps its slot and its record. It allocates no memory.
    pub fn remove<K, S: KeyedSlots<K>>(&mut self, slots: &mut S, id: SlotId) -> S::Item
        requires index { IsIndex S.key_of (S.slots_of slots.old) self.old }
        requires taken { IsTaken (S.slots_of slots.old).items id }
        ensures given { at (S.slots_of slots.old).items id ≡ Some result }
        ensures items { (S.slots_of slots.new).items ≡ slice_set (S.slots_of slots.old).items id None }
        ensures gone { IsAbsent S.key_of (S.slots_of slots.new).items (S.key_of result) }
        ensures others { KeepsOtherSlots S.key_of (S.key_of result) (S.slots_of slots.old).items (S.slots_of slots.new).items }
        ensures index { IsIndex S.key_of (S.slots_of slots.new) self.new }
    {
        let place = self.place(slots.key_in(id));
        let mut chain = self.chains[place];
        chain.unlink::<K, S>(slots, id);
        self.chains[place] = chain;
        slots.free(id)
    }
}
