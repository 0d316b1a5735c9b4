//! The keeper of records with keys in slots.
ghost use Rattle.std.specs.Prelude.{◌≡◌, ◌≢◌, ◌≤◌, ℕ, List, Err, Some, None, true, length, option_map, slice_set, IfOk, IfErr, OnErr, if◌then◌else◌};
ghost use Rattle.pc_chain.specs.Slots.{Slots, at, is_full, with_item, IsTaken, IsFree};

use crate::links::Links;
use pc_types::{Key, MOST_KEYS, Refusal, SlotId};
use std::alloc::Global;

/// A keeper of records in slots, which are numbered from 0; each record has a key, and a link of its own, in the word that the
/// marker `K` names. A slot without a record is free, and its link is the keeper's own.
pub trait KeyedSlots<K>: Links<K, Id = SlotId> {
    /// A record.
    type Item;

    /// The records by slot, and the links.
    ghost slots_of: { Self → Slots Self.Item };

    /// The key of a record.
    ghost key_of: { Self.Item → List ℕ };

    /// The record of a key that has nothing else yet.
    ghost blank_of: { List ℕ → Self.Item };

    /// The number of slots, taken and free.
    fn slot_count(&self) -> u32
        ensures count { result ≡ length (slots_of self.now).items }
        ensures most { result ≤ MOST_KEYS };

    /// The key of the record in the slot, which has one.
    fn key_in(&self, id: SlotId) -> &Key
        requires { IsTaken (slots_of self.now).items id }
        ensures key { option_map key_of (at (slots_of self.now).items id) ≡ Some result.now }
        ensures most { length (slots_of self.now).items ≤ MOST_KEYS };

    /// Puts the blank record of the key into a free slot and returns the slot. Returns `Full` if and only if no slot is free;
    /// otherwise the only error is `OutOfMemory`, if the record can't be made; all is then as it was.
    fn make_blank(&mut self, alloc: Global, key: &Key) -> Result<SlotId, Refusal>
        ensures free { IfOk result (λ id. IsFree (slots_of self.old).items id) }
        ensures made { IfOk result (λ id. slots_of self.new ≡ with_item (slots_of self.old) id (Some (blank_of key.now))) }
        ensures full { is_full (slots_of self.old).items ≡ true → result ≡ Err Refusal.Full }
        ensures refusal { IfErr result (λ e. e ≡ (if is_full (slots_of self.old).items then Refusal.Full else Refusal.OutOfMemory)) }
        ensures err { OnErr result (self.new ≡ self.old) };

    /// Takes the record out of the slot, which has one, and is free from then on. Other records stay, and so do the links of the
    /// slots that have one.
    fn free(&mut self, id: SlotId) -> Self::Item
        requires { IsTaken (slots_of self.old).items id }
        ensures given { at (slots_of self.old).items id ≡ Some result }
        ensures items { (slots_of self.new).items ≡ slice_set (slots_of self.old).items id None }
        ensures links { (other : ℕ) → other ≢ id → IsTaken (slots_of self.old).items other → at (slots_of self.new).links other ≡ at (slots_of self.old).links other };

    /// A blank record has the key that it is of.
    ghost blank_key: { (key : List ℕ) → key_of (blank_of key) ≡ key };

    /// The slots that have a record have links, and no others.
    ghost taken_has: { (a : Self) (id : ℕ) → IsTaken (slots_of a).items id → Self.has a id };

    ghost has_taken: { (a : Self) (id : ℕ) → Self.has a id → IsTaken (slots_of a).items id };

    /// The links are those of the slots.
    ghost leads: { (a : Self) (id : ℕ) → Self.next_of a id ≡ at (slots_of a).links id };

    /// To set a link leaves each record.
    ghost keeps: { (a b : Self) → Self.beside a b → (slots_of b).items ≡ (slots_of a).items };
}
