//! The locks of all slots.
ghost use Rattle.std.specs.Prelude.{◌≡◌, ◌==◌, [], not, true, false, ℕ, length, IfOk, OnErr, IfSome, IfNone};
ghost use Rattle.pc_chain.specs.declared.chain.Chain.{Chain};
ghost use Rattle.pc_chain.specs.Chains.{IsEmpty};
ghost use Rattle.pc_model.specs.Locks.{outcome};
ghost use Rattle.pc_locks.specs.States.{queue_at, slots_of, first_in_list, is_waiting_in_state, IsRequestAnswered, IsReleased, AreAlike};
ghost use Rattle.pc_locks.specs.Keepers.{queues_of, lists_of, state_of, AreEnds, AreLocksSound};

use crate::keeper::QueueEnds;
use crate::table::RequestTable;
use pc_chain::Chain;
use pc_types::{Mode, Outcome, SlotId, TxnNo};
use std::alloc::{AllocError, Global};
use std::marker::Model;

/// The locks of slots, and what each transaction has requested. The ends of each slot's queue are kept by the keeper that is
/// given at each call; what is seen of the locks is read off both (`specs/Keepers`, `state_of`). As long as both are
/// consistent, the granted requests of each queue are in front and compatible, a slot is in a transaction's list if and only
/// if the transaction has a request in its queue, only the last slot of a list may be one that its transaction waits for, and
/// no transaction without a request has a list.
#[derive(Drop)]
pub struct Locks {
    table: RequestTable,
}

impl Model for Locks {
    ghost use Rattle.pc_locks.specs.Keepers.{KeptRequests};

    ghost Value = { KeptRequests };

    ghost view = { λ a. a.table };
}

impl Locks {
    /// Locks without a request. They are consistent with any ends of empty queues. It allocates no memory.
    pub fn new(alloc: Global) -> Locks
        ensures ends { (ends : ℕ → Chain ℕ) → ((slot : ℕ) → IsEmpty (ends slot)) → AreEnds ends result }
        ensures queues { (ends : ℕ → Chain ℕ) → ((slot : ℕ) → IsEmpty (ends slot)) → (slot : ℕ) → queue_at (queues_of ends result) slot ≡ [] }
        ensures lists { lists_of result ≡ [] }
    {
        let table = RequestTable::new(alloc);
        Locks { table }
    }

    /// Answers a transaction's request of a slot. What the own lock covers is granted immediately, and a new request if it is
    /// compatible with every other one. Otherwise it waits if the transaction is older than each of the others, and otherwise
    /// it dies and leaves no request; an upgrade while there is another reader dies too, and the shared lock stays. A lock is
    /// held until it is released. The transaction may have no request that waits. Memory is asked for only if a new request
    /// is kept and there is no room for it. It fails only if an allocation fails, and then nothing changed.
    pub fn request<K, E: QueueEnds<K>>(
        &mut self,
        keeper: &mut E,
        transaction: TxnNo,
        slot: SlotId,
        mode: Mode,
    ) -> Result<Outcome, AllocError>
        requires sound { AreLocksSound (E.has keeper.old) (E.ends_of keeper.old) self.old }
        requires has { E.has keeper.old slot }
        requires ready { is_waiting_in_state (state_of (E.ends_of keeper.old) self.old) transaction ≡ false }
        ensures sound { AreLocksSound (E.has keeper.new) (E.ends_of keeper.new) self.new }
        ensures answered { IfOk result (IsRequestAnswered (state_of (E.ends_of keeper.old) self.old) (state_of (E.ends_of keeper.new) self.new) transaction slot mode) }
        ensures err { OnErr result (AreAlike (state_of (E.ends_of keeper.new) self.new) (state_of (E.ends_of keeper.old) self.old)) }
        ensures keeper { OnErr result (keeper.new ≡ keeper.old) }
        ensures beside { E.beside keeper.old keeper.new }
    {
        let queue = keeper.ends(slot);
        match self.table.find_own(queue, transaction) {
            Some(found) => Ok(self.table.again(queue, found, transaction, mode)),
            None => self.table.first(keeper, slot, queue, transaction, mode),
        }
    }

    /// The outcome that `request` would have, if no request of the transaction waits; whether one does isn't looked at. It
    /// changes nothing and takes no memory.
    pub fn outcome<K, E: QueueEnds<K>>(
        &self,
        keeper: &E,
        transaction: TxnNo,
        slot: SlotId,
        mode: Mode,
    ) -> Outcome
        requires ends { AreEnds (E.ends_of keeper.now) self.now }
        requires has { E.has keeper.now slot }
        ensures { result ≡ outcome (queue_at (queues_of (E.ends_of keeper.now) self.now) slot) transaction mode }
    {
        let queue = keeper.ends(slot);
        match self.table.find_own(queue, transaction) {
            Some(found) => self.table.outcome_again(queue, found, transaction, mode),
            None => self.table.outcome_of_new(queue, transaction, mode),
        }
    }

    /// Removes the first request of the transaction's list, grants from the front of that slot's queue, and returns the slot;
    /// `None` if and only if the transaction has no request. It allocates no memory and always succeeds, so that repeated it
    /// releases all, and then nothing is kept of the transaction.
    pub fn release_one<K, E: QueueEnds<K>>(
        &mut self,
        keeper: &mut E,
        transaction: TxnNo,
    ) -> Option<SlotId>
        requires sound { AreLocksSound (E.has keeper.old) (E.ends_of keeper.old) self.old }
        ensures sound { AreLocksSound (E.has keeper.new) (E.ends_of keeper.new) self.new }
        ensures given { result ≡ first_in_list (slots_of (lists_of self.old) transaction) }
        ensures released { IfSome result (IsReleased (state_of (E.ends_of keeper.old) self.old) (state_of (E.ends_of keeper.new) self.new) transaction) }
        ensures none { IfNone result ((self.new ≡ self.old) × (keeper.new ≡ keeper.old)) }
        ensures beside { E.beside keeper.old keeper.new }
    {
        let slot = self.table.take(keeper, transaction)?;
        self.table.grant(keeper.ends(slot));
        Some(slot)
    }

    /// Whether a request of the transaction waits, whoever keeps the ends.
    pub fn is_waiting(&self, transaction: TxnNo) -> bool
        ensures { (ends : ℕ → Chain ℕ) → AreEnds ends self.now → result ≡ is_waiting_in_state (state_of ends self.now) transaction }
    {
        match self.table.last(transaction) {
            Some(last) => !self.table.request(last).granted,
            None => false,
        }
    }

    /// Whether the slot has a request, granted or waiting.
    pub fn has_request<K, E: QueueEnds<K>>(&self, keeper: &E, slot: SlotId) -> bool
        requires ends { AreEnds (E.ends_of keeper.now) self.now }
        requires has { E.has keeper.now slot }
        ensures { result ≡ not (length (queue_at (queues_of (E.ends_of keeper.now) self.now) slot) == 0) }
    {
        !self.table.is_empty(keeper.ends(slot))
    }
}
