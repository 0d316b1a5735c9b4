//! The locks of sixteen slots, with the ends of their queues.
ghost use Rattle.std.specs.Prelude.{◌≡◌};

use crate::row::RowOfEnds;
use pc_locks::Locks;
use pc_types::{Mode, Outcome, SlotId, TxnNo};
use std::alloc::{AllocError, Global};
use std::marker::Model;

/// The number of slots. A greater number is that of a slot by its remainder.
pub const SLOTS: u32 = 16;

/// Locks, and who keeps the ends of their queues.
#[derive(Drop)]
pub struct LockSlots {
    locks: Locks,
    row: RowOfEnds,
}

impl Model for LockSlots {
    ghost use Rattle.std.specs.Prelude.{ℕ, ◌<◌, ◌≤◌, length};
    ghost use Rattle.std.specs.Coded.{coded_ℕ};
    ghost use Rattle.pc_locks.specs.Keepers.{AreLocksSound};
    ghost use Rattle.test_lock_slots.specs.Rows.{ends_at};

    ghost Value = { ℕ };

    ghost coded = { coded_ℕ };

    ghost view = { λ a. length a.row.ends.items };

    ghost invariant = { λ a. (16 ≤ length a.row.ends.items) × AreLocksSound (λ slot. slot < length a.row.ends.items) (ends_at a.row.ends.items) a.locks };
}

impl LockSlots {
    /// There is no request.
    pub fn new(alloc: Global) -> Result<LockSlots, AllocError> {
        let row = RowOfEnds::new(alloc)?;
        let locks = Locks::new(alloc);
        Ok(LockSlots { locks, row })
    }

    /// Whether a request of the transaction waits.
    pub fn is_waiting(&self, transaction: TxnNo) -> bool {
        self.locks.is_waiting(transaction)
    }

    /// Whether the slot has a request.
    pub fn has_request(&self, slot: u32) -> bool {
        self.locks.has_request(&self.row, SlotId(slot % SLOTS))
    }

    /// How a request of the slot would be answered, if the transaction doesn't wait.
    pub fn outcome(&self, transaction: TxnNo, slot: u32, mode: Mode) -> Outcome {
        self.locks
            .outcome(&self.row, transaction, SlotId(slot % SLOTS), mode)
    }

    /// How a request of the slot is answered; `None` if the transaction waits. If an allocation failed nothing changed.
    pub fn request(
        &mut self,
        transaction: TxnNo,
        slot: u32,
        mode: Mode,
    ) -> Result<Option<Outcome>, AllocError> {
        if self.locks.is_waiting(transaction) {
            return Ok(None);
        }
        let slot = SlotId(slot % SLOTS);
        let answer = self.locks.request(&mut self.row, transaction, slot, mode)?;
        Ok(Some(answer))
    }

    /// Releases the transaction's first request.
    pub fn release_one(&mut self, transaction: TxnNo) -> Option<SlotId> {
        self.locks.release_one(&mut self.row, transaction)
    }
}
