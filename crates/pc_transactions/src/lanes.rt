//! The lanes of sessions: each has the session's open transaction, and what it has written.
ghost use Rattle.std.specs.Prelude.{◌≡◌, ◌<◌, ◌≤◌, [], length, option_map, None, Some, OnOk, is_none, true, false};
ghost use Rattle.pc_types.specs.declared.Outcome.TheVariants.{Granted};
ghost use Rattle.pc_types.specs.Changes.{CanMerge};
ghost use Rattle.pc_model.specs.Database.{written};
ghost use Rattle.pc_transactions.specs.Sessions.{with_writes, writes_in, after_writing, after_dying, if_died, if_granted};

use pc_txn::WriteSet;
use pc_types::{Class, Outcome, SlotId, TxnNo, Write};
use std::alloc::{AllocError, Global};
use std::marker::Model;

/// An open transaction, without its writes.
#[derive(Clone, Copy)]
pub struct Transaction {
    pub number: TxnNo,
    pub class: Class,
    pub has_died: bool,
}

/// A session's open transaction, if there is one, with what it has written. The memory that the writes take is kept for the
/// session's next transaction.
#[derive(Drop)]
pub(crate) struct Lane {
    transaction: Option<Transaction>,
    writes: WriteSet,
    /// The numbers of the slots in which the keys of the writes were found, in the order of the writes.
    slots: Vec<u32>,
}

impl Model for Lane {
    ghost use Rattle.std.specs.Prelude.{◌≡◌, ◌≤◌, ◌-◌, [], length, min, vec_len, vec_capacity, option_map, None};
    ghost use Rattle.pc_transactions.specs.Sessions.{LaneView, with_writes};

    ghost Value = { LaneView };

    ghost view = { λ s. record { own = option_map (with_writes s.writes.items) s.transaction; room = min s.writes.room (vec_capacity s.slots - vec_len s.slots) } };

    ghost invariant = { λ s. (s.transaction ≡ None → s.writes.items ≡ []) × (vec_len s.slots ≤ length s.writes.items) };
}

impl Lane {
    /// A lane without a transaction. It allocates no memory.
    pub(crate) fn new(alloc: Global) -> Lane
        ensures { result.own ≡ None }
    {
        Lane {
            transaction: None,
            writes: WriteSet::new(alloc),
            slots: Vec::new(alloc),
        }
    }

    /// The open transaction.
    pub(crate) fn transaction(&self) -> Option<Transaction>
        ensures { option_map (with_writes (writes_in self.now.own)) result ≡ self.now.own }
    {
        self.transaction
    }

    /// The open transaction, if there is one.
    pub(crate) fn opened(&self) -> Transaction
        requires { is_none self.now.own ≡ false }
        ensures { Some (with_writes (writes_in self.now.own) result) ≡ self.now.own }
    {
        match self.transaction {
            Some(transaction) => transaction,
            None => unreachable!(),
        }
    }

    /// The open transaction's writes; nothing if there is none.
    pub(crate) fn writes(&self) -> &WriteSet
        ensures { result.now.items ≡ writes_in self.now.own }
    {
        &self.writes
    }

    /// The numbers of the slots in which the keys of the writes were found, in the order of the writes: no more than there are
    /// writes.
    pub(crate) fn slots(&self) -> &[u32]
        ensures { length result.now ≤ length (writes_in self.now.own) }
    {
        self.slots.as_slice()
    }

    /// A transaction begins, which has written nothing.
    pub(crate) fn begin(&mut self, number: TxnNo, class: Class)
        requires { is_none self.old.own ≡ true }
        ensures { self.new.own ≡ Some (record { number = number; class = class; has_died = false; writes = [] }) }
    {
        self.transaction = Some(Transaction {
            number,
            class,
            has_died: false,
        });
    }

    /// The transaction is over. What memory its writes took is kept for those of the next one.
    pub(crate) fn end(&mut self)
        ensures own { self.new.own ≡ None }
        ensures room { self.old.room ≤ self.new.room }
    {
        self.transaction = None;
        self.writes.clear();
        self.slots.clear();
    }

    /// A request of the transaction has died.
    pub(crate) fn note_death(&mut self)
        ensures { self.new.own ≡ after_dying self.old.own }
    {
        if let Some(transaction) = &mut self.transaction {
            transaction.has_died = true;
        }
    }

    /// Makes room for one more write.
    pub(crate) fn reserve(&mut self) -> Result<(), AllocError>
        ensures room { OnOk result (0 < self.new.room) }
        ensures same { self.new.own ≡ self.old.own }
    {
        self.writes.reserve()?;
        self.slots.reserve(1)?;
        Ok(())
    }

    /// The transaction's request of the write was answered so. There is room for the write.
    pub(crate) fn answered(&mut self, alloc: Global, outcome: Outcome, write: Write, slot: SlotId)
        requires opened { is_none self.old.own ≡ false }
        requires room { 0 < self.old.room }
        requires merges { outcome ≡ Granted → CanMerge (written (writes_in self.old.own) write.key) write.change }
        ensures { self.new.own ≡ if_granted outcome (after_writing self.old.own write) (if_died outcome (after_dying self.old.own) self.old.own) }
    {
        match outcome {
            Outcome::Granted => self.note(alloc, write, slot),
            Outcome::Queued => {}
            Outcome::Died => self.note_death(),
        }
    }

    // Notes the write, and the slot of a key that it is the first write of.
    fn note(&mut self, alloc: Global, write: Write, slot: SlotId)
        requires opened { is_none self.old.own ≡ false }
        requires room { 0 < self.old.room }
        requires merges { CanMerge (written (writes_in self.old.own) write.key) write.change }
        ensures { self.new.own ≡ after_writing self.old.own write }
    {
        let known = self.writes.len();
        self.writes.note(alloc, write);
        if known != self.writes.len() {
            self.slots.push_reserved(slot.0);
        }
    }
}
