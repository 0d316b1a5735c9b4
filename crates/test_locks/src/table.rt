//! The locks of two slots, with what three transactions know of their own requests.

use pc_types::{Mode, Outcome, Refusal, TxnNo};
use std::alloc::Global;
use test_lock_slots::LockSlots;

/// What an event came to.
#[derive(Clone, Copy, PartialEq)]
pub enum Answer {
    NotAsked,
    Granted,
    Queued,
    Died,
    Released(u32),
    Nothing,
    /// A request was answered otherwise than was previewed just before.
    NotForetold,
}

/// A transaction, 1 to 3, a slot, and what it asks for there, or else a release.
#[derive(Clone, Copy)]
pub struct TableEvent {
    pub transaction: u8,
    pub slot: u32,
    pub mode: Option<Mode>,
}

/// Locks of two slots; which transactions died and have not released all since, and at which slots each has a request: a bit
/// for each transaction, and for each transaction and slot.
#[derive(Drop)]
pub struct LockTable {
    slots: LockSlots,
    dead: u8,
    requests: u8,
}

fn bit_of(transaction: u8) -> u8 {
    match transaction {
        1 => 1,
        2 => 2,
        _ => 4,
    }
}

// The bits of a transaction's requests at both slots.
fn bits_of(transaction: u8) -> u8 {
    match transaction {
        1 => 3,
        2 => 12,
        _ => 48,
    }
}

fn request_bit(transaction: u8, slot: u32) -> u8 {
    let both = bits_of(transaction);
    if slot == 0 {
        both & 0b01_0101
    } else {
        both & 0b10_1010
    }
}

impl LockTable {
    /// There is no request.
    pub fn new(alloc: Global) -> Result<LockTable, Refusal> {
        let slots = LockSlots::new(alloc)?;
        Ok(LockTable {
            slots,
            dead: 0,
            requests: 0,
        })
    }

    /// Does what is asked, if the transaction may ask it.
    pub fn answer(&mut self, event: TableEvent) -> Result<Answer, Refusal> {
        match event.mode {
            None => Ok(self.release(event.transaction)),
            Some(mode) => self.request(event.transaction, event.slot, mode),
        }
    }

    fn request(&mut self, transaction: u8, slot: u32, mode: Mode) -> Result<Answer, Refusal> {
        let is_dead = self.dead & bit_of(transaction) != 0;
        let number = TxnNo(u64::from(transaction));
        if is_dead {
            return Ok(Answer::NotAsked);
        }
        let foretold = self.slots.outcome(number, slot, mode);
        match self.slots.request(number, slot, mode)? {
            None => Ok(Answer::NotAsked),
            Some(answer) if answer != foretold => Ok(Answer::NotForetold),
            Some(Outcome::Granted) => {
                self.requests |= request_bit(transaction, slot);
                Ok(Answer::Granted)
            }
            Some(Outcome::Queued) => {
                self.requests |= request_bit(transaction, slot);
                Ok(Answer::Queued)
            }
            Some(Outcome::Died) => {
                self.dead |= bit_of(transaction);
                Ok(Answer::Died)
            }
        }
    }

    fn release(&mut self, transaction: u8) -> Answer {
        let released = self.slots.release_one(TxnNo(u64::from(transaction)));
        if let Some(slot) = released {
            self.requests &= !request_bit(transaction, slot.0);
        }
        if self.requests & bits_of(transaction) == 0 {
            self.dead &= !bit_of(transaction);
        }
        match released {
            Some(slot) => Answer::Released(slot.0),
            None => Answer::Nothing,
        }
    }

    /// The requests: 1, 2 and 4 if the transactions 1, 2 and 3 wait, 8 and 16 if the slots 0 and 1 have a request.
    pub fn standing(&self) -> u8 {
        let mut bits = 0;
        for transaction in 1..4u8 {
            if self.slots.is_waiting(TxnNo(u64::from(transaction))) {
                bits |= bit_of(transaction);
            }
        }
        if self.slots.has_request(0) {
            bits |= 8;
        }
        if self.slots.has_request(1) {
            bits |= 16;
        }
        bits
    }
}
