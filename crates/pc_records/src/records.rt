//! The records.
ghost use Rattle.std.specs.Prelude.{◌≡◌, ◌==◌, ◌<◌, ◌≤◌, ◌++◌, ◌∷◌, [], false, true, length, map, is_some, option_map, option_copied, None, Some, IfOk, IfErr, OnErr, if◌then◌else◌, List, ℕ};
ghost use Rattle.pc_types.specs.declared.Mode.TheVariants.{Shared, Exclusive};
ghost use Rattle.pc_types.specs.declared.Class.TheVariants.{Before, During};
ghost use Rattle.pc_types.specs.declared.Outcome.TheVariants.{Granted};
ghost use Rattle.pc_types.specs.Phases.{same_class};
ghost use Rattle.pc_model.specs.Maps.{get};
ghost use Rattle.pc_model.specs.Database.{KeysRise, database_of, written};
ghost use Rattle.pc_model.specs.DistinctWrites.{AreDistinct};
ghost use Rattle.pc_slots.specs.Slots.{Pending, nothing_aside, granted_slot};
ghost use Rattle.pc_records.specs.Rows.{record_of, stored, is_in_closed_set};
ghost use Rattle.pc_records.specs.NewKeys.{new_keys};
ghost use Rattle.pc_records.specs.RowSteps.{is_full_for, why_refused, outcome_on, is_waiting_in_rows, released_rows, written_row, closed_row, left_rows, committed_row};
ghost use Rattle.pc_records.specs.Tables.{kept_of, pending_at, latest, IsClearFor, IsOfClass, once_asked, IsWriteRequested, pending_without, made_committed, AreListed, first_content, content_behind};
ghost use Rattle.pc_records.specs.Floor.{IsFloorWhole, AreSpotsSound, HasNoPendingWrite, IsFloorReleased, standing, stands_anywhere, waits_anywhere, slot_number_of, has_spot, with_spot, with_new_spot, asked, with_slot_changed, with_settled, with_all_settled, with_undone, with_all_undone};

use crate::floor::KeySlots;
use pc_slots::{Aside, Author, Writing};
use pc_types::{Class, Key, MOST_KEYS, Mode, Outcome, Point, Refusal, SlotId, TxnNo, Value, Write};
use std::alloc::{AllocError, Global};
use std::hash::RandomState;
use std::marker::Model;

/// The outcome of a request, and the slot in which its key was found or got a record.
#[derive(Clone, Copy, Debug)]
pub struct Requested {
    pub outcome: Outcome,
    pub slot: SlotId,
}

/// The outcome of a request to read, and the content of the key's place: what an open transaction has written last, or else the
/// committed value.
#[derive(Drop)]
pub struct Reading {
    pub outcome: Outcome,
    pub found: Option<Value>,
}

/// The outcome that a request to write would have, the content of the key's place, as in a `Reading`, and the slot of the key,
/// if it has one.
#[derive(Clone, Copy)]
pub struct Look<'a> {
    pub outcome: Outcome,
    pub found: Option<&'a Value>,
    pub slot: Option<SlotId>,
}

/// The records, at most as many as the capacity, each in a slot next to the requests of its key. The point is that of the last
/// closed set.
#[derive(Drop)]
pub struct Records {
    slots: KeySlots,
    point: Point,
}

impl Model for Records {
    ghost use Rattle.pc_records.specs.Tables.{RecordsView};
    ghost use Rattle.pc_records.specs.Floor.{table_on, IsFloorWhole, AreSpotsSound};

    ghost Value = { RecordsView };

    ghost view = { λ a. table_on a.point a.slots };

    ghost invariant = { λ a. IsFloorWhole a.slots × AreSpotsSound a.point a.slots.spots };
}

impl Records {
    /// The records of these committed pairs. The seed is that of the hashes of keys: a random 128-bit number
    /// (`RandomState::new`), so that a client that picks the keys can't make them share a chain.
    pub fn of_pairs(
        alloc: Global,
        capacity: u32,
        pairs: &[(Key, Value)],
        seed: RandomState,
    ) -> Result<Records, AllocError>
        requires rise { KeysRise pairs.now }
        requires fit { length pairs.now ≤ capacity }
        requires capacity { (1 ≤ capacity) × (capacity ≤ MOST_KEYS) }
        ensures { IfOk result (λ r. r ≡ record { capacity = capacity; rows = map committed_row pairs.now; pending = []; point = 0; opened = []; shut = [] }) }
    {
        let slots = KeySlots::of_pairs(alloc, capacity, pairs, seed)?;
        Ok(Records {
            slots,
            point: Point(0),
        })
    }

    /// Whether the key has no record and there are as many as there may be.
    pub fn is_full_for(&self, key: &Key) -> bool
        ensures { result ≡ is_full_for (kept_of self.now) key.now }
    {
        match self.slots.find(key, None) {
            Some(_) => false,
            None => self.slots.is_full(),
        }
    }

    /// The committed pairs, ascending by key.
    pub fn committed(&self, alloc: Global) -> Result<Vec<(Key, Value)>, AllocError>
        ensures rise { IfOk result (λ pairs. KeysRise pairs.items) }
        ensures contents { IfOk result (λ pairs. (key : List ℕ) → get (database_of pairs.items) key ≡ stored (record_of self.now.rows key)) }
    {
        self.slots.committed(alloc)
    }

    /// Whether a request of the transaction waits.
    pub fn is_waiting(&self, transaction: TxnNo) -> bool
        ensures { result ≡ is_waiting_in_rows self.now.rows transaction }
    {
        self.slots.is_waiting(transaction)
    }

    /// Answers the transaction's request to read the key, with a copy of the content of its place; a key without a record gets
    /// one unless the request dies. It is refused with `Full` if and only if the key has no record and there are as many as
    /// there may be, and otherwise only if an allocation failed; the records are then as they were.
    pub fn read(&mut self, alloc: Global, transaction: TxnNo, key: &Key) -> Result<Reading, Refusal>
        requires ready { is_waiting_in_rows self.old.rows transaction ≡ false }
        ensures told { IfOk result (λ answer. answer.outcome ≡ outcome_on self.old.rows key.now transaction Shared) }
        ensures found { IfOk result (λ answer. answer.found ≡ latest self.old key.now) }
        ensures rows { IfOk result (λ answer. self.new ≡ once_asked self.old key.now transaction Shared answer.outcome) }
        ensures clear { IfOk result (λ answer. answer.outcome ≡ Granted → IsClearFor self.old key.now transaction) }
        ensures err { OnErr result (self.new ≡ self.old) }
        ensures room { IfOk result (λ answer. is_full_for (kept_of self.old) key.now ≡ false) }
        ensures refusal { IfErr result (λ e. e ≡ why_refused (kept_of self.old) key.now) }
    {
        match self.slots.find(key, None) {
            Some(id) => {
                let found = self.slots.copy(alloc, id)?;
                let outcome = self.slots.request(transaction, id, Mode::Shared)?;
                Ok(Reading { outcome, found })
            }
            None => {
                request_new(alloc, &mut self.slots, transaction, key, Mode::Shared)?;
                Ok(Reading {
                    outcome: Outcome::Granted,
                    found: None,
                })
            }
        }
    }

    /// The outcome that the transaction's request to write the key would have, if no request of it waits, with the content of
    /// the key's place. It changes nothing and takes no memory.
    pub fn look(&self, transaction: TxnNo, key: &Key) -> Look<'_>
        ensures told { result.outcome ≡ outcome_on self.now.rows key.now transaction Exclusive }
        ensures found { option_copied result.found ≡ latest self.now key.now }
        ensures clear { is_waiting_in_rows self.now.rows transaction ≡ false → result.outcome ≡ Granted → IsClearFor self.now key.now transaction }
        ensures slot { is_some result.slot ≡ is_some (record_of self.now.rows key.now) }
    {
        match self.slots.find(key, None) {
            Some(id) => Look {
                outcome: self.slots.outcome(transaction, id, Mode::Exclusive),
                found: self.slots.live(id),
                slot: Some(id),
            },
            None => Look {
                outcome: Outcome::Granted,
                found: None,
                slot: None,
            },
        }
    }

    /// Answers the transaction's request to write the key, and writes it in its place if the request is granted. It is refused
    /// with `Full` if and only if the key has no record and there are as many as there may be, and otherwise only if an
    /// allocation failed; the records are then as they were. The key is looked for near the slot first, as that which `look`
    /// returned; nothing else depends on it.
    pub fn write(
        &mut self,
        alloc: Global,
        transaction: TxnNo,
        class: Class,
        key: &Key,
        value: Option<Value>,
        near: Option<SlotId>,
    ) -> Result<Requested, Refusal>
        requires ready { is_waiting_in_rows self.old.rows transaction ≡ false }
        requires outside { class ≡ Before → is_in_closed_set (record_of self.old.rows key.now) ≡ false }
        requires again { IsOfClass self.old key.now transaction class }
        ensures told { IfOk result (λ answer. answer.outcome ≡ outcome_on self.old.rows key.now transaction Exclusive) }
        ensures written { IfOk result (λ answer. IsWriteRequested self.old self.new transaction class key.now value answer.outcome) }
        ensures err { OnErr result (self.new ≡ self.old) }
        ensures room { IfOk result (λ answer. is_full_for (kept_of self.old) key.now ≡ false) }
        ensures refusal { IfErr result (λ e. e ≡ why_refused (kept_of self.old) key.now) }
    {
        match self.slots.find(key, near) {
            Some(id) => {
                let copy = self.slots.copy_to_keep(alloc, id, self.point, class)?;
                let room = self.slots.room(alloc)?;
                let outcome = self.slots.request(transaction, id, Mode::Exclusive)?;
                let author = Author { transaction, class };
                let write = Writing {
                    author,
                    room,
                    copy,
                    value,
                };
                put_granted(&mut self.slots, id, self.point, write, outcome);
                Ok(Requested { outcome, slot: id })
            }
            None => {
                let room = room_in(alloc, &mut self.slots)?;
                let id = request_new(alloc, &mut self.slots, transaction, key, Mode::Exclusive)?;
                let author = Author { transaction, class };
                let write = Writing {
                    author,
                    room,
                    copy: None,
                    value,
                };
                self.slots.put(id, self.point, write);
                Ok(Requested {
                    outcome: Outcome::Granted,
                    slot: id,
                })
            }
        }
    }

    /// Removes all requests of the transaction, which has no write in place, and frees each slot that nothing keeps then.
    pub fn release(&mut self, transaction: TxnNo)
        requires { (q : List ℕ) (p : Pending) → pending_at self.old q ≡ Some p → (p.by == transaction) ≡ false }
        ensures { self.new ≡ record self.old { rows = released_rows transaction self.old.rows } }
    {
        release(&mut self.slots, transaction);
    }

    /// The transaction of these writes, each of whose keys has a write in its place, is committed: the content there is the
    /// key's value, and the keys are in the open set, at its end if they weren't in it. The slots are those that `write`
    /// returned for these keys, in the order of the writes, as far as they are known: a key is looked for there before it is
    /// searched, and nothing else depends on them. It allocates no memory.
    pub fn commit(&mut self, writes: &[Write], slots: &[u32])
        requires stand { (q : List ℕ) → is_some (written writes.now q) ≡ true → is_some (pending_at self.old q) ≡ true }
        requires distinct { AreDistinct writes.now }
        ensures rise { KeysRise self.old.rows }
        ensures rows { kept_of self.new ≡ record (kept_of self.old) { rows = map (written_row (made_committed writes.now self.old)) self.old.rows } }
        ensures pending { (q : List ℕ) → pending_at self.new q ≡ pending_without writes.now self.old q }
        ensures point { self.new.point ≡ self.old.point }
        ensures opened { self.new.opened ≡ self.old.opened ++ new_keys self.old.rows writes.now }
        ensures shut { self.new.shut ≡ self.old.shut }
        ensures listed { AreListed self.old }
    {
        settle_all(&mut self.slots, writes, slots, self.point);
    }

    /// The transaction of these writes is undone: the committed contents of their keys are restored in their places. The slots
    /// are those of `commit`. It allocates no memory.
    pub fn undo(&mut self, writes: &[Write], slots: &[u32])
        ensures rise { KeysRise self.old.rows }
        ensures rows { kept_of self.new ≡ kept_of self.old }
        ensures pending { (q : List ℕ) → pending_at self.new q ≡ pending_without writes.now self.old q }
        ensures point { self.new.point ≡ self.old.point }
        ensures opened { self.new.opened ≡ self.old.opened }
        ensures shut { self.new.shut ≡ self.old.shut }
    {
        undo_all(&mut self.slots, writes, slots, self.point);
    }

    /// The open set is closed, as that of the point, and another one begins. No record is looked at.
    pub fn close(&mut self, point: Point)
        requires later { self.old.point < point }
        requires none { self.old.shut ≡ [] }
        requires during { (q : List ℕ) (p : Pending) → pending_at self.old q ≡ Some p → p.class ≡ During }
        ensures closed { self.new ≡ record self.old { rows = map closed_row self.old.rows; point = point; opened = []; shut = self.old.opened } }
        ensures listed { AreListed self.old }
    {
        self.slots.close();
        self.point = point;
    }

    /// How many keys are in the closed set.
    pub fn closed_len(&self) -> u32
        ensures count { result ≡ length self.now.shut }
        ensures listed { AreListed self.now }
    {
        self.slots.closed_len()
    }

    /// The first key of the closed set with what it has at the point; `None` if the set is empty.
    pub fn first_closed(&self) -> Option<(&Key, Option<&Value>)>
        ensures first { option_map content_behind result ≡ first_content self.now }
        ensures listed { AreListed self.now }
    {
        self.slots.first_closed()
    }

    /// The first key of the closed set, in which there is one, is taken, and its slot is free if nothing keeps it. It allocates
    /// no memory.
    pub fn take(&mut self)
        requires { (key : List ℕ) × (keys : List (List ℕ)) × (self.old.shut ≡ key ∷ keys) × ((p : Pending) → pending_at self.old key ≡ Some p → same_class p.class During ≡ false) }
        ensures taken { (key : List ℕ) (keys : List (List ℕ)) → self.old.shut ≡ key ∷ keys → self.new ≡ record self.old { rows = left_rows self.old.rows key; shut = keys } }
        ensures listed { AreListed self.old }
    {
        if let Some(id) = self.slots.take_first() {
            self.slots.tidy(id);
        }
    }
}

// Room for what a slot that is still to be made keeps aside; it is refused with `Full` if there are as many slots as there may
// be, and otherwise only if an allocation failed.
fn room_in(alloc: Global, slots: &mut KeySlots) -> Result<Box<Aside>, Refusal>
    ensures room { IfOk result (λ room. room.value ≡ nothing_aside) }
    ensures refusal { IfErr result (λ e. e ≡ (if length slots.old.spots == slots.old.capacity then Refusal.Full else Refusal.OutOfMemory)) }
    ensures same { slots.new ≡ slots.old }
{
    match slots.room(alloc) {
        Ok(room) => Ok(room),
        Err(_) => {
            if slots.is_full() {
                Err(Refusal::Full)
            } else {
                Err(Refusal::OutOfMemory)
            }
        }
    }
}

// Makes a slot for a key that has none, with the transaction's request of it, which is granted; if there was no room or an
// allocation failed nothing changed.
fn request_new(
    alloc: Global,
    slots: &mut KeySlots,
    transaction: TxnNo,
    key: &Key,
    mode: Mode,
) -> Result<SlotId, Refusal>
    requires new { slot_number_of slots.old.spots key.now ≡ None }
    requires ready { waits_anywhere slots.old.spots transaction ≡ false }
    ensures asked { IfOk result (λ id. slots.new ≡ with_spot (asked transaction mode Granted) id (with_new_spot id key.now slots.old)) }
    ensures made { IfOk result (λ id. IsFloorWhole (with_new_spot id key.now slots.old)) }
    ensures there { IfOk result (λ id. has_spot slots.new.spots id ≡ true) }
    ensures room { IfOk result (λ id. (length slots.old.spots == slots.old.capacity) ≡ false) }
    ensures refusal { IfErr result (λ e. e ≡ (if length slots.old.spots == slots.old.capacity then Refusal.Full else Refusal.OutOfMemory)) }
    ensures same { OnErr result (slots.new ≡ slots.old) }
    ensures whole { IsFloorWhole slots.new }
{
    let id = slots.make(alloc, key)?;
    match slots.request(transaction, id, mode) {
        Ok(_) => Ok(id),
        Err(_) => {
            slots.tidy(id);
            Err(Refusal::OutOfMemory)
        }
    }
}

// Puts the write into the slot if its request was granted; otherwise its room is taken back.
fn put_granted(slots: &mut KeySlots, id: SlotId, point: Point, write: Writing, answer: Outcome)
    requires whole { IsFloorWhole slots.old }
    requires there { has_spot slots.old.spots id ≡ true }
    requires room { write.room.value ≡ nothing_aside }
    ensures put { slots.new ≡ with_spot (with_slot_changed (granted_slot answer point write.author.transaction write.author.class write.copy write.value)) id slots.old }
    ensures whole { IsFloorWhole slots.new }
{
    match answer {
        Outcome::Granted => slots.put(id, point, write),
        _ => slots.put_back(write.room),
    }
}

// Removes the first request of the transaction, and frees its slot if nothing keeps it then; false if there is none.
fn release_next(slots: &mut KeySlots, transaction: TxnNo) -> bool
    requires whole { IsFloorWhole slots.old }
    ensures left { (point : ℕ) → AreSpotsSound point slots.old.spots → HasNoPendingWrite transaction slots.old.spots → IsFloorReleased point transaction slots.old slots.new }
    ensures fewer { result ≡ true → standing transaction slots.new.spots < standing transaction slots.old.spots }
    ensures done { result ≡ false → stands_anywhere slots.new.spots transaction ≡ false }
    ensures whole { IsFloorWhole slots.new }
{
    match slots.release_one(transaction) {
        Some(slot) => {
            slots.tidy(slot);
            true
        }
        None => false,
    }
}

// Removes all requests of the transaction, in order.
fn release(slots: &mut KeySlots, transaction: TxnNo)
    requires whole { IsFloorWhole slots.old }
    ensures left { (point : ℕ) → AreSpotsSound point slots.old.spots → HasNoPendingWrite transaction slots.old.spots → IsFloorReleased point transaction slots.old slots.new }
    ensures done { stands_anywhere slots.new.spots transaction ≡ false }
    ensures whole { IsFloorWhole slots.new }
{
    while release_next(slots, transaction) {}
}

// Commits the write in the key's place; the key is looked for near the slot first.
fn settle_key(slots: &mut KeySlots, key: &Key, near: Option<SlotId>, point: Point)
    requires whole { IsFloorWhole slots.old }
    ensures settled { slots.new ≡ with_settled point key.now slots.old }
    ensures whole { IsFloorWhole slots.new }
{
    if let Some(id) = slots.find(key, near) {
        slots.settle(id, point);
    }
}

// These writes, no two of which have one key, are committed. The numbers are those of the slots where their keys were found, as
// far as that is known.
fn settle_all(slots: &mut KeySlots, writes: &[Write], numbers: &[u32], point: Point)
    requires whole { IsFloorWhole slots.old }
    requires distinct { AreDistinct writes.now }
    ensures settled { slots.new ≡ with_all_settled point writes.now slots.old }
    ensures whole { IsFloorWhole slots.new }
{
    let mut found = numbers.iter();
    for write in writes {
        let near = found.next().map(|number| SlotId(*number));
        settle_key(slots, &write.key, near, point);
    }
}

// Undoes the write in the key's place; the key is looked for near the slot first.
fn undo_key(slots: &mut KeySlots, key: &Key, near: Option<SlotId>, point: Point)
    requires whole { IsFloorWhole slots.old }
    ensures undone { slots.new ≡ with_undone point key.now slots.old }
    ensures whole { IsFloorWhole slots.new }
{
    if let Some(id) = slots.find(key, near) {
        slots.undo(id, point);
    }
}

// These writes are undone. The numbers are those of `settle_all`.
fn undo_all(slots: &mut KeySlots, writes: &[Write], numbers: &[u32], point: Point)
    requires whole { IsFloorWhole slots.old }
    ensures undone { slots.new ≡ with_all_undone point writes.now slots.old }
    ensures whole { IsFloorWhole slots.new }
{
    let mut found = numbers.iter();
    for write in writes {
        let near = found.next().map(|number| SlotId(*number));
        undo_key(slots, &write.key, near, point);
    }
}
