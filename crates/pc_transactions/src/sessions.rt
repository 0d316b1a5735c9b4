//! The sessions, with the transactions that they have open: over the records in which these write in place, and in the phases that
//! count them.
ghost use Rattle.std.specs.Prelude.{◌≡◌, ◌<◌, ◌≤◌, ◌⊎◌, ◌-◌, ◌+◌, length, [], ◌∷◌, option_map, None, Some, List, ℕ, IfOk, IfErr, OnErr, is_none, is_some, option_copied, replicate, true, false};
ghost use Rattle.pc_types.specs.declared.limits.TheConstants.{MOST_KEYS, MOST_SESSIONS, MOST_TRANSACTIONS, MOST_WRITES};
ghost use Rattle.pc_types.specs.declared.Mode.TheVariants.{Shared, Exclusive};
ghost use Rattle.pc_types.specs.declared.Phase.TheVariants.{Capture, Rest};
ghost use Rattle.pc_types.specs.Changes.{CanMerge, added, can_add};
ghost use Rattle.pc_types.specs.Phases.{same_phase};
ghost use Rattle.pc_types.specs.declared.Outcome.TheVariants.{Granted};
ghost use Rattle.pc_model.specs.Changes.{Applies, AppliesIfAny};
ghost use Rattle.pc_model.specs.DistinctWrites.{AreDistinct};
ghost use Rattle.pc_model.specs.Maps.{get};
ghost use Rattle.pc_model.specs.Database.{KeysRise, database_of, written};
ghost use Rattle.pc_model.specs.Replies.{by_outcome, read_reply};
ghost use Rattle.pc_answers.specs.Replies.{reply_to_get};
ghost use Rattle.pc_phase.specs.Phases.{held_back};
ghost use Rattle.pc_records.specs.Rows.{record_of, stored};
ghost use Rattle.pc_records.specs.RowSteps.{is_full_for, why_refused, is_waiting_in_rows};
ghost use Rattle.pc_records.specs.NewKeys.{is_one_too_many};
ghost use Rattle.pc_records.specs.Tables.{content_behind, first_pinned, kept_of};
ghost use Rattle.pc_transactions.specs.Adds.{AddProceeds, IsRefusedFor};
ghost use Rattle.pc_transactions.specs.Counts.{AreCounted};
ghost use Rattle.pc_transactions.specs.Sessions.{actives_of, with_writes, number_in, waits_in, writes_in, seen_in, after_writing, after_dying, if_granted, with_session};
ghost use Rattle.pc_transactions.specs.Ongoing.{own_transaction, at_start, request_outcome, after_answer, after_beginning, after_committing, after_aborting, after_taking, after_phase_change};
ghost use Rattle.pc_transactions.specs.Actives.{active_in};

use crate::lanes::{Lane, Transaction};
use pc_answers::GetAnswer;
use pc_phase::{Change, Held, Phases};
use pc_records::{Look, Reading, Records, Requested};
use pc_types::{
    Key, Outcome, Phase, Point, Refusal, SessionNo, SlotId, TxnNo, Value, Write, is_number, sum,
};
use std::alloc::{AllocError, Global};
use std::hash::RandomState;
use std::marker::Model;

/// The outcome that an add would have: its sum, if its request would be granted, and the slot of its key, if that has one.
#[derive(Clone, Copy)]
pub struct Prospect {
    pub sum: Option<i64>,
    pub near: Option<SlotId>,
}

/// The sessions of a store, numbered from 1, each with its open transaction, if there is one; the records, in which these have
/// their writes in place; and the phases, which count them by class.
#[derive(Drop)]
pub struct Sessions {
    lanes: Vec<Lane>,
    records: Records,
    phases: Phases,
    begun: u64,
}

impl Model for Sessions {
    ghost use Rattle.pc_records.specs.Tables.{kept_of};
    ghost use Rattle.pc_transactions.specs.InPlace.{StandTogether};
    ghost use Rattle.pc_transactions.specs.Ongoing.{Ongoing};
    ghost use Rattle.pc_transactions.specs.Sessions.{actives_of};

    ghost Value = { Ongoing };

    ghost view = { λ s. record { sessions = actives_of s.lanes.items; kept = kept_of s.records; open_set = s.records.opened; closed_set = s.records.shut; phases = s.phases; begun = s.begun } };

    ghost invariant = { λ s. StandTogether s.records (actives_of s.lanes.items) s.phases s.begun };
}

impl Sessions {
    /// `count` idle sessions, over the records of these committed pairs.
    pub fn new(
        alloc: Global,
        count: u8,
        capacity: u32,
        pairs: &[(Key, Value)],
        seed: RandomState,
    ) -> Result<Sessions, AllocError>
        requires count { count ≤ MOST_SESSIONS }
        requires rise { KeysRise pairs.now }
        requires fit { length pairs.now ≤ capacity }
        requires capacity { (1 ≤ capacity) × (capacity ≤ MOST_KEYS) }
        ensures { IfOk result (λ s. s ≡ at_start count capacity pairs.now) }
    {
        let records = Records::of_pairs(alloc, capacity, pairs, seed)?;
        let lanes = idle(alloc, count)?;
        Ok(Sessions {
            lanes,
            records,
            phases: Phases::new(),
            begun: 0,
        })
    }

    /// The number of sessions.
    pub fn len(&self) -> usize
        ensures { result ≡ length self.now.sessions }
    {
        self.lanes.len()
    }

    /// The phase of the checkpoint's cycle.
    pub fn phase(&self) -> Phase
        ensures { result ≡ self.now.phases.phase }
    {
        self.phases.phase()
    }

    /// The last point that was begun, which is at least 1 outside rest.
    pub fn point(&self) -> Point
        ensures point { result ≡ self.now.phases.point }
        ensures begun { (same_phase self.now.phases.phase Rest ≡ true) ⊎ (1 ≤ result) }
    {
        self.phases.point()
    }

    /// The number of transactions begun.
    pub fn begun(&self) -> u64
        ensures count { result ≡ self.now.begun }
        ensures limit { result ≤ MOST_TRANSACTIONS }
    {
        self.begun
    }

    /// The session's open transaction.
    pub fn active(&self, session: SessionNo) -> Option<Transaction>
        ensures { option_map (with_writes (writes_in (own_transaction self.now session))) result ≡ own_transaction self.now session }
    {
        active(self.lanes.as_slice(), session)
    }

    /// The writes of the session's open transaction: of each key all its changes as one, in the order of first writes.
    pub fn writes(&self, session: SessionNo) -> &[Write]
        ensures writes { result.now ≡ writes_in (own_transaction self.now session) }
        ensures few { length result.now ≤ MOST_WRITES }
        ensures distinct { AreDistinct result.now }
        ensures sessions { length self.now.sessions ≤ MOST_SESSIONS }
    {
        match self.lanes.get(place(session)) {
            Some(lane) => lane.writes().as_slice(),
            None => &[],
        }
    }

    /// Whether a request of the transaction waits.
    pub fn is_waiting(&self, transaction: TxnNo) -> bool
        ensures { result ≡ is_waiting_in_rows self.now.kept.rows transaction }
    {
        self.records.is_waiting(transaction)
    }

    /// Whether a request of the session's open transaction waits; false if it has none open. Sessions are numbered from 1.
    pub fn has_waiting(&self, session: SessionNo) -> bool
        requires { 1 ≤ session }
        ensures { result ≡ waits_in self.now.kept.rows (own_transaction self.now session) }
    {
        match self.active(session) {
            Some(transaction) => self.is_waiting(transaction.number),
            None => false,
        }
    }

    /// Whether the session, numbered from 1, has an open transaction.
    pub fn has_open(&self, session: SessionNo) -> bool
        requires { 1 ≤ session }
        ensures { result ≡ is_some (own_transaction self.now session) }
    {
        match self.active(session) {
            Some(_) => true,
            None => false,
        }
    }

    /// Whether the open transaction of the session, numbered from 1, has written the key; false if it has none open.
    pub fn has_written(&self, session: SessionNo, key: &Key) -> bool
        requires { 1 ≤ session }
        ensures { result ≡ is_some (written (writes_in (own_transaction self.now session)) key.now) }
    {
        match self.lanes.get(place(session)) {
            Some(lane) => lane.writes().has(key),
            None => false,
        }
    }

    /// Whether a write of the key would be of a 257th key of the session's open transaction.
    pub fn is_one_too_many(&self, session: SessionNo, key: &Key) -> bool
        ensures { result ≡ is_one_too_many (writes_in (own_transaction self.now session)) key.now }
    {
        match self.lanes.get(place(session)) {
            Some(lane) => lane.writes().is_full_for(key),
            None => false,
        }
    }

    /// Why a request of the key is refused if an allocation failed: that the key has no record, and can't get one, comes first.
    pub fn why_refused(&self, key: &Key) -> Refusal
        ensures { result ≡ why_refused self.now.kept key.now }
    {
        why_refused(&self.records, key)
    }

    /// A transaction begins in the session, which has none open. Its number.
    pub fn begin(&mut self, session: SessionNo) -> TxnNo
        requires place { session - 1 < length self.old.sessions }
        requires idle { is_none (own_transaction self.old session) ≡ true }
        requires more { self.old.begun < MOST_TRANSACTIONS }
        ensures number { result ≡ self.old.begun + 1 }
        ensures begins { self.new ≡ after_beginning self.old session }
    {
        self.begun += 1;
        let number = TxnNo(self.begun);
        let class = self.phases.enter();
        self.lanes[place(session)].begin(number, class);
        number
    }

    /// The session's transaction requests to read the key, and reads it if the request is granted: what its own writes leave of it,
    /// or else what is committed. Returns `Full` if and only if the key has no record and can't get one; otherwise the only error is
    /// `OutOfMemory`; nothing changed then.
    pub fn read(
        &mut self,
        alloc: Global,
        session: SessionNo,
        key: &Key,
    ) -> Result<GetAnswer, Refusal>
        requires place { session - 1 < length self.old.sessions }
        requires opened { is_none (own_transaction self.old session) ≡ false }
        requires ready { is_waiting_in_rows self.old.kept.rows (number_in (own_transaction self.old session)) ≡ false }
        ensures reply { IfOk result (λ answer. reply_to_get answer ≡ by_outcome (request_outcome self.old session key.now Shared) (read_reply (seen_in self.old.kept.rows (own_transaction self.old session) key.now))) }
        ensures answered { IfOk result (λ answer. self.new ≡ after_answer self.old session key.now Shared (request_outcome self.old session key.now Shared) self.old.sessions) }
        ensures room { IfOk result (λ answer. is_full_for self.old.kept key.now ≡ false) }
        ensures refusal { IfErr result (λ why. why ≡ why_refused self.old.kept key.now) }
        ensures same { OnErr result (self.new ≡ self.old) }
    {
        let number = number(self.lanes.as_slice(), session);
        let Reading { outcome, found } = self.records.read(alloc, number, key)?;
        match outcome {
            Outcome::Granted => Ok(answer(found)),
            Outcome::Queued => Ok(GetAnswer::Wait),
            Outcome::Died => {
                note_death(&mut self.lanes, session);
                Ok(GetAnswer::Died)
            }
        }
    }

    /// The outcome that an add to the key would have, if no request of the session's transaction waits: its sum, if its request would
    /// be granted. It is refused with `Full` if and only if the key has no record and can't get one, and otherwise, only if the
    /// request would be granted, with `NotNumber` or `OutOfRange`. It changes nothing and takes no memory.
    pub fn foretell(&self, session: SessionNo, key: &Key, delta: i64) -> Result<Prospect, Refusal>
        requires opened { is_none (own_transaction self.now session) ≡ false }
        requires ready { is_waiting_in_rows self.now.kept.rows (number_in (own_transaction self.now session)) ≡ false }
        ensures goes_on { IfOk result (λ prospect. AddProceeds (is_full_for self.now.kept key.now) (request_outcome self.now session key.now Exclusive) (seen_in self.now.kept.rows (own_transaction self.now session) key.now) (written (writes_in (own_transaction self.now session)) key.now) delta prospect.sum) }
        ensures refused { IfErr result (IsRefusedFor (is_full_for self.now.kept key.now) (request_outcome self.now session key.now Exclusive) (seen_in self.now.kept.rows (own_transaction self.now session) key.now) (written (writes_in (own_transaction self.now session)) key.now) delta) }
        ensures apply { AppliesIfAny (written (writes_in (own_transaction self.now session)) key.now) (stored (record_of self.now.kept.rows key.now)) }
    {
        let number = number(self.lanes.as_slice(), session);
        let Look {
            outcome,
            found,
            slot,
        } = self.records.look(number, key);
        if self.lacks_room(key, slot.is_some()) {
            return Err(Refusal::Full);
        }
        let sum = match self.sum_if_granted(outcome, session, key, found, delta) {
            Ok(sum) => sum,
            Err(why) => return Err(why),
        };
        Ok(Prospect { sum, near: slot })
    }

    // Whether the key, of which it is said whether it has a record, has none and can't get one.
    fn lacks_room(&self, key: &Key, has_record: bool) -> bool
        requires { has_record ≡ is_some (record_of self.now.kept.rows key.now) }
        ensures { result ≡ is_full_for self.now.kept key.now }
    {
        !has_record && self.records.is_full_for(key)
    }

    // The sum of an add whose request would be answered so; `None` if it would not be granted.
    fn sum_if_granted(
        &self,
        outcome: Outcome,
        session: SessionNo,
        key: &Key,
        found: Option<&Value>,
        delta: i64,
    ) -> Result<Option<i64>, Refusal>
        ensures goes_on { IfOk result (AddProceeds false outcome (option_copied found.entry) (written (writes_in (own_transaction self.now session)) key.now) delta) }
        ensures refused { IfErr result (λ why. (outcome ≡ Granted) × IsRefusedFor false Granted (option_copied found.entry) (written (writes_in (own_transaction self.now session)) key.now) delta why) }
    {
        match outcome {
            Outcome::Granted => Ok(Some(self.sum_of(session, key, found, delta)?)),
            _ => Ok(None),
        }
    }

    // The sum of an add to what the session's transaction sees of the key.
    fn sum_of(
        &self,
        session: SessionNo,
        key: &Key,
        found: Option<&Value>,
        delta: i64,
    ) -> Result<i64, Refusal>
        ensures sum { IfOk result (λ sum. (added delta (option_copied found.entry) ≡ Some sum) × (can_add (written (writes_in (own_transaction self.now session)) key.now) delta ≡ true)) }
        ensures refused { IfErr result (IsRefusedFor false Granted (option_copied found.entry) (written (writes_in (own_transaction self.now session)) key.now) delta) }
    {
        if !is_number(found) {
            return Err(Refusal::NotNumber);
        }
        let Some(sum) = sum(found, delta) else {
            return Err(Refusal::OutOfRange);
        };
        if !self.can_add(session, key, delta) {
            return Err(Refusal::OutOfRange);
        }
        Ok(sum)
    }

    // Whether an add to the key can be kept as one change with what the session's open transaction has written of it.
    fn can_add(&self, session: SessionNo, key: &Key, delta: i64) -> bool
        ensures { result ≡ can_add (written (writes_in (own_transaction self.now session)) key.now) delta }
    {
        match self.lanes.get(place(session)) {
            Some(lane) => lane.writes().can_add(key, delta),
            None => true,
        }
    }

    /// The session's transaction requests the write, and makes it if the request is granted: then it applies to what the transaction
    /// sees of the key, and the value is what it sees after it. The key is looked for near that slot first. Returns `Full` if and
    /// only if the key has no record and can't get one; otherwise the only error is `OutOfMemory`; nothing changed then.
    pub fn request(
        &mut self,
        alloc: Global,
        session: SessionNo,
        write: Write,
        value: Option<Value>,
        near: Option<SlotId>,
    ) -> Result<Outcome, Refusal>
        requires place { session - 1 < length self.old.sessions }
        requires opened { is_none (own_transaction self.old session) ≡ false }
        requires one { is_one_too_many (writes_in (own_transaction self.old session)) write.key ≡ false }
        requires merges { request_outcome self.old session write.key Exclusive ≡ Granted → CanMerge (written (writes_in (own_transaction self.old session)) write.key) write.change }
        requires applies { request_outcome self.old session write.key Exclusive ≡ Granted → Applies write.change (seen_in self.old.kept.rows (own_transaction self.old session) write.key) }
        requires left { request_outcome self.old session write.key Exclusive ≡ Granted → value ≡ seen_in self.old.kept.rows (after_writing (own_transaction self.old session) write) write.key }
        requires ready { is_waiting_in_rows self.old.kept.rows (number_in (own_transaction self.old session)) ≡ false }
        ensures told { IfOk result (λ outcome. outcome ≡ request_outcome self.old session write.key Exclusive) }
        ensures answered { IfOk result (λ outcome. self.new ≡ after_answer self.old session write.key Exclusive outcome (if_granted outcome (with_session self.old.sessions session (after_writing (own_transaction self.old session) write)) self.old.sessions)) }
        ensures room { IfOk result (λ outcome. is_full_for self.old.kept write.key ≡ false) }
        ensures refusal { IfErr result (λ why. why ≡ why_refused self.old.kept write.key) }
        ensures same { OnErr result (self.new ≡ self.old) }
    {
        let lane = &mut self.lanes[place(session)];
        let Ok(()) = lane.reserve() else {
            return Err(why_refused(&self.records, &write.key));
        };
        let Transaction { number, class, .. } = lane.opened();
        let Requested { outcome, slot } = self
            .records
            .write(alloc, number, class, &write.key, value, near)?;
        lane.answered(alloc, outcome, write, slot);
        Ok(outcome)
    }

    /// The session's transaction is committed, and over: its writes are committed in place, and its locks are released.
    pub fn commit(&mut self, session: SessionNo)
        requires place { session - 1 < length self.old.sessions }
        requires opened { is_none (own_transaction self.old session) ≡ false }
        ensures { self.new ≡ after_committing self.old session }
    {
        let lane = &mut self.lanes[place(session)];
        let Transaction { number, class, .. } = lane.opened();
        self.records.commit(lane.writes().as_slice(), lane.slots());
        lane.end();
        self.records.release(number);
        self.phases.leave(class);
    }

    /// The session's transaction is undone, and over: the committed contents are restored where it has written, and its locks are
    /// released.
    pub fn abort(&mut self, session: SessionNo)
        requires place { session - 1 < length self.old.sessions }
        requires opened { is_none (own_transaction self.old session) ≡ false }
        ensures { self.new ≡ after_aborting self.old session }
    {
        let lane = &mut self.lanes[place(session)];
        let Transaction { number, class, .. } = lane.opened();
        self.records.undo(lane.writes().as_slice(), lane.slots());
        lane.end();
        self.records.release(number);
        self.phases.leave(class);
    }

    /// The obstacle to the change of the phase.
    pub fn held_back(&self, change: Change) -> Option<Held>
        ensures held { result ≡ held_back self.now.phases change (length self.now.closed_set) }
        ensures counted { AreCounted self.now.phases self.now.sessions }
    {
        self.phases.held_back(change, self.records.closed_len())
    }

    /// The phase changes; nothing holds that back. At a seal the open set becomes the closed one.
    pub fn change(&mut self, change: Change)
        requires { held_back self.old.phases change (length self.old.closed_set) ≡ None }
        ensures changed { self.new ≡ after_phase_change change self.old }
        ensures begun { 1 ≤ self.new.phases.point }
    {
        let left = self.records.closed_len();
        if self.phases.advance(change, left).is_err() {
            unreachable!();
        }
        if let Change::Seal = change {
            self.records.close(self.phases.point());
        }
    }

    /// The first key of the closed set, with what it has at the point; `None` if the set is empty.
    pub fn first_closed(&self) -> Option<(&Key, Option<&Value>)>
        ensures { option_map content_behind result ≡ first_pinned self.now.kept.rows self.now.closed_set }
    {
        self.records.first_closed()
    }

    /// The first key of the closed set is taken, in capture.
    pub fn take(&mut self)
        requires capture { self.old.phases.phase ≡ Capture }
        requires some { (key : List ℕ) × (keys : List (List ℕ)) × (self.old.closed_set ≡ key ∷ keys) }
        ensures { (key : List ℕ) (keys : List (List ℕ)) → self.old.closed_set ≡ key ∷ keys → self.new ≡ after_taking key keys self.old }
    {
        self.records.take();
    }

    /// The committed pairs, ascending by key.
    pub fn committed(&self, alloc: Global) -> Result<Vec<(Key, Value)>, AllocError>
        ensures rise { IfOk result (λ pairs. KeysRise pairs.items) }
        ensures contents { IfOk result (λ pairs. (key : List ℕ) → get (database_of pairs.items) key ≡ stored (record_of self.now.kept.rows key)) }
    {
        self.records.committed(alloc)
    }
}

// `count` idle sessions.
fn idle(alloc: Global, count: u8) -> Result<Vec<Lane>, AllocError>
    ensures { IfOk result (λ lanes. actives_of lanes.items ≡ replicate count None) }
{
    let mut lanes = Vec::with_capacity(alloc, count as usize)?;
    for _ in 0..count {
        lanes.push(Lane::new(alloc))?;
    }
    Ok(lanes)
}

// The index of the session; sessions are numbered from 1.
fn place(session: SessionNo) -> usize
    ensures { result ≡ session - 1 }
{
    (session.0 as usize).saturating_sub(1)
}

// The session's open transaction.
fn active(lanes: &[Lane], session: SessionNo) -> Option<Transaction>
    ensures { option_map (with_writes (writes_in (active_in (actives_of lanes.now) session))) result ≡ active_in (actives_of lanes.now) session }
{
    match lanes.get(place(session)) {
        Some(lane) => lane.transaction(),
        None => None,
    }
}

// The number of the session's open transaction, and 0 if it has none.
fn number(lanes: &[Lane], session: SessionNo) -> TxnNo
    ensures { result ≡ number_in (active_in (actives_of lanes.now) session) }
{
    match active(lanes, session) {
        Some(transaction) => transaction.number,
        None => TxnNo(0),
    }
}

// A request of the session's transaction has died.
fn note_death(lanes: &mut Vec<Lane>, session: SessionNo)
    requires { session - 1 < length lanes.old.items }
    ensures { actives_of lanes.new.items ≡ with_session (actives_of lanes.old.items) session (after_dying (active_in (actives_of lanes.old.items) session)) }
{
    lanes[place(session)].note_death();
}

// Why a request of the key is refused if an allocation failed: that the key has no record, and can't get one, comes first.
fn why_refused(records: &Records, key: &Key) -> Refusal
    ensures { result ≡ why_refused (kept_of records.now) key.now }
{
    if records.is_full_for(key) {
        Refusal::Full
    } else {
        Refusal::OutOfMemory
    }
}

// The answer to a read that gives this.
fn answer(found: Option<Value>) -> GetAnswer
    ensures { reply_to_get result ≡ read_reply found }
{
    match found {
        None => GetAnswer::Absent,
        Some(value) => GetAnswer::Found(value),
    }
}
