//! The calls of a session's seat on the store, event by event.
ghost use Rattle.std.specs.Prelude.{◌≡◌, ◌≢◌, true, is_some, IfOk, IfErr, OnErr};
ghost use Rattle.pc_model.specs.Database.{written};
ghost use Rattle.pc_model.specs.History.{is_open};
ghost use Rattle.pc_model.specs.Receipts.{own_of};
ghost use Rattle.pc_types.specs.declared.Event.TheVariants.{Begin, Get, Put, Del, Add, Commit, Abort};
ghost use Rattle.pc_types.specs.declared.Reply.TheVariants.{Begun, Committed, Aborted, Refused};
ghost use Rattle.pc_model.specs.Calls.{step_of, Extends, IsAnswered};
ghost use Rattle.pc_answers.specs.Replies.{begin_reply, get_reply, write_reply, add_reply, commit_reply, abort_reply};
ghost use Rattle.pc_shared.specs.Asked.{is_waiting_reply, IsGot, IsWriteMade, IsAdded, got_in, made_in, answered_sum};
ghost use Rattle.pc_shared.specs.Answers.{answer_of, write_answer, answer_to_add};

use crate::session::CallAnswer;
use crate::store::{Shared, UnderLatch};
use pc_answers::{
    AddAnswer, GetAnswer, abort_reply, add_reply, begin_reply, commit_reply, write_reply,
};
use pc_tie::{SessionSeat, StoreName};
use pc_txn::Got;
use pc_types::{Key, Lsn, Outcome, Refusal, Reply, TxnNo, Value};
use std::sync::{MutexGuard, Wait};

// The session's answer to a read.
pub(crate) fn answer_of(got: &Got) -> CallAnswer
    ensures { result ≡ answer_of got.now }
{
    match got {
        Got::Found(_) => CallAnswer::Found,
        Got::Absent => CallAnswer::Absent,
        Got::Died => CallAnswer::Died,
    }
}

// The session's answer to a write that was made, or whose request died.
pub(crate) fn answer_to(made: bool) -> CallAnswer
    ensures { result ≡ write_answer made }
{
    if made {
        CallAnswer::Ok
    } else {
        CallAnswer::Died
    }
}

// The session's answer to an add that gave this sum, or whose request died.
pub(crate) fn answer_to_add(sum: Option<i64>) -> CallAnswer
    ensures { result ≡ answer_to_add sum }
{
    match sum {
        Some(sum) => CallAnswer::Sum(sum),
        None => CallAnswer::Died,
    }
}

// The kind of reply to a read; its value is left out.
fn told_read(answer: &Result<GetAnswer, Refusal>) -> Reply {
    match answer {
        Ok(GetAnswer::Found(_) | GetAnswer::Absent) => Reply::Absent,
        Ok(GetAnswer::Wait) => Reply::Wait,
        Ok(GetAnswer::Died) => Reply::Died,
        Err(why) => Reply::Refused(*why),
    }
}

// Whether the answer says that the request waits: it was put into its queue now, or is there and not yet granted.
fn is_read_waiting(answer: &Result<GetAnswer, Refusal>) -> bool
    ensures { result ≡ is_waiting_reply (get_reply answer.now) }
{
    matches!(answer, Ok(GetAnswer::Wait) | Err(Refusal::StillWaiting))
}

fn is_write_waiting(answer: &Result<Outcome, Refusal>) -> bool
    ensures { result ≡ is_waiting_reply (write_reply answer.now) }
{
    matches!(answer, Ok(Outcome::Queued) | Err(Refusal::StillWaiting))
}

fn is_add_waiting(answer: &Result<AddAnswer, Refusal>) -> bool
    ensures { result ≡ is_waiting_reply (add_reply answer.now) }
{
    matches!(answer, Ok(AddAnswer::Wait) | Err(Refusal::StillWaiting))
}

fn is_begin_waiting(answer: &Result<TxnNo, Refusal>) -> bool
    ensures { result ≡ is_waiting_reply (begin_reply answer.now) }
{
    matches!(answer, Err(Refusal::StillWaiting))
}

fn is_commit_waiting(answer: &Result<Lsn, Refusal>) -> bool
    ensures { result ≡ is_waiting_reply (commit_reply answer.now) }
{
    matches!(answer, Err(Refusal::StillWaiting))
}

fn is_abort_waiting(answer: &Result<(), Refusal>) -> bool
    ensures { result ≡ is_waiting_reply (abort_reply answer.now) }
{
    matches!(answer, Err(Refusal::StillWaiting))
}

// The result of a read that doesn't wait, with whether it was of an own write.
fn got_in(answer: Result<GetAnswer, Refusal>, own_write: bool) -> Result<(Got, bool), Refusal>
    ensures { result ≡ got_in own_write answer }
{
    match answer {
        Ok(GetAnswer::Found(value)) => Ok((Got::Found(value), own_write)),
        Ok(GetAnswer::Absent) => Ok((Got::Absent, own_write)),
        Ok(GetAnswer::Died | GetAnswer::Wait) => Ok((Got::Died, own_write)),
        Err(why) => Err(why),
    }
}

// Whether a write that doesn't wait was made; false if its request died.
fn made_in(answer: &Result<Outcome, Refusal>) -> Result<bool, Refusal>
    ensures { result ≡ made_in answer.now }
{
    match answer {
        Ok(Outcome::Granted) => Ok(true),
        Ok(Outcome::Died | Outcome::Queued) => Ok(false),
        Err(why) => Err(*why),
    }
}

// The sum of an add that doesn't wait; none if its request died.
fn sum_in(answer: &Result<AddAnswer, Refusal>) -> Result<Option<i64>, Refusal>
    ensures { result ≡ answered_sum answer.now }
{
    match answer {
        Ok(AddAnswer::Sum(sum)) => Ok(Some(*sum)),
        Ok(AddAnswer::Died | AddAnswer::Wait) => Ok(None),
        Err(why) => Err(*why),
    }
}

// The number in the answer to a begin; commits and aborts are answered alike.
fn number_in(answer: &Result<TxnNo, Refusal>) -> Result<TxnNo, Refusal>
    ensures { result ≡ answer.now }
{
    match answer {
        Ok(number) => Ok(*number),
        Err(why) => Err(*why),
    }
}

fn entry_in(answer: &Result<Lsn, Refusal>) -> Result<Lsn, Refusal>
    ensures { result ≡ answer.now }
{
    match answer {
        Ok(number) => Ok(*number),
        Err(why) => Err(*why),
    }
}

fn end_in(answer: &Result<(), Refusal>) -> Result<(), Refusal>
    ensures { result ≡ answer.now }
{
    match answer {
        Ok(()) => Ok(()),
        Err(why) => Err(*why),
    }
}

impl<N: StoreName> Shared<N> {
    // Releases the latch after a read with this answer; its value is left out of the note.
    fn end_read(&self, held: MutexGuard<'_, UnderLatch<N>>, answer: &Result<GetAnswer, Refusal>) {
        let told = told_read(answer);
        self.let_go(held, &told);
    }

    // The same after a begin.
    fn end_begin(&self, held: MutexGuard<'_, UnderLatch<N>>, answer: &Result<TxnNo, Refusal>) {
        let answer = *answer;
        let told = begin_reply(answer);
        self.let_go(held, &told);
    }

    // The same after a put or a del.
    fn end_write(&self, held: MutexGuard<'_, UnderLatch<N>>, answer: &Result<Outcome, Refusal>) {
        let answer = *answer;
        let told = write_reply(answer);
        self.let_go(held, &told);
    }

    // The same after an add.
    fn end_add(&self, held: MutexGuard<'_, UnderLatch<N>>, answer: &Result<AddAnswer, Refusal>) {
        let answer = *answer;
        let told = add_reply(answer);
        self.let_go(held, &told);
    }

    // The same after a commit.
    fn end_commit(&self, held: MutexGuard<'_, UnderLatch<N>>, answer: &Result<Lsn, Refusal>) {
        let answer = *answer;
        let told = commit_reply(answer);
        self.let_go(held, &told);
    }

    // The same after an abort.
    fn end_abort(&self, held: MutexGuard<'_, UnderLatch<N>>, answer: &Result<(), Refusal>) {
        let answer = *answer;
        let told = abort_reply(answer);
        self.let_go(held, &told);
    }

    // Begins a transaction.
    pub(crate) fn begin_as<R: Wait>(
        &self,
        rt: &R,
        seat: &mut SessionSeat<N>,
    ) -> Result<TxnNo, Refusal>
        ensures number { seat.new.number ≡ seat.old.number }
        ensures call { IfOk result (λ t. Extends N.name.setting seat.old.seen (step_of (Begin seat.old.number) (Begun t)) seat.new.seen) }
        ensures refused { IfErr result (λ why. IsAnswered N.name.setting seat.old.number seat.old.seen (Begin seat.old.number) (Refused why)) }
        ensures no_wait { IfErr result (λ why. why ≢ Refusal.StillWaiting) }
        ensures same { OnErr result (seat.new.seen ≡ seat.old.seen) }
    {
        let mut held = self.get_latch(rt);
        for _ in rt.forever() {
            let answer = held.latched.begin(&self.tie, seat);
            if is_begin_waiting(&answer) {
                held = self.sleep_for_lock(rt, held, seat.number());
            } else {
                self.end_begin(held, &answer);
                return number_in(&answer);
            }
        }
        unreachable!()
    }

    // Reads the key; with whether the session's own transaction has written it.
    pub(crate) fn get_as<R: Wait>(
        &self,
        rt: &R,
        seat: &mut SessionSeat<N>,
        key: &Key,
        has_room: bool,
    ) -> Result<(Got, bool), Refusal>
        ensures number { seat.new.number ≡ seat.old.number }
        ensures own_write { is_open seat.old.number seat.old.seen ≡ true → IfOk result (λ r. r.1 ≡ is_some (written (own_of seat.old.number seat.old.seen).writes key.now)) }
        ensures room { IfOk result (λ _. has_room ≡ true) }
        ensures call { IfOk result (λ r. IsGot N.name.setting seat.old.seen seat.old.number key.now r.0 seat.new.seen) }
        ensures refused { IfErr result (λ why. IsAnswered N.name.setting seat.old.number seat.old.seen (Get seat.old.number key.now) (Refused why)) }
        ensures no_wait { IfErr result (λ why. why ≢ Refusal.StillWaiting) }
        ensures same { OnErr result (seat.new.seen ≡ seat.old.seen) }
    {
        let mut held = self.get_latch(rt);
        for _ in rt.forever() {
            let (answer, own_write) = held.latched.get(&self.tie, seat, key, has_room);
            if is_read_waiting(&answer) {
                drop(answer);
                held = self.sleep_for_lock(rt, held, seat.number());
            } else {
                self.end_read(held, &answer);
                return got_in(answer, own_write);
            }
        }
        unreachable!()
    }

    // Sets the key to the value; false if the request died.
    pub(crate) fn put_as<R: Wait>(
        &self,
        rt: &R,
        seat: &mut SessionSeat<N>,
        key: &Key,
        value: &Value,
    ) -> Result<bool, Refusal>
        ensures number { seat.new.number ≡ seat.old.number }
        ensures call { IfOk result (λ made. IsWriteMade N.name.setting seat.old.seen (Put seat.old.number key.now value.now) made seat.new.seen) }
        ensures refused { IfErr result (λ why. IsAnswered N.name.setting seat.old.number seat.old.seen (Put seat.old.number key.now value.now) (Refused why)) }
        ensures no_wait { IfErr result (λ why. why ≢ Refusal.StillWaiting) }
        ensures same { OnErr result (seat.new.seen ≡ seat.old.seen) }
    {
        let mut held = self.get_latch(rt);
        for _ in rt.forever() {
            let answer = held.latched.put(&self.tie, seat, key, value);
            if is_write_waiting(&answer) {
                held = self.sleep_for_lock(rt, held, seat.number());
            } else {
                self.end_write(held, &answer);
                return made_in(&answer);
            }
        }
        unreachable!()
    }

    // Removes the key; false if the request died.
    pub(crate) fn del_as<R: Wait>(
        &self,
        rt: &R,
        seat: &mut SessionSeat<N>,
        key: &Key,
    ) -> Result<bool, Refusal>
        ensures number { seat.new.number ≡ seat.old.number }
        ensures call { IfOk result (λ made. IsWriteMade N.name.setting seat.old.seen (Del seat.old.number key.now) made seat.new.seen) }
        ensures refused { IfErr result (λ why. IsAnswered N.name.setting seat.old.number seat.old.seen (Del seat.old.number key.now) (Refused why)) }
        ensures no_wait { IfErr result (λ why. why ≢ Refusal.StillWaiting) }
        ensures same { OnErr result (seat.new.seen ≡ seat.old.seen) }
    {
        let mut held = self.get_latch(rt);
        for _ in rt.forever() {
            let answer = held.latched.del(&self.tie, seat, key);
            if is_write_waiting(&answer) {
                held = self.sleep_for_lock(rt, held, seat.number());
            } else {
                self.end_write(held, &answer);
                return made_in(&answer);
            }
        }
        unreachable!()
    }

    // Adds to the key's number, and gives the sum; None if the request died.
    pub(crate) fn add_as<R: Wait>(
        &self,
        rt: &R,
        seat: &mut SessionSeat<N>,
        key: &Key,
        delta: i64,
    ) -> Result<Option<i64>, Refusal>
        ensures number { seat.new.number ≡ seat.old.number }
        ensures call { IfOk result (λ sum. IsAdded N.name.setting seat.old.seen (Add seat.old.number key.now delta) sum seat.new.seen) }
        ensures refused { IfErr result (λ why. IsAnswered N.name.setting seat.old.number seat.old.seen (Add seat.old.number key.now delta) (Refused why)) }
        ensures no_wait { IfErr result (λ why. why ≢ Refusal.StillWaiting) }
        ensures same { OnErr result (seat.new.seen ≡ seat.old.seen) }
    {
        let mut held = self.get_latch(rt);
        for _ in rt.forever() {
            let answer = held.latched.add(&self.tie, seat, key, delta);
            if is_add_waiting(&answer) {
                held = self.sleep_for_lock(rt, held, seat.number());
            } else {
                self.end_add(held, &answer);
                return sum_in(&answer);
            }
        }
        unreachable!()
    }

    // Commits, and gives the number of the entry.
    pub(crate) fn commit_as<R: Wait>(
        &self,
        rt: &R,
        seat: &mut SessionSeat<N>,
        has_room: bool,
    ) -> Result<Lsn, Refusal>
        ensures number { seat.new.number ≡ seat.old.number }
        ensures room { IfOk result (λ _. has_room ≡ true) }
        ensures call { IfOk result (λ n. Extends N.name.setting seat.old.seen (step_of (Commit seat.old.number) (Committed n)) seat.new.seen) }
        ensures refused { IfErr result (λ why. IsAnswered N.name.setting seat.old.number seat.old.seen (Commit seat.old.number) (Refused why)) }
        ensures no_wait { IfErr result (λ why. why ≢ Refusal.StillWaiting) }
        ensures same { OnErr result (seat.new.seen ≡ seat.old.seen) }
    {
        let mut held = self.get_latch(rt);
        for _ in rt.forever() {
            let answer = held.latched.commit(&self.tie, seat, has_room);
            if is_commit_waiting(&answer) {
                held = self.sleep_for_lock(rt, held, seat.number());
            } else {
                self.end_commit(held, &answer);
                return entry_in(&answer);
            }
        }
        unreachable!()
    }

    // Aborts.
    pub(crate) fn abort_as<R: Wait>(&self, rt: &R, seat: &mut SessionSeat<N>) -> Result<(), Refusal>
        ensures number { seat.new.number ≡ seat.old.number }
        ensures call { IfOk result (λ _. Extends N.name.setting seat.old.seen (step_of (Abort seat.old.number) Aborted) seat.new.seen) }
        ensures refused { IfErr result (λ why. IsAnswered N.name.setting seat.old.number seat.old.seen (Abort seat.old.number) (Refused why)) }
        ensures no_wait { IfErr result (λ why. why ≢ Refusal.StillWaiting) }
        ensures same { OnErr result (seat.new.seen ≡ seat.old.seen) }
    {
        let mut held = self.get_latch(rt);
        for _ in rt.forever() {
            let answer = held.latched.abort(&self.tie, seat);
            if is_abort_waiting(&answer) {
                held = self.sleep_for_lock(rt, held, seat.number());
            } else {
                self.end_abort(held, &answer);
                return end_in(&answer);
            }
        }
        unreachable!()
    }
}
