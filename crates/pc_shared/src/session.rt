//! Sessions, and their calls.
ghost use Rattle.std.specs.Prelude.{◌≡◌, ◌≢◌, ◌∷◌, ◌++◌, [], true, false, Some, None, IfOk, IfErr, OnErr, option_copied, slice_get};
ghost use Rattle.pc_types.specs.declared.Event.{Event};
ghost use Rattle.pc_types.specs.declared.Event.TheVariants.{Begin, Get, Put, Del, Add, Commit, Abort};
ghost use Rattle.pc_types.specs.declared.Reply.TheVariants.{Begun, Committed, Aborted, Refused};
ghost use Rattle.pc_model.specs.History.{is_open};
ghost use Rattle.pc_model.specs.Calls.{step_of, Extends, IsAnswered, AsksOpen};
ghost use Rattle.pc_model.specs.Receipts.{own_of, receipt_of};
ghost use Rattle.pc_kept_log.specs.Logs.{entries_of};
ghost use Rattle.pc_txn.specs.Commits.{notes_of};
ghost use Rattle.pc_shared.specs.Answers.{IsReadAnswered, IsWriteAnswered, IsAddAnswered};
ghost use Rattle.pc_shared.specs.Finds.{found_in};
ghost use Rattle.pc_shared.specs.Lent.{AreLentBy};

use crate::asks::{answer_of, answer_to, answer_to_add};
use crate::store::Shared;
use pc_kept_log::{LentWrites, Log};
use pc_tie::{SessionSeat, StoreName};
use pc_txn::{Commits, SessionNotes, has_room_for_commit, has_room_to_read};
use pc_types::{Key, Lsn, Refusal, SessionNo, TxnNo, Value};
use std::marker::Model;
use std::sync::Wait;

/// The answer to a read or a write of a session.
#[derive(Clone, Copy, Debug, PartialEq, Eq)]
pub enum CallAnswer {
    /// The key has a value, which `Session::found` gives.
    Found,
    /// The key has no value.
    Absent,
    /// The write was made.
    Ok,
    /// The add was made, and the key has this number now.
    Sum(i64),
    /// The request of the key's lock died; the transaction accepts only an abort.
    Died,
}

/// A session of a store. Contracts see its number, the history that it has seen, and the receipts of its commits, which that
/// history determines. Of each commit it keeps the entry's number and the transaction's reads; the writes are in the log, and
/// `Closed::receipt` gives a view of the whole receipt.
#[derive(Drop)]
pub struct Session<N: StoreName> {
    pub(crate) seat: SessionSeat<N>,
    pub(crate) work: SessionNotes,
}

impl<N: StoreName> Model for Session<N> {
    ghost use Rattle.std.specs.Prelude.{◌≡◌};
    ghost use Rattle.pc_txn.specs.Notes.{kept_in};
    ghost use Rattle.pc_shared.specs.Finds.{found_in};
    ghost use Rattle.pc_shared.specs.Sitters.{Sitter, seated_at, SessionKeeps};

    ghost Value = { Sitter };

    ghost view = { λ s. seated_at s.seat.number s.seat.seen };

    ghost invariant = { λ s. SessionKeeps s.work.busy s.work.reads.items s.work.commits.items s.seat.number s.seat.seen × (kept_in s.work.latest s.work.reads.items ≡ found_in s.seat.seen) };
}

/// A view of a receipt, borrowed from its session and the log; its writes are in the text of its log entry. Contracts see the receipt.
#[derive(Drop)]
pub struct LentReceipt<'a> {
    /// The number of its entry in the log; the first entry has number 1.
    pub number: Lsn,
    pub session: SessionNo,
    /// The transaction's reads of keys that it had not written: the first such read of each key, in their order, with the value
    /// read, or None.
    pub reads: &'a [(Key, Option<Value>)],
    // The log, whose entry of this number has its writes.
    log: &'a Log,
}

impl<'a> Model for LentReceipt<'a> {
    ghost use Rattle.pc_types.specs.declared.Receipt.{Receipt};
    ghost use Rattle.pc_kept_log.specs.Logs.{entries_of};
    ghost use Rattle.pc_shared.specs.Lent.{entry_writes};

    ghost Value = { Receipt };

    ghost view = { λ r. record { number = r.number; session = r.session; reads = r.reads.now; writes = entry_writes (entries_of r.log.now) r.number } };
}

impl<'a> LentReceipt<'a> {
    /// A view of its writes in the text of its log entry. It allocates nothing.
    pub fn writes(&self) -> LentWrites<'a>
        ensures { result ≡ self.now.writes }
    {
        let place = (self.number.0 as usize).saturating_sub(1);
        self.log.writes(place)
    }
}

impl<N: StoreName> Session<N> {
    /// Its number.
    pub fn number(&self) -> SessionNo
        ensures { result ≡ self.now.number }
    {
        self.seat.number()
    }

    /// Its commits, in their order: of each the number of its entry in the log, and the reads of its receipt.
    pub fn commits(&self) -> &Commits
        ensures { result.now.items ≡ notes_of self.now.receipts }
    {
        &self.work.commits
    }

    // The receipt of its commit at the place, by the log that has its commits' entries; None if it has no such commit.
    pub(crate) fn receipt<'a>(&'a self, log: &'a Log, place: usize) -> Option<LentReceipt<'a>>
        requires { AreLentBy (entries_of log.now) self.now }
        ensures { result ≡ slice_get self.now.receipts place }
    {
        let Some(number) = self.work.commits.number(place) else {
            return None;
        };
        Some(LentReceipt {
            number,
            session: self.number(),
            reads: self.work.commits.reads(place),
            log,
        })
    }

    /// The value that its latest call found, if that was a `get` answered with Found; it is kept until the session's next call that
    /// isn't refused.
    pub fn found(&self) -> Option<&Value>
        ensures { option_copied result ≡ found_in self.now.seen }
    {
        self.work.found()
    }
}

// The refusal for a session that has no transaction open.
fn told_idle<N: StoreName>(seat: &SessionSeat<N>) -> Refusal
    requires { is_open seat.now.number seat.now.seen ≡ false }
    ensures told { result ≡ Refusal.NoTransaction }
    ensures no_wait { result ≢ Refusal.StillWaiting }
    ensures answered { (event : Event) → AsksOpen seat.now.number event → IsAnswered N.name.setting seat.now.number seat.now.seen event (Refused Refusal.NoTransaction) }
{
    let _ = seat.number();
    Refusal::NoTransaction
}

impl<N: StoreName> Shared<N> {
    /// The session begins a transaction; returns its number. A refusal is one that the store may answer after some legal history
    /// with all that the session has seen and no other call of it, and changes nothing: `AlreadyBegun` if its transaction is open,
    /// `LogFull` if the store has begun as many as it may.
    pub fn begin<R: Wait>(&self, rt: &R, session: &mut Session<N>) -> Result<TxnNo, Refusal>
        ensures number { session.new.number ≡ session.old.number }
        ensures receipts { session.new.receipts ≡ session.old.receipts }
        ensures call { IfOk result (λ t. Extends N.name.setting session.old.seen (step_of (Begin session.old.number) (Begun t)) session.new.seen) }
        ensures refused { IfErr result (λ why. IsAnswered N.name.setting session.old.number session.old.seen (Begin session.old.number) (Refused why)) }
        ensures no_wait { IfErr result (λ why. why ≢ Refusal.StillWaiting) }
        ensures same { OnErr result (session.new ≡ session.old) }
    {
        let t = match self.begin_as(rt, &mut session.seat) {
            Ok(t) => t,
            Err(why) => return Err(why),
        };
        session.work.begin();
        Ok(t)
    }

    /// The session's transaction reads the key, once its lock is granted: it is found or absent, or the request died. The call
    /// waits while the request waits, and is never refused for it. A refusal is one that the store may answer after some legal
    /// history with all that the session has seen and no other call of it, and changes nothing: the first of `NoTransaction`,
    /// `MustAbort` and `Full` that holds, otherwise `OutOfMemory`.
    pub fn get<R: Wait>(
        &self,
        rt: &R,
        session: &mut Session<N>,
        key: Key,
    ) -> Result<CallAnswer, Refusal>
        ensures number { session.new.number ≡ session.old.number }
        ensures receipts { session.new.receipts ≡ session.old.receipts }
        ensures call { IfOk result (λ answer. IsReadAnswered N.name.setting session.old.seen session.old.number key answer session.new.seen) }
        ensures refused { IfErr result (λ why. IsAnswered N.name.setting session.old.number session.old.seen (Get session.old.number key) (Refused why)) }
        ensures no_wait { IfErr result (λ why. why ≢ Refusal.StillWaiting) }
        ensures same { OnErr result (session.new ≡ session.old) }
    {
        if !session.work.busy {
            return Err(told_idle(&session.seat));
        }
        let has_room = has_room_to_read(&mut session.work.reads);
        let (got, own) = match self.get_as(rt, &mut session.seat, &key, has_room) {
            Ok((got, own)) => (got, own),
            Err(why) => return Err(why),
        };
        let answer = answer_of(&got);
        session.work.read(own, key, got);
        Ok(answer)
    }

    /// The session's transaction sets the key to the value, once its lock is granted, or the request died. The call waits while the
    /// request waits, and is never refused for it. A refusal is one that the store may answer after some legal history with all
    /// that the session has seen and no other call of it, and changes nothing: the first of `NoTransaction`, `MustAbort`,
    /// `TooManyWrites` and `Full` that holds, otherwise `OutOfMemory`.
    pub fn put<R: Wait>(
        &self,
        rt: &R,
        session: &mut Session<N>,
        key: Key,
        value: Value,
    ) -> Result<CallAnswer, Refusal>
        ensures number { session.new.number ≡ session.old.number }
        ensures receipts { session.new.receipts ≡ session.old.receipts }
        ensures call { IfOk result (λ answer. IsWriteAnswered N.name.setting session.old.seen (Put session.old.number key value) answer session.new.seen) }
        ensures refused { IfErr result (λ why. IsAnswered N.name.setting session.old.number session.old.seen (Put session.old.number key value) (Refused why)) }
        ensures no_wait { IfErr result (λ why. why ≢ Refusal.StillWaiting) }
        ensures same { OnErr result (session.new ≡ session.old) }
    {
        if !session.work.busy {
            return Err(told_idle(&session.seat));
        }
        let made = match self.put_as(rt, &mut session.seat, &key, &value) {
            Ok(made) => made,
            Err(why) => return Err(why),
        };
        session.work.find_nothing();
        Ok(answer_to(made))
    }

    /// The session's transaction removes the key, once its lock is granted, or the request died. It waits as `put` does, and its
    /// refusals are those of `put`.
    pub fn del<R: Wait>(
        &self,
        rt: &R,
        session: &mut Session<N>,
        key: Key,
    ) -> Result<CallAnswer, Refusal>
        ensures number { session.new.number ≡ session.old.number }
        ensures receipts { session.new.receipts ≡ session.old.receipts }
        ensures call { IfOk result (λ answer. IsWriteAnswered N.name.setting session.old.seen (Del session.old.number key) answer session.new.seen) }
        ensures refused { IfErr result (λ why. IsAnswered N.name.setting session.old.number session.old.seen (Del session.old.number key) (Refused why)) }
        ensures no_wait { IfErr result (λ why. why ≢ Refusal.StillWaiting) }
        ensures same { OnErr result (session.new ≡ session.old) }
    {
        if !session.work.busy {
            return Err(told_idle(&session.seat));
        }
        let made = match self.del_as(rt, &mut session.seat, &key) {
            Ok(made) => made,
            Err(why) => return Err(why),
        };
        session.work.find_nothing();
        Ok(answer_to(made))
    }

    /// The session's transaction adds to the key's number, or to 0 if the key has no value, once its lock is granted, and returns
    /// the sum; or the request died. It waits as `put` does. An add is no read of the receipt. Its refusals are those of `put`, and
    /// before `OutOfMemory`, if the lock would be granted: `NotNumber` if the key's value doesn't have eight bytes, and
    /// `OutOfRange` if the sum, or the total that the transaction has added to the key, isn't in 64 bits. A refused add makes no
    /// request.
    pub fn add<R: Wait>(
        &self,
        rt: &R,
        session: &mut Session<N>,
        key: Key,
        delta: i64,
    ) -> Result<CallAnswer, Refusal>
        ensures number { session.new.number ≡ session.old.number }
        ensures receipts { session.new.receipts ≡ session.old.receipts }
        ensures call { IfOk result (λ answer. IsAddAnswered N.name.setting session.old.seen (Add session.old.number key delta) answer session.new.seen) }
        ensures refused { IfErr result (λ why. IsAnswered N.name.setting session.old.number session.old.seen (Add session.old.number key delta) (Refused why)) }
        ensures no_wait { IfErr result (λ why. why ≢ Refusal.StillWaiting) }
        ensures same { OnErr result (session.new ≡ session.old) }
    {
        if !session.work.busy {
            return Err(told_idle(&session.seat));
        }
        let sum = match self.add_as(rt, &mut session.seat, &key, delta) {
            Ok(sum) => sum,
            Err(why) => return Err(why),
        };
        session.work.find_nothing();
        Ok(answer_to_add(sum))
    }

    /// The session's transaction commits, and the session has its receipt: the number of its entry in the log, and its writes and
    /// reads by the session's history. A refusal is one that the store may answer after some legal history with all that the
    /// session has seen and no other call of it, and changes nothing: the first of `NoTransaction`, `MustAbort` and `LogFull` that
    /// holds, otherwise `OutOfMemory`.
    pub fn commit<R: Wait>(&self, rt: &R, session: &mut Session<N>) -> Result<Lsn, Refusal>
        ensures number { session.new.number ≡ session.old.number }
        ensures call { IfOk result (λ n. Extends N.name.setting session.old.seen (step_of (Commit session.old.number) (Committed n)) session.new.seen) }
        ensures receipt { IfOk result (λ n. session.new.receipts ≡ session.old.receipts ++ receipt_of session.old.number n (own_of session.old.number session.old.seen) ∷ []) }
        ensures refused { IfErr result (λ why. IsAnswered N.name.setting session.old.number session.old.seen (Commit session.old.number) (Refused why)) }
        ensures no_wait { IfErr result (λ why. why ≢ Refusal.StillWaiting) }
        ensures same { OnErr result (session.new ≡ session.old) }
    {
        if !session.work.busy {
            return Err(told_idle(&session.seat));
        }
        let reads = session.work.reads.len();
        let has_room = has_room_for_commit(&mut session.work.commits, reads);
        let n = match self.commit_as(rt, &mut session.seat, has_room) {
            Ok(n) => n,
            Err(why) => return Err(why),
        };
        session.work.commit(n);
        Ok(n)
    }

    /// The session's transaction ends without effect. Returns `NoTransaction` if and only if none is open.
    pub fn abort<R: Wait>(&self, rt: &R, session: &mut Session<N>) -> Result<(), Refusal>
        ensures number { session.new.number ≡ session.old.number }
        ensures receipts { session.new.receipts ≡ session.old.receipts }
        ensures call { IfOk result (λ _. Extends N.name.setting session.old.seen (step_of (Abort session.old.number) Aborted) session.new.seen) }
        ensures refused { IfErr result (λ why. IsAnswered N.name.setting session.old.number session.old.seen (Abort session.old.number) (Refused why)) }
        ensures no_wait { IfErr result (λ why. why ≢ Refusal.StillWaiting) }
        ensures same { OnErr result (session.new ≡ session.old) }
    {
        if !session.work.busy {
            return Err(told_idle(&session.seat));
        }
        match self.abort_as(rt, &mut session.seat) {
            Ok(()) => {}
            Err(why) => return Err(why),
        }
        session.work.abort();
        Ok(())
    }
}
