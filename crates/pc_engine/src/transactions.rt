//! The effect of each call of a session.
ghost use Rattle.std.specs.Prelude.{◌≡◌, ◌==◌, ◌||◌, nat_lt, option_copied};
ghost use Rattle.pc_answers.specs.Replies.{begin_reply, get_reply, write_reply, add_reply, commit_reply, abort_reply};
ghost use Rattle.pc_engine.specs.Steps.{OpenCause, WriteCause, Begins, Gets, WritesKey, AddsTo, Commits, Aborts};

use crate::world::World;
use crate::writes::{add_write, content_write};
use pc_answers::{AddAnswer, GetAnswer};
use pc_log::commit_size;
use pc_types::{Key, Lsn, MOST_TRANSACTIONS, Outcome, Refusal, SessionNo, TxnNo, Value};

impl World {
    pub(crate) fn open_transaction(&mut self, session: SessionNo) -> Result<TxnNo, Refusal>
        ensures { Begins self.old session (begin_reply result) self.new }
    {
        if is_no_session(self.sessions.len(), session) {
            return Err(Refusal::NoSession);
        }
        if self.sessions.active(session).is_some() {
            return Err(Refusal::AlreadyBegun);
        }
        if self.sessions.begun() == MOST_TRANSACTIONS {
            return Err(Refusal::LogFull);
        }
        Ok(self.sessions.begin(session))
    }

    // Why a call of the session's open transaction is refused, whatever else it asks, if it is.
    pub(crate) fn open_cause(&self, session: SessionNo) -> Option<Refusal>
        ensures { OpenCause self.now session result }
    {
        if is_no_session(self.sessions.len(), session) {
            return Some(Refusal::NoSession);
        }
        let Some(transaction) = self.sessions.active(session) else {
            return Some(Refusal::NoTransaction);
        };
        if self.sessions.is_waiting(transaction.number) {
            return Some(Refusal::StillWaiting);
        }
        if transaction.has_died {
            return Some(Refusal::MustAbort);
        }
        None
    }

    pub(crate) fn read_key(&mut self, session: SessionNo, key: &Key) -> Result<GetAnswer, Refusal>
        ensures { Gets self.old session key.now (get_reply result) self.new }
    {
        if let Some(why) = self.open_cause(session) {
            return Err(why);
        }
        self.sessions.read(self.alloc, session, key)
    }

    // Sets the key to the value, or removes it.
    pub(crate) fn write_key(
        &mut self,
        session: SessionNo,
        key: &Key,
        value: Option<&Value>,
    ) -> Result<Outcome, Refusal>
        ensures { WritesKey self.old session key.now (option_copied value.entry) (write_reply result) self.new }
    {
        if let Some(why) = self.write_cause(session, key) {
            return Err(why);
        }
        let Ok((write, value)) = content_write(self.alloc, key, value) else {
            return Err(self.sessions.why_refused(key));
        };
        self.sessions
            .request(self.alloc, session, write, value, None)
    }

    pub(crate) fn add_to_key(
        &mut self,
        session: SessionNo,
        key: &Key,
        delta: i64,
    ) -> Result<AddAnswer, Refusal>
        ensures { AddsTo self.old session key.now delta (add_reply result) self.new }
    {
        if let Some(why) = self.write_cause(session, key) {
            return Err(why);
        }
        let prospect = match self.sessions.foretell(session, key, delta) {
            Ok(prospect) => prospect,
            Err(why) => return Err(why),
        };
        let Ok((write, value)) = add_write(self.alloc, key, delta, prospect.sum) else {
            return Err(Refusal::OutOfMemory);
        };
        let near = prospect.near;
        match self
            .sessions
            .request(self.alloc, session, write, value, near)
        {
            Ok(Outcome::Granted) => Ok(AddAnswer::Sum(prospect.sum.unwrap_or(0))),
            Ok(Outcome::Queued) => Ok(AddAnswer::Wait),
            Ok(Outcome::Died) => Ok(AddAnswer::Died),
            Err(why) => Err(why),
        }
    }

    // Why a write of the key is refused whatever room and memory there is, if it is.
    pub(crate) fn write_cause(&self, session: SessionNo, key: &Key) -> Option<Refusal>
        ensures { WriteCause self.now session key.now result }
    {
        if let Some(why) = self.open_cause(session) {
            return Some(why);
        }
        if self.sessions.is_one_too_many(session, key) {
            return Some(Refusal::TooManyWrites);
        }
        None
    }

    pub(crate) fn commit_transaction(&mut self, session: SessionNo) -> Result<Lsn, Refusal>
        ensures { Commits self.old session (commit_reply result) self.new }
    {
        if let Some(why) = self.open_cause(session) {
            return Err(why);
        }
        if self.log.is_full() {
            return Err(Refusal::LogFull);
        }
        let writes = self.sessions.writes(session);
        if self.log.reserve(commit_size(writes)).is_err() {
            return Err(Refusal::OutOfMemory);
        }
        let number = self.log.append_commit(session, writes);
        self.sessions.commit(session);
        Ok(number)
    }

    pub(crate) fn abort_transaction(&mut self, session: SessionNo) -> Result<(), Refusal>
        ensures { Aborts self.old session (abort_reply result) self.new }
    {
        if is_no_session(self.sessions.len(), session) {
            return Err(Refusal::NoSession);
        }
        if self.sessions.active(session).is_none() {
            return Err(Refusal::NoTransaction);
        }
        self.sessions.abort(session);
        Ok(())
    }
}

// Whether a store of so many sessions has none of this number.
fn is_no_session(sessions: usize, session: SessionNo) -> bool
    ensures { result ≡ ((session == 0) || nat_lt sessions session) }
{
    session.0 == 0 || sessions < session.0 as usize
}
