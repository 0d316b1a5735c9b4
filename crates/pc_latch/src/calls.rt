//! The calls of sessions; each call has its own type of answer. A call that isn't refused extends the history that the session has seen.
ghost use Rattle.std.specs.Prelude.{◌≡◌, ◌∷◌, true, is_some, IfOk};
ghost use Rattle.pc_types.specs.declared.Event.TheVariants.{Begin, Get, Put, Del, Add, Commit, Abort};
ghost use Rattle.pc_model.specs.Database.{written};
ghost use Rattle.pc_model.specs.History.{History, is_open};
ghost use Rattle.pc_model.specs.Receipts.{own_of};
ghost use Rattle.pc_model.specs.Calls.{step_of};
ghost use Rattle.pc_answers.specs.Replies.{begin_reply, get_reply, write_reply, add_reply, commit_reply, abort_reply};
ghost use Rattle.pc_engine.specs.Store.{setting_of};
ghost use Rattle.pc_engine.specs.Stands.{Stands, Follows};
ghost use Rattle.pc_latch.specs.Asked.{IsAsked};

use crate::latched::Latched;
use pc_answers::{AddAnswer, GetAnswer};
use pc_engine::World;
use pc_tie::{NotedStep, SessionSeat, StoreName, Tie};
use pc_types::{Key, Lsn, Outcome, Refusal, SessionNo, TxnNo, Value};

// Reads the key in the world. If the caller has no room for the answer, the world refuses.
fn read(
    world: &mut World,
    session: SessionNo,
    key: &Key,
    has_room: bool,
) -> Result<GetAnswer, Refusal>
    ensures follows { (history : History) → Stands world.old history → Follows (setting_of world.old) history (Get session key.now) (get_reply result) world.new }
    ensures setting { setting_of world.new ≡ setting_of world.old }
    ensures room { IfOk result (λ _. has_room ≡ true) }
{
    if has_room {
        world.get(session, key)
    } else {
        Err(world.refuse_get(session, key))
    }
}

// Commits in the world. If the caller has no room for the receipt, the world refuses.
fn commit(world: &mut World, session: SessionNo, has_room: bool) -> Result<Lsn, Refusal>
    ensures follows { (history : History) → Stands world.old history → Follows (setting_of world.old) history (Commit session) (commit_reply result) world.new }
    ensures setting { setting_of world.new ≡ setting_of world.old }
    ensures room { IfOk result (λ _. has_room ≡ true) }
{
    if has_room {
        world.commit(session)
    } else {
        Err(world.refuse_commit(session))
    }
}

impl<N: StoreName> Latched<N> {
    /// The session begins a transaction.
    pub fn begin(&mut self, tie: &Tie<N>, session: &mut SessionSeat<N>) -> Result<TxnNo, Refusal>
        ensures history { self.new ≡ step_of (Begin session.old.number) (begin_reply result) ∷ self.old }
        ensures asked { IsAsked N.name.setting session.old (Begin session.old.number) (begin_reply result) session.new }
    {
        let number = session.number();
        let before = self.world.log().len() as u64;
        let answer = self.world.begin(number);
        let after = self.world.log().len() as u64;
        let step = NotedStep::begin(number, &answer);
        self.keeper.note(tie, session, before, after, &step);
        answer
    }

    /// The session reads the key. If it has no room for the answer, the read is refused: with the cause that comes first, otherwise
    /// with `OutOfMemory`. Also says whether the session's own open transaction has written the key.
    pub fn get(
        &mut self,
        tie: &Tie<N>,
        session: &mut SessionSeat<N>,
        key: &Key,
        has_room: bool,
    ) -> (Result<GetAnswer, Refusal>, bool)
        ensures history { self.new ≡ step_of (Get session.old.number key.now) (get_reply result.0) ∷ self.old }
        ensures asked { IsAsked N.name.setting session.old (Get session.old.number key.now) (get_reply result.0) session.new }
        ensures room { IfOk result.0 (λ _. has_room ≡ true) }
        ensures own_write { is_open session.old.number session.old.seen ≡ true → result.1 ≡ is_some (written (own_of session.old.number session.old.seen).writes key.now) }
    {
        let number = session.number();
        let own_write = self.world.has_written(number, key);
        let before = self.world.log().len() as u64;
        let answer = read(&mut self.world, number, key, has_room);
        let after = self.world.log().len() as u64;
        let step = NotedStep::get(number, key, &answer);
        self.keeper.note(tie, session, before, after, &step);
        (answer, own_write)
    }

    /// The session sets the key to the value.
    pub fn put(
        &mut self,
        tie: &Tie<N>,
        session: &mut SessionSeat<N>,
        key: &Key,
        value: &Value,
    ) -> Result<Outcome, Refusal>
        ensures history { self.new ≡ step_of (Put session.old.number key.now value.now) (write_reply result) ∷ self.old }
        ensures asked { IsAsked N.name.setting session.old (Put session.old.number key.now value.now) (write_reply result) session.new }
    {
        let number = session.number();
        let before = self.world.log().len() as u64;
        let answer = self.world.put(number, key, value);
        let after = self.world.log().len() as u64;
        let step = NotedStep::put(number, key, value, &answer);
        self.keeper.note(tie, session, before, after, &step);
        answer
    }

    /// The session removes the key.
    pub fn del(
        &mut self,
        tie: &Tie<N>,
        session: &mut SessionSeat<N>,
        key: &Key,
    ) -> Result<Outcome, Refusal>
        ensures history { self.new ≡ step_of (Del session.old.number key.now) (write_reply result) ∷ self.old }
        ensures asked { IsAsked N.name.setting session.old (Del session.old.number key.now) (write_reply result) session.new }
    {
        let number = session.number();
        let before = self.world.log().len() as u64;
        let answer = self.world.del(number, key);
        let after = self.world.log().len() as u64;
        let step = NotedStep::del(number, key, &answer);
        self.keeper.note(tie, session, before, after, &step);
        answer
    }

    /// The session adds to the key's number.
    pub fn add(
        &mut self,
        tie: &Tie<N>,
        session: &mut SessionSeat<N>,
        key: &Key,
        delta: i64,
    ) -> Result<AddAnswer, Refusal>
        ensures history { self.new ≡ step_of (Add session.old.number key.now delta) (add_reply result) ∷ self.old }
        ensures asked { IsAsked N.name.setting session.old (Add session.old.number key.now delta) (add_reply result) session.new }
    {
        let number = session.number();
        let before = self.world.log().len() as u64;
        let answer = self.world.add(number, key, delta);
        let after = self.world.log().len() as u64;
        let step = NotedStep::add(number, key, delta, &answer);
        self.keeper.note(tie, session, before, after, &step);
        answer
    }

    /// The session commits. If it has no room for the receipt, the commit is refused: with the cause that comes first, otherwise
    /// with `OutOfMemory`.
    pub fn commit(
        &mut self,
        tie: &Tie<N>,
        session: &mut SessionSeat<N>,
        has_room: bool,
    ) -> Result<Lsn, Refusal>
        ensures history { self.new ≡ step_of (Commit session.old.number) (commit_reply result) ∷ self.old }
        ensures asked { IsAsked N.name.setting session.old (Commit session.old.number) (commit_reply result) session.new }
        ensures room { IfOk result (λ _. has_room ≡ true) }
    {
        let number = session.number();
        let before = self.world.log().len() as u64;
        let answer = commit(&mut self.world, number, has_room);
        let after = self.world.log().len() as u64;
        let step = NotedStep::commit(number, &answer);
        self.keeper.note(tie, session, before, after, &step);
        answer
    }

    /// The session aborts.
    pub fn abort(&mut self, tie: &Tie<N>, session: &mut SessionSeat<N>) -> Result<(), Refusal>
        ensures history { self.new ≡ step_of (Abort session.old.number) (abort_reply result) ∷ self.old }
        ensures asked { IsAsked N.name.setting session.old (Abort session.old.number) (abort_reply result) session.new }
    {
        let number = session.number();
        let before = self.world.log().len() as u64;
        let answer = self.world.abort(number);
        let after = self.world.log().len() as u64;
        let step = NotedStep::abort(number, &answer);
        self.keeper.note(tie, session, before, after, &step);
        answer
    }
}
