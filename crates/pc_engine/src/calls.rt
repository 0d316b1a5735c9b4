//! The calls of sessions, and the checkpointer's take, each with an answer of its own. For every history that the world
//! represents, the reply that represents a call's answer is legal, and the world then represents that history followed by the
//! call's event and this reply. A refused call changes nothing.
ghost use Rattle.std.specs.Prelude.{◌≡◌, OnErr};
ghost use Rattle.pc_types.specs.declared.Event.TheVariants.{Begin, Get, Put, Del, Add, Commit, Abort, Take};
ghost use Rattle.pc_model.specs.History.{History};
ghost use Rattle.pc_answers.specs.Replies.{begin_reply, get_reply, write_reply, add_reply, commit_reply, abort_reply, take_reply};
ghost use Rattle.pc_engine.specs.Store.{setting_of};
ghost use Rattle.pc_engine.specs.Stands.{Stands, Follows};

use crate::world::World;
use pc_answers::{AddAnswer, GetAnswer, TakeAnswer};
use pc_types::{Key, Lsn, Outcome, Refusal, SessionNo, TxnNo, Value, number_fits};

impl World {
    /// The session begins a transaction; returns its number. Refused with the first of `NoSession`, `AlreadyBegun` and `LogFull`
    /// that applies, the last if the store has begun as many as it may. It allocates no memory.
    pub fn begin(&mut self, session: SessionNo) -> Result<TxnNo, Refusal>
        ensures follows { (history : History) → Stands self.old history → Follows (setting_of self.old) history (Begin session) (begin_reply result) self.new }
        ensures setting { setting_of self.new ≡ setting_of self.old }
        ensures refused { OnErr result (self.new ≡ self.old) }
    {
        self.open_transaction(session)
    }

    /// The session's transaction reads the key, if its lock is granted: what its own writes leave of it, or else what is
    /// committed. Refused with the first of `NoSession`, `NoTransaction`, `StillWaiting`, `MustAbort` and `Full` that applies,
    /// otherwise only with `OutOfMemory`.
    pub fn get(&mut self, session: SessionNo, key: &Key) -> Result<GetAnswer, Refusal>
        ensures follows { (history : History) → Stands self.old history → Follows (setting_of self.old) history (Get session key.now) (get_reply result) self.new }
        ensures setting { setting_of self.new ≡ setting_of self.old }
        ensures refused { OnErr result (self.new ≡ self.old) }
    {
        self.read_key(session, key)
    }

    /// The session's transaction sets the key to the value, if its lock is granted. Refused with the first of `NoSession`,
    /// `NoTransaction`, `StillWaiting`, `MustAbort`, `TooManyWrites` and `Full` that applies, otherwise only with `OutOfMemory`.
    pub fn put(&mut self, session: SessionNo, key: &Key, value: &Value) -> Result<Outcome, Refusal>
        ensures follows { (history : History) → Stands self.old history → Follows (setting_of self.old) history (Put session key.now value.now) (write_reply result) self.new }
        ensures setting { setting_of self.new ≡ setting_of self.old }
        ensures refused { OnErr result (self.new ≡ self.old) }
    {
        let _ = key.as_bytes();
        let _ = value.as_bytes();
        self.write_key(session, key, Some(value))
    }

    /// The session's transaction removes the key, if its lock is granted. It is refused as `put` is.
    pub fn del(&mut self, session: SessionNo, key: &Key) -> Result<Outcome, Refusal>
        ensures follows { (history : History) → Stands self.old history → Follows (setting_of self.old) history (Del session key.now) (write_reply result) self.new }
        ensures setting { setting_of self.new ≡ setting_of self.old }
        ensures refused { OnErr result (self.new ≡ self.old) }
    {
        let _ = key.as_bytes();
        self.write_key(session, key, None)
    }

    /// The session's transaction adds to the number that the key has (0 if it has no value), if its lock is granted, and returns
    /// the sum. It is refused as `put` is, and before `OutOfMemory`, if the lock would be granted: with `NotNumber` if the key has
    /// a value that isn't eight bytes long, and with `OutOfRange` if the sum, or that of all that the transaction has added to the
    /// key, leaves 64 bits.
    pub fn add(&mut self, session: SessionNo, key: &Key, delta: i64) -> Result<AddAnswer, Refusal>
        ensures follows { (history : History) → Stands self.old history → Follows (setting_of self.old) history (Add session key.now delta) (add_reply result) self.new }
        ensures setting { setting_of self.new ≡ setting_of self.old }
        ensures refused { OnErr result (self.new ≡ self.old) }
    {
        let _ = key.as_bytes();
        number_fits(delta);
        self.add_to_key(session, key, delta)
    }

    /// The session's transaction commits; returns the number of its entry in the log. Refused with the first of `NoSession`,
    /// `NoTransaction`, `StillWaiting`, `MustAbort` and `LogFull` that applies, otherwise only with `OutOfMemory`.
    pub fn commit(&mut self, session: SessionNo) -> Result<Lsn, Refusal>
        ensures follows { (history : History) → Stands self.old history → Follows (setting_of self.old) history (Commit session) (commit_reply result) self.new }
        ensures setting { setting_of self.new ≡ setting_of self.old }
        ensures refused { OnErr result (self.new ≡ self.old) }
    {
        self.commit_transaction(session)
    }

    /// The session's transaction ends without effect. Refused with `NoSession` or `NoTransaction`, if and only if there is none.
    pub fn abort(&mut self, session: SessionNo) -> Result<(), Refusal>
        ensures follows { (history : History) → Stands self.old history → Follows (setting_of self.old) history (Abort session) (abort_reply result) self.new }
        ensures setting { setting_of self.new ≡ setting_of self.old }
        ensures refused { OnErr result (self.new ≡ self.old) }
    {
        self.abort_transaction(session)
    }

    /// Takes a key of the closed set, with its content at the point; no key if the set is empty. Refused with `WrongPhase` if and
    /// only if the phase isn't capture, otherwise only with `OutOfMemory`.
    pub fn take(&mut self) -> Result<TakeAnswer, Refusal>
        ensures follows { (history : History) → Stands self.old history → Follows (setting_of self.old) history Take (take_reply result) self.new }
        ensures setting { setting_of self.new ≡ setting_of self.old }
        ensures refused { OnErr result (self.new ≡ self.old) }
    {
        self.take_key()
    }
}
