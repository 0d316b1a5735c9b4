//! The reply to a caller that has no memory.
ghost use Rattle.std.specs.Prelude.{◌≡◌, List, ℕ, Option};
ghost use Rattle.pc_model.specs.History.{History};
ghost use Rattle.pc_types.specs.declared.Event.TheVariants.{Get, Commit};
ghost use Rattle.pc_types.specs.declared.Reply.TheVariants.{Refused};
ghost use Rattle.pc_types.specs.declared.Refusal.{Refusal};
ghost use Rattle.pc_engine.specs.Store.{setting_of};
ghost use Rattle.pc_engine.specs.Asking.{AsksOfOpen};
ghost use Rattle.pc_engine.specs.Stands.{Stands, Follows};
ghost use Rattle.pc_engine.specs.Steps.{Gets, WritesKey, AddsTo, Commits};

use crate::world::{World, in_limits};
use pc_types::{Event, Key, Refusal, Reply, SessionNo};

impl World {
    /// Refuses a read, a write, an add or a commit whose caller has no memory, and changes nothing: the refusal that applies even
    /// if allocations succeed, else `OutOfMemory`. For every history that the world represents, the reply is one that `step` may
    /// give, and the world then represents that history followed by this step.
    pub fn refuse(&self, event: &Event) -> Reply
        requires { AsksOfOpen event.now }
        ensures follows { (history : History) → Stands self.now history → Follows (setting_of self.now) history event.now result self.now }
        ensures refused { (why : Refusal) × (result ≡ Refused why) }
    {
        in_limits(event);
        match event {
            Event::Get(session, key) => Reply::Refused(self.get_refusal(*session, key)),
            Event::Put(session, key, _) => Reply::Refused(self.write_refusal(*session, key)),
            Event::Del(session, key) => Reply::Refused(self.write_refusal(*session, key)),
            Event::Add(session, key, delta) => {
                Reply::Refused(self.add_refusal(*session, key, *delta))
            }
            Event::Commit(session) => Reply::Refused(self.commit_refusal(*session)),
            _ => unreachable!(),
        }
    }

    /// Refuses a read whose caller has no memory, as `refuse` does.
    pub fn refuse_get(&self, session: SessionNo, key: &Key) -> Refusal
        ensures { (history : History) → Stands self.now history → Follows (setting_of self.now) history (Get session key.now) (Refused result) self.now }
    {
        self.get_refusal(session, key)
    }

    /// Refuses a commit whose caller has no memory, as `refuse` does.
    pub fn refuse_commit(&self, session: SessionNo) -> Refusal
        ensures { (history : History) → Stands self.now history → Follows (setting_of self.now) history (Commit session) (Refused result) self.now }
    {
        self.commit_refusal(session)
    }

    fn get_refusal(&self, session: SessionNo, key: &Key) -> Refusal
        ensures { Gets self.now session key.now (Refused result) self.now }
    {
        if let Some(why) = self.open_cause(session) {
            return why;
        }
        self.sessions.why_refused(key)
    }

    fn write_refusal(&self, session: SessionNo, key: &Key) -> Refusal
        ensures { (content : Option (List ℕ)) → WritesKey self.now session key.now content (Refused result) self.now }
    {
        if let Some(why) = self.write_cause(session, key) {
            return why;
        }
        self.sessions.why_refused(key)
    }

    fn add_refusal(&self, session: SessionNo, key: &Key, delta: i64) -> Refusal
        ensures { AddsTo self.now session key.now delta (Refused result) self.now }
    {
        if let Some(why) = self.write_cause(session, key) {
            return why;
        }
        match self.sessions.foretell(session, key, delta) {
            Ok(_) => Refusal::OutOfMemory,
            Err(why) => why,
        }
    }

    fn commit_refusal(&self, session: SessionNo) -> Refusal
        ensures { Commits self.now session (Refused result) self.now }
    {
        if let Some(why) = self.open_cause(session) {
            return why;
        }
        if self.log.is_full() {
            return Refusal::LogFull;
        }
        Refusal::OutOfMemory
    }
}
