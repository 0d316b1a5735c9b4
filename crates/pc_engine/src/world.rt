//! The world, and its run over a list of events.
ghost use Rattle.std.specs.Prelude.{◌≡◌, ◌≤◌, ◌<◌, ◌⊎◌, ◌↔◌, [], List, ℕ, length, true, IsTrue, All, None, Some, Err, IfOk, IfErr, option_copied, is_some};
ghost use Rattle.pc_types.specs.declared.limits.TheConstants.{MOST_LOG_ENTRIES};
ghost use Rattle.pc_model.specs.Maps.{get, len};
ghost use Rattle.pc_model.specs.Files.{file_at};
ghost use Rattle.pc_model.specs.Database.{KeysRise, database_of, written};
ghost use Rattle.pc_model.specs.History.{History};
ghost use Rattle.pc_model.specs.Limits.{IsInLimits};
ghost use Rattle.pc_model.specs.FewWrites.{HasFewWrites};
ghost use Rattle.pc_model.specs.Log.{after};
ghost use Rattle.pc_log.specs.Laws.{IsLog};
ghost use Rattle.pc_kept_log.specs.Logs.{entries_of};
ghost use Rattle.pc_records.specs.Rows.{record_of, stored};
ghost use Rattle.pc_transactions.specs.Sessions.{waits_in, writes_in};
ghost use Rattle.pc_engine.specs.Store.{active_of, setting_of};
ghost use Rattle.pc_engine.specs.Stands.{Stands, Follows, IfRefused};
ghost use Rattle.pc_engine.specs.Checks.{IsStoreSound};
ghost use Rattle.pc_engine.specs.Runs.{starting, IsRun};
ghost use Rattle.pc_engine.specs.Waiting.{opens_after, waits_after};

use crate::shelving::{file_at, shared_at};
use pc_answers::{
    abort_reply, add_reply, begin_reply, commit_reply, get_reply, take_reply, write_reply,
};
use pc_audit::is_sound;
use pc_bases::Base;
use pc_capture::SharedPart;
use pc_kept_log::Log;
use pc_part::Part;
use pc_phase::Change;
use pc_taken::Taken;
use pc_transactions::Sessions;
use pc_types::{
    Event, FileNo, Key, MOST_KEYS, MOST_SESSIONS, Phase, Refusal, Reply, SessionNo, Value,
    number_fits,
};
use std::alloc::Global;
use std::hash::RandomState;
use std::marker::Model;

/// A store in memory. It answers events, in order.
#[derive(Drop)]
pub struct World {
    pub(crate) alloc: Global,
    pub(crate) base: Base,
    pub(crate) sessions: Sessions,
    pub(crate) log: Log,
    pub(crate) taken: Taken,
    pub(crate) shelf: Vec<SharedPart>,
    // That of the hashes of keys.
    seed: RandomState,
}

impl Model for World {
    ghost use Rattle.std.specs.Prelude.{◌≤◌, length};
    ghost use Rattle.pc_engine.specs.Limits.{IsWithinLimits};
    ghost use Rattle.pc_kept_log.specs.Logs.{entries_of};
    ghost use Rattle.std.specs.Coded.{codes};
    ghost use Rattle.pc_model.specs.Database.{database_code};
    ghost use Rattle.pc_engine.specs.Store.{Store};

    ghost Value = { Store };

    ghost coded = { Prim.hlevel (codes, database_code) };

    ghost view = { λ w. record {
      base = w.base;
      sessions = w.sessions.sessions;
      kept = w.sessions.kept;
      log = entries_of w.log;
      begun = w.sessions.begun;
      cycle = record { phase = w.sessions.phases.phase; point = w.sessions.phases.point; open_set = w.sessions.open_set; closed_set = w.sessions.closed_set; taken = w.taken };
      shelf = w.shelf.items;
    } };

    ghost invariant = { λ w. IsWithinLimits (entries_of w.log) w.sessions.open_set w.sessions.closed_set w.taken w.shelf.items };
}

impl World {
    /// A store that starts from the base, with this many sessions and room for as many keys as the capacity: it represents the empty
    /// history. Returns `Full` if and only if the base's pairs are more than there is room for; otherwise the only error is `OutOfMemory`.
    /// The base is at point 0. The seed is that of the hashes of keys: a random 128-bit seed (`RandomState::new`), so that no client can
    /// pick keys that all share a chain. Which replies are legal doesn't depend on it.
    pub fn new(
        alloc: Global,
        base: Base,
        sessions: u8,
        capacity: u32,
        seed: RandomState,
    ) -> Result<World, Refusal>
        requires start { base.point ≡ 0 }
        requires sessions { (1 ≤ sessions) × (sessions ≤ MOST_SESSIONS) }
        requires capacity { (1 ≤ capacity) × (capacity ≤ MOST_KEYS) }
        ensures setting { IfOk result (λ w. setting_of w ≡ starting base sessions capacity) }
        ensures stands { IfOk result (λ w. Stands w []) }
        ensures full { capacity < len base.pairs → result ≡ Err Refusal.Full }
        ensures refusals { IfErr result (λ e. ((e ≡ Refusal.Full) × (capacity < len base.pairs)) ⊎ (e ≡ Refusal.OutOfMemory)) }
    {
        let pairs = base.pairs();
        if pairs.len() > capacity as usize {
            return Err(Refusal::Full);
        }
        let sessions = Sessions::new(alloc, sessions, capacity, pairs, seed)?;
        Ok(World {
            alloc,
            base,
            sessions,
            log: Log::new(alloc),
            taken: Taken::new(alloc),
            shelf: Vec::new(alloc),
            seed,
        })
    }

    /// Answers one event. For every history that the world represents, the reply is legal, and the world then represents that history
    /// followed by the event with this reply. Of that history each key's committed value is that of the log replayed on the base, and
    /// committed transactions have read and added correctly. Each key that was written since the point before was taken once, with what it
    /// had at the point. Files of the shelf, and joins of them, that cover the same points are one file, and the base with one of the
    /// points 1 to n applied to it is what was committed before point n's token. A refused event changes nothing.
    pub fn step(&mut self, event: &Event) -> Reply
        ensures follows { (history : History) → Stands self.old history → Follows (setting_of self.old) history event.now result self.new }
        ensures setting { setting_of self.new ≡ setting_of self.old }
        ensures refused { IfRefused result (self.new ≡ self.old) }
    {
        in_limits(event);
        match event {
            Event::Begin(session) => begin_reply(self.begin(*session)),
            Event::Get(session, key) => get_reply(self.get(*session, key)),
            Event::Put(session, key, value) => write_reply(self.put(*session, key, value)),
            Event::Del(session, key) => write_reply(self.del(*session, key)),
            Event::Add(session, key, delta) => add_reply(self.add(*session, key, *delta)),
            Event::Commit(session) => commit_reply(self.commit(*session)),
            Event::Abort(session) => abort_reply(self.abort(*session)),
            Event::StartPoint => self.advance(Change::StartPoint),
            Event::Seal => self.advance(Change::Seal),
            Event::OpenCapture => self.advance(Change::OpenCapture),
            Event::Take => take_reply(self.take()),
            Event::Done => self.shelve(),
            Event::Rest => self.advance(Change::Rest),
            Event::Join(first, second) => self.join_files(*first, *second),
        }
    }

    /// The base that the store started from; it is at point 0.
    pub fn base(&self) -> &Base
        ensures { result.now ≡ self.now.base }
    {
        &self.base
    }

    /// The log: a commit's entry for each committed transaction, and a token for each change of the phase, in order; at
    /// most 16,777,216 entries, each commit of at most 256 writes. After every history it has a text, which `encode_log` of
    /// `pc_log` writes: its entries are within the limits of the format, and its tokens keep their order.
    pub fn log(&self) -> &Log
        ensures log { entries_of result.now ≡ self.now.log }
        ensures limit { length (entries_of result.now) ≤ MOST_LOG_ENTRIES }
        ensures few { All HasFewWrites (entries_of result.now) }
        ensures lawful { (history : History) → Stands self.now history → IsLog (entries_of result.now) }
    {
        &self.log
    }

    /// Whether the session's open transaction has written the key; false if it has none open, and if no session has this number, as 0.
    pub fn has_written(&self, session: SessionNo, key: &Key) -> bool
        ensures { result ≡ is_some (written (writes_in (active_of self.now session)) key.now) }
    {
        session.0 != 0 && self.sessions.has_written(session, key)
    }

    /// Whether a request of the session's open transaction waits for a lock; false if it has none open, and if no session has this number,
    /// as 0. After every history it is what that says.
    pub fn is_waiting(&self, session: SessionNo) -> bool
        ensures row { result ≡ waits_in self.now.kept.rows (active_of self.now session) }
        ensures told { (history : History) → Stands self.now history → result ≡ waits_after (setting_of self.now) session history }
    {
        session.0 != 0 && self.sessions.has_waiting(session)
    }

    /// Whether the session has a transaction open; false if no session has this number, as 0. After every history it is what that says.
    pub fn has_open(&self, session: SessionNo) -> bool
        ensures row { result ≡ is_some (active_of self.now session) }
        ensures told { (history : History) → Stands self.now history → result ≡ opens_after (setting_of self.now) session history }
    {
        session.0 != 0 && self.sessions.has_open(session)
    }

    /// The phase of the checkpoint's cycle.
    pub fn phase(&self) -> Phase
        ensures { result ≡ self.now.cycle.phase }
    {
        self.sessions.phase()
    }

    /// The shelf's file of this number; the file that was shelved first has number 1.
    pub fn file(&self, number: FileNo) -> Option<&Part>
        ensures { option_copied result ≡ file_at self.now.shelf number }
    {
        file_at(&self.shelf, number)
    }

    /// One more owner of the shelf's file of this number. It takes constant time and no memory, and copies nothing. Returns `NoFile` if
    /// and only if there is none; otherwise the only error is `OutOfMemory`, if the file has as many owners as it may have.
    pub fn hand_out(&self, number: FileNo) -> Result<SharedPart, Refusal>
        ensures file { IfOk result (λ shared. file_at self.now.shelf number ≡ Some shared) }
        ensures none { (result ≡ Err Refusal.NoFile) ↔ (file_at self.now.shelf number ≡ None) }
        ensures refusals { IfErr result (λ e. (e ≡ Refusal.NoFile) ⊎ (e ≡ Refusal.OutOfMemory)) }
    {
        let Some(shared) = shared_at(&self.shelf, number) else {
            return Err(Refusal::NoFile);
        };
        shared.again()
    }

    /// The files on the shelf, in the order of shelving; at most 65,536.
    pub fn files(&self) -> &[SharedPart]
        ensures { result.now ≡ self.now.shelf }
    {
        self.shelf.as_slice()
    }

    /// The committed contents, ascending strictly by key: after every history those of the log replayed on the base. It fails only if an
    /// allocation fails.
    pub fn committed(&self) -> Result<Vec<(Key, Value)>, Refusal>
        ensures rise { IfOk result (λ pairs. KeysRise pairs.items) }
        ensures contents { IfOk result (λ pairs. (key : List ℕ) → get (database_of pairs.items) key ≡ stored (record_of self.now.kept.rows key)) }
        ensures replayed { (history : History) → Stands self.now history → IfOk result (λ pairs. database_of pairs.items ≡ after self.now.base.pairs self.now.log) }
        ensures refusals { IfErr result (λ e. e ≡ Refusal.OutOfMemory) }
    {
        let pairs = self.sessions.committed(self.alloc)?;
        Ok(pairs)
    }

    /// Whether the store is what its log says: its committed contents are the log replayed on the base, and each file of the shelf whose
    /// points are those from 1 to some n, applied to the base, is the state of n. It is so after every history. The log is read where it
    /// lies. It fails only if an allocation fails.
    pub fn check(&self) -> Result<bool, Refusal>
        ensures sound { IfOk result (λ sound. IsTrue sound ↔ IsStoreSound self.now) }
        ensures always { (history : History) → Stands self.now history → IfOk result (λ sound. sound ≡ true) }
        ensures refusals { IfErr result (λ e. e ≡ Refusal.OutOfMemory) }
    {
        let pairs = self.committed()?;
        let sound = is_sound(
            self.alloc,
            self.seed,
            self.base(),
            self.log(),
            self.files(),
            pairs.as_slice(),
        )?;
        Ok(sound)
    }
}

// The keys, values and numbers of an event are within their limits: their types say so.
pub(crate) fn in_limits(event: &Event)
    ensures { IsInLimits event.now }
{
    match event {
        Event::Put(_, key, value) => {
            let _ = key.as_bytes();
            let _ = value.as_bytes();
        }
        Event::Del(_, key) => {
            let _ = key.as_bytes();
        }
        Event::Add(_, key, delta) => {
            let _ = key.as_bytes();
            number_fits(*delta);
        }
        _ => {}
    }
}

/// Runs the events, in order, on a new store that starts from the base, and returns the store and the replies. The whole history is legal,
/// the committed contents are those of the replayed log, and files and points keep what `step` says of them. Returns `Full` if and only if
/// the base's pairs are more than there is room for; otherwise the only error is `OutOfMemory`. The seed is that of `World::new`.
pub fn run(
    alloc: Global,
    base: Base,
    sessions: u8,
    capacity: u32,
    seed: RandomState,
    events: &[Event],
) -> Result<(World, Vec<Reply>), Refusal>
    requires start { base.point ≡ 0 }
    requires sessions { (1 ≤ sessions) × (sessions ≤ MOST_SESSIONS) }
    requires capacity { (1 ≤ capacity) × (capacity ≤ MOST_KEYS) }
    ensures run { IfOk result (λ r. IsRun (starting base sessions capacity) events.now r.1.items r.0) }
    ensures full { capacity < len base.pairs → result ≡ Err Refusal.Full }
    ensures refusals { IfErr result (λ e. ((e ≡ Refusal.Full) × (capacity < len base.pairs)) ⊎ (e ≡ Refusal.OutOfMemory)) }
{
    let mut world = World::new(alloc, base, sessions, capacity, seed)?;
    let mut replies = Vec::new(alloc);
    for event in events {
        let reply = world.step(event);
        replies.push(reply)?;
    }
    Ok((world, replies))
}
