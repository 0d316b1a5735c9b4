//! The store that threads share.
ghost use Rattle.std.specs.Prelude.{◌≡◌, ◌≢◌, ◌≤◌, ◌<◌, ◌⊎◌, ◌↔◌, ◌++◌, [], true, false, Some, Err, length, drop, IfOk, IfErr, IfSome, OnErr, All, MatchBool};
ghost use mathlib.Core.List.{IsPrefix};
ghost use Rattle.pc_model.specs.FewWrites.{HasFewWrites};
ghost use Rattle.pc_model.specs.Files.{file_at, shelf};
ghost use Rattle.pc_model.specs.Maps.{len};
ghost use Rattle.pc_model.specs.Replies.{IsLegalHistory};
ghost use Rattle.pc_engine.specs.Runs.{starting};
ghost use Rattle.pc_model.specs.Calls.{IsBeginning};
ghost use Rattle.pc_engine.specs.Stands.{Stands};
ghost use Rattle.pc_engine.specs.Store.{setting_of};
ghost use Rattle.pc_latch.specs.Batches.{batch, IsNext};
ghost use Rattle.pc_latch.specs.Cycles.{IsAdvance};
ghost use Rattle.pc_model.specs.History.{History, log_of};
ghost use Rattle.pc_model.specs.Sets as set;
ghost use Rattle.pc_latch.specs.Tickets.{HasNoFile, IsNoTicket};
ghost use Rattle.pc_shared.specs.Advances.{EndsWithAdvance};
ghost use Rattle.pc_shared.specs.Granted.{HasGranted};
ghost use Rattle.pc_shared.specs.Sitters.{new_sitters, IsEndOf, IsLeftByStore, AreSittersApart, HasAll, LacksOne};
ghost use Rattle.pc_waiting.specs.Waking.{none_wait, woken_by, waits_after_reply};

use crate::closing::{Closed, HandedIn, close, settle};
use crate::logged::{LastEntry, LogBatch, Logged};
use crate::session::Session;
use crate::written::Written;
use pc_bases::Base;
use pc_engine::World;
use pc_latch::{Latched, LogPass, LogTexts, PartTicket};
use pc_tie::{
    CheckpointerSeat, Keeper, Milestone, SessionSeat, Start, StoreName, Tie, Untied, Witness,
};
use pc_txn::SessionNotes;
use pc_types::{FileNo, Lsn, MOST_KEYS, MOST_SESSIONS, Refusal, Reply, SessionNo};
use pc_waiting::{News, Waits, Woken};
use std::alloc::Global;
use std::hash::RandomState;
use std::marker::Model;
use std::sync::{Condvar, Mutex, MutexGuard, OnceLock, Wait};
use std::thread;

/// The answer to the checkpointer.
#[derive(Drop)]
pub struct Advanced<N: StoreName> {
    pub reply: Reply,
    /// A witness of the history that ends with the answer.
    pub seen: Witness<N>,
}

/// A store that was opened, and has no name yet. Contracts see the name that it can be given.
#[derive(Drop)]
pub struct Opened {
    alloc: Global,
    tie: Untied,
    world: World,
    count: u8,
}

impl Model for Opened {
    ghost use Rattle.std.specs.Prelude.{◌≡◌, ◌≤◌, []};
    ghost use Rattle.std.specs.Coded.{codes};
    ghost use Rattle.pc_types.specs.declared.limits.TheConstants.{MOST_SESSIONS};
    ghost use Rattle.pc_model.specs.Database.{database_code};
    ghost use Rattle.pc_engine.specs.Stands.{Stands};
    ghost use Rattle.pc_engine.specs.Store.{setting_of};
    ghost use Rattle.pc_tie.specs.Seats.{Name};

    ghost Value = { Name };

    ghost coded = { Prim.hlevel (codes, database_code) };

    ghost view = { λ o. o.tie };

    ghost invariant = { λ o. Stands o.world [] × (setting_of o.world ≡ o.tie.setting) × ((setting_of o.world).sessions ≡ o.count) × (o.count ≤ MOST_SESSIONS) };
}

impl Opened {
    /// Opens a store that starts from the base, with this many sessions and room for as many keys as the capacity. Returns `Full`
    /// if and only if the base has more pairs than there is room for; otherwise its only error is `OutOfMemory`. The base is the
    /// state at point 0 of the run. The seed of the hashes of keys is a random 128-bit number (`RandomState::new`), so that no session can
    /// pick keys that all share a chain.
    pub fn new(
        alloc: Global,
        base: Base,
        sessions: u8,
        capacity: u32,
        seed: RandomState,
    ) -> Result<Opened, Refusal>
        requires start { base.point ≡ 0 }
        requires sessions { (1 ≤ sessions) × (sessions ≤ MOST_SESSIONS) }
        requires capacity { (1 ≤ capacity) × (capacity ≤ MOST_KEYS) }
        ensures setting { IfOk result (λ o. o.setting ≡ starting base sessions capacity) }
        ensures full { capacity < len base.pairs → result ≡ Err Refusal.Full }
        ensures refusals { IfErr result (λ e. ((e ≡ Refusal.Full) × (capacity < len base.pairs)) ⊎ (e ≡ Refusal.OutOfMemory)) }
    {
        let start = Start::new(&base, sessions, capacity);
        let world = World::new(alloc, base, sessions, capacity, seed)?;
        let tie = Untied::new(alloc, &start)?;
        Ok(Opened {
            alloc,
            tie,
            world,
            count: sessions,
        })
    }

    /// The store under its name; its sessions, numbered from 1, and its checkpointer's seat, which have seen nothing; and its
    /// logger's pass, to which nothing was handed out. Its only error is `OutOfMemory`.
    pub fn named<N: StoreName>(
        self,
    ) -> Result<(Shared<N>, Vec<Session<N>>, CheckpointerSeat<N>, LogPass<N>), Refusal>
        requires { self ≡ N.name }
        ensures sessions { IfOk result (λ r. r.1.items ≡ new_sitters N.name.setting.sessions) }
        ensures checkpointer { IfOk result (λ r. r.2 ≡ []) }
        ensures pass { IfOk result (λ r. r.3 ≡ []) }
        ensures memory { IfErr result (λ e. e ≡ Refusal.OutOfMemory) }
    {
        let Opened {
            alloc,
            tie,
            world,
            count,
        } = self;
        let written = Written::new(alloc)?;
        let (tie, checkpointer, mut dealer) = tie.named::<N>();
        let mut sessions = Vec::new(alloc);
        for _ in 0..count {
            sessions.reserve(1)?;
            let seat = dealer.deal(&tie);
            sessions.push_reserved(Session {
                seat,
                work: SessionNotes::new(alloc),
            });
        }
        let pass = LogPass::new(world.base().run(), dealer.witness(&tie));
        let logged = Logged::new(written, dealer.witness(&tie));
        let shared = Shared {
            alloc,
            tie,
            latch: Mutex::new(UnderLatch::new(world, dealer.into_keeper())),
            granted: Condvar::new(),
            changed: Condvar::new(),
            turned: Condvar::new(),
            committed: Condvar::new(),
            repeating: Mutex::new(Turn),
            logged,
            end: OnceLock::new(),
            count,
        };
        Ok((shared, sessions, checkpointer, pass))
    }
}

/// A store that threads share: one world under one latch, and one legal history, of which each session knows a beginning with all
/// of its own calls.
#[derive(Drop)]
pub struct Shared<N: StoreName> {
    pub(crate) alloc: Global,
    pub(crate) tie: Tie<N>,
    pub(crate) latch: Mutex<UnderLatch<N>>,
    pub(crate) granted: Condvar,
    pub(crate) changed: Condvar,
    pub(crate) turned: Condvar,
    committed: Condvar,
    repeating: Mutex<Turn>,
    pub(crate) logged: Logged<N>,
    // The end, once it is marked.
    pub(crate) end: OnceLock<Milestone<N>>,
    pub(crate) count: u8,
    ghost count_is: { N.name.setting.sessions ≡ count },
}

/// A thread's turn to begin again a job that has died.
#[derive(Drop)]
pub struct Turn;

/// The state under the latch: the world with its history, and the calls that wait.
#[derive(Drop)]
pub struct UnderLatch<N: StoreName> {
    pub(crate) latched: Latched<N>,
    pub(crate) waits: Waits,
}

impl<N: StoreName> UnderLatch<N> {
    // A world in which nothing has happened, and no call waits.
    fn new(world: World, keeper: Keeper<N>) -> UnderLatch<N>
        requires keeper { (keeper.history ≡ []) × (keeper.guests ≡ []) }
        requires world { Stands world [] × (setting_of world ≡ N.name.setting) }
        ensures { (result.latched ≡ []) × (result.waits ≡ none_wait) }
    {
        UnderLatch {
            latched: Latched::new(world, keeper),
            waits: Waits::new(),
        }
    }

    // Notes the reply, and returns the calls to wake: those that wait for locks only if a request of one of them was granted.
    fn note(&mut self, reply: &Reply) -> Woken
        ensures latched { self.new.latched ≡ self.old.latched }
        ensures noted { self.new.waits ≡ waits_after_reply self.old.waits reply.now }
        ensures woken { result ≡ record (woken_by self.old.waits reply.now) { for_locks = result.for_locks } }
        ensures locks { (result.for_locks ≡ true) ↔ (((woken_by self.old.waits reply.now).for_locks ≡ true) × HasGranted N.name.setting self.old.latched self.old.waits.for_locks) }
    {
        let mut woken = self.waits.note(reply);
        woken.for_locks = woken.for_locks && self.has_granted();
        woken
    }

    // Whether the request of a session whose call sleeps no longer waits.
    fn has_granted(&self) -> bool
        ensures { (result ≡ true) ↔ HasGranted N.name.setting self.now.latched self.now.waits.for_locks }
    {
        for place in 0..MOST_SESSIONS {
            let session = SessionNo(u32::from(place) + 1);
            if self.waits.for_locks.has(session) && !self.latched.is_waiting(session) {
                return true;
            }
        }
        false
    }
}

// How often a thread looks for the latch before it sleeps until it has it: with the pauses between some milliseconds, longer than
// most calls hold it.
const LOOKS: u32 = 40;

// How often a session's call lets others run after its first look, and at most after a later one. After each look it pauses twice
// as long as before, so that the thread with the latch can make many calls while the store's data is in its cache.
const FIRST_PAUSE: u32 = 16;

const LONGEST_PAUSE: u32 = 256;

// The same of the checkpointer: on one processor each time may hand over a whole slice of time, in which sessions commit thousands
// of transactions.
const FIRST_SHORT_PAUSE: u32 = 1;

const LONGEST_SHORT_PAUSE: u32 = 8;

/// Lets other threads run, this many times: each is a system call, and takes a moment even if no other thread is ready. Nothing is
/// promised of how long it takes, or which thread runs.
pub fn pause(times: u32) {
    for _ in 0..times {
        thread::yield_now();
    }
}

impl<N: StoreName> Shared<N> {
    // Gets the latch for a session's call.
    pub(crate) fn get_latch<R: Wait>(&self, rt: &R) -> MutexGuard<'_, UnderLatch<N>> {
        self.get_latch_after(rt, FIRST_PAUSE, LONGEST_PAUSE)
    }

    // Gets the latch for one of many calls of the checkpointer.
    pub(crate) fn get_latch_soon<R: Wait>(&self, rt: &R) -> MutexGuard<'_, UnderLatch<N>> {
        self.get_latch_after(rt, FIRST_SHORT_PAUSE, LONGEST_SHORT_PAUSE)
    }

    // Gets the latch, and lets others run this often after the first look that finds it held, and at most after a later one.
    fn get_latch_after<R: Wait>(
        &self,
        rt: &R,
        first: u32,
        longest: u32,
    ) -> MutexGuard<'_, UnderLatch<N>> {
        if let Some(held) = self.latch.try_lock() {
            return held;
        }
        let mut times = first;
        for _ in 0..LOOKS {
            pause(times);
            if let Some(held) = self.latch.try_lock() {
                return held;
            }
            times = times.saturating_mul(2).min(longest);
        }
        self.latch.lock(rt)
    }

    // Wakes the calls that can go on.
    pub(crate) fn wake(&self, woken: Woken) {
        if woken.for_locks {
            self.granted.notify_all();
        }
        if woken.for_change {
            self.changed.notify_all();
        }
        if woken.for_phase {
            self.turned.notify_all();
        }
        if woken.for_commit {
            self.committed.notify_all();
        }
    }

    // Releases the latch and sleeps, for the session's request, until an end of a transaction has granted a request for which a
    // call sleeps; then takes the latch again.
    pub(crate) fn sleep_for_lock<'a, R: Wait>(
        &'a self,
        rt: &R,
        mut held: MutexGuard<'a, UnderLatch<N>>,
        session: SessionNo,
    ) -> MutexGuard<'a, UnderLatch<N>> {
        held.waits.for_locks.add(session);
        let mut held = self.granted.wait(rt, held);
        held.waits.for_locks.remove(session);
        held
    }

    // Notes the answer, releases the latch, and wakes the calls that can go on, if there are any.
    pub(crate) fn let_go(&self, mut held: MutexGuard<'_, UnderLatch<N>>, told: &Reply) {
        if held.waits.note_alone(told) {
            drop(held);
            return;
        }
        let woken = held.note(told);
        drop(held);
        self.wake(woken);
    }

    /// The checkpointer asks for the event that ends the phase of the checkpoint's cycle, and is answered at once: the phase that
    /// it is then, or the point's part if a capture is done; that transactions or keys are still in the way; or a refusal. The
    /// history that the checkpointer has seen determines the event; each answer but a refusal extends it.
    pub fn advance<R: Wait>(&self, rt: &R, checkpointer: &mut CheckpointerSeat<N>) -> Reply
        ensures { IsAdvance N.name.setting checkpointer.old result checkpointer.new }
    {
        let Advanced { reply, seen: _ } = self.advance_shown(rt, checkpointer);
        reply
    }

    /// The same, with a witness of the store's legal history, which ends with the answer, a refusal too.
    pub fn advance_shown<R: Wait>(
        &self,
        rt: &R,
        checkpointer: &mut CheckpointerSeat<N>,
    ) -> Advanced<N>
        ensures called { IsAdvance N.name.setting checkpointer.old result.reply checkpointer.new }
        ensures shown { EndsWithAdvance N.name.setting checkpointer.new result.reply result.seen }
    {
        let mut held = self.get_latch_soon(rt);
        let reply = held.latched.advance(&self.tie, checkpointer);
        let _ = held.latched.log_len_since(&self.tie, checkpointer);
        let seen = held.latched.witness(&self.tie);
        let woken = held.note(&reply);
        drop(held);
        self.wake(woken);
        Advanced { reply, seen }
    }

    /// The texts of the next entries of the log after those that the pass has handed out, until they have `room` bytes, which the
    /// last one may exceed; the pass then has them too. The batch has a witness of the store's legal history so far: these are the
    /// next entries of its log, at least one if the log has more than the pass had, and there is room. Its only error is
    /// `OutOfMemory`, and then the pass is unchanged.
    pub fn log_next<R: Wait>(
        &self,
        rt: &R,
        pass: &mut LogPass<N>,
        room: u32,
    ) -> Result<LogBatch<N>, Refusal>
        ensures legal { IfOk result (λ next. IsLegalHistory N.name.setting next.seen) }
        ensures list { IfOk result (λ next. pass.new ≡ pass.old ++ batch room (drop (length pass.old) (log_of next.seen))) }
        ensures first { IfOk result (λ next. IsPrefix pass.new (log_of next.seen)) }
        ensures some { IfOk result (λ next. 1 ≤ room → length pass.old < length (log_of next.seen) → 1 ≤ next.count) }
        ensures next { IfOk result (λ next. IsNext room pass.old pass.new next.text.items next.count) }
        ensures same { OnErr result (pass.new ≡ pass.old) }
        ensures memory { IfErr result (λ e. e ≡ Refusal.OutOfMemory) }
    {
        let mut held = self.get_latch(rt);
        let next = held.latched.log_next(self.alloc, &self.tie, pass, room)?;
        let LogTexts { text, count } = next;
        let seen = held.latched.witness(&self.tie);
        Ok(LogBatch { text, count, seen })
    }

    /// Closes the store, and returns its remains by one legal history: the base that it started from and the log of that history,
    /// of which each session handed in has seen a beginning with all of its own calls, and so has the checkpointer; the sessions'
    /// receipts are exact. Each ticket's part, a joined one too, is the file of its points by that log. The entries that the pass
    /// has handed out are the first of the log. No two sessions have one number; `all` says whether every session of the store was
    /// handed in. It allocates nothing.
    pub fn close(
        self,
        sessions: Vec<Session<N>>,
        checkpointer: CheckpointerSeat<N>,
        tickets: Vec<PartTicket<N>>,
        pass: LogPass<N>,
    ) -> Closed<N>
        ensures left { (h : History) × IsLeftByStore N.name.setting result.world.base result.world.log result.logged sessions.items checkpointer tickets.items pass h }
        ensures apart { AreSittersApart sessions.items }
        ensures receipts { result.receipts.items ≡ sessions.items }
        ensures parts { result.parts.items ≡ tickets.items }
        ensures all { MatchBool result.all (HasAll N.name.setting.sessions sessions.items) (LacksOne N.name.setting.sessions sessions.items) }
    {
        let Shared {
            alloc: _,
            tie,
            latch,
            granted: _,
            changed: _,
            turned: _,
            committed: _,
            repeating: _,
            logged: _,
            end: _,
            count,
        } = self;
        let UnderLatch { latched, waits: _ } = latch.into_inner();
        let handed = HandedIn {
            sessions,
            checkpointer,
            tickets,
            pass,
        };
        close(&tie, count, latched, handed)
    }

    /// Ends the store, of which nothing is left but this: by one legal history, each session handed in has seen a beginning of it
    /// with all of its own calls, and its receipts are exact; the checkpointer too has seen a beginning with all of its calls; and
    /// the witness has seen a beginning. It allocates nothing.
    pub fn settle(
        self,
        sessions: Vec<Session<N>>,
        checkpointer: CheckpointerSeat<N>,
        witness: Witness<N>,
    )
        ensures { (h : History) × IsEndOf N.name.setting sessions.items checkpointer witness h }
    {
        let Shared { tie, latch, .. } = self;
        let UnderLatch { latched, waits: _ } = latch.into_inner();
        settle(&tie, latched, sessions, checkpointer, witness);
    }

    /// A ticket of the shelf's file of this number, which is the file of the point of this number, for the checkpointer, which
    /// knows the shelf by the history that it has seen. Returns `NoFile` if and only if there is no such file; otherwise its only
    /// error is `OutOfMemory`.
    pub fn take_part<R: Wait>(
        &self,
        rt: &R,
        checkpointer: &mut CheckpointerSeat<N>,
        number: FileNo,
    ) -> Result<PartTicket<N>, Refusal>
        ensures same { checkpointer.new ≡ checkpointer.old }
        ensures file { IfOk result (λ t. file_at (shelf N.name.setting.run checkpointer.old) number ≡ Some t) }
        ensures point { IfOk result (λ t. t.points ≡ set.insert set.empty number) }
        ensures refused { IfErr result (IsNoTicket N.name.setting checkpointer.old number) }
        ensures none { HasNoFile N.name.setting checkpointer.old number → result ≡ Err Refusal.NoFile }
    {
        let mut held = self.get_latch(rt);
        held.latched
            .take_part(self.alloc, &self.tie, checkpointer, number)
    }

    /// A ticket of the shelf's file of this number, which is the file of the point of this number, for the owner of the witness: it
    /// has then seen the store's legal history so far. Returns `NoFile` if and only if there is no such file after that; otherwise
    /// its only error is `OutOfMemory`.
    pub fn take_shown<R: Wait>(
        &self,
        rt: &R,
        witness: &mut Witness<N>,
        number: FileNo,
    ) -> Result<PartTicket<N>, Refusal>
        ensures had_seen { IsBeginning witness.old witness.new }
        ensures legal { IsLegalHistory N.name.setting witness.new }
        ensures file { IfOk result (λ t. file_at (shelf N.name.setting.run witness.new) number ≡ Some t) }
        ensures point { IfOk result (λ t. t.points ≡ set.insert set.empty number) }
        ensures refused { IfErr result (IsNoTicket N.name.setting witness.new number) }
        ensures none { HasNoFile N.name.setting witness.new number → result ≡ Err Refusal.NoFile }
    {
        let mut held = self.get_latch(rt);
        held.latched
            .take_shown(self.alloc, &self.tie, witness, number)
    }

    /// A witness of the store's legal history so far.
    pub fn witness<R: Wait>(&self, rt: &R) -> Witness<N>
        ensures { IsLegalHistory N.name.setting result }
    {
        let mut held = self.get_latch(rt);
        held.latched.witness(&self.tie)
    }

    /// Waits until the count of changes isn't `seen`, and returns the count. Each answer but `Wait`, a refusal, `NotYet` and
    /// `NoneLeft` is a change, all keys of one turn of `take_keys` together are one, and so is a mark of the end; after the
    /// greatest `u64` the count goes on from 0. A thread that looks at the store first, and then waits with the count from before
    /// the look, misses no change.
    pub fn until_changed<R: Wait>(&self, rt: &R, seen: u64) -> u64
        ensures { result ≢ seen }
    {
        self.until(rt, &self.changed, News::Change, seen)
    }

    /// Waits until the count of changes of the phase isn't `seen`, and returns the count. Each answer that names a new phase is
    /// such a change, and so is a mark of the end; after the greatest `u64` the count goes on from 0. A thread that waits with the
    /// count from before a look misses none, and no call of a session wakes it.
    pub fn until_phase<R: Wait>(&self, rt: &R, seen: u64) -> u64
        ensures { result ≢ seen }
    {
        self.until(rt, &self.turned, News::Phase, seen)
    }

    // Waits on the condition until the count of the news isn't `seen`, and gives the count.
    fn until<R: Wait>(&self, rt: &R, told: &Condvar, news: News, seen: u64) -> u64
        ensures { result ≢ seen }
    {
        let mut held = self.get_latch(rt);
        for _ in rt.forever() {
            let count = held.waits.count(news);
            if count != seen {
                return count;
            }
            held.waits.begin_waiting(news);
            held = told.wait(rt, held);
            held.waits.end_waiting(news);
        }
        unreachable!()
    }

    /// The number of the log's last entry, with a witness of the store's legal history so far, of whose log it is.
    pub fn last_entry<R: Wait>(&self, rt: &R) -> LastEntry<N>
        ensures last { result.number ≡ length (log_of result.seen) }
        ensures legal { IsLegalHistory N.name.setting result.seen }
    {
        let mut held = self.get_latch(rt);
        let number = Lsn(held.latched.log_len());
        let seen = held.latched.witness(&self.tie);
        LastEntry { number, seen }
    }

    /// The same for the checkpointer, which has seen a beginning of that history: it is no less than the number of the last entry
    /// that it has seen.
    pub fn last_entry_since<R: Wait>(
        &self,
        rt: &R,
        checkpointer: &mut CheckpointerSeat<N>,
    ) -> LastEntry<N>
        ensures same { checkpointer.new ≡ checkpointer.old }
        ensures last { result.number ≡ length (log_of result.seen) }
        ensures had_seen { IsBeginning checkpointer.old result.seen }
        ensures seen { length (log_of checkpointer.old) ≤ result.number }
        ensures legal { IsLegalHistory N.name.setting result.seen }
    {
        let mut held = self.get_latch_soon(rt);
        let number = Lsn(held.latched.log_len_since(&self.tie, checkpointer));
        let seen = held.latched.witness(&self.tie);
        LastEntry { number, seen }
    }

    /// Waits until the log has the entry of this number, and returns its last one, with a witness of the store's legal history so
    /// far, of whose log it is; None if the log hasn't the entry, and the last commit or the end was marked.
    pub fn until_committed<R: Wait>(&self, rt: &R, number: Lsn) -> Option<LastEntry<N>>
        ensures reached { IfSome result (λ entry. number ≤ entry.number) }
        ensures last { IfSome result (λ entry. entry.number ≡ length (log_of entry.seen)) }
        ensures legal { IfSome result (λ entry. IsLegalHistory N.name.setting entry.seen) }
    {
        let mut held = self.get_latch(rt);
        for _ in rt.forever() {
            let last = held.latched.log_len();
            if number.0 <= last {
                let seen = held.latched.witness(&self.tie);
                return Some(LastEntry {
                    number: Lsn(last),
                    seen,
                });
            }
            if held.waits.is_last() || self.ended() {
                return None;
            }
            held.waits.await_commit(number.0);
            held = self.committed.wait(rt, held);
        }
        unreachable!()
    }

    /// Whether the end was marked. Nothing is promised of the answer; `end_mark` returns a mark with its promise.
    pub fn ended(&self) -> bool {
        self.end.witness().is_some()
    }

    /// Marks that no client commits any more, for calls that wait for a commit. Nothing is promised of which go on.
    pub fn mark_last_commit<R: Wait>(&self, rt: &R) {
        self.get_latch(rt).waits.mark_last();
        self.committed.notify_all();
    }

    /// Waits for the turn to begin again a job that has died, and has it until it is dropped; no two threads have it at the same
    /// time. A thread that asks for it must have no transaction open: then no thread waits for a lock of one that waits here. No
    /// clause promises that; the mutex gives the turn to one thread alone.
    pub fn turn_to_repeat<R: Wait>(&self, rt: &R) -> MutexGuard<'_, Turn> {
        self.repeating.lock(rt)
    }
}
