//! How far a store's log is written, and the calls that wait for it.
ghost use Rattle.std.specs.Prelude.{◌≡◌, ◌≤◌, true, IfErr, IfOk, IfSome};
ghost use mathlib.Core.List.{IsPrefix};
ghost use Rattle.pc_model.specs.History.{log_of};
ghost use Rattle.pc_model.specs.Receipts.{own_of};
ghost use Rattle.pc_log.specs.Texts.{log_text};
ghost use Rattle.pc_shared.specs.Written.{AreEntriesWritten, AreOut, AreReached, HasGoneOut};

use crate::gone_out::GoneOut;
use crate::session::Session;
use crate::store::{Shared, pause};
use crate::written::Written;
use pc_io::Tally;
use pc_latch::LogPass;
use pc_tie::{SessionSeat, StoreName, Tie, Witness};
use pc_types::Lsn;
use std::io;
use std::sync::atomic::{AtomicU64, Ordering};
use std::sync::{Condvar, Mutex, OnceLock, OnceToken, Wait};

// How often a call that waits for an entry looks for it before it sleeps, and how often it lets others run after each look.
const LOOKS: u32 = 32;

const PAUSE: u32 = 8;

/// The next entries of a store's log, as their texts.
#[derive(Drop)]
pub struct LogBatch<N: StoreName> {
    /// The texts, in order.
    pub text: Vec<u8>,
    /// The number of entries.
    pub count: usize,
    /// A witness of the history of whose log they are.
    pub seen: Witness<N>,
}

/// The last entry of a store's log.
#[derive(Drop)]
pub struct LastEntry<N: StoreName> {
    /// Its number, 0 if the log has none.
    pub number: Lsn,
    /// A witness of the history of whose log it is.
    pub seen: Witness<N>,
}

/// Marks that no more of a store's log will be written.
#[derive(Drop)]
pub struct LogEnded;

/// The mark that no more of a store's log will be written. Contracts see by its token of which store's log (`of`, which is the store's
/// `logged.ended.id`).
#[derive(Drop)]
pub struct LogEndMark<'a> {
    pub(crate) token: OnceToken<'a, LogEnded>,
}

/// The number of the log's entries that are written, whether it is final, and the calls that wait for more.
#[derive(Drop)]
pub(crate) struct Logged<N: StoreName> {
    written: Written<N>,
    // Marked once no more will be written.
    pub(crate) ended: OnceLock<LogEnded>,
    waiting: AtomicU64,
    // The entries that have gone out; locked by a thread that goes to sleep, or that changes what is waited for.
    gone_out: Mutex<GoneOut<N>>,
    told: Condvar,
}

impl<N: StoreName> Logged<N> {
    /// No entry is written, and no call waits. The witness is of a store in which nothing has happened.
    pub(crate) fn new(written: Written<N>, seen: Witness<N>) -> Logged<N> {
        Logged {
            written,
            ended: OnceLock::new(),
            waiting: AtomicU64::new(0),
            gone_out: Mutex::new(GoneOut::none(seen)),
            told: Condvar::new(),
        }
    }

    // The mark that no more will be written, if it was marked.
    fn end_mark(&self) -> Option<LogEndMark<'_>>
        ensures { IfSome result (λ mark. mark.token.of ≡ self.now.ended.id) }
    {
        match self.ended.witness() {
            Some(token) => Some(LogEndMark { token }),
            None => None,
        }
    }

    fn has_ended(&self) -> bool {
        self.ended.witness().is_some()
    }

    fn is_awaited(&self) -> bool {
        self.waiting.load(Ordering::SeqCst) > 0
    }

    // The entries that the pass has handed out are written, the first of the log of the history that the witness has seen.
    fn mark<R: Wait>(&self, rt: &R, pass: &LogPass<N>, seen: Witness<N>)
        requires first { IsPrefix pass.now (log_of seen) }
        requires out { N.out (log_text N.name.setting.run pass.now) }
    {
        let mut held = self.gone_out.lock(rt);
        *held = GoneOut::of(pass, seen);
        self.written.mark(pass);
        drop(held);
        self.wake();
    }

    // No more will be written.
    fn end<R: Wait>(&self, rt: &R) {
        let held = self.gone_out.lock(rt);
        let marked = self.ended.try_insert(rt, LogEnded);
        drop(marked);
        drop(held);
        self.wake();
    }

    fn wake(&self) {
        if self.is_awaited() {
            self.told.notify_all();
        }
    }

    // Waits until this many are written, and gives their number; those are among the entries that have gone out, by the log that
    // the session has seen.
    fn until<R: Wait>(
        &self,
        rt: &R,
        tie: &Tie<N>,
        session: &mut SessionSeat<N>,
        entries: u64,
    ) -> Result<u64, LogEndMark<'_>>
        ensures same { session.new ≡ session.old }
        ensures written { IfOk result (λ written. (entries ≤ written) × AreEntriesWritten N.out N.name.setting written) }
        ensures out { IfOk result (λ written. AreOut N.out N.name.setting.run session.old.seen entries) }
        ensures all { IfOk result (λ written. AreOut N.out N.name.setting.run session.old.seen written) }
        ensures ended { IfErr result (λ mark. mark.token.of ≡ self.now.ended.id) }
    {
        if entries <= self.written.get() {
            return self.sleep(rt, tie, session, entries);
        }
        self.waiting.fetch_add(1, Ordering::SeqCst);
        self.look(entries);
        let written = self.sleep(rt, tie, session, entries);
        self.waiting.fetch_sub(1, Ordering::SeqCst);
        written
    }

    // Looks for this many, a few times.
    fn look(&self, entries: u64) {
        for _ in 0..LOOKS {
            if entries <= self.written.get() || self.has_ended() {
                return;
            }
            pause(PAUSE);
        }
    }

    // Sleeps until this many are written.
    fn sleep<R: Wait>(
        &self,
        rt: &R,
        tie: &Tie<N>,
        session: &mut SessionSeat<N>,
        entries: u64,
    ) -> Result<u64, LogEndMark<'_>>
        ensures same { session.new ≡ session.old }
        ensures written { IfOk result (λ written. (entries ≤ written) × AreEntriesWritten N.out N.name.setting written) }
        ensures out { IfOk result (λ written. AreOut N.out N.name.setting.run session.old.seen entries) }
        ensures all { IfOk result (λ written. AreOut N.out N.name.setting.run session.old.seen written) }
        ensures ended { IfErr result (λ mark. mark.token.of ≡ self.now.ended.id) }
    {
        let mut held = self.gone_out.lock(rt);
        for _ in rt.forever() {
            let written = held.count();
            if entries <= written {
                held.compare(tie, session);
                return Ok(written);
            }
            if let Some(mark) = self.end_mark() {
                return Err(mark);
            }
            held = self.told.wait(rt, held);
        }
        unreachable!()
    }
}

impl<N: StoreName> Shared<N> {
    /// Marks as written the entries that the pass has handed out, the first of the log of the history that the witness has seen:
    /// since some earlier state of the writer their text has gone out to it, and counts as gone out by the store's name. Calls that
    /// wait for one of them go on.
    pub fn mark_logged<R: Wait, W: io::Write>(
        &self,
        rt: &R,
        pass: &LogPass<N>,
        seen: Witness<N>,
        out: &Tally<W>,
    )
        requires text { HasGoneOut W.contents out.now (log_text N.name.setting.run pass.now) }
        requires out { N.out (log_text N.name.setting.run pass.now) }
        requires first { IsPrefix pass.now (log_of seen) }
    {
        let _ = out.failures();
        self.logged.mark(rt, pass, seen);
    }

    /// Marks that no more entries will be written. Calls that wait for one go on; no clause promises that.
    pub fn mark_log_end<R: Wait>(&self, rt: &R) {
        self.logged.end(rt);
    }

    /// The mark of the log's end, if it was marked. None is no promise: a mark of another thread may be seen or not.
    pub fn log_end_mark(&self) -> Option<LogEndMark<'_>>
        ensures { IfSome result (λ mark. mark.token.of ≡ self.now.logged.ended.id) }
    {
        self.logged.end_mark()
    }

    /// Whether the entry of this number was marked as written: a text of as many entries of the log, or more, has then gone out.
    /// False is no promise: a mark of another thread may be seen or not.
    pub fn is_logged(&self, number: Lsn) -> bool
        ensures { result ≡ true → AreReached N.out N.name.setting number }
    {
        u64::from(number.0) <= self.logged.written.get()
    }

    /// Whether a call waits for an entry to be written. Nothing is promised of the answer, which may be old when it is read.
    pub fn is_log_awaited(&self) -> bool {
        self.logged.is_awaited()
    }

    /// Waits until the entry of this number is marked as written, and returns the number of entries that then are: a text of just
    /// that many entries has gone out. If the log ends before the entry is written, returns the mark of the log's end. The first
    /// entries of the log that the session has seen, up to this number, and up to that count, are then the first of those whose
    /// text has gone out.
    pub fn until_logged<R: Wait>(
        &self,
        rt: &R,
        session: &mut Session<N>,
        number: Lsn,
    ) -> Result<u64, LogEndMark<'_>>
        ensures same { session.new ≡ session.old }
        ensures written { IfOk result (λ written. (number ≤ written) × AreEntriesWritten N.out N.name.setting written) }
        ensures out { IfOk result (λ written. AreOut N.out N.name.setting.run session.old.seen number) }
        ensures all { IfOk result (λ written. AreOut N.out N.name.setting.run session.old.seen written) }
        ensures ended { IfErr result (λ mark. mark.token.of ≡ self.now.logged.ended.id) }
        ensures receipts { session.old.receipts ≡ (own_of session.old.number session.old.seen).receipts }
    {
        self.logged
            .until(rt, &self.tie, &mut session.seat, u64::from(number.0))
    }
}
