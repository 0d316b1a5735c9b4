//! The counts of a run while it runs.
use crate::causes::Causes;
use pc_types::{GatePlace, MOST_SESSIONS, Phase, Refusal, SessionNo};
use std::alloc::{AllocError, Global};
use std::io;
use std::io::Write;
use std::sync::atomic::{AtomicU64, Ordering};

/// The numbers of times that the loops of a run passed their places, and the longest times between two of them. Times are in
/// microseconds, from a moment before the run; none is 0.
#[derive(Drop)]
pub struct Counts {
    commits: AtomicU64,
    deaths: AtomicU64,
    given_up: AtomicU64,
    causes: Causes,
    points: AtomicU64,
    joins: AtomicU64,
    // The changes of the phase, each of which has an entry in the log.
    tokens: AtomicU64,
    // The number of entries of the log written.
    written: AtomicU64,
    // When the first place was passed.
    begun: AtomicU64,
    // When the last phase was entered, or the last entries were written.
    ended: AtomicU64,
    // When the last transaction committed.
    committed: AtomicU64,
    longest_pause: AtomicU64,
    longest_wait: AtomicU64,
    // By the number of a session: when its open transaction has passed its last place, or its client has begun to wait for the log;
    // otherwise 0.
    passed: Vec<AtomicU64>,
}

impl Counts {
    /// Nothing was passed.
    pub fn new(alloc: Global) -> Result<Counts, AllocError> {
        let mut passed = Vec::new(alloc);
        for _ in 0..=MOST_SESSIONS {
            passed.push(AtomicU64::new(0))?;
        }
        Ok(Counts {
            commits: AtomicU64::new(0),
            deaths: AtomicU64::new(0),
            given_up: AtomicU64::new(0),
            causes: Causes::new(alloc)?,
            points: AtomicU64::new(0),
            joins: AtomicU64::new(0),
            tokens: AtomicU64::new(0),
            written: AtomicU64::new(0),
            begun: AtomicU64::new(0),
            ended: AtomicU64::new(0),
            committed: AtomicU64::new(0),
            longest_pause: AtomicU64::new(0),
            longest_wait: AtomicU64::new(0),
            passed,
        })
    }

    /// Counts the place, which is passed now.
    pub fn note(&self, place: &GatePlace, now: u64) {
        match place {
            GatePlace::Start(session) => {
                self.causes.note_start(*session);
                self.go_on(*session, now);
            }
            GatePlace::Step(session, _) => self.go_on(*session, now),
            GatePlace::Behind(session) => self.fall_behind(*session, now),
            GatePlace::Committed(session) => self.commit(*session, now),
            GatePlace::Died(session) => {
                increase(&self.deaths);
                self.causes.note_death(*session);
                self.leave(*session);
            }
            GatePlace::GaveUp(session) => {
                increase(&self.given_up);
                self.causes.give_up(*session);
                self.leave(*session);
            }
            GatePlace::Entered(phase) => self.enter(*phase, now),
            GatePlace::Written(entries) => {
                self.written
                    .fetch_max(u64::from(*entries), Ordering::SeqCst);
                self.ended.fetch_max(now, Ordering::SeqCst);
            }
            GatePlace::Pair(_) => increase(&self.joins),
            GatePlace::Writing(_) | GatePlace::Due(_) | GatePlace::Took => {}
        }
    }

    /// The session's transaction was refused for this; if it is given up before a further one begins, that is the cause.
    pub fn note_refusal(&self, session: SessionNo, why: Refusal) {
        self.causes.note_refusal(session, why);
    }

    /// Writes a line `given up CAUSE N` for each cause for which some transaction was given up.
    pub fn put_causes<W: Write>(&self, out: &mut W) -> io::Result<()> {
        self.causes.put(out)
    }

    // The session's transaction passes a place; so long it has waited since the one before.
    fn go_on(&self, session: SessionNo, now: u64) {
        let Some(passed) = self.passed.get(session.0 as usize) else {
            return;
        };
        let before = passed.swap(now, Ordering::SeqCst);
        let waited = now.saturating_sub(before);
        if before > 0 && waited > self.longest_wait.load(Ordering::SeqCst) {
            self.longest_wait.fetch_max(waited, Ordering::SeqCst);
        }
    }

    // The session's client waits for the log: if no transaction is open, from now on.
    fn fall_behind(&self, session: SessionNo, now: u64) {
        if let Some(passed) = self.passed.get(session.0 as usize) {
            let _ = passed.compare_exchange(0, now, Ordering::SeqCst, Ordering::SeqCst);
        }
    }

    // The session's transaction is over.
    fn leave(&self, session: SessionNo) {
        if let Some(passed) = self.passed.get(session.0 as usize) {
            passed.store(0, Ordering::SeqCst);
        }
    }

    fn commit(&self, session: SessionNo, now: u64) {
        increase(&self.commits);
        self.go_on(session, now);
        self.leave(session);
        let before = self.committed.fetch_max(now, Ordering::SeqCst);
        let paused = now.saturating_sub(before);
        if before > 0 && paused > self.longest_pause.load(Ordering::SeqCst) {
            self.longest_pause.fetch_max(paused, Ordering::SeqCst);
        }
    }

    fn enter(&self, phase: Phase, now: u64) {
        increase(&self.tokens);
        if let Phase::Complete = phase {
            increase(&self.points);
        }
        self.ended.fetch_max(now, Ordering::SeqCst);
    }

    /// The time since the begin of the run, which begins at the latest with this call.
    pub fn since_begin(&self, now: u64) -> u64 {
        let begun = self.begun.load(Ordering::SeqCst);
        if begun > 0 {
            return now.saturating_sub(begun);
        }
        match self
            .begun
            .compare_exchange(0, now, Ordering::SeqCst, Ordering::SeqCst)
        {
            Ok(_) => 0,
            Err(begun) => now.saturating_sub(begun),
        }
    }

    /// The time since the begin of the run; `None` if it has not begun.
    pub fn age(&self, now: u64) -> Option<u64> {
        match self.begun.load(Ordering::SeqCst) {
            0 => None,
            begun => Some(now.saturating_sub(begun)),
        }
    }

    /// The duration of the run, from its first place to the last commit, change of the phase or writing of the log; `None` if it
    /// passed no place.
    pub fn length(&self) -> Option<u64> {
        let begun = self.begun.load(Ordering::SeqCst);
        let ended = self.ended.load(Ordering::SeqCst);
        let committed = self.committed.load(Ordering::SeqCst);
        if begun == 0 {
            return None;
        }
        Some(ended.max(committed).saturating_sub(begun))
    }

    /// The number of transactions that committed.
    pub fn commits(&self) -> u64 {
        self.commits.load(Ordering::SeqCst)
    }

    /// The number of transactions that died.
    pub fn deaths(&self) -> u64 {
        self.deaths.load(Ordering::SeqCst)
    }

    /// The number of transactions given up.
    pub fn given_up(&self) -> u64 {
        self.given_up.load(Ordering::SeqCst)
    }

    /// The number of points that have their parts on the shelf.
    pub fn points(&self) -> u64 {
        self.points.load(Ordering::SeqCst)
    }

    /// How many pairs of files were joined.
    pub fn joins(&self) -> u64 {
        self.joins.load(Ordering::SeqCst)
    }

    /// How many entries of the log are not written yet.
    pub fn lag(&self) -> u64 {
        let written = self.written.load(Ordering::SeqCst);
        let tokens = self.tokens.load(Ordering::SeqCst);
        self.commits()
            .saturating_add(tokens)
            .saturating_sub(written)
    }

    /// The longest time in which no transaction committed, between the first commit and the last one.
    pub fn longest_pause(&self) -> u64 {
        self.longest_pause.load(Ordering::SeqCst)
    }

    /// The longest time between two places that one transaction passed, or for which its client waited for the log.
    pub fn longest_wait(&self) -> u64 {
        self.longest_wait.load(Ordering::SeqCst)
    }
}

fn increase(count: &AtomicU64) {
    count.fetch_add(1, Ordering::SeqCst);
}
