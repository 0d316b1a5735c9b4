//! The calls that wait at a store's latch, and how often the store has changed.
ghost use Rattle.std.specs.Prelude.{◌≡◌, ◌||◌, ◌-◌, not, nat_lt, min, if◌then◌else◌, true, false};
ghost use Rattle.pc_waiting.specs.Waking.{come, is_awaited, one_more_waiting, one_less, of_news, with_news, nobody, none_come, none_due, none_wait, woken_by, waits_after_reply, woken_by_end};

use pc_sessions::SessionSet;
use pc_types::{Lsn, Reply};

/// News for which a call may wait, besides locks.
#[derive(Clone, Copy, Debug, PartialEq, Eq)]
pub enum News {
    /// The store changes.
    Change,
    /// The phase of the checkpoint's cycle changes.
    Phase,
}

/// How often the news has come, and the number of calls that wait for it.
#[derive(Drop)]
pub struct Awaited {
    count: u64,
    waiting: u64,
}

impl Awaited {
    // It has not come yet, and no call waits for it.
    fn new() -> Awaited
        ensures { result ≡ none_come }
    {
        Awaited {
            count: 0,
            waiting: 0,
        }
    }

    // Counts one occurrence; returns whether a call waits for it.
    fn come(&mut self) -> bool
        ensures come { self.new ≡ come self.old }
        ensures awaited { result ≡ is_awaited self.old }
    {
        self.count = self.count.wrapping_add(1);
        self.waiting > 0
    }

    // One more call waits for it.
    fn begin_waiting(&mut self)
        ensures { self.new ≡ one_more_waiting self.old }
    {
        self.waiting = self.waiting.saturating_add(1);
    }

    // One fewer call waits for it.
    fn end_waiting(&mut self)
        ensures { self.new ≡ one_less self.old }
    {
        self.waiting = self.waiting.saturating_sub(1);
    }
}

/// The sessions that wait for a lock, how often the store and its phase have changed and how many calls wait for that, the first
/// log entry that is waited for, and whether the last commit was marked.
#[derive(Drop)]
pub struct Waits {
    /// The sessions whose calls sleep until their request is granted.
    pub for_locks: SessionSet,
    changes: Awaited,
    phases: Awaited,
    due: u32,
    has_last: bool,
}

// No entry is waited for: none has this number.
const NONE_DUE: u32 = u32::MAX;

/// The calls to wake.
#[derive(Drop)]
pub struct Woken {
    /// Those whose request may have been granted.
    pub for_locks: bool,
    /// Those that wait for a change of the store.
    pub for_change: bool,
    /// Those that wait for a change of the phase.
    pub for_phase: bool,
    /// The one that waits for the commit of an entry.
    pub for_commit: bool,
}

impl Woken {
    const NOBODY: Woken = Woken {
        for_locks: false,
        for_change: false,
        for_phase: false,
        for_commit: false,
    };
}

impl Waits {
    /// No call waits, and nothing has changed.
    pub fn new() -> Waits
        ensures { result ≡ none_wait }
    {
        Waits {
            for_locks: SessionSet::new(),
            changes: Awaited::new(),
            phases: Awaited::new(),
            due: NONE_DUE,
            has_last: false,
        }
    }

    /// How often the news has come; after 2^64 - 1 it goes on from 0.
    pub fn count(&self, news: News) -> u64
        ensures { result ≡ (of_news self.now news).count }
    {
        match news {
            News::Change => self.changes.count,
            News::Phase => self.phases.count,
        }
    }

    /// One more call waits for the news.
    pub fn begin_waiting(&mut self, news: News)
        ensures { self.new ≡ with_news self.old news (one_more_waiting (of_news self.old news)) }
    {
        match news {
            News::Change => self.changes.begin_waiting(),
            News::Phase => self.phases.begin_waiting(),
        }
    }

    /// One fewer call waits for the news.
    pub fn end_waiting(&mut self, news: News)
        ensures { self.new ≡ with_news self.old news (one_less (of_news self.old news)) }
    {
        match news {
            News::Change => self.changes.end_waiting(),
            News::Phase => self.phases.end_waiting(),
        }
    }

    /// Notes the reply, and returns the calls to wake: those that wait for its news, and, if it ends a transaction and so releases
    /// locks, those that wait for locks.
    pub fn note(&mut self, reply: &Reply) -> Woken
        ensures woken { result ≡ woken_by self.old reply.now }
        ensures noted { self.new ≡ waits_after_reply self.old reply.now }
    {
        match reply {
            Reply::Wait | Reply::Refused(_) | Reply::NotYet(_) | Reply::NoneLeft => Woken::NOBODY,
            Reply::Committed(number) => Woken {
                for_locks: !self.for_locks.is_empty(),
                for_change: self.changes.come(),
                for_commit: self.is_due(*number),
                ..Woken::NOBODY
            },
            Reply::Aborted => Woken {
                for_locks: !self.for_locks.is_empty(),
                for_change: self.changes.come(),
                ..Woken::NOBODY
            },
            Reply::Phase(_, _) | Reply::PartDone(_, _, _) => Woken {
                for_change: self.changes.come(),
                for_phase: self.phases.come(),
                ..Woken::NOBODY
            },
            _ => Woken {
                for_change: self.changes.come(),
                ..Woken::NOBODY
            },
        }
    }

    /// Notes the reply if that wakes no call; otherwise false, and nothing is noted.
    pub fn note_alone(&mut self, reply: &Reply) -> bool
        ensures alone { result ≡ true → woken_by self.old reply.now ≡ nobody }
        ensures noted { self.new ≡ (if result then waits_after_reply self.old reply.now else self.old) }
    {
        if !self.for_locks.is_empty() || self.changes.waiting > 0 || self.phases.waiting > 0 {
            return false;
        }
        if let Reply::Committed(number) = reply {
            if self.due <= number.0 {
                return false;
            }
        }
        let _nobody = self.note(reply);
        true
    }

    /// The end was marked, which counts as a change of the store and of its phase.
    pub fn end(&mut self) -> Woken
        ensures woken { result ≡ woken_by_end self.old }
        ensures noted { self.new ≡ record self.old { changes = come self.old.changes; phases = come self.old.phases } }
    {
        Woken {
            for_locks: false,
            for_change: self.changes.come(),
            for_phase: self.phases.come(),
            for_commit: true,
        }
    }

    /// Marks the last commit.
    pub fn mark_last(&mut self)
        ensures { self.new ≡ record self.old { has_last = true } }
    {
        self.has_last = true;
    }

    /// Whether the last commit was marked.
    pub fn is_last(&self) -> bool
        ensures { result ≡ self.now.has_last }
    {
        self.has_last
    }

    /// The entry of this number is waited for too.
    pub fn await_commit(&mut self, number: u32)
        ensures { self.new ≡ record self.old { due = min self.old.due number } }
    {
        self.due = self.due.min(number);
    }

    // Whether a call waits for the commit of this number; then none waits any more, until the next `await_commit`.
    fn is_due(&mut self, number: Lsn) -> bool
        ensures due { result ≡ not (nat_lt number self.old.due) }
        ensures noted { self.new ≡ record self.old { due = if nat_lt number self.old.due then self.old.due else none_due } }
    {
        if number.0 < self.due {
            return false;
        }
        self.due = NONE_DUE;
        true
    }
}
