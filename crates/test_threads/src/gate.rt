//! The gate at which threads wait until others have come to their places.
use crate::signs::{Sign, SignCounts, place_behind, sign_of};
use pc_types::{Gate, GatePlace, Refusal, SessionNo};
use pc_workers::ClientGate;
use std::sync::atomic::{AtomicBool, AtomicU64, Ordering};
use std::thread;

/// A place, and the number of a visit to it.
pub type Visit = (Sign, u64);

/// The thread that makes the first visit waits there until the second was made.
pub type Stop = (Visit, Visit);

/// A gate with stops, and visits that are made only while no thread waits at it. At each place it lets other threads go first,
/// so that their ways mix.
#[derive(Drop)]
pub struct Meeting {
    stops: &'static [Stop],
    alone: &'static [Visit],
    idle: u8,
    counts: SignCounts,
    standing: AtomicU64,
    has_failed: AtomicBool,
}

// How often a waiting thread looks for the others.
const TURNS: u32 = 10_000_000;

// How often a thread that has waited lets others run before it goes on.
const MORE_TURNS: u32 = 1000;

impl Meeting {
    /// No thread has come yet; sessions are counted after the given number of others.
    pub fn new(stops: &'static [Stop], alone: &'static [Visit], idle: u8) -> Meeting {
        Meeting {
            stops,
            alone,
            idle,
            counts: SignCounts::new(),
            standing: AtomicU64::new(0),
            has_failed: AtomicBool::new(false),
        }
    }

    /// Whether all came where one waited for them, and none while one waited where nobody was to come.
    pub fn have_met(&self) -> bool {
        !self.has_failed.load(Ordering::SeqCst)
    }

    /// A thread comes to the sign: it waits if it is to, and has failed if no thread was to wait.
    pub fn come(&self, sign: Sign) {
        let visit = (sign, self.counts.note(sign));
        let is_alone = self.standing.load(Ordering::SeqCst) == 0;
        if !is_alone && self.alone.contains(&visit) {
            self.has_failed.store(true, Ordering::SeqCst);
        }
        for (ours, theirs) in self.stops {
            if *ours == visit {
                self.stand(*theirs);
            }
        }
    }

    // Waits until the visit was made, and some turns more; if it isn't made it goes on, and the meeting has failed.
    fn stand(&self, theirs: Visit) {
        self.standing.fetch_add(1, Ordering::SeqCst);
        if !self.is_made(theirs) {
            self.has_failed.store(true, Ordering::SeqCst);
        }
        for _ in 0..MORE_TURNS {
            thread::yield_now();
        }
        self.standing.fetch_sub(1, Ordering::SeqCst);
    }

    // Whether the visit was made after some turns.
    fn is_made(&self, (sign, time): Visit) -> bool {
        for _ in 0..TURNS {
            if self.counts.get(sign) >= time {
                return true;
            }
            thread::yield_now();
        }
        false
    }
}

impl Gate for Meeting {
    fn pass(&self, place: GatePlace) {
        thread::yield_now();
        if let Some(sign) = sign_of(place_behind(self.idle, place)) {
            self.come(sign);
        }
    }
}

impl ClientGate for Meeting {
    fn refused(&self, _session: SessionNo, _why: Refusal) {}
}
