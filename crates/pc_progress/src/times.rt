//! The number of transactions that committed in each hundredth of a second of a run.
use pc_types::{GatePlace, Phase};
use std::alloc::{AllocError, Global};
use std::io;
use std::io::Write;
use std::sync::atomic::{AtomicU8, AtomicU32, Ordering};

/// The number of hundredths of a second that are counted: an hour. Later ones are not.
const HUNDREDTHS: usize = 360_000;

/// The microseconds of a hundredth of a second.
const LENGTH: u64 = 10_000;

/// The first line of the file.
const HEADING: &str =
    "# hundredths of a second from the begin of the run; commits in this one; the phase at its end";

/// The phases, by their places.
const PHASES: [Phase; 5] = [
    Phase::Rest,
    Phase::Prepare,
    Phase::Resolve,
    Phase::Capture,
    Phase::Complete,
];

/// The place of no phase.
const NO_PHASE: u8 = 5;

// A hundredth of a second.
#[derive(Drop)]
struct Hundredth {
    commits: AtomicU32,
    // The place of the phase that was entered last in it.
    entered: AtomicU8,
}

/// The commits and the phases of a run's first hour, by hundredths of a second. All room for them is taken beforehand.
#[derive(Drop)]
pub struct Times {
    slots: Vec<Hundredth>,
}

impl Times {
    /// Nothing was counted.
    pub fn new(alloc: Global) -> Result<Times, AllocError> {
        let mut slots = Vec::with_capacity(alloc, HUNDREDTHS)?;
        for _ in 0..HUNDREDTHS {
            slots.push(Hundredth {
                commits: AtomicU32::new(0),
                entered: AtomicU8::new(NO_PHASE),
            })?;
        }
        Ok(Times { slots })
    }

    /// Counts the place, which was passed the given number of microseconds after the begin.
    pub fn note(&self, place: &GatePlace, since: u64) {
        let Some(slot) = self.slot(since) else {
            return;
        };
        match place {
            GatePlace::Committed(_) => {
                slot.commits.fetch_add(1, Ordering::SeqCst);
            }
            GatePlace::Entered(phase) => slot.entered.store(place_of(*phase), Ordering::SeqCst),
            _ => {}
        }
    }

    fn slot(&self, since: u64) -> Option<&Hundredth> {
        match usize::try_from(since / LENGTH) {
            Ok(hundredth) => self.slots.get(hundredth),
            Err(_) => None,
        }
    }

    /// Writes a line for each hundredth of a run of this length in microseconds, after the heading; no line if it has
    /// none.
    pub fn put<W: Write>(&self, length: Option<u64>, out: &mut W) -> io::Result<()> {
        writeln!(out, "{HEADING}")?;
        let Some(length) = length else {
            return Ok(());
        };
        let mut phase = Phase::Rest;
        let mut hundredth = 0u64;
        for slot in &self.slots {
            if hundredth > length / LENGTH {
                break;
            }
            phase = slot.phase_behind(phase);
            let commits = slot.commits.load(Ordering::SeqCst);
            writeln!(out, "{hundredth} {commits} {}", name_of(phase))?;
            hundredth = hundredth.saturating_add(1);
        }
        Ok(())
    }
}

impl Hundredth {
    // The phase at its end, if this one was at its begin.
    fn phase_behind(&self, before: Phase) -> Phase {
        match PHASES.get(usize::from(self.entered.load(Ordering::SeqCst))) {
            Some(phase) => *phase,
            None => before,
        }
    }
}

fn place_of(phase: Phase) -> u8 {
    match phase {
        Phase::Rest => 0,
        Phase::Prepare => 1,
        Phase::Resolve => 2,
        Phase::Capture => 3,
        Phase::Complete => 4,
    }
}

fn name_of(phase: Phase) -> &'static str {
    match phase {
        Phase::Rest => "rest",
        Phase::Prepare => "prepare",
        Phase::Resolve => "resolve",
        Phase::Capture => "capture",
        Phase::Complete => "complete",
    }
}
