//! What threads have passed of each other's ways.
use pc_types::{GatePlace, Phase, SessionNo};
use std::array;
use std::sync::atomic::{AtomicU64, Ordering};

/// A place that is counted: of sessions 1 to 3 the beginnings of transactions, their first operations and their commits; that
/// session 1 waits for the log, and that the logger is to write; of the checkpointer
/// some of its phases, that some are due, and its keys; how often the first collapser holds two files, and that it has ended; and
/// that the end is marked.
#[derive(Clone, Copy, Debug, PartialEq, Eq)]
pub enum Sign {
    FirstStarts,
    SecondStarts,
    ThirdStarts,
    FirstSteps,
    SecondSteps,
    ThirdSteps,
    FirstCommits,
    SecondCommits,
    ThirdCommits,
    FirstIsBehind,
    LoggerIsToWrite,
    PrepareIsDue,
    CaptureIsDue,
    EntersResolve,
    EntersComplete,
    EntersRest,
    Takes,
    Pairs,
    CollapserEnds,
    EndIsMarked,
}

// The number of a session, counted after the given number of others; 0 or more than there are if it is one of these.
fn behind(idle: u8, session: SessionNo) -> SessionNo {
    SessionNo(session.0.wrapping_sub(u32::from(idle)))
}

/// The place, if sessions are counted after the given number of others.
pub fn place_behind(idle: u8, place: GatePlace) -> GatePlace {
    match place {
        GatePlace::Start(session) => GatePlace::Start(behind(idle, session)),
        GatePlace::Step(session, number) => GatePlace::Step(behind(idle, session), number),
        GatePlace::Committed(session) => GatePlace::Committed(behind(idle, session)),
        GatePlace::Behind(session) => GatePlace::Behind(behind(idle, session)),
        other => other,
    }
}

/// The sign of the place, if it is counted.
pub fn sign_of(place: GatePlace) -> Option<Sign> {
    Some(match place {
        GatePlace::Start(SessionNo(1)) => Sign::FirstStarts,
        GatePlace::Start(SessionNo(2)) => Sign::SecondStarts,
        GatePlace::Start(SessionNo(3)) => Sign::ThirdStarts,
        GatePlace::Step(SessionNo(1), 1) => Sign::FirstSteps,
        GatePlace::Step(SessionNo(2), 1) => Sign::SecondSteps,
        GatePlace::Step(SessionNo(3), 1) => Sign::ThirdSteps,
        GatePlace::Committed(SessionNo(1)) => Sign::FirstCommits,
        GatePlace::Committed(SessionNo(2)) => Sign::SecondCommits,
        GatePlace::Committed(SessionNo(3)) => Sign::ThirdCommits,
        GatePlace::Behind(SessionNo(1)) => Sign::FirstIsBehind,
        GatePlace::Writing(_) => Sign::LoggerIsToWrite,
        GatePlace::Due(Phase::Prepare) => Sign::PrepareIsDue,
        GatePlace::Due(Phase::Capture) => Sign::CaptureIsDue,
        GatePlace::Entered(Phase::Resolve) => Sign::EntersResolve,
        GatePlace::Entered(Phase::Complete) => Sign::EntersComplete,
        GatePlace::Entered(Phase::Rest) => Sign::EntersRest,
        GatePlace::Took => Sign::Takes,
        GatePlace::Pair(0) => Sign::Pairs,
        _ => return None,
    })
}

/// How often each was passed.
#[derive(Drop)]
pub struct SignCounts {
    counts: [AtomicU64; 20],
}

impl SignCounts {
    /// Nothing was passed.
    pub fn new() -> SignCounts {
        SignCounts {
            counts: array::from_fn(|_| AtomicU64::new(0)),
        }
    }

    fn of(&self, sign: Sign) -> &AtomicU64 {
        &self.counts[sign as usize]
    }

    /// Counts the sign once more, and returns its count.
    pub fn note(&self, sign: Sign) -> u64 {
        self.of(sign).fetch_add(1, Ordering::SeqCst).wrapping_add(1)
    }

    /// How often it was passed.
    pub fn get(&self, sign: Sign) -> u64 {
        self.of(sign).load(Ordering::SeqCst)
    }
}
