//! Gates: what a loop of threads passes on its way, so that a test can have one wait for another.
use crate::{Phase, SessionNo};

/// The place of a loop.
#[derive(Clone, Copy, Debug)]
pub enum GatePlace {
    /// Before a transaction of this session begins.
    Start(SessionNo),
    /// The operation of this number, from 1, of the session's transaction was answered.
    Step(SessionNo, u32),
    /// The session's transaction has committed.
    Committed(SessionNo),
    /// One of the requests of the session's transaction has died, and it was aborted.
    Died(SessionNo),
    /// The session's job was given up.
    GaveUp(SessionNo),
    /// Before the session's client waits until more of the log is written.
    Behind(SessionNo),
    /// Before entries of the log are written; the number of entries written earlier.
    Writing(u32),
    /// The number of entries of the log that are written.
    Written(u32),
    /// Before the change into this phase is asked for.
    Due(Phase),
    /// This phase was entered.
    Entered(Phase),
    /// A key of a point was taken.
    Took,
    /// The collapser of this number, from 0, holds two files.
    Pair(u8),
}

/// The hook that a loop calls at each of its places. It may take its time, and changes nothing that a contract speaks
/// of.
pub trait Gate {
    fn pass(&self, place: GatePlace);
}

/// The gate that nothing waits at.
pub struct OpenGate;

impl Gate for OpenGate {
    fn pass(&self, _place: GatePlace) {}
}
