//! The result of a recovery.
use pc_types::{Key, Point, Refusal, Value};

/// A part that is not in the recovered state, and why.
#[derive(Drop)]
pub struct Skipped {
    /// Its place among the parts, from 0.
    pub place: usize,
    /// The fault of its bytes; `OtherRun` if it is of another run than the base; `Gap` with the least point above the base's that
    /// no part covers, if it has a point past the recovered one.
    pub reason: Refusal,
}

/// The result of recovery from a base, part files and a log.
#[derive(Drop)]
pub struct Recovered {
    /// The number of the base's run, to which all used files belong.
    pub run: u64,
    /// The pairs of the database, in strictly ascending order of the keys.
    pub pairs: Vec<(Key, Value)>,
    /// The point up to which part files are in it: the base's, or the greatest that they reach.
    pub point: Point,
    /// The number of the log's whole entries.
    pub entries: usize,
    /// The parts that were not used, in the order of their places.
    pub skipped: Vec<Skipped>,
    /// The fault of the bytes after the log's whole entries, if there are any: `Short` if the log was truncated, or all of them are 0.
    /// A log that was truncated inside its header has none.
    pub fault: Option<Refusal>,
}
