//! The state that the threads of a run share.
use pc_tie::StoreName;
use pc_types::Gate;
use pc_workers::Desk;
use std::sync::Wait;
use std::sync::atomic::{AtomicU64, Ordering};

/// The state that the threads of a run share: what they work with, the number of points that are taken, the number of log entries
/// that a client may leave unwritten after its commit, which is None if no thread writes the log, and the number of workers that
/// still run.
#[derive(Drop)]
pub struct Room<'a, N: StoreName, G: Gate> {
    pub desk: Desk<'a, N, G>,
    pub points: u32,
    pub lag: Option<u32>,
    pub working: &'a AtomicU64,
}

impl<'a, N: StoreName, G: Gate> Room<'a, N, G> {
    // A worker has ended; if it was the last one, no client commits any more.
    pub(crate) fn leave<R: Wait>(&self, rt: &R) {
        if self.working.fetch_sub(1, Ordering::SeqCst) == 1 {
            self.desk.shared.mark_last_commit(rt);
        }
    }
}
