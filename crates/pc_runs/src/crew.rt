//! The threads that run a workload.
ghost use Rattle.std.specs.Prelude.{◌≤◌};
ghost use Rattle.pc_types.specs.declared.limits.TheConstants.{MOST_COLLAPSERS, MOST_WORKERS};

use pc_types::Gate;
use std::alloc::Global;
use std::hash::RandomState;

/// The number of threads that run a workload, and the gate that their loops pass.
#[derive(Drop)]
pub struct Crew<'a, G: Gate> {
    /// The number of workers that the clients are dealt to, 1 to 64, each on a thread of its own.
    pub workers: u8,
    /// The number of collapsers that join the files of points concurrently with them, 1 to 64, each on a thread of its own.
    pub collapsers: u8,
    /// The number of log entries that a client may leave unwritten after its commit, if there is a folder; with 0 each of its
    /// commits is written before it goes on.
    pub lag: u32,
    /// The number of transactions that commit between two points; if None, those of the workload divided by the points.
    pub every: Option<u32>,
    /// The gate that the loops of clients, checkpointer, collapsers and logger pass.
    pub gate: &'a G,
    ghost in_range: { (1 ≤ workers) × (workers ≤ MOST_WORKERS) × (1 ≤ collapsers) × (collapsers ≤ MOST_COLLAPSERS) },
}

/// What a run works with: the allocator, the seed of the hashes of its store's keys, and its crew.
#[derive(Drop)]
pub struct RunContext<'a, G: Gate> {
    pub alloc: Global,
    /// A random 128-bit number (`RandomState::new`), so that no workload can pick keys that all share a chain.
    pub seed: RandomState,
    pub crew: Crew<'a, G>,
}
