//! What the threads of a run work with.
use pc_shared::Shared;
use pc_tie::StoreName;
use pc_types::Gate;
use std::alloc::Global;

/// What the threads of a run work with: the allocator, the store that they share, and the gate that they pass.
#[derive(Drop)]
pub struct Desk<'a, N: StoreName, G: Gate> {
    pub alloc: Global,
    pub shared: &'a Shared<N>,
    pub gate: &'a G,
}
