//! Runs of workloads into a folder of which contracts know what it has: one in memory.
#![tactic(auto)]

mod memory;
#[cfg(test)]
mod runs;

pub use memory::MemoryFolder;
