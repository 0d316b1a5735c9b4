//! Collapses into a file whose contents contracts know: one in memory.
#![tactic(auto)]

#[cfg(test)]
mod collapses;
mod memory;

pub use memory::MemoryFile;
