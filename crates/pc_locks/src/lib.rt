//! Strict two-phase locking with wait-die: the requests that transactions make of slots, who is granted, who waits and who dies.
#![tactic(auto)]

mod ends_row;
mod keeper;
mod locks;
mod node;
mod table;

pub use keeper::QueueEnds;
pub use locks::Locks;
