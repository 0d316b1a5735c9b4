//! Locks of sixteen slots, with who keeps the ends of their queues: what the gate's lists of requests, and its growths of memory
//! that are refused, are asked of.
#![tactic(auto)]

mod row;
mod slots;

pub use row::{ByRowOfEnds, RowOfEnds};
pub use slots::{LockSlots, SLOTS};
