//! An arena: records in slots, which are taken and freed, each with a word of links next to its record.
#![tactic(auto)]

mod arena;
mod cells;
mod keyed;

pub use arena::Arena;
pub use cells::ByLink;
