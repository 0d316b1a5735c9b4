//! A table: records by key, each in a slot of its own, found by its key or by its slot. It is built on an arena, whose slots
//! are taken and freed, and on an index, whose hash chains go through the slots' links.
#![tactic(auto)]

mod entry;
mod table;

pub use table::Table;
