//! Several streams of entries made one: of each key the entry of the greatest point.
#![tactic(auto)]

mod entries;
mod laws;
mod limits;
mod merge;
mod newest;
mod order;
mod spare;
mod tournament;
mod tree;

pub use entries::{Entries, EntryList};
pub use laws::{causes_stand, ends_are_merges, given_grows};
pub use limits::MOST_INPUTS;
pub use merge::{Merge, merge_all};
