//! The record of a key in its slot, and the moments of one slot: its key is written in its place, the write is committed or
//! undone, and the key is taken. A table of such slots, their locks and the two sets are built on it.
#![tactic(auto)]

mod cells;
mod ends;
mod links;
mod spares;
#[cfg(test)]
mod tests;
mod versions;
mod words;

pub use cells::{Cell, cell_with};
pub use ends::{chain_in, put_ends};
pub use spares::Spares;
pub use versions::{
    Aside, Author, Stage, Writing, committed_copy, copy_to_keep, is_kept, pinned_of, put, settle,
    take, undo,
};
