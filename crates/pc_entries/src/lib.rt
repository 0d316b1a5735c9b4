//! Entries of parts as their texts, kept or borrowed: a key and a value are made only when they are asked for.
#![tactic(auto)]

mod entry_text;
mod heads;
mod lent_entry;

pub use entry_text::EntryText;
pub use lent_entry::{LentEntry, lend_next_entry};
