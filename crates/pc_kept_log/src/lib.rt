//! The log that a store keeps, as its text: entries are added at its end, and are viewed and read again in place.
#![tactic(auto)]

mod chunk;
mod entries;
mod lending;
mod lent_entries;
mod lent_writes;
mod log;
mod placing;

pub use lending::LentTexts;
pub use lent_entries::{LentEntries, LentEntry};
pub use lent_writes::{LentChange, LentWrite, LentWrites};
pub use log::Log;
