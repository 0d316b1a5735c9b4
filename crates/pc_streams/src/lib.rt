//! The entries of a part's text, read one at a time, with no more in memory than a piece of it and an entry.
#![tactic(auto)]

mod buffer;
mod kept;
mod laws;
mod place;
mod reader;
mod source;

pub use laws::parts_come;
pub use reader::PartReader;
pub use source::Source;
