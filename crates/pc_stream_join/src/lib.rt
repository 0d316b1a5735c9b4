//! Part texts joined as they are read: into one text, with no more in memory than a piece and an entry of each, and a piece of the output.
#![tactic(auto)]

mod headers;
mod join;
mod writer;

pub use headers::read_headers;
pub use join::{Joined, join_entries, stream_join};
