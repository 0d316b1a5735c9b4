//! The writes and reads of transactions: of one each key, found by a binary search; and what a session keeps, the reads of
//! its open transaction, number and reads of each commit, and what its latest call found.
#![tactic(auto)]

mod commits;
mod got;
mod order;
mod reads;
mod session_notes;
mod writes;

pub use commits::{Commits, Head};
pub use got::Got;
pub use reads::ReadSet;
pub use session_notes::{Latest, SessionNotes, has_room_for_commit, has_room_to_read};
pub use writes::WriteSet;
