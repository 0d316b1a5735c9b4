//! The audit of a store's contents and files against the log that it keeps.
#![tactic(auto)]

mod checks;
mod laws;
mod replays;
mod table;

pub use checks::{are_files_right, is_sound};
pub use laws::files_of_their_points_are_right;
