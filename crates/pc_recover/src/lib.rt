//! Recovery: the state that a base, part files and a log give after a crash.
#![tactic(auto)]

mod candidates;
mod joining;
mod laws;
mod reach;
mod recovered;
mod recovering;
mod replaying;
mod state;
mod unused;

pub use laws::{every_cut_is_recovered, every_cut_of_a_run_is_recovered};
pub use reach::greatest_point;
pub use recovered::{Recovered, Skipped};
pub use recovering::recover;
pub use replaying::{is_token_of, with_entry};
