//! The entries of a log as lines: what `pcalc log` prints, over any readers and writers.
#![tactic(auto)]

mod lines;
mod reading;
mod run;

pub use reading::EntryRange;
pub use run::{EndedLog, LostLog, run_log};
