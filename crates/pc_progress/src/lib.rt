//! The progress of a run, and its counts.
#![tactic(auto)]

mod causes;
mod counts;
mod progress;
mod times;

pub use progress::{Asked, Behind, Progress};
