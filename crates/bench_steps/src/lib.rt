//! Measures a store that one thread steps: cycles of points, and commits of one write each.
#![tactic(auto)]

mod amounts;
mod commits;
mod failure;
mod pairs;
mod points;
mod stepped;

pub use amounts::{Cycles, Rounds};
pub use commits::{Committed, CycleProgress, NextStage, measure_commits};
pub use failure::BenchFailure;
pub use pairs::{key_of, pair_of, scattered};
pub use points::{TimedCycle, measure_points};
