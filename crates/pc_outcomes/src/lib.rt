//! The report of a workload's run, and its text.
#![tactic(auto)]

mod leaving;
mod run_report;

pub use leaving::{Reporter, commits_in, left_by};
pub use run_report::{Collapsed, Printed, RunReport, StoreReport};
