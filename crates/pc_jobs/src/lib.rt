//! The jobs of clients, and their text in a workload.
#![tactic(auto)]

mod dealing;
mod fills;
mod phrases;
mod prefixes;
mod workloads;
mod works;

pub use dealing::deal;
pub use fills::FillJob;
pub use phrases::{MOST_FILL, MOST_RUN_POINTS, Phrase};
pub use prefixes::Prefix;
pub use workloads::{WorkloadReading, read_workload};
pub use works::{Client, ClientTask, Fill, Job, Op, Workload};
