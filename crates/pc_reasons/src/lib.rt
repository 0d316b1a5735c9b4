//! Why a line of a script or of a workload is bad, and the lines that report it.
#![tactic(auto)]

mod faults;
mod kinds;
mod line_lists;
mod scripts;
#[cfg(test)]
mod tests;
mod told_lines;
mod workloads;

pub use faults::{LineFault, WordKind, WordPlace};
pub use scripts::{put_script_faults, script_fault};
pub use told_lines::{BadLine, MOST_TOLD};
pub use workloads::{WorkloadFault, put_workload_fault, workload_fault};
