//! A workload: clients run it on threads, concurrently with a checkpointer, collapsers and a logger, from its reader to the status.
#![tactic(auto)]

mod crew;
mod failure;
mod files;
mod origin;
mod pace;
mod run;
mod starting;
mod store;

pub use crew::{Crew, RunContext};
pub use failure::RunFailure;
pub use files::{RunFolder, Unusable};
pub use origin::{NamedFolder, Origin, Start};
pub use pc_threads::NewFiles;
pub use run::{Finished, run_workload};
