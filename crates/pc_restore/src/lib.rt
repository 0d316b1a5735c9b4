//! Recovers the state of a folder's files, and makes the base of a next run of it; over any readers and writers.
#![tactic(auto)]

mod bases;
mod lacks;
mod reading;
mod recovery;
mod reports;

pub use bases::recover_base;
pub use lacks::{Lacks, LogHeader};
pub use reading::{FolderBytes, PartBytes, part_slices, read_folder};
pub use recovery::{
    EndedRecovery, Folder, Lost, RecoveryMode, run_recover, tell_lost, tell_reason,
};
