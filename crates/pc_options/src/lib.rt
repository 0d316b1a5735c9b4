//! The words of a command line, and the tasks that they ask for.
#![tactic(auto)]

mod looking;
mod moving;
mod options;
mod said;

pub use looking::{LogOptions, VerifyOptions};
pub use moving::{DumpOptions, LoadOptions};
pub use options::{
    CollapseOptions, RecoverOptions, RunOptions, ServeOptions, StepOptions, Task, task_of,
    unreadable,
};
