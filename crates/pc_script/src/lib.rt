//! Runs a script of transactions against a store, over any readers and writers.
#![tactic(auto)]

mod run;
mod script;
mod setup;
mod views;

pub use run::{EndedScript, run_script};
pub use script::{LineAnswer, Status, answer_stored, put_answer};
pub use setup::Setup;
