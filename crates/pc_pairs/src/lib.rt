//! The pairs of a database as lines, one line for each: those of a folder are written, and lines are read back.
#![tactic(auto)]

mod choice;
mod dumping;
mod form;
mod gathered;
mod json;
mod loading;
mod reading;

pub use choice::Choice;
pub use dumping::{Undumped, run_dump};
pub use form::Form;
pub use loading::{Unloaded, load_base};
pub use reading::Fault;
