//! The explanation after the line of a fault: the file, the operation, the place in it, and the system's error.
#![tactic(auto)]

mod damage;
mod explaining;
mod lacking;
mod meanings;
mod skipped;

pub use explaining::{
    About, Explained, Explainer, Served, explain_output, is_explained, tell_ended,
};
pub use lacking::Lacking;
pub use skipped::SkippedLines;
