//! Part files are read and joined into one, over any readers, writers and maker of a file.
#![tactic(auto)]

mod collapse;
mod inputs;
mod output;

pub use collapse::{EndedCollapse, run_collapse};
pub use inputs::CollapseFault;
pub use output::Maker;
