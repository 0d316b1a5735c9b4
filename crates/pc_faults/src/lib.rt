//! The place of the fault of a file's text: the byte with which it is seen.
#![tactic(auto)]

mod texts;

pub use texts::{TextFault, TextKind, locate};
