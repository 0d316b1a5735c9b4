//! A file of a store, read by its own reader: the output of `pcalc verify` for it, over any reader and writer.
#![tactic(auto)]

mod findings;
mod lines;
mod verify;

pub use findings::FileKind;
pub use verify::{Verified, verify_file};
