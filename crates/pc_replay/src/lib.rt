//! Databases in memory, the replay of logs on them, and the audit of a store against its log.
#![tactic(auto)]

mod audits;
mod laying;
mod overlay;
mod pairs;
mod replay;
mod rising;
mod samples;
mod tree;

pub use audits::{CompleteFile, audit, is_replay};
pub use laying::lay_plain;
pub use overlay::Overlay;
pub use pairs::{Pairs, place, set};
pub use replay::{after, apply, front_len, state_at};
pub use rising::first_of_each;
