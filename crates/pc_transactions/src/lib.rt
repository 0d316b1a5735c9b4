//! The open transactions of a store's sessions, over the records in which they write in place and the phases that count them.
#![tactic(auto)]

mod lanes;
mod sessions;

pub use lanes::Transaction;
pub use sessions::{Prospect, Sessions};
