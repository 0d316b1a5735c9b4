//! The calls that wait at a store's latch, and those that an answer wakes.
#![tactic(auto)]

mod waits;

pub use waits::{Awaited, News, Waits, Woken};
