//! A board that threads share without a lock: they claim numbers on it, each number once, and read the greatest point that was
//! published on it.
#![tactic(auto)]

mod board;
mod calls;
mod laws;
mod rule;
mod sight;

pub use board::{Board, BoardPass, BoardTotals};
pub use calls::{Call, CallKind};
pub use laws::{claims_rise, looks_never_fall};
