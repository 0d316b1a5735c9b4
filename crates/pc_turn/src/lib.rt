//! A turn of a store that is served: first the new log entries are written, and kept if they must be, and then the answers go out.
#![tactic(auto)]

mod device;
mod turn;

pub use device::LogDevice;
pub use turn::{Marks, TurnEnd, end_turn, put_behind};
