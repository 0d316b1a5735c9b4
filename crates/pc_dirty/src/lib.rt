//! Which slots changed: an open set, which takes more, and a closed one, which is emptied from the front; over links that someone
//! else keeps.
#![tactic(auto)]

mod dirty;
mod side;

pub use dirty::Dirty;
pub use side::{Side, SideSlot};
