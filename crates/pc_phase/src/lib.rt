//! The phases of a checkpoint's cycle, with how many transactions of each class are active, and the changes from phase to
//! phase.
#![tactic(auto)]

mod change;
mod laws;
mod phases;

pub use change::{Change, Held};
pub use laws::{
    begins_stay_of_the_history, changes_stay_of_the_history, ends_stay_of_the_history,
    held_back_is_certain, others_stay_of_the_history, starts_of_the_history,
};
pub use phases::Phases;
