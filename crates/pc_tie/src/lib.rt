//! The tie of the sessions and the checkpointer of a store to its one history: seats at one word that threads share,
//! each of which knows the history or a prefix of it.
#![tactic(auto)]

mod keeper;
mod milestone;
mod name;
mod noted;
mod rule;
mod seats;
mod sight;
mod start;
mod tie;

pub use keeper::{Dealer, Keeper};
pub use milestone::Milestone;
pub use name::StoreName;
pub use noted::NotedStep;
pub use seats::{CheckpointerSeat, SessionSeat, Witness};
pub use sight::{Sight, Sitting};
pub use start::Start;
pub use tie::{Tie, Untied};
