//! The states of points: the database after what was committed before a point's token, from a base, part files and a log.
#![tactic(auto)]

mod folders;
mod laws;
mod parts;
mod replaying;
mod states;

pub use folders::read_point;
pub use laws::logs_give_states;
pub use states::point_state;
