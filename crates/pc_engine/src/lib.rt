//! The store's world: it answers events, in order, each by a legal reply.
#![tactic(auto)]

mod calls;
mod laws;
mod points;
mod refusing;
mod shelving;
mod transactions;
mod world;
mod writes;

pub use laws::{
    standing_worlds_are_serial, standing_worlds_have_legal_queues, standing_worlds_keep_points,
};
pub use pc_answers::{AddAnswer, GetAnswer, TakeAnswer};
pub use pc_types::{Event, Reply};
pub use world::{World, run};
