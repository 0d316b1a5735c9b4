//! Chains and stacks: lists that are linked by ids, over links that someone else keeps. Also the interfaces for keepers of
//! records in slots: the record of a new id, the key of a record, and how slots are shown, taken and freed.
#![tactic(auto)]

mod blank;
mod chain;
mod keyed;
mod keyed_slots;
mod links;
mod stack;

pub use blank::Blank;
pub use chain::Chain;
pub use keyed::Keyed;
pub use keyed_slots::KeyedSlots;
pub use links::Links;
pub use stack::Stack;
