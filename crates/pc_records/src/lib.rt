//! The records of keys: values, which open transactions write in place, the open and the closed set,
//! what is kept for the point, and the requests of locks.
#![tactic(auto)]

mod ends;
mod floor;
mod links;
mod records;
mod slots;

pub use records::{Look, Reading, Records, Requested};
