//! Sets of a store's sessions.
#![tactic(auto)]

mod sessions;

pub use sessions::SessionSet;
