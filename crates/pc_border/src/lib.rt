//! The store at the border to other languages: it is gathered, opened, asked by numbers and bytes, and shown, with all
//! that its world promises.
#![tactic(auto)]

mod open_store;
mod opening;
mod seed;
mod sources;
mod store;

pub use open_store::OpenStore;
pub use opening::{Options, open_world};
pub use sources::{RecoverySummary, Sources, summary_of_recovery};
pub use store::Store;
