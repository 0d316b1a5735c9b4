//! What threads do in a store, and audits of what they leave: an example of the library, the jobs of clients, and the text that a
//! logger writes.
#![tactic(auto)]

mod audits;
mod example;
mod jobs;
mod logged;
mod receipts;
mod writers;

pub use audits::{right_files, take_parts};
pub use example::{Example, use_store};
pub use jobs::{Ask, Asks, Work};
pub use logged::TextOfLog;
pub use receipts::{adds_of, are_exact, count_of, reads_of};
pub use writers::Desk;
