//! The store that threads share: one world under one latch, and sessions that know its one history.
#![tactic(auto)]

mod asks;
mod closing;
mod ending;
mod gone_out;
mod logged;
mod session;
mod store;
mod takes;
mod written;

pub use closing::Closed;
pub use ending::{EndMark, Marked};
pub use logged::{LastEntry, LogBatch, LogEndMark, LogEnded};
pub use pc_latch::{LogPass, PartTicket};
pub use pc_tie::{CheckpointerSeat, Witness};
pub use pc_txn::Commits;
pub use session::{CallAnswer, LentReceipt, Session};
pub use store::{Advanced, Opened, Shared, Turn, UnderLatch, pause};
pub use takes::{Takes, TakesEnd};
