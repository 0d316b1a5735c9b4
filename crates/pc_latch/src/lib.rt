//! The state under the latch of a store that threads share: one world and the keeper of its history; and the things handed out of
//! it, tickets of parts and the logger's pass.
#![tactic(auto)]

mod calls;
mod latched;
mod pass;
mod ticket;

pub use latched::Latched;
pub use pass::{LogPass, LogTexts};
pub use ticket::{PartTicket, renew_tickets};
