//! A process that serves a store: it answers lines and takes points between them, and at the end of a turn the new log entries are
//! written, and kept if they must be, before the answers go out.
#![tactic(auto)]

mod counts;
mod laws;
mod serve;
mod server;
mod service;

pub use laws::{kills_lose_no_answer, serving_loses_no_answer};
pub use serve::{PointFiles, ServeFault, Stopped, serve_input};
pub use server::Server;
pub use service::{CutOff, Service};
