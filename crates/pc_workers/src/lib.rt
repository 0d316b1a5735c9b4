//! The loops that the threads of a shared store run: of clients, of the checkpointer, of collapsers and of the logger.
#![tactic(auto)]

mod checkpointing;
mod client_gate;
mod clients;
mod collapsing;
mod covering;
mod desk;
mod logging;
mod pace;

pub use checkpointing::{CheckpointFault, checkpoint_loop};
pub use client_gate::ClientGate;
pub use clients::{ClientEnd, Count, MOST_REPEATS, client_loop};
pub use collapsing::{CollapserShare, collapse_loop};
pub use covering::with_missing_points;
pub use desk::Desk;
pub use logging::{LogEnd, MOST_BATCH, has_all_until, log_loop, log_rest};
