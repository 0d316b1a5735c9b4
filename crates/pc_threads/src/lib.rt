//! The threads of a run: workers with the clients that were dealt to them, a checkpointer, collapsers and a logger, over one store.
#![tactic(auto)]

mod clients;
mod fault;
mod files;
mod hands;
mod points;
mod room;
mod stop;
mod threads;

pub use clients::{Ran, Seated, Seating, Worker, seat_workers};
pub use fault::ThreadsFault;
pub use files::{FileFault, NewFiles, finish_file, make_file, write_part};
pub use hands::{Collapser, Hands, NewCheckpointer, Seat, hands_of};
pub use points::{Checkpointer, FullLog, TOKENS};
pub use room::Room;
pub use stop::ThreadsStop;
pub use threads::{Logger, Rested, Worked, Written, run_threads};
