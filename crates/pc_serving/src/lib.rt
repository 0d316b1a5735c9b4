//! A store that is served: what its lines ask, and the points that are taken between them.
#![tactic(auto)]

mod answers;
mod lines;
mod pace;
mod request;

pub use answers::Served;
pub use lines::{MOST_LINE_BYTES, next_line};
pub use pace::{Pace, Turned};
pub use request::{Request, read_request};
