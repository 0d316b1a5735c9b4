//! The encoding of a store's calls and replies as numbers and bytes: the event that a call asks, or why none, the numbers of a reply,
//! and the copies of its bytes.
#![tactic(auto)]

mod answers;
mod calls;
pub mod codes;
mod shown;

pub use answers::{Answer, plain, refusal_number, refused, text_told, told_of};
pub use calls::{Call, event_of};
pub use shown::Shown;
