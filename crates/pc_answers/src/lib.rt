//! The answers to each call of a store's world, and the replies that represent them.
#![tactic(auto)]

mod answers;
mod replies;

pub use answers::{AddAnswer, GetAnswer, TakeAnswer};
pub use replies::{
    abort_reply, add_reply, begin_reply, commit_reply, get_reply, take_reply, write_reply,
};
