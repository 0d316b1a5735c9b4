//! The captured entries of a point: its keys, each once, with their contents there. They grow by puts in any order, and
//! then become the entries of the point's part in place. Entries of a part, however they are kept, are gone over in one
//! pass.
#![tactic(auto)]

mod both_lists;
mod entries;
mod headed;
mod lent;
mod lists;
mod pass;
mod sides;
mod taken;
mod taken_pass;

pub use entries::Entries;
pub use lent::LentTriple;
pub use pass::Pass;
pub use sides::{Side, clashes, go_on, push_newest, side_of};
pub use taken::Taken;
