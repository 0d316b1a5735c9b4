//! The store of a folder of generations, as it is opened: it starts from the pairs of the generation that counts, and the next one begins
//! with that.
#![tactic(auto)]

mod merging;
mod opening;

pub use merging::merged_base;
pub use opening::{Begun, OpenedStore, StoreSize, Succession, begin_store, next_base, open_store};
