//! Many part files joined to one.
#![tactic(auto)]

mod bag;
mod folding;
mod laws;
mod merging;
mod piece;
mod rounds;
mod rule;

pub use bag::{collapse_bag, collapse_bag_owned};
pub use folding::{fold, fold_owned};
pub use laws::{files_fold_well, folds_are_states};
pub use rounds::{collapse_rounds, collapse_rounds_owned};
