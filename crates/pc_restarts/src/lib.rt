//! The recovery of an interrupted store: laws over the store and over the rules of recovery.
#![tactic(auto)]

mod laws;

pub use laws::{
    every_cut_of_a_world_is_recovered, recoveries_reach_furthest, recoveries_skip_unused_parts,
};
