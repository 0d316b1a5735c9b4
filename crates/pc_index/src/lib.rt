//! An index: which slot has the record of a key, over records in slots that someone else keeps. Its hash chains go through the
//! links of the slots.
#![tactic(auto)]

mod hashing;
mod index;

pub use index::Index;
