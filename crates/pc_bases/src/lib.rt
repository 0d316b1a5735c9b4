//! The base files that stores start from: the database at a point. A part of its run is applied to a base.
#![tactic(auto)]

mod base;
mod base_decoding;
mod base_encoding;
mod laws;
mod laying;

pub use base::Base;
pub use laws::{base_texts_are_read, cut_base_texts_are_short, read_bases_are_texts};
pub use laying::lay;
