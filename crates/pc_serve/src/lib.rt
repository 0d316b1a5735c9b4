//! The command that serves a store: the folder of its generations, its log, its input, and what is recovered of it.
#![tactic(auto)]

mod generation;
mod log_file;
mod points;
mod serving;
mod terminal;

pub use serving::serve_folder;
