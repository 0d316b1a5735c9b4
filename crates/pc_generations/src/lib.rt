//! A folder of generations: which of them counts, how their folders are called, and how the next one begins.
#![tactic(auto)]

mod beginning;
mod folders;
mod names;
mod searching;

pub use beginning::{begin_generation, latest_generation, remove_older};
pub use folders::Generations;
pub use names::{BASE_NAME, LOG_NAME, MOST_GENERATIONS, generation_name, number_in};
pub use searching::{greatest_generation, lost_generation};
