//! What the gate's programs and tests share: what is asked of a store, as plain data, and what came of it, counted and summed
//! up; numbers that look like chance; and worked files.
#![tactic(auto)]

mod asks;
mod chance;
mod pairs;
mod samples;
mod sums;
mod telling;

pub use asks::{Ask, event_of, events_of};
pub use chance::{drawn, drawn_value, following};
pub use pairs::{Pair, are_pairs};
pub use samples::{EMPTY_BASE, ONE_KEY, SIX_ENTRIES, THIRD_POINT, TWO_KEYS};
pub use sums::{Kind, SumLine, Sums, kind_of};
pub use telling::tell;
