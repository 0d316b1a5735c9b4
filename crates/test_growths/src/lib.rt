//! Tests of a shared store whose growths of memory are refused, and of joins of files, by one thread and by several: nothing else is
//! here.
//!
//! A test whose name ends in `at_each_refused_growth` asks again if an allocation failed, and wants in the end what it would
//! have got with ample memory, so it passes whichever growth is refused. `tools/cases/refused_growths.py` runs each such test
//! once for each growth that it asks for, with that growth refused.
#![tactic(auto)]

#[cfg(test)]
mod again;
#[cfg(test)]
mod collapses;
#[cfg(test)]
mod sessions;
#[cfg(test)]
mod shared;
#[cfg(test)]
mod streams;
