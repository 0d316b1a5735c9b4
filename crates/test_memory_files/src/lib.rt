//! Tests of joins, recoveries and audits in which growths of memory are refused: nothing else is here.
//!
//! A test whose name ends in `at_each_refused_growth` asks again if an allocation failed, and wants in the end what it would
//! have got with ample memory, so it passes whichever growth is refused. `tools/cases/refused_growths.py` runs each such test once
//! for each growth that it asks for, with that growth refused.
#![tactic(auto)]

#[cfg(test)]
mod audits;
#[cfg(test)]
mod files;
#[cfg(test)]
mod recoveries;
