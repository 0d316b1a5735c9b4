//! Tests of merges, collapses and the board of collapsers, by their public calls. They are here and not next to the code, whose
//! crate would be proved a second time for them.
#![tactic(auto)]

#[cfg(test)]
mod boards;
#[cfg(test)]
mod collapses;
#[cfg(test)]
mod merges;
