//! Beginnings of generations over folders in memory that fail at each call in turn.
#![tactic(auto)]

#[cfg(test)]
mod beginnings;
#[cfg(test)]
mod folders;
