//! A served store over inputs in pieces, and over devices in memory that fail at each call in turn.
#![tactic(auto)]

#[cfg(test)]
mod devices;
#[cfg(test)]
mod kills;
#[cfg(test)]
mod serving;
