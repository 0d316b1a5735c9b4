//! Tests of the libraries over devices that fail: readers and writers that end in the middle of what they are
//! asked for.
#![tactic(auto)]

#[cfg(test)]
mod file_tests;
#[cfg(test)]
mod folder_tests;
#[cfg(test)]
mod join_tests;
#[cfg(test)]
mod log_tests;
#[cfg(test)]
mod pair_tests;
#[cfg(test)]
mod refusal_tests;
#[cfg(test)]
mod script_tests;
#[cfg(test)]
mod sink;
#[cfg(test)]
mod stream_tests;
#[cfg(test)]
mod tally_tests;
#[cfg(test)]
mod tape;
