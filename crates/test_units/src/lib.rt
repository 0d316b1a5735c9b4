//! Tests of single libraries, each by its public calls. They are here and not next to the code, whose crate would be proved a
//! second time for them.
#![tactic(auto)]

#[cfg(test)]
mod changes;
#[cfg(test)]
mod notes;
#[cfg(test)]
mod phases;
#[cfg(test)]
mod sets;
#[cfg(test)]
mod takings;
