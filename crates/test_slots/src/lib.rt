//! Tests of the libraries that slots are made of, each by its public calls. They are here and not next to the code, whose crates
//! would be proved a second time for them.
#![tactic(auto)]

#[cfg(test)]
mod arenas;
#[cfg(test)]
mod chains;
#[cfg(test)]
mod indexes;
#[cfg(test)]
mod records;
#[cfg(test)]
mod tables;
