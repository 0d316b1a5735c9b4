//! The limits of merges.

/// The most inputs of a merge, and so the most places of its tournament.
pub const MOST_INPUTS: usize = 1_073_741_824;
