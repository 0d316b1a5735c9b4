//! Worked examples of the definitions: whole histories with their files and states, replies that aren't legal, single rules, and the
//! limits. Each is a theorem.
#![tactic(auto)]

mod examples;

pub use examples::{
    definitions_key_by_key, illegal_replies, worked_examples_of_adds, worked_examples_of_capacity,
    worked_examples_of_files, worked_examples_of_headlines, worked_examples_of_locks,
    worked_examples_of_points, worked_examples_of_refusals, worked_examples_of_rules,
    worked_examples_of_transactions,
};
