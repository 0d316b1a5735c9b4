//! Answers of calls that may give something, each with what it gives.
use pc_types::{Key, Value};

/// The answer to a read that isn't refused.
#[derive(Drop)]
pub enum GetAnswer {
    /// The key has this value.
    Found(Value),
    /// The key has no value.
    Absent,
    /// The lock request waits; the same call is made again later.
    Wait,
    /// The lock request died; the transaction accepts only an abort.
    Died,
}

/// The answer to an add that isn't refused.
#[derive(Clone, Copy, Debug, PartialEq, Eq)]
pub enum AddAnswer {
    /// The key has this number now.
    Sum(i64),
    /// The lock request waits; the same call is made again later.
    Wait,
    /// The lock request died; the transaction accepts only an abort.
    Died,
}

/// The answer to a take that isn't refused.
#[derive(Drop)]
pub enum TakeAnswer {
    /// The key and what it had at the point, a value or nothing.
    Took(Key, Option<Value>),
    /// No key is left.
    NoneLeft,
}
