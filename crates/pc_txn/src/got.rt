//! The answer to a read.
use pc_types::Value;

/// The answer to a read: the key's value, that it has none, or that the request of its lock died.
#[derive(Drop)]
pub enum Got {
    Found(Value),
    Absent,
    Died,
}
