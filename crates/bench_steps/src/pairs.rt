//! The keys and values that are written.
use pc_types::{Key, Refusal, Value};
use std::alloc::Global;

// An odd number, so that no two numbers of 32 bits have one product in 32 bits.
const SCATTER: u32 = 2_654_435_761;

/// Mixes a number injectively, so that the keys of ascending numbers are in no order.
pub fn scattered(number: u32) -> u32 {
    number.wrapping_mul(SCATTER)
}

/// The key of the number's four bytes.
pub fn key_of(alloc: Global, number: u32) -> Result<Key, Refusal> {
    Key::new(alloc, &number.to_be_bytes())
}

/// The key of the number's four bytes, and a value of the same.
pub fn pair_of(alloc: Global, number: u32) -> Result<(Key, Value), Refusal> {
    let bytes = number.to_be_bytes();
    let key = Key::new(alloc, &bytes)?;
    Ok((key, Value::new(alloc, &bytes)?))
}
