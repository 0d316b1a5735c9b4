//! Pairs of keys and values, as plain data.

use pc_types::{Key, Value};

/// The own bytes of a key of space 0, and its value.
pub type Pair = (&'static [u8], &'static [u8]);

fn is_pair(pair: &(Key, Value), wanted: Pair) -> bool {
    pair.0.space() == 0 && pair.0.own_bytes() == wanted.0 && pair.1.as_bytes() == wanted.1
}

/// Whether the pairs are these.
pub fn are_pairs(pairs: &[(Key, Value)], wanted: &[Pair]) -> bool {
    for (i, pair) in pairs.iter().enumerate() {
        match wanted.get(i) {
            Some(wanted) if is_pair(pair, *wanted) => {}
            _ => return false,
        }
    }
    pairs.len() == wanted.len()
}
