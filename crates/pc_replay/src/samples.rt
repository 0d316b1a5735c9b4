//! The place where a key may be among many pairs: a guess by some of their keys, which is tried before all of them are
//! searched.
ghost use Rattle.std.specs.Prelude.{◌≡◌, ℕ, List, slice_index_or, IfOk, IfErr};
ghost use Rattle.pc_model.specs.Database.{KeysRise};
ghost use Rattle.pc_model.specs.Places.{IsAt, IsGap};

use crate::pairs::place;
use pc_types::{Key, Value};
use std::alloc::{AllocError, Global};

// The number of pairs of which one is a sample.
const STEP: usize = 32;

/// The first bytes of some keys of ascending pairs. They lie close together, so that a search by them is quick even if
/// the pairs are many.
#[derive(Drop)]
pub(crate) struct KeySamples {
    firsts: Vec<u64>,
}

impl KeySamples {
    /// Samples of the pairs. It fails only if an allocation fails.
    pub(crate) fn of(alloc: Global, pairs: &[(Key, Value)]) -> Result<KeySamples, AllocError> {
        let mut firsts = Vec::with_capacity(alloc, pairs.len() / STEP + 1)?;
        for block in pairs.chunks(STEP) {
            if let Some(pair) = block.first() {
                firsts.push(first_bytes(&pair.0))?;
            }
        }
        Ok(KeySamples { firsts })
    }

    /// The place of the key's pair, or else the place where one would go, in pairs that ascend strictly by key: the
    /// guessed place if the key is there, else by a search of all pairs.
    pub(crate) fn place(&self, pairs: &[(Key, Value)], key: &Key) -> Result<usize, usize>
        requires { KeysRise pairs.now }
        ensures at { IfOk result (IsAt pairs.now key.now) }
        ensures gap { IfErr result (IsGap pairs.now key.now) }
    {
        let i = self.guess(pairs, key);
        match pairs.get(i) {
            Some(pair) if pair.0.is(key) => Ok(i),
            _ => place(pairs, key),
        }
    }

    // A place where the key's pair may be. Nothing is promised of it.
    fn guess(&self, pairs: &[(Key, Value)], key: &Key) -> usize {
        let first = first_bytes(key);
        let behind = self.firsts.partition_point(|sample| *sample <= first);
        let low = behind
            .saturating_sub(1)
            .saturating_mul(STEP)
            .min(pairs.len());
        let high = low.saturating_add(STEP).min(pairs.len());
        match pairs[low..high].binary_search_by(|pair| pair.0.compare(key)) {
            Ok(i) => low.saturating_add(i),
            Err(_) => pairs.len(),
        }
    }
}

// The first eight bytes of a key as a number, with zeros if it is shorter.
fn first_bytes(key: &Key) -> u64 {
    let mut first = 0u64;
    for i in 0..8 {
        let byte = key.as_bytes().get(i).copied().unwrap_or(0);
        first = (first << 8) | u64::from(byte);
    }
    first
}
