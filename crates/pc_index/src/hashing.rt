//! The hash of a key.
ghost use Rattle.std.specs.Prelude.{◌≡◌};
ghost use Rattle.pc_index.specs.Hashes.{key_hash};

use pc_types::Key;
use std::hash::{BuildHasher, Hasher, RandomState};

/// The hash of the key under the seed.
#[tactic(auto, unfolding(crate::specs::Hashes::key_hash))]
pub(crate) fn hash_of(seed: &RandomState, key: &Key) -> u64
    ensures { result ≡ key_hash seed.now key.now }
{
    let mut state = seed.build_hasher();
    state.write(key.as_bytes());
    state.finish()
}
