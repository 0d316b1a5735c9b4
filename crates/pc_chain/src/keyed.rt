//! Records that have a key.
ghost use Rattle.std.specs.Prelude.{◌≡◌, ℕ, List, IfOk};

use pc_types::Key;
use std::alloc::{AllocError, Global};

/// A record that has a key.
pub trait Keyed: Drop {
    /// Its key.
    ghost key_of: { Self → List ℕ };

    /// The record of a key that has nothing else yet.
    ghost blank_of: { List ℕ → Self };

    /// Its key.
    fn key(&self) -> &Key
        ensures { result.now ≡ key_of self.now };

    /// The record of the key that has nothing else yet. It fails only if an allocation fails.
    fn blank(alloc: Global, key: &Key) -> Result<Self, AllocError>
        ensures { IfOk result (λ made. made ≡ blank_of key.now) };

    /// A blank record has the key that it is of.
    ghost blank_key: { (key : List ℕ) → key_of (blank_of key) ≡ key };
}
