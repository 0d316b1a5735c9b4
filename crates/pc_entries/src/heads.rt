//! The head of a key of space 0.
ghost use Rattle.std.specs.Prelude.{◌∷◌};
ghost use Rattle.pc_entries.specs.Lent.{IsHead};

use pc_types::first_eight;

// The head of the key of space 0 with these bytes of its own.
#[inline(always)]
pub(crate) fn head_in_space_0(own: &[u8]) -> u64
    ensures { IsHead (0 ∷ 0 ∷ own.now) result }
{
    first_eight(own) / 2
}
