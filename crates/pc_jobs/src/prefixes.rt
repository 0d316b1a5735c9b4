//! The prefix of the keys of a fill.
ghost use Rattle.std.specs.Prelude.{◌≡◌, ◌<◌, ◌+◌, ◌++◌, length, IfOk, IfErr, if◌then◌else◌, Some, None};
ghost use Rattle.pc_types.specs.declared.limits.TheConstants.{SPACE_BYTES};
ghost use Rattle.pc_types.specs.Keys.{key_of};
ghost use Rattle.pc_jobs.specs.Prefixes.{is_prefix, digit, six_digits, IsPrefix};

use arrayvec::ArrayVec;
use pc_types::{Key, MOST_KEY_BYTES, Refusal};
use std::alloc::Global;
use std::marker::Model;

// How many digits come after a prefix.
const DIGITS: usize = 6;

/// The prefix of the keys of a fill: a space, and 0 to 249 bytes, so that a key has room for six digits after them. Contracts
/// see the space's two bytes, the higher one first, and the others after them.
#[derive(Drop)]
pub struct Prefix {
    space: u16,
    own: Vec<u8>,
}

impl Model for Prefix {
    ghost use Rattle.std.specs.Prelude.{ℕ, List};
    ghost use Rattle.pc_types.specs.Keys.{key_of};
    ghost use Rattle.pc_jobs.specs.Prefixes.{IsPrefix};

    ghost Value = { List ℕ };

    ghost view = { λ p. key_of p.space p.own.items };

    ghost invariant = { λ p. IsPrefix (key_of p.space p.own.items) };
}

impl Prefix {
    /// The prefix of this space and these bytes, or nothing if there are more than 249.
    pub fn new(space: u16, own: Vec<u8>) -> Option<Prefix>
        ensures { result ≡ (if is_prefix (key_of space own.items) then Some (key_of space own.items) else None) }
    {
        if own.len() <= MOST_KEY_BYTES - DIGITS {
            Some(Prefix { space, own })
        } else {
            None
        }
    }

    /// The key of this prefix with the last six decimal digits of the number after it. Refuses only with `OutOfMemory`, and only
    /// if the key has more than 16 bytes of its own: a shorter one takes no memory.
    pub fn key(&self, alloc: Global, number: u32) -> Result<Key, Refusal>
        ensures key { IfOk result (λ key. key ≡ self.now ++ six_digits number) }
        ensures refusals { IfErr result (λ e. (e ≡ Refusal.OutOfMemory) × (SPACE_BYTES + 16 < length (self.now ++ six_digits number))) }
    {
        let mut own = ArrayVec::<u8, MOST_KEY_BYTES>::new();
        own.try_extend_from_slice(&self.own).unwrap();
        own.try_extend_from_slice(&six_digits(number)).unwrap();
        Key::in_space(alloc, self.space, own.as_slice())
    }
}

// The last six decimal digits of the number, as bytes.
fn six_digits(number: u32) -> [u8; DIGITS]
    ensures { result ≡ six_digits number }
{
    [
        digit(number / 100_000),
        digit(number / 10_000),
        digit(number / 1_000),
        digit(number / 100),
        digit(number / 10),
        digit(number),
    ]
}

// The byte of the last decimal digit.
fn digit(number: u32) -> u8
    ensures { result ≡ digit number }
{
    b'0' + (number % 10) as u8
}
