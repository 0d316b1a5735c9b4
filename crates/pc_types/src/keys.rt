//! Keys: a space, and bytes of its own, of which up to 16 lie inline and take no memory.
ghost use Rattle.std.specs.Prelude.{◌≡◌, ◌≤◌, ◌↔◌, length, IsOk, IfErr, IfOk, OnOk};
ghost use Rattle.std.specs.Ordering.{nat_cmp, eq_by_cmp};
ghost use Rattle.std.specs.Cmp.Lexicographic.{slice_cmp};
ghost use Rattle.pc_types.specs.Bytes.{IsBytes};
ghost use Rattle.pc_types.specs.Heads.{head};
ghost use Rattle.pc_types.specs.Keys.{key_of, space_of, own_bytes};
ghost use Rattle.pc_types.specs.Limits.{AreOwnBytes, IsKey};

use crate::heads::head_of;
use crate::limits::{MOST_KEY_BYTES, SPACE_BYTES};
use crate::ordering::order;
use crate::refusal::Refusal;
use smallvec::SmallVec;
use std::alloc::{AllocError, Global};
use std::cmp::Ordering;
use std::hash::{Hash, Hasher};
use std::marker::Model;

// The most bytes of a key with its space's.
const MOST_BYTES: usize = SPACE_BYTES + MOST_KEY_BYTES;

/// A key: a space, which is a number from 0 to 65,535, and 1 to 255 bytes of its own, of which up to 16 lie inline. Keys are
/// ordered by space, and in one space byte by byte, a proper prefix first.
#[derive(Drop)]
pub struct Key {
    // The space's two bytes, the higher one first, and the key's own after them.
    bytes: SmallVec<u8, 18>,
}

impl Model for Key {
    ghost use Rattle.std.specs.Prelude.{ℕ, List};
    ghost use Rattle.std.specs.Coded.{coded_list, coded_ℕ};
    ghost use Rattle.pc_types.specs.Limits.{IsKey};

    ghost Value = { List ℕ };

    ghost coded = { coded_list coded_ℕ };

    ghost view = { λ k. k.bytes.items };

    ghost invariant = { λ k. IsKey k.bytes.items };
}

impl Key {
    /// The key of these bytes in space 0. Returns `KeyLength` if and only if there are none or more than 255; otherwise the only
    /// error is `OutOfMemory`, never for 1 to 16 bytes.
    pub fn new(alloc: Global, own: &[u8]) -> Result<Key, Refusal>
        ensures key { IfOk result (λ key. key ≡ key_of 0 own.now) }
        ensures in_limits { OnOk result (AreOwnBytes own.now) }
        ensures length { (result ≡ Err Refusal.KeyLength) ↔ (¬ AreOwnBytes own.now) }
        ensures memory { AreOwnBytes own.now → IfErr result (λ e. e ≡ Refusal.OutOfMemory) }
        ensures inline { AreOwnBytes own.now → length own.now ≤ 16 → IsOk result }
    {
        Key::in_space(alloc, 0, own)
    }

    /// The key of these bytes in a space. Returns `KeyLength` if and only if there are none or more than 255; otherwise the only
    /// error is `OutOfMemory`, never for 1 to 16 bytes.
    pub fn in_space(alloc: Global, space: u16, own: &[u8]) -> Result<Key, Refusal>
        ensures key { IfOk result (λ key. key ≡ key_of space own.now) }
        ensures in_limits { OnOk result (AreOwnBytes own.now) }
        ensures length { (result ≡ Err Refusal.KeyLength) ↔ (¬ AreOwnBytes own.now) }
        ensures memory { AreOwnBytes own.now → IfErr result (λ e. e ≡ Refusal.OutOfMemory) }
        ensures inline { AreOwnBytes own.now → length own.now ≤ 16 → IsOk result }
    {
        if own.is_empty() || own.len() > MOST_KEY_BYTES {
            return Err(Refusal::KeyLength);
        }
        match joined(alloc, space, own) {
            Ok(bytes) => Ok(Key { bytes }),
            Err(_) => Err(Refusal::OutOfMemory),
        }
    }

    /// The key that is ordered by these bytes, which are given as `as_bytes` gives them. It allocates memory only for more than 16
    /// bytes of its own, and fails only if that allocation fails.
    pub fn of_bytes(alloc: Global, bytes: &[u8]) -> Result<Key, AllocError>
        requires { IsKey bytes.now }
        ensures key { IfOk result (λ key. key ≡ bytes.now) }
        ensures inline { length bytes.now ≤ 18 → IsOk result }
    {
        let bytes = SmallVec::from_slice(alloc, bytes)?;
        Ok(Key { bytes })
    }

    /// Its space.
    pub fn space(&self) -> u16
        ensures { result ≡ space_of self.now }
    {
        let bytes = self.as_bytes();
        u16::from_be_bytes([bytes[0], bytes[1]])
    }

    /// The bytes of its own, 1 to 255.
    pub fn own_bytes(&self) -> &[u8]
        ensures bytes { result.now ≡ own_bytes self.now }
        ensures in_limits { AreOwnBytes result.now }
    {
        &self.as_bytes()[SPACE_BYTES..]
    }

    /// The bytes by which it is ordered, 3 to 257: its space's two, the higher one first, and its own after them.
    pub fn as_bytes(&self) -> &[u8]
        ensures bytes { result.now ≡ self.now }
        ensures in_limits { IsKey self.now }
    {
        self.bytes.as_slice()
    }

    /// The order of the keys.
    pub fn compare(&self, other: &Key) -> Ordering
        ensures { result ≡ slice_cmp nat_cmp self.now other.now }
    {
        order(self.as_bytes(), other.as_bytes())
    }

    /// Its space and the first of its own bytes as one number: in space 0 their first 63 bits, with zeros after a shorter key; in
    /// another one the highest bit, the space, and their first 47 bits. Keys whose heads differ are ordered as their heads are; of
    /// keys that have one head nothing is said.
    pub fn head(&self) -> u64
        ensures head { result ≡ head self.now }
        ensures bytes { IsBytes self.now }
    {
        head_of(self.as_bytes())
    }

    /// Whether the keys are the same.
    pub fn is(&self, other: &Key) -> bool
        ensures { result ≡ eq_by_cmp (slice_cmp nat_cmp) self.now other.now }
    {
        self.as_bytes() == other.as_bytes()
    }

    /// A copy of the key. It allocates memory only for more than 16 bytes.
    pub fn copy(&self, alloc: Global) -> Result<Key, AllocError>
        ensures copy { IfOk result (λ key. key ≡ self.now) }
        ensures inline { length self.now ≤ 18 → IsOk result }
    {
        let bytes = SmallVec::from_slice(alloc, self.as_bytes())?;
        Ok(Key { bytes })
    }
}

// The space's two bytes, the higher one first, and these after them. It allocates memory only for more than 16 of these.
fn joined(alloc: Global, space: u16, own: &[u8]) -> Result<SmallVec<u8, 18>, AllocError>
    requires { length own.now ≤ MOST_KEY_BYTES }
    ensures joined { IfOk result (λ bytes. bytes.items ≡ key_of space own.now) }
    ensures inline { length own.now ≤ 16 → IsOk result }
{
    let mut bytes = [0u8; MOST_BYTES];
    let [high, low] = space.to_be_bytes();
    bytes[0] = high;
    bytes[1] = low;
    let len = SPACE_BYTES + own.len();
    bytes[SPACE_BYTES..len].copy_from_slice(own);
    SmallVec::from_slice(alloc, &bytes[..len])
}

impl PartialEq for Key {
    ghost use Rattle.std.specs.Ordering.{nat_cmp, eq_by_cmp};
    ghost use Rattle.std.specs.Cmp.{partial_equiv_from_equiv, eq_by_cmp_equiv};
    ghost use Rattle.std.specs.Cmp.Lexicographic.{slice_cmp, nat_list_cmp_total};

    ghost eq = { eq_by_cmp (slice_cmp nat_cmp) };

    ghost laws = { partial_equiv_from_equiv (eq_by_cmp_equiv nat_list_cmp_total) };

    fn eq(&self, other: &Key) -> bool {
        self.is(other)
    }
}

impl Eq for Key {
    ghost use Rattle.std.specs.Cmp.{eq_by_cmp_equiv};
    ghost use Rattle.std.specs.Cmp.Lexicographic.{nat_list_cmp_total};

    ghost laws = { eq_by_cmp_equiv nat_list_cmp_total };
}

impl Hash for Key {
    ghost use Rattle.std.specs.Prelude.{[], ◌∷◌};
    ghost use Rattle.pc_types.specs.KeyHashes.{same_input};

    ghost hash_input = { λ key. key ∷ [] };

    ghost respects_eq = { same_input };

    fn hash<H: Hasher>(&self, state: &mut H) {
        state.write(self.as_bytes());
    }
}

impl PartialOrd for Key {
    ghost use Rattle.std.specs.Ordering.{nat_cmp, as_partial_cmp};
    ghost use Rattle.std.specs.Cmp.{partial_order_from_total};
    ghost use Rattle.std.specs.Cmp.Lexicographic.{slice_cmp, nat_list_cmp_total};

    ghost partial_cmp = { as_partial_cmp (slice_cmp nat_cmp) };

    ghost laws = { partial_order_from_total nat_list_cmp_total };

    fn partial_cmp(&self, other: &Key) -> Option<Ordering> {
        Some(self.compare(other))
    }
}

impl Ord for Key {
    ghost use Rattle.std.specs.Prelude.{refl};
    ghost use Rattle.std.specs.Ordering.{nat_cmp};
    ghost use Rattle.std.specs.Cmp.Lexicographic.{slice_cmp, nat_list_cmp_total};

    ghost cmp = { slice_cmp nat_cmp };

    ghost total = { nat_list_cmp_total };

    ghost matches_partial_cmp = { λ a b. refl };

    ghost matches_eq = { λ a b. refl };

    fn cmp(&self, other: &Key) -> Ordering {
        self.compare(other)
    }
}
