//! The order of entries by their keys.
ghost use Rattle.std.specs.Prelude.{◌≡◌};
ghost use Rattle.std.specs.Ordering.{is_lt};
ghost use Rattle.pc_model.specs.Database.{key_cmp, same_bytes};

use pc_entries::EntryText;
use std::cmp::Ordering;

// The order of the entries' keys.
pub(crate) fn compare(one: &EntryText, other: &EntryText) -> Ordering
    ensures { result ≡ key_cmp one.now.key other.now.key }
{
    one.key().cmp(&other.key())
}

// Whether the key of the one entry is less than that of the other: as their heads are if they differ, and otherwise by the
// keys.
#[inline(always)]
#[tactic(auto, using(pc_entries::proofs::LentLaws::heads_tell))]
pub(crate) fn precedes(one: &EntryText, other: &EntryText) -> bool
    ensures { result ≡ is_lt (key_cmp one.now.key other.now.key) }
{
    let (head, other_head) = (one.head(), other.head());
    if head != other_head {
        return head < other_head;
    }
    compare(one, other).is_lt()
}

// Whether the bytes are the same.
pub(crate) fn are_same(one: &[u8], other: &[u8]) -> bool
    ensures { result ≡ same_bytes one.now other.now }
{
    one == other
}
