//! The tree over places, of which each inner node has the better place of its two children.
ghost use Rattle.std.specs.Prelude.{◌≡◌, ◌≤◌, ◌<◌, ◌*◌, ◌+◌, ℕ, ◌⊎◌, IfOk, MatchBool, length};
ghost use Rattle.pc_merge.specs.Tournaments.{IsNoLater, first_entry_at};
ghost use Rattle.pc_merge.specs.Trees.{AreHeads, AreNodes, HasBetter, HasPlaceBelow, IsHeadAt, IsAncestorOrSelf, IsTournament};

use crate::limits::MOST_INPUTS;
use crate::order::compare;
use pc_entries::EntryText;
use std::alloc::{AllocError, Global};
use std::cmp::Ordering;

// The head of an empty place; no key has a greater one.
pub(crate) const LAST_HEAD: u64 = u64::MAX;

// The first eight bytes of the entry's key as one number.
pub(crate) fn head_at(entry: &Option<EntryText>) -> u64
    ensures { IsHeadAt entry.now result }
{
    match entry {
        Some(entry) => entry.head(),
        None => LAST_HEAD,
    }
}

// A tree over the given number of places, of which each node has the place of its leftmost leaf.
pub(crate) fn leftmost(alloc: Global, places: usize) -> Result<Vec<u32>, AllocError>
    requires { places ≤ MOST_INPUTS }
    ensures { IfOk result (λ tree. AreNodes places tree.items) }
{
    let mut tree = Vec::with_capacity(alloc, 2 * places)?;
    for node in 0..2 * places {
        tree.push(leftmost_place(node, places))?;
    }
    Ok(tree)
}

// Mends the nodes from the leaf of the place to the root, where of all others each has the better place of its two children.
pub(crate) fn mend(tree: &mut [u32], heads: &[u64], firsts: &[Option<EntryText>], place: usize)
    requires few { length firsts.now ≤ MOST_INPUTS }
    requires place { place < length firsts.now }
    requires heads { AreHeads firsts.now heads.now }
    requires nodes { AreNodes (length firsts.now) tree.old }
    requires others { (node : ℕ) → 1 ≤ node → node < length firsts.now → HasBetter firsts.now tree.old node ⊎ IsAncestorOrSelf node (length firsts.now + place) }
    ensures { IsTournament firsts.now tree.new }
{
    let mut node = (firsts.len() + place) / 2;
    while node > 0 {
        let (left, right) = (tree[2 * node], tree[2 * node + 1]);
        tree[node] = better(heads, firsts, left, right);
        node /= 2;
    }
}

// The place of the lesser key, by their heads, or by the whole keys if these are equal; an entry is better than none.
fn better(heads: &[u64], firsts: &[Option<EntryText>], first: u32, second: u32) -> u32
    requires heads { AreHeads firsts.now heads.now }
    requires places { (first < length firsts.now) × (second < length firsts.now) }
    ensures one { (result ≡ first) ⊎ (result ≡ second) }
    ensures left { IsNoLater (first_entry_at firsts.now result) (first_entry_at firsts.now first) }
    ensures right { IsNoLater (first_entry_at firsts.now result) (first_entry_at firsts.now second) }
{
    let (one, other) = (first as usize, second as usize);
    if is_no_later(heads[one], &firsts[one], heads[other], &firsts[other]) {
        first
    } else {
        second
    }
}

// Whether the first comes no later than the other, whose heads are known: as these are if they differ, and otherwise by the
// keys.
fn is_no_later(
    head: u64,
    first: &Option<EntryText>,
    other_head: u64,
    other: &Option<EntryText>,
) -> bool
    requires head { IsHeadAt first.now head }
    requires other_head { IsHeadAt other.now other_head }
    ensures { MatchBool result (IsNoLater first.now other.now) (IsNoLater other.now first.now) }
{
    if head != other_head {
        return head < other_head;
    }
    match (first, other) {
        (Some(one), Some(other)) => compare(one, other).is_le(),
        (first, other) => first.is_some() || other.is_none(),
    }
}

// The place of the leftmost leaf below a node; there is no node 0.
fn leftmost_place(node: usize, places: usize) -> u32
    requires places { places ≤ MOST_INPUTS }
    requires node { node < 2 * places }
    ensures below { 1 ≤ node → HasPlaceBelow places node result }
    ensures own { places ≤ node → places + result ≡ node }
{
    if node == 0 {
        return 0;
    }
    (leaf_below(node, places) - places) as u32
}

// The leftmost leaf below a node, or the node itself if it is a leaf.
fn leaf_below(node: usize, places: usize) -> usize
    requires places { places ≤ MOST_INPUTS }
    requires node { (1 ≤ node) × (node < 2 * places) }
    ensures leaf { (places ≤ result) × (result < 2 * places) }
    ensures over { IsAncestorOrSelf node result }
    ensures own { places ≤ node → result ≡ node }
{
    let mut leaf = node;
    while leaf < places {
        leaf *= 2;
    }
    leaf
}
