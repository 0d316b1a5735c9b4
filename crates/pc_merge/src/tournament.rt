//! A tournament of places: of the entries at them the one with the least key is known.
ghost use Rattle.std.specs.Prelude.{◌≡◌, ◌≤◌, ◌<◌, None, IfOk, IfSome, IfNone, length, option_map, replicate, slice_set};
ghost use Rattle.pc_merge.specs.Tournaments.{HasNoEntries, IsLeast, first_entry_at};

use crate::limits::MOST_INPUTS;
use crate::tree::{LAST_HEAD, head_at, leftmost, mend};
use pc_entries::EntryText;
use std::alloc::{AllocError, Global};
use std::marker::Model;
use std::mem;

/// Places, each with an entry or none. A contract sees the entries. Of all entries that of the least key is found in constant time;
/// a change at one place costs a comparison for each doubling of their number.
#[derive(Drop)]
pub(crate) struct Tournament {
    firsts: Vec<Option<EntryText>>,
    // The first eight bytes of each key as one number: two that differ decide.
    heads: Vec<u64>,
    // Each node of the tree has a place. Node 1 is the root, the children of a node have twice its number and one more, and the
    // leaves, one for each place, have the numbers after those of all inner nodes. An inner node has the better of its children's.
    tree: Vec<u32>,
}

impl Model for Tournament {
    ghost use Rattle.std.specs.Prelude.{List, Option, ◌≤◌, length};
    ghost use Rattle.pc_types.specs.declared.Triple.{Triple};
    ghost use Rattle.pc_merge.specs.Trees.{AreKept};

    ghost Value = { List (Option Triple) };

    ghost view = { λ t. t.firsts.items };

    ghost invariant = { λ t. AreKept t.firsts.items t.heads.items t.tree.items };
}

impl Tournament {
    /// The given number of empty places, at most `MOST_INPUTS`. It makes all room, and fails only if an allocation fails.
    pub(crate) fn new(alloc: Global, places: usize) -> Result<Tournament, AllocError>
        requires { places ≤ MOST_INPUTS }
        ensures { IfOk result (λ all. all ≡ replicate places None) }
    {
        Ok(Tournament {
            firsts: empty_places(alloc, places)?,
            heads: vec![in alloc; LAST_HEAD; places]?,
            tree: leftmost(alloc, places)?,
        })
    }

    /// The place of the least key, if there is an entry at any.
    pub(crate) fn least(&self) -> Option<usize>
        ensures none { IfNone result (HasNoEntries self.now) }
        ensures least { IfSome result (IsLeast self.now) }
    {
        if self.firsts.is_empty() {
            return None;
        }
        let place = self.tree[1] as usize;
        match &self.firsts[place] {
            Some(_) => Some(place),
            None => None,
        }
    }

    /// The entry at the place, if any.
    pub(crate) fn standing(&self, place: usize) -> Option<&EntryText>
        requires { place < length self.now }
        ensures { option_map (λ entry. entry.now) result ≡ first_entry_at self.now place }
    {
        self.firsts[place].as_ref()
    }

    /// Puts another entry, or none, at the place, and returns the previous one.
    #[inline(always)]
    pub(crate) fn replace(&mut self, place: usize, entry: Option<EntryText>) -> Option<EntryText>
        requires { place < length self.old }
        ensures given { result ≡ first_entry_at self.old place }
        ensures placed { self.new ≡ slice_set self.old place entry }
    {
        self.heads[place] = head_at(&entry);
        let before = mem::replace(&mut self.firsts[place], entry);
        mend(&mut self.tree, &self.heads, &self.firsts, place);
        before
    }
}

// The given number of empty places.
fn empty_places(alloc: Global, places: usize) -> Result<Vec<Option<EntryText>>, AllocError>
    ensures { IfOk result (λ all. all.items ≡ replicate places None) }
{
    let mut all = Vec::with_capacity(alloc, places)?;
    for _ in 0..places {
        all.push(None)?;
    }
    Ok(all)
}
