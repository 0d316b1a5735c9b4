//! A pass over what was taken of a point.
ghost use Rattle.std.specs.Prelude.{◌≡◌, length, map, option_copied, slice_get};
ghost use Rattle.std.specs.Iterator.{YieldsFirst, item_count};
ghost use Rattle.std.specs.Option.{option_map};
ghost use Rattle.pc_model.specs.TripleLists.{triple_at};
ghost use Rattle.pc_taken.specs.Takings.{as_one};

use crate::both_lists::{BothLists, LentEntry};
use crate::headed::Headed;
use crate::lent::LentTriple;
use pc_types::{Key, Point, Value};
use std::collections::BTreeMap;
use std::marker::Model;

/// The entries of two lists as triples of one point, in order, ascending by key. A contract sees those to come.
#[derive(Drop)]
pub(crate) struct TakenPass<'a> {
    point: Point,
    // The first entry to come, and those after it.
    first: Option<LentEntry<'a>>,
    behind: BothLists<'a>,
    // The number of items to come.
    left: usize,
}

impl<'a> Model for TakenPass<'a> {
    ghost use Rattle.std.specs.Prelude.{◌≡◌, List, length, map};
    ghost use Rattle.pc_types.specs.declared.Triple.{Triple};
    ghost use Rattle.pc_model.specs.TripleLists.{triple_at};
    ghost use Rattle.pc_taken.specs.Firsts.{with_held};

    ghost Value = { List Triple };

    ghost view = { λ p. map (triple_at p.point) (with_held p.first p.behind) };

    ghost invariant = { λ p. p.left ≡ length (with_held p.first p.behind) };
}

impl<'a> TakenPass<'a> {
    /// The entries of both lists, whose number is given.
    pub(crate) fn new(
        point: Point,
        rising: &'a [(Headed, Option<Value>)],
        others: &'a BTreeMap<Headed, Option<Value>>,
        left: usize,
    ) -> TakenPass<'a>
        requires { left ≡ length (as_one rising.now others.now.entries) }
        ensures { result ≡ map (triple_at point) (as_one rising.now others.now.entries) }
    {
        let mut behind = BothLists::new(rising, others);
        let first = behind.draw();
        TakenPass {
            point,
            first,
            behind,
            left,
        }
    }

    /// The first one to come, which stays.
    #[inline(always)]
    pub(crate) fn first(&self) -> Option<LentTriple<'a>>
        ensures { result ≡ slice_get self.now 0 }
    {
        match self.first {
            Some((key, content)) => Some(triple_of(self.point, key, content)),
            None => None,
        }
    }

    /// The key of the first one to come, which stays.
    #[inline(always)]
    pub(crate) fn key(&self) -> Option<&'a Key>
        ensures { option_copied result ≡ option_map (λ triple. triple.key) (slice_get self.now 0) }
    {
        match self.first {
            Some((key, _)) => Some(key),
            None => None,
        }
    }

    /// The number of items to come.
    pub(crate) fn len(&self) -> usize
        ensures { result ≡ length self.now }
    {
        self.left
    }
}

impl<'a> Iterator for TakenPass<'a> {
    type Item = LentTriple<'a>;

    ghost next_gives = { YieldsFirst (λ s. s) };

    ghost remaining = { item_count (λ s. s) };

    #[inline(always)]
    fn next(&mut self) -> Option<LentTriple<'a>> {
        let Some((key, content)) = self.first else {
            return None;
        };
        self.first = self.behind.draw();
        self.left -= 1;
        Some(triple_of(self.point, key, content))
    }

    fn size_hint(&self) -> (usize, Option<usize>) {
        (self.left, Some(self.left))
    }
}

// The entry as a triple of the point.
#[inline(always)]
fn triple_of<'a>(point: Point, key: &'a Key, content: &'a Option<Value>) -> LentTriple<'a>
    ensures { result ≡ triple_at point (key.now, content.now) }
{
    LentTriple {
        key,
        point,
        content,
    }
}
