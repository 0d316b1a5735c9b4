//! Two lists of entries, gone through together.
ghost use Rattle.std.specs.Prelude.{◌≡◌, [], None, true, false, IfSome, IfNone};
ghost use Rattle.pc_taken.specs.Takings.{as_one};
ghost use Rattle.pc_taken.specs.Firsts.{with_held, IsFirst};

use crate::headed::Headed;
use pc_types::{Key, Value};
use std::cmp::Ordering;
use std::collections::{BTreeMap, btree_map};
use std::marker::Model;

/// A key, and its content at the point, borrowed in place.
pub(crate) type LentEntry<'a> = (&'a Key, &'a Option<Value>);

/// The entries to come of two lists, in one order, ascending by key; of two entries of one key the second list's. A contract
/// sees it as one list.
#[derive(Drop)]
pub(crate) struct BothLists<'a> {
    rising: &'a [(Headed, Option<Value>)],
    // The first entry to come of the second list, and those after it.
    other: Option<(&'a Headed, &'a Option<Value>)>,
    others: btree_map::Iter<'a, Headed, Option<Value>>,
}

impl<'a> Model for BothLists<'a> {
    ghost use Rattle.std.specs.Prelude.{List};
    ghost use Rattle.pc_taken.specs.Takings.{Captured, as_one};
    ghost use Rattle.pc_taken.specs.Firsts.{with_held};

    ghost Value = { List Captured };

    ghost view = { λ b. as_one b.rising.now (with_held b.other b.others) };
}

impl<'a> BothLists<'a> {
    /// All of both lists.
    pub(crate) fn new(
        rising: &'a [(Headed, Option<Value>)],
        others: &'a BTreeMap<Headed, Option<Value>>,
    ) -> BothLists<'a>
        ensures { result ≡ as_one rising.now others.now.entries }
    {
        let mut others = others.iter();
        let other = others.next();
        BothLists {
            rising,
            other,
            others,
        }
    }

    /// Takes off the first entry, if there is one.
    #[inline(never)]
    pub(crate) fn draw(&mut self) -> Option<LentEntry<'a>>
        ensures { self.old ≡ with_held result self.new }
    {
        let Some(
            First {
                key,
                content,
                rising,
                is_of_others,
            },
        ) = first_of(self.rising, self.other)
        else {
            return None;
        };
        self.rising = rising;
        if is_of_others {
            self.other = self.others.next();
        }
        Some((key, content))
    }
}

// The first entry of two lists, what comes after it in the first list, and whether it is that of the second one.
#[derive(Drop)]
struct First<'a> {
    key: &'a Key,
    content: &'a Option<Value>,
    rising: &'a [(Headed, Option<Value>)],
    is_of_others: bool,
}

// The first entry of both lists, of the second of which the first one is known; of two of one key that of the second.
fn first_of<'a>(
    rising: &'a [(Headed, Option<Value>)],
    other: Option<(&'a Headed, &'a Option<Value>)>,
) -> Option<First<'a>>
    ensures none { IfNone result ((rising.now ≡ []) × (other.entry ≡ None)) }
    ensures first { IfSome result (λ first. IsFirst rising.now other.entry (first.key.now, first.content.now) first.rising.now first.is_of_others) }
{
    match (rising.split_first(), other) {
        (None, None) => None,
        (Some((one, rest)), None) => Some(of_rising(one, rest)),
        (None, Some((key, content))) => Some(of_others(key, content, rising)),
        (Some((one, rest)), Some((key, content))) => match one.0.compare(key) {
            Ordering::Less => Some(of_rising(one, rest)),
            Ordering::Equal => Some(of_others(key, content, rest)),
            Ordering::Greater => Some(of_others(key, content, rising)),
        },
    }
}

// The first list's entry is the first one.
fn of_rising<'a>(
    one: &'a (Headed, Option<Value>),
    rising: &'a [(Headed, Option<Value>)],
) -> First<'a>
    ensures key { result.key.now ≡ one.now.0 }
    ensures content { result.content.now ≡ one.now.1 }
    ensures rising { result.rising.now ≡ rising.now }
    ensures others { result.is_of_others ≡ false }
{
    First {
        key: one.0.key(),
        content: &one.1,
        rising,
        is_of_others: false,
    }
}

// The second list's entry is the first one.
fn of_others<'a>(
    key: &'a Headed,
    content: &'a Option<Value>,
    rising: &'a [(Headed, Option<Value>)],
) -> First<'a>
    ensures key { result.key.now ≡ key.now }
    ensures content { result.content.now ≡ content.now }
    ensures rising { result.rising.now ≡ rising.now }
    ensures others { result.is_of_others ≡ true }
{
    First {
        key: key.key(),
        content,
        rising,
        is_of_others: true,
    }
}
