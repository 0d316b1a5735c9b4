//! Two passes over ascending entries, gone through together. Each step is a few instructions, which go into the loop.
ghost use Rattle.std.specs.Prelude.{◌≡◌, ◌++◌, slice_get, OnOk, if◌then◌else◌};
ghost use Rattle.std.specs.Option.{option_to_list};
ghost use Rattle.pc_model.specs.Files.{same_content};
ghost use Rattle.pc_taken.specs.Sides.{first_behind, next_merged, second_behind, least_side, clash};

use crate::pass::Pass;
use pc_types::{Triple, Value};
use std::alloc::{AllocError, Global};
use std::cmp::Ordering;

/// The one of two passes that has the least key next: one of them, or both.
#[derive(Clone, Copy)]
pub enum Side {
    First,
    Second,
    Both,
}

/// The pass that has the least key next, if any is to come.
#[inline(always)]
pub fn side_of(first: &Pass, second: &Pass) -> Option<Side>
    ensures { result ≡ least_side first.now second.now }
{
    match (first.key(), second.key()) {
        (None, None) => None,
        (Some(_), None) => Some(Side::First),
        (None, Some(_)) => Some(Side::Second),
        (Some(one), Some(other)) => match one.compare(other) {
            Ordering::Less => Some(Side::First),
            Ordering::Equal => Some(Side::Both),
            Ordering::Greater => Some(Side::Second),
        },
    }
}

/// Goes on after the least key.
#[inline(always)]
pub fn go_on(side: Side, first: &mut Pass, second: &mut Pass)
    ensures first { first.new ≡ first_behind side first.old }
    ensures second { second.new ≡ second_behind side second.old }
{
    if let Side::First | Side::Both = side {
        let _passed = first.next();
    }
    if let Side::Second | Side::Both = side {
        let _passed = second.next();
    }
}

/// Whether the least key has in both the same point and different contents.
#[inline(always)]
pub fn clashes(side: Side, first: &Pass, second: &Pass) -> bool
    ensures { result ≡ clash side (slice_get first.now 0) (slice_get second.now 0) }
{
    let Side::Both = side else {
        return false;
    };
    match (first.first(), second.first()) {
        (Some(a), Some(b)) => a.point == b.point && !is_same(a.content, b.content),
        _ => false,
    }
}

// Whether the contents are the same.
fn is_same(a: &Option<Value>, b: &Option<Value>) -> bool
    ensures { result ≡ same_content a.now b.now }
{
    match (a, b) {
        (None, None) => true,
        (Some(v), Some(w)) => v.is(w),
        _ => false,
    }
}

/// Adds a copy of the triple of the least key; of two of it that of the greater point.
#[inline(always)]
pub fn push_newest(
    alloc: Global,
    out: &mut Vec<Triple>,
    side: Side,
    first: &Pass,
    second: &Pass,
) -> Result<(), AllocError>
    ensures { OnOk result (out.new.items ≡ out.old.items ++ option_to_list (next_merged side (slice_get first.now 0) (slice_get second.now 0))) }
{
    if is_newer_in_first(side, first, second) {
        first.push_first(alloc, out)
    } else {
        second.push_first(alloc, out)
    }
}

// Whether the triple of the least key, or of two of it that of the greater point, is the first pass's.
#[inline(always)]
fn is_newer_in_first(side: Side, first: &Pass, second: &Pass) -> bool
    ensures { next_merged side (slice_get first.now 0) (slice_get second.now 0) ≡ (if result then slice_get first.now 0 else slice_get second.now 0) }
{
    match side {
        Side::First => true,
        Side::Second => false,
        Side::Both => match (first.first(), second.first()) {
            (Some(a), Some(b)) => b.point.0 <= a.point.0,
            (one, _) => one.is_some(),
        },
    }
}
