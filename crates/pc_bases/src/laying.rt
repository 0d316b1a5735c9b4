//! Laying a part on a base.
ghost use Rattle.std.specs.Prelude.{◌≡◌, ◌+◌, ◌≤◌, ◌++◌, [], ◌∷◌, length, max, option_copied, IfOk, OnOk, Some};
ghost use Rattle.itertools.specs.EitherOrBoth.{map_any};
ghost use Rattle.pc_model.specs.Database.{KeysRise, database_of};
ghost use Rattle.pc_model.specs.LaidFiles.{gap_above, greatest, laid_file};
ghost use Rattle.pc_model.specs.TripleLists.{entry_of, map_entries, triples_of};
ghost use Rattle.pc_model.specs.Points.{laid, laid_at};
ghost use Rattle.pc_part.specs.Parts.{IsWithinLimit, AreRanges, points_of};
ghost use Rattle.pc_part.specs.Joins.{first_cause, IsRefusedBy};
ghost use Rattle.pc_bases.specs.Layings.{laid_there, lay_causes, limit_causes};
ghost use Rattle.pc_model.specs.Merges.{merged, with_content, with_item};

use crate::base::Base;
use itertools::{EitherOrBoth, Itertools};
use pc_part::{Part, Range};
use pc_taken::{Entries, LentTriple};
use pc_types::{Key, MOST_FILE_ENTRIES, Point, Refusal, Value};
use std::alloc::{AllocError, Global};

/// The base with a part of its run applied to it: each key whose entry has a point above the base's is set to the
/// entry's value or, at a tombstone, removed; the others stay. It is then at the part's greatest point, or stays at its
/// own if that is greater. Both stay as they are. Of several refusals the first counts:
///
/// - `OtherRun` if and only if both are of two runs;
/// - `Gap(p)` if and only if p is the least point above the base's, and up to the part's greatest, which the part
///   doesn't cover;
/// - `Full` if and only if more than 4,294,967,295 pairs would be left;
/// - `OutOfMemory` only if an allocation failed.
pub fn lay(alloc: Global, base: &Base, part: &Part) -> Result<Base, Refusal>
    ensures laid { IfOk result (λ laid. laid ≡ laid_file base.now part.now) }
    ensures refused { IsRefusedBy (first_cause (lay_causes base.now part.now)) result }
{
    if base.run() != part.run() {
        return Err(Refusal::OtherRun);
    }
    if let Some(gap) = first_gap(base.point(), part.ranges()) {
        return Err(Refusal::Gap(gap));
    }
    let pairs = lay_entries(alloc, base.point(), base.pairs(), part.kept())?;
    let point = greater(base.point(), last_point(part.ranges()));
    Ok(Base::at_point(base.run(), point, pairs))
}

// The greater of two points.
fn greater(a: Point, b: Point) -> Point
    ensures { result ≡ max a b }
{
    if a.0 < b.0 { b } else { a }
}

// The pairs of the database once the triples are applied to it at the point, if they are not too many.
fn lay_entries<'a>(
    alloc: Global,
    point: Point,
    pairs: &'a [(Key, Value)],
    triples: &'a Entries,
) -> Result<Vec<(Key, Value)>, Refusal>
    requires pairs { KeysRise pairs.now }
    requires triples { KeysRise (map_entries triples.now) }
    requires limit { IsWithinLimit triples.now }
    ensures rise { IfOk result (λ out. KeysRise out.items) }
    ensures limit { IfOk result (λ out. IsWithinLimit out.items) }
    ensures laid { IfOk result (λ out. database_of out.items ≡ laid (database_of pairs.now) point (triples_of triples.now)) }
    ensures refused { IsRefusedBy (first_cause (limit_causes (database_of pairs.now) point (triples_of triples.now))) result }
{
    if laid_len(point, pairs, triples) > MOST_FILE_ENTRIES {
        return Err(Refusal::Full);
    }
    let out = lay_in_order(alloc, point, pairs, triples)?;
    Ok(out)
}

// How many pairs are left once the triples are applied to the pairs.
fn laid_len(point: Point, pairs: &[(Key, Value)], triples: &Entries) -> usize
    requires { IsWithinLimit triples.now }
    ensures { result ≡ length (merged (laid_there point) pairs.now (map_entries triples.now)) }
{
    let mut len = 0usize;
    for item in pairs
        .iter()
        .merge_join_by(triples.pass(), |pair, triple| pair.0.compare(triple.key))
    {
        let (_key, content) = laid_item(point, item);
        if content.is_some() {
            len += 1;
        }
    }
    len
}

// The pairs that are left once the triples are applied to the pairs.
fn lay_in_order(
    alloc: Global,
    point: Point,
    pairs: &[(Key, Value)],
    triples: &Entries,
) -> Result<Vec<(Key, Value)>, AllocError>
    ensures { IfOk result (λ out. out.items ≡ merged (laid_there point) pairs.now (map_entries triples.now)) }
{
    let mut out = Vec::new(alloc);
    for item in pairs
        .iter()
        .merge_join_by(triples.pass(), |pair, triple| pair.0.compare(triple.key))
    {
        let (key, content) = laid_item(point, item);
        push_copy(alloc, &mut out, key, content)?;
    }
    Ok(out)
}

// Adds a copy of the key and what it has, if anything.
fn push_copy(
    alloc: Global,
    out: &mut Vec<(Key, Value)>,
    key: &Key,
    content: Option<&Value>,
) -> Result<(), AllocError>
    ensures { OnOk result (out.new.items ≡ out.old.items ++ with_content key.now (option_copied content.entry) []) }
{
    if let Some(value) = content {
        out.push((key.copy(alloc)?, value.copy(alloc)?))?;
    }
    Ok(())
}

// The key of a pair, a triple or both, and what it has once the triple is laid.
fn laid_item<'a>(
    point: Point,
    item: EitherOrBoth<&'a (Key, Value), LentTriple<'a>>,
) -> (&'a Key, Option<&'a Value>)
    ensures { with_item (laid_there point) (map_any (λ pair. pair.now) entry_of item.entry) [] ≡ with_content result.0.now (option_copied result.1) [] }
{
    match item {
        EitherOrBoth::Left(pair) => (&pair.0, Some(&pair.1)),
        EitherOrBoth::Right(triple) => (triple.key, content_of(point, None, triple)),
        EitherOrBoth::Both(pair, triple) => { (&pair.0, content_of(point, Some(&pair.1), triple)) }
    }
}

// The content of a triple's key once the triple is applied, at the point, to the content before.
fn content_of<'a>(
    point: Point,
    there: Option<&'a Value>,
    triple: LentTriple<'a>,
) -> Option<&'a Value>
    ensures { option_copied result ≡ laid_there point (option_copied there.entry) (Some (entry_of triple.entry).1) }
{
    if point.0 < triple.point.0 {
        triple.content.as_ref()
    } else {
        there
    }
}

// The least point above this one, and up to the greatest of the ranges, that is in none of them.
fn first_gap(point: Point, ranges: &[Range]) -> Option<Point>
    requires { AreRanges ranges.now }
    ensures { result ≡ gap_above point (points_of ranges.now) }
{
    let mut next = u32::from(point.0) + 1;
    for range in ranges {
        if next < u32::from(range.low.0) {
            return Some(Point(next as u16));
        }
        next = next.max(u32::from(range.high.0) + 1);
    }
    None
}

// The greatest point of the ranges.
fn last_point(ranges: &[Range]) -> Point
    requires { AreRanges ranges.now }
    ensures { result ≡ greatest (points_of ranges.now) }
{
    match ranges.last() {
        Some(range) => range.high,
        None => Point(0),
    }
}
