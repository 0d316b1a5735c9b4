//! The union of two parts' points.
ghost use Rattle.std.specs.Prelude.{◌≡◌, ◌+◌, max, nat_le, IfOk, OnOk};
ghost use Rattle.pc_model.specs.Sets as set;
ghost use Rattle.pc_part.specs.Parts.{AreRanges, points_of};
ghost use Rattle.pc_part.specs.Unions.{meets, with_range_after};

use crate::ranges::Range;
use itertools::Itertools;
use std::alloc::{AllocError, Global};

/// The ranges of the points that are in either list. It fails only if an allocation fails.
pub fn union_ranges(alloc: Global, a: &[Range], b: &[Range]) -> Result<Vec<Range>, AllocError>
    requires left { AreRanges a.now }
    requires right { AreRanges b.now }
    ensures apart { IfOk result (λ out. AreRanges out.items) }
    ensures union { IfOk result (λ out. points_of out.items ≡ set.union (points_of a.now) (points_of b.now)) }
{
    let mut out = Vec::new(alloc);
    for range in a.iter().merge_by(b.iter(), |x, y| x.low.0 <= y.low.0) {
        add_range(&mut out, *range)?;
    }
    Ok(out)
}

// Adds the range after the others; if no point is left out before it, the last one is widened by it instead.
fn add_range(ranges: &mut Vec<Range>, range: Range) -> Result<(), AllocError>
    ensures { OnOk result (ranges.new.items ≡ with_range_after ranges.old.items range) }
{
    let Some(last) = ranges.pop() else {
        ranges.push(range)?;
        return Ok(());
    };
    if meets(&last, &range) {
        ranges.push(widened(&last, &range))?;
    } else {
        ranges.push(last)?;
        ranges.push(range)?;
    }
    Ok(())
}

// Whether no point is left out between the first range and the next one.
fn meets(last: &Range, next: &Range) -> bool
    ensures { result ≡ meets last.now next.now }
{
    u32::from(next.low.0) <= u32::from(last.high.0) + 1
}

// The range up to the greater end.
fn widened(last: &Range, next: &Range) -> Range
    ensures low { result.low ≡ last.now.low }
    ensures high { result.high ≡ max last.now.high next.now.high }
{
    let high = if last.high.0 < next.high.0 {
        next.high
    } else {
        last.high
    };
    Range {
        low: last.low,
        high,
    }
}
