//! Ranges of points.
ghost use Rattle.std.specs.Prelude.{◌≡◌, ◌+◌, ◌-◌, ◌≤◌, ◌++◌, IfOk, OnOk};
ghost use Rattle.pc_part.specs.Parts.{bounds_of, last_covered, points_from, points_in};

use pc_types::{MOST_POINTS, Point};
use std::alloc::{AllocError, Global};

/// The points from one to another, both among them.
#[derive(Clone, Copy, Debug, PartialEq, Eq)]
pub struct Range {
    pub low: Point,
    pub high: Point,
}

/// The points of the ranges, in their order. It fails only if an allocation fails.
pub fn points_in(alloc: Global, ranges: &[Range]) -> Result<Vec<Point>, AllocError>
    ensures { IfOk result (λ points. points.items ≡ points_in ranges.now) }
{
    let mut points = Vec::new(alloc);
    for range in ranges {
        push_points(&mut points, number(range.low), number(range.high))?;
    }
    Ok(points)
}

/// The last point, if the ranges are one from 1 on.
pub(crate) fn last_covered(ranges: &[Range]) -> Option<Point>
    ensures { result ≡ last_covered (bounds_of ranges.now) }
{
    match ranges {
        [range] if range.low == Point(1) => Some(range.high),
        _ => None,
    }
}

// The number of a point.
fn number(point: Point) -> u32
    ensures number { result ≡ point }
    ensures limit { result ≤ MOST_POINTS }
{
    u32::from(point.0)
}

// Adds the points from one to another.
fn push_points(points: &mut Vec<Point>, low: u32, high: u32) -> Result<(), AllocError>
    requires { (low ≤ MOST_POINTS) × (high ≤ MOST_POINTS) }
    ensures { OnOk result (points.new.items ≡ points.old.items ++ points_from low (high + 1 - low)) }
{
    let count = if low <= high { high + 1 - low } else { 0 };
    for n in 0..count {
        points.push(Point((low + n) as u16))?;
    }
    Ok(())
}
