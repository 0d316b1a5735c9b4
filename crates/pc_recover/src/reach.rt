//! How far files reach from a base.
ghost use Rattle.std.specs.Prelude.{◌≡◌, ℕ, ◌≤◌, length, nat_le, None, ◌&&◌, IfOk, IsTrue, if◌then◌else◌};
ghost use Rattle.pc_model.specs.LaidFiles.{greatest};
ghost use Rattle.pc_recover.specs.Recovery.{read_files};
ghost use Rattle.pc_recover.specs.Reach.{AreTops, HasFreePoints, IsReach, lesser_point, top_with_file, top_at};

use crate::candidates::Candidate;
use pc_part::{Part, Range};
use pc_types::{MOST_POINTS, Point};
use std::alloc::{AllocError, Global};

/// A place for each point, and one for the start.
pub(crate) const PLACES: usize = MOST_POINTS as usize + 1;

/// How far files reach from a base.
#[derive(Clone, Copy, Debug, PartialEq, Eq)]
pub(crate) struct Reach {
    /// The recovered point: the greatest one for which the files without a point above it cover all points from the base's on; the
    /// base's if there is none.
    pub(crate) point: Point,
    /// The least point above the base's that no file covers.
    pub(crate) missing: Option<Point>,
}

/// How far the files that were read reach from the base's point. It takes a step for each point of each file and one for each of
/// the 65,535 points, and memory for as many numbers. Its only error is a failed allocation.
pub(crate) fn reach_from(
    alloc: Global,
    base: Point,
    files: &[Candidate],
) -> Result<Reach, AllocError>
    ensures { IfOk result (IsReach base (read_files files.now)) }
{
    let tops = least_tops(alloc, files)?;
    let mut point = base;
    // The greatest of the tops so far: the files up to it are those that cover all points so far.
    let mut needed = 0u16;
    for below in base.0..MOST_POINTS {
        let next = Point(below + 1);
        let Some(top) = tops[usize::from(next.0)] else {
            let missing = Some(next);
            return Ok(Reach { point, missing });
        };
        needed = needed.max(top.0);
        if needed <= next.0 {
            point = next;
        }
    }
    Ok(Reach {
        point,
        missing: None,
    })
}

// Of each point, at its place, the least greatest point of the files that cover it.
fn least_tops(alloc: Global, files: &[Candidate]) -> Result<Vec<Option<Point>>, AllocError>
    ensures len { IfOk result (λ tops. length tops.items ≡ PLACES) }
    ensures tops { IfOk result (λ tops. AreTops tops.items (read_files files.now)) }
{
    let mut tops = no_tops(alloc, PLACES)?;
    for file in files {
        if let Ok(part) = file {
            note_part(&mut tops, part);
        }
    }
    Ok(tops)
}

/// This many places with nothing noted.
pub(crate) fn no_tops(alloc: Global, places: usize) -> Result<Vec<Option<Point>>, AllocError>
    ensures len { IfOk result (λ tops. length tops.items ≡ places) }
    ensures none { IfOk result (λ tops. (point : ℕ) → top_at tops.items point ≡ None) }
{
    let tops = vec![in alloc; None; places]?;
    Ok(tops)
}

/// Notes the part's greatest point at its points.
pub(crate) fn note_part(tops: &mut [Option<Point>], part: &Part)
    requires { length tops.old ≡ PLACES }
    ensures len { length tops.new ≡ PLACES }
    ensures tops { (point : ℕ) → point ≤ MOST_POINTS → top_at tops.new point ≡ top_with_file point (top_at tops.old point) part.now }
{
    let top = greatest_point(part);
    for range in part.ranges() {
        note_range(tops, *range, top);
    }
}

// Notes the greatest point at the points of the range.
fn note_range(tops: &mut [Option<Point>], range: Range, top: Point)
    requires { length tops.old ≡ PLACES }
    ensures len { length tops.new ≡ PLACES }
    ensures tops { (point : ℕ) → point ≤ MOST_POINTS → top_at tops.new point ≡ (if nat_le range.low point && nat_le point range.high then lesser_point (top_at tops.old point) top else top_at tops.old point) }
{
    for place in usize::from(range.low.0)..usize::from(range.high.0) + 1 {
        tops[place] = lesser(tops[place], top);
    }
}

/// Whether nothing is noted at any of the part's points.
pub(crate) fn is_free(tops: &[Option<Point>], part: &Part) -> bool
    requires { length tops.now ≡ PLACES }
    ensures { IsTrue result → HasFreePoints tops.now part.now }
{
    for range in part.ranges() {
        if !is_range_free(tops, *range) {
            return false;
        }
    }
    true
}

// Whether nothing is noted at any point of the range.
fn is_range_free(tops: &[Option<Point>], range: Range) -> bool
    requires { length tops.now ≡ PLACES }
    ensures { IsTrue result → (point : ℕ) → range.low ≤ point → point ≤ range.high → top_at tops.now point ≡ None }
{
    for place in usize::from(range.low.0)..usize::from(range.high.0) + 1 {
        if tops[place].is_some() {
            return false;
        }
    }
    true
}

// The lesser of two points, the first of which may be missing.
fn lesser(other: Option<Point>, top: Point) -> Option<Point>
    ensures { result ≡ lesser_point other top }
{
    match other {
        Some(other) if other.0 <= top.0 => Some(other),
        _ => Some(top),
    }
}

/// The greatest point of the part.
pub fn greatest_point(part: &Part) -> Point
    ensures { result ≡ greatest part.now.points }
{
    match part.ranges().last() {
        Some(range) => range.high,
        None => Point(0),
    }
}
