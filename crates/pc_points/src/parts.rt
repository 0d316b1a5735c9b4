//! The parts up to a point.
ghost use Rattle.std.specs.Prelude.{◌≡◌, map, IfOk, IfErr};
ghost use Rattle.pc_points.specs.Points.{is_above, parts_to};

use pc_part::Part;
use pc_recover::greatest_point;
use pc_types::{Point, Refusal};
use std::alloc::Global;

/// The parts without those that have a point above this one, in their order. Bytes that are no part are kept. Refuses with
/// `OutOfMemory` alone.
pub(crate) fn parts_to<'a>(
    alloc: Global,
    point: Point,
    parts: &[&'a [u8]],
) -> Result<Vec<&'a [u8]>, Refusal>
    ensures kept { IfOk result (λ kept. map (λ part. part.now) kept.items ≡ parts_to point (map (λ part. part.now) parts.now)) }
    ensures memory { IfErr result (λ e. e ≡ Refusal.OutOfMemory) }
{
    let mut kept = Vec::new(alloc);
    for part in parts {
        if !is_above(alloc, point, part)? {
            kept.push(*part)?;
        }
    }
    Ok(kept)
}

// Whether the bytes are a part that has a point above this one.
fn is_above(alloc: Global, point: Point, bytes: &[u8]) -> Result<bool, Refusal>
    ensures above { IfOk result (λ above. above ≡ is_above point bytes.now) }
    ensures memory { IfErr result (λ e. e ≡ Refusal.OutOfMemory) }
{
    match Part::decode(alloc, bytes) {
        Ok(part) => Ok(point.0 < greatest_point(&part).0),
        Err(Refusal::OutOfMemory) => Err(Refusal::OutOfMemory),
        Err(_) => Ok(false),
    }
}
