//! Laying a file's triples on a base, as the definition says it.
ghost use Rattle.std.specs.Prelude.{◌≡◌, IfOk, OnOk};
ghost use Rattle.pc_model.specs.Points.{Triples, laid};
ghost use Rattle.pc_model.specs.TripleLists.{map_entries};
ghost use Rattle.pc_replay.specs.Laying.{laid_one, laid_in_turn};

use crate::pairs::Pairs;
use crate::replay::put;
use pc_types::{Point, Triple};
use std::alloc::{AllocError, Global};

/// The base, which is at the point, with the triples applied to it: a key with a triple of a later point is set or
/// removed. The triples ascend strictly by key. It fails only if an allocation fails.
pub fn lay_plain(
    alloc: Global,
    base: &Pairs,
    point: Point,
    triples: &[Triple],
) -> Result<Pairs, AllocError>
    ensures { (m : Triples) → m.entries ≡ map_entries triples.now → IfOk result (λ pairs. pairs ≡ laid base.now point m) }
{
    let pairs = lay_in_turn(alloc, base, point, triples)?;
    Ok(pairs)
}

// The triples applied to the base in order.
fn lay_in_turn(
    alloc: Global,
    base: &Pairs,
    point: Point,
    triples: &[Triple],
) -> Result<Pairs, AllocError>
    ensures { IfOk result (λ pairs. pairs ≡ laid_in_turn base.now point triples.now) }
{
    let mut pairs = base.copy(alloc)?;
    for triple in triples {
        lay_one(alloc, &mut pairs, point, triple)?;
    }
    Ok(pairs)
}

// One triple applied to the pairs.
fn lay_one(
    alloc: Global,
    pairs: &mut Pairs,
    point: Point,
    triple: &Triple,
) -> Result<(), AllocError>
    ensures { OnOk result (pairs.new ≡ laid_one pairs.old point triple.now) }
{
    if triple.point.0 <= point.0 {
        return Ok(());
    }
    put(alloc, pairs, &triple.key, &triple.content)
}
