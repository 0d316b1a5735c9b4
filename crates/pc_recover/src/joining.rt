//! The join of parts: in one pass over all of them, if that gives the same as joining them in order.
ghost use Rattle.std.specs.Prelude.{◌≡◌, None, Some, Ok, ◌∷◌, [], IfOk, IfErr, IfSome, IsTrue};
ghost use Rattle.pc_io.specs.Fields.{Gives};
ghost use Rattle.pc_merge.specs.Folds.{NoneConflict};
ghost use Rattle.pc_part.specs.Parts.{IsWithinLimit};
ghost use Rattle.pc_recover.specs.Folding.{IsOfPoints, join_due, joined_on};

use crate::reach::{PLACES, is_free, no_tops, note_part};
use pc_collapse::fold;
use pc_part::{Part, join, joins_associate, joins_make_no_conflict};
use pc_types::Refusal;
use std::alloc::{AllocError, Global};

/// The join of the parts from the first to the last, if there are any. Its errors are those of `join`. Of more than two, if no
/// point is in two of them, it takes one pass over the entries of all, otherwise one for each of them over the entries of those
/// before it.
pub(crate) fn joined(alloc: Global, parts: Vec<Part>) -> Result<Option<Part>, Refusal>
    ensures { Gives (λ joined. joined) result (joined_on None parts.items) }
{
    match joined_at_once(alloc, &parts)? {
        Some(joined) => Ok(Some(joined)),
        None => joined_in_turn(alloc, parts),
    }
}

// The join of more than two parts by one pass over the entries of all; for two a single join is quicker. None if joining them in
// order may be refused.
fn joined_at_once(alloc: Global, parts: &[Part]) -> Result<Option<Part>, Refusal>
    ensures joined { IfOk result (λ joined. IfSome joined (λ part. joined_on None parts.now ≡ Ok (Some part))) }
    ensures memory { IfErr result (λ e. e ≡ Refusal.OutOfMemory) }
{
    joins_associate();
    joins_make_no_conflict();
    if parts.len() < 3 {
        return Ok(None);
    }
    if !are_apart(alloc, parts)? {
        return Ok(None);
    }
    match fold(alloc, parts) {
        Ok(part) => {
            tell(&part);
            Ok(Some(part))
        }
        Err(Refusal::OutOfMemory) => Err(Refusal::OutOfMemory),
        Err(_) => Ok(None),
    }
}

// Whether no point is in two of the parts. Then no two of them conflict.
fn are_apart(alloc: Global, parts: &[Part]) -> Result<bool, AllocError>
    ensures { IfOk result (λ apart. IsTrue apart → NoneConflict parts.now) }
{
    let mut tops = no_tops(alloc, PLACES)?;
    for part in parts {
        tell(part);
        if !is_free(&tops, part) {
            return Ok(false);
        }
        note_part(&mut tops, part);
    }
    Ok(true)
}

// Does nothing; its contract says that each part's entries are of its points, and no more than a file may have.
fn tell(part: &Part)
    ensures points { IsOfPoints part.now }
    ensures limit { IsWithinLimit part.now.triples.entries }
{
    part.entries();
}

// The join of the parts, in order, if there are any.
fn joined_in_turn(alloc: Global, parts: Vec<Part>) -> Result<Option<Part>, Refusal>
    ensures { Gives (λ joined. joined) result (joined_on None parts.items) }
{
    let mut joined = None;
    for part in parts {
        joined = with_part(alloc, joined, part)?;
    }
    Ok(joined)
}

// The join so far, with this part.
fn with_part(alloc: Global, joined: Option<Part>, part: Part) -> Result<Option<Part>, Refusal>
    ensures { Gives (λ joined. joined) result (joined_on joined (part ∷ [])) }
{
    match joined {
        Some(joined) => {
            let both = join_due(alloc, &joined, &part)?;
            Ok(Some(both))
        }
        None => Ok(Some(part)),
    }
}

// The join of two parts.
fn join_due(alloc: Global, a: &Part, b: &Part) -> Result<Part, Refusal>
    ensures { Gives (λ part. part) result (join_due a.now b.now) }
{
    join(alloc, a, b)
}
