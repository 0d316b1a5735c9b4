//! The state of the recovered point: the used files joined and applied to the base.
ghost use Rattle.std.specs.Prelude.{◌≡◌, ◌++◌, None, ◌∷◌, [], IfOk};
ghost use Rattle.pc_io.specs.Fields.{Gives};
ghost use Rattle.pc_recover.specs.Recovery.{files_to, read_files, with_files};
ghost use Rattle.pc_recover.specs.Folding.{joined_on, lay_due};

use crate::candidates::Candidate;
use crate::joining::joined;
use crate::reach::greatest_point;
use pc_bases::{Base, lay};
use pc_part::Part;
use pc_types::{Point, Refusal};
use std::alloc::{AllocError, Global};

/// The base with the join of the used files applied to it: those that were read and have no point above the given one. They are
/// joined from the first to the last. Its errors are those of `join` and then those of `lay`.
pub(crate) fn with_used(
    alloc: Global,
    base: Base,
    point: Point,
    files: Vec<Candidate>,
) -> Result<Base, Refusal>
    ensures { Gives (λ base. base) result (with_files base (files_to point (read_files files.items))) }
{
    match joined_used(alloc, point, files)? {
        Some(joined) => lay_due(alloc, &base, &joined),
        None => Ok(base),
    }
}

// The join of the used files, if there are any.
fn joined_used(alloc: Global, point: Point, files: Vec<Candidate>) -> Result<Option<Part>, Refusal>
    ensures { Gives (λ joined. joined) result (joined_on None (files_to point (read_files files.items))) }
{
    let parts = used(alloc, point, files)?;
    joined(alloc, parts)
}

// The files that are used.
fn used(alloc: Global, point: Point, files: Vec<Candidate>) -> Result<Vec<Part>, AllocError>
    ensures { IfOk result (λ parts. parts.items ≡ files_to point (read_files files.items)) }
{
    let mut parts = Vec::new(alloc);
    for file in files {
        parts = with_file(point, parts, file)?;
    }
    Ok(parts)
}

// The files so far, and this one if it is used.
fn with_file(point: Point, parts: Vec<Part>, file: Candidate) -> Result<Vec<Part>, AllocError>
    ensures { IfOk result (λ all. all.items ≡ parts.items ++ files_to point (read_files (file ∷ []))) }
{
    match file {
        Ok(part) if greatest_point(&part).0 <= point.0 => pushed(parts, part),
        _ => Ok(parts),
    }
}

// The files so far, and this part.
fn pushed(mut parts: Vec<Part>, part: Part) -> Result<Vec<Part>, AllocError>
    ensures { IfOk result (λ all. all.items ≡ parts.items ++ part ∷ []) }
{
    parts.push(part)?;
    Ok(parts)
}

// The base with the part applied to it.
fn lay_due(alloc: Global, base: &Base, part: &Part) -> Result<Base, Refusal>
    ensures { Gives (λ base. base) result (lay_due base.now part.now) }
{
    lay(alloc, base, part)
}
