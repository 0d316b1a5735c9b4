//! Contents and files against a log.
ghost use Rattle.std.specs.Prelude.{◌≡◌, ◌↔◌, ◌++◌, All, IsTrue, IfOk, OnOk, List};
ghost use Rattle.pc_types.specs.declared.Entry.{Entry};
ghost use Rattle.pc_model.specs.Database.{Database, database_of};
ghost use Rattle.pc_model.specs.Log.{after};
ghost use Rattle.pc_kept_log.specs.Logs.{entries_of};
ghost use Rattle.pc_replay.specs.Audits.{IsRight, TriplesRise};
ghost use Rattle.pc_audit.specs.Checks.{IsFileRight};

use crate::replays::{audit_log, is_log_replay};
use pc_bases::Base;
use pc_capture::SharedPart;
use pc_kept_log::Log;
use pc_part::Part;
use pc_replay::CompleteFile;
use pc_taken::Pass;
use pc_types::{Key, Triple, Value};
use std::alloc::{AllocError, Global};
use std::hash::RandomState;

/// Whether the pairs are the log replayed on the base, and each file of the points 1 to some n, applied to the base, is the state
/// of n. Keys are hashed under the seed, a random 128-bit number. It fails only if an allocation fails.
pub fn is_sound(
    alloc: Global,
    seed: RandomState,
    base: &Base,
    log: &Log,
    files: &[SharedPart],
    pairs: &[(Key, Value)],
) -> Result<bool, AllocError>
    ensures { IfOk result (λ sound. IsTrue sound ↔ ((database_of pairs.now ≡ after base.now.pairs (entries_of log.now)) × All (IsFileRight base.now.pairs (entries_of log.now)) files.now)) }
{
    if !is_log_replay(alloc, seed, base.pairs(), log, pairs)? {
        return Ok(false);
    }
    let right = are_files_right(alloc, seed, base, log, files)?;
    Ok(right)
}

/// Whether each of the files that is of the points 1 to some n is correct by the log: the token of n is in it, and the base with
/// the file applied to it is the state of n. Files of other points are passed by. Keys are hashed under the seed, a random
/// 128-bit number. It fails only if an allocation fails.
pub fn are_files_right(
    alloc: Global,
    seed: RandomState,
    base: &Base,
    log: &Log,
    files: &[SharedPart],
) -> Result<bool, AllocError>
    ensures { IfOk result (λ right. IsTrue right ↔ All (IsFileRight base.now.pairs (entries_of log.now)) files.now) }
{
    let complete = complete_files(alloc, files)?;
    let right = audit_log(alloc, seed, base.pairs(), log, complete.as_slice())?;
    Ok(right)
}

// A copy of each file of the points 1 to some n.
fn complete_files(alloc: Global, files: &[SharedPart]) -> Result<Vec<CompleteFile>, AllocError>
    ensures rise { IfOk result (λ complete. All TriplesRise complete.items) }
    ensures right { (base : Database) (log : List Entry) → IfOk result (λ complete. All (IsRight base log) complete.items ↔ All (IsFileRight base log) files.now) }
{
    let mut complete = Vec::new(alloc);
    for file in files {
        push_complete(alloc, &mut complete, file.part())?;
    }
    Ok(complete)
}

// Adds a copy of the file, if its points are 1 to some n.
fn push_complete(
    alloc: Global,
    complete: &mut Vec<CompleteFile>,
    file: &Part,
) -> Result<(), AllocError>
    ensures rise { All TriplesRise complete.old.items → OnOk result (All TriplesRise complete.new.items) }
    ensures right { (base : Database) (log : List Entry) → OnOk result (All (IsRight base log) complete.new.items ↔ (All (IsRight base log) complete.old.items × IsFileRight base log file.now)) }
{
    if let Some(point) = file.complete_to() {
        let triples = copies(alloc, file.entries())?;
        complete.push(CompleteFile { point, triples })?;
    }
    Ok(())
}

// Copies of the triples.
fn copies(alloc: Global, triples: Pass) -> Result<Vec<Triple>, AllocError>
    ensures { IfOk result (λ copies. copies.items ≡ triples.entry) }
{
    let mut copies = Vec::new(alloc);
    for triple in triples {
        copies.push(triple.copy(alloc)?)?;
    }
    Ok(copies)
}
