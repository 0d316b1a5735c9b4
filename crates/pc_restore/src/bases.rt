//! A base for a run that goes on from the state recovered from a folder's files.
ghost use Rattle.std.specs.Prelude.{◌≡◌, ◌⊎◌, ◌+◌, ◌≤◌, ◌<◌, ◌^◌, None, length, IfErr, IfOk, IfSome};
ghost use Rattle.pc_types.specs.declared.limits.TheConstants.{MOST_FILE_ENTRIES};
ghost use Rattle.pc_io.specs.Tallies.{Puts};
ghost use Rattle.pc_model.specs.Database.{KeysRise, database_of};
ghost use Rattle.pc_part.specs.Parts.{IsWithinLimit};
ghost use Rattle.pc_recover.specs.Recovery.{recovery_of};
ghost use Rattle.pc_restore.specs.Bases.{IsBaseMade, IsBaseUnmade, lacks_text, log_state_line, unused_line};
ghost use Rattle.pc_restore.specs.Lacks.{refuses};
ghost use Rattle.pc_restore.specs.Recoveries.{names_of};

use crate::lacks::{Lacks, LogHeader};
use crate::reading::PartBytes;
use crate::recovery::{Folder, Lost, Worth, recover_read};
use crate::reports::{put_count, put_damage};
use pc_bases::Base;
use pc_io::Tally;
use pc_recover::Recovered;
use pc_types::{MOST_FILE_ENTRIES, Refusal};
use std::alloc::Global;
use std::io::{Read, Write};

/// A base for a run that goes on from the state recovered from a folder's files: it has the recovered pairs, its point is 0,
/// and its run's number is that of the folder's base plus 1. What the folder's files lack is reported on the error writer, as
/// far as it takes that: a line of the log, if it isn't there, ends within its header, or has no entry that is used; one of the fault
/// of its rest, if it was not only truncated; and one of each part that was skipped.
///
/// If nothing is recovered nothing is reported, and the cause is returned. Nor is there a base if the number of the folder's run is
/// 2^64 - 1, the greatest one, or if there are more pairs than the 4,294,967,295 that a base may have: then the error is `Full`. If
/// there would be a base, damage is not accepted, and the files lack more than those of a killed process (`Lacks::is_damaged`),
/// that is reported, and the folder is refused as damaged.
pub fn recover_base<R: Read + Drop, E: Write>(
    alloc: Global,
    folder: Folder<R>,
    accepts_damage: bool,
    errors: &mut Tally<E>,
) -> Result<Base, Lost<R>>
    ensures made { IfOk result (IsBaseMade R.remaining E.contents folder accepts_damage errors.old errors.new) }
    ensures cause { IfErr result (IsBaseUnmade R.remaining E.contents folder accepts_damage errors.old errors.new) }
{
    let Worth {
        parts,
        recovered,
        lacks,
    } = recover_read(alloc, folder)?;
    match next_run(&recovered) {
        Some(run) => {
            let _ = put_lacks(errors, &parts, &recovered, &lacks);
            if refuses(accepts_damage, &lacks) {
                return Err(Lost::Damaged);
            }
            Ok(start(run, recovered))
        }
        None => Err(Lost::Folder(Refusal::Full)),
    }
}

// Writes a line for each thing that the folder of parts with these names lacks.
fn put_lacks<E: Write>(
    errors: &mut Tally<E>,
    parts: &[PartBytes],
    recovered: &Recovered,
    lacks: &Lacks,
) -> Result<(), Refusal>
    ensures { Puts E.contents errors.old errors.new result (lacks_text (names_of parts.now) (recovery_of recovered.now) lacks.now) }
{
    put_log_state(errors, lacks.header, lacks.unused)?;
    put_damage(errors, parts, recovered)
}

// The line of a log that isn't there, that ends within its header, or of which no entry is used.
fn put_log_state<E: Write>(
    errors: &mut Tally<E>,
    header: LogHeader,
    unused: Option<usize>,
) -> Result<(), Refusal>
    ensures { Puts E.contents errors.old errors.new result (log_state_line header unused) }
{
    match header {
        LogHeader::Missing => errors.put(b"log NoFile\n"),
        LogHeader::Cut => errors.put(b"log Short\n"),
        LogHeader::Whole => put_unused(errors, unused),
    }
}

fn put_unused<E: Write>(errors: &mut Tally<E>, unused: Option<usize>) -> Result<(), Refusal>
    ensures { Puts E.contents errors.old errors.new result (unused_line unused) }
{
    match unused {
        Some(count) => put_count(errors, b"log unused ", count as u64),
        None => Ok(()),
    }
}

// Whether no run starts from a folder with these gaps.
fn refuses(accepts_damage: bool, lacks: &Lacks) -> bool
    ensures { result ≡ refuses accepts_damage lacks.now }
{
    !accepts_damage && lacks.is_damaged()
}

// The number of the run after the recovered one; none if that has the greatest number, or a base can't have the pairs.
fn next_run(recovered: &Recovered) -> Option<u64>
    ensures next { IfSome result (λ run. (run ≡ recovered.now.run + 1) × (run < 2 ^ 64) × IsWithinLimit recovered.now.pairs.items) }
    ensures none { result ≡ None → (2 ^ 64 ≤ recovered.now.run + 1) ⊎ (MOST_FILE_ENTRIES < length recovered.now.pairs.items) }
{
    if recovered.pairs.len() > MOST_FILE_ENTRIES {
        return None;
    }
    recovered.run.checked_add(1)
}

// The recovered state, as the base of a run of this number.
fn start(run: u64, recovered: Recovered) -> Base
    requires rise { KeysRise recovered.pairs.items }
    requires limit { IsWithinLimit recovered.pairs.items }
    ensures { result ≡ record { run = run; point = 0; pairs = database_of recovered.pairs.items } }
{
    let Recovered {
        run: _,
        pairs,
        point: _,
        entries: _,
        skipped: _,
        fault: _,
    } = recovered;
    Base::start(run, pairs)
}
