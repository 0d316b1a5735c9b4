//! A recovery of a folder, from its readers to its end.
ghost use Rattle.std.specs.Prelude.{◌≡◌, ◌≢◌, ◌⊎◌, ℕ, List, Some, is_ok, IfOk, IfErr, IfSome, MatchOption, OnOk};
ghost use Rattle.std.specs.declared.result.Result.{Result};
ghost use Rattle.std.specs.Io.KnownBytes.{Keeps};
ghost use Rattle.pc_types.specs.declared.refusal.Refusal.{Refusal};
ghost use Rattle.pc_io.specs.Tallies.{Puts, inner_of, failures_of};
ghost use Rattle.pc_io.specs.Fields.{Gives};
ghost use Rattle.pc_model.specs.Database.{KeysRise};
ghost use Rattle.pc_recover.specs.Recovery.{IsOfRun, recovery, recovery_of};
ghost use Rattle.pc_restore.specs.declared.recovery.Lost.{Lost};
ghost use Rattle.pc_restore.specs.Lacks.{lacks_of, recovery_status};
ghost use Rattle.pc_restore.specs.Reports.{recovery_text};
ghost use Rattle.pc_restore.specs.Recoveries.{AreAllOpened, GoesOutUnrecovered, HoldsAll, IsLacking, IsLost, IsRecoveryTold, PrintsAll, bytes_of, names_of, reason_text};

use crate::lacks::{Lacks, lacks_of};
use crate::reading::{FolderBytes, PartBytes, part_slices, read_folder};
use crate::reports::put_recovered;
use pc_io::Tally;
use pc_recover::{Recovered, recover};
use pc_texts::{NamedFile, Unread, end_output, report, report_words};
use pc_types::Refusal;
use std::alloc::Global;
use std::io::{Read, Write};

/// The files of a run in a folder: the base file, the part files in the byte order of their names, or why the folder can't be
/// listed, and the log, with `NoFile` if it doesn't exist.
#[derive(Drop)]
pub struct Folder<R> {
    pub base: Result<R, Refusal>,
    pub parts: Result<Vec<NamedFile<R>>, Refusal>,
    pub log: Result<R, Refusal>,
}

/// Why nothing is recovered. A file whose device failed is returned, and has counted the failure.
#[derive(Drop)]
pub enum Lost<R> {
    /// The base doesn't exist, or can't be read.
    Base(Unread<R>),
    /// The part of this name can't be read.
    Part(Vec<u8>, Unread<R>),
    /// The log can't be read.
    Log(Unread<R>),
    /// The folder can't be listed, or its files are refused.
    Folder(Refusal),
    /// The folder is damaged, which is not accepted.
    Damaged,
    /// The output failed.
    Output,
}

/// How a recovery ended.
#[derive(Drop)]
pub struct EndedRecovery<R> {
    pub status: u8,
    /// Its gaps, if all of the output went out.
    pub lacks: Option<Lacks>,
    /// Why not all of the output went out, if so.
    pub lost: Option<Lost<R>>,
}

/// How a recovery is made.
#[derive(Clone, Copy)]
pub struct RecoveryMode {
    /// Whether gaps of the folder's files make it fail.
    pub is_strict: bool,
    /// Whether it prints the pairs. Otherwise it prints their number alone.
    pub has_pairs: bool,
}

// The status of a strict recovery with gaps.
const LACKING: u8 = 4;

/// Recovers the state of a folder's files and prints it: the point, the number of the log's whole entries, the fault of its rest if
/// it was not only truncated, a line for each part that was skipped, the number of the pairs, and the pairs, unless the mode is without
/// them. If all of that went out it returns the gaps, and the status is 0, or 4 if the mode is strict and the folder isn't whole. Otherwise the status is 1: a file can't be opened or read,
/// the folder can't be listed, its files are refused, or an allocation failed, which a line on the error writer reports; or the
/// output failed, which isn't reported there. Then the cause is returned; a file for which `Device` is reported, and that was
/// opened, has counted the read that failed.
pub fn run_recover<R: Read + Drop, W: Write, E: Write>(
    alloc: Global,
    dir: &str,
    folder: Folder<R>,
    mode: RecoveryMode,
    out: &mut Tally<W>,
    errors: &mut Tally<E>,
) -> EndedRecovery<R>
    ensures status { result.status ≡ recovery_status mode.is_strict result.lacks }
    ensures lacks { IfSome result.lacks (IsLacking R.remaining folder) }
    ensures statuses { (result.status ≡ 0) ⊎ (result.status ≡ 1) ⊎ (result.status ≡ 4) }
    ensures recovered { ¬ (result.status ≡ 1) → PrintsAll R.remaining W.contents (recovery_text mode.has_pairs) folder out.old out.new }
    ensures sound { ¬ (result.status ≡ 1) → failures_of out.new ≡ failures_of out.old }
    ensures quiet { ¬ (result.status ≡ 1) → Keeps (E.contents (inner_of errors.old)) (E.contents (inner_of errors.new)) }
    ensures cause { result.status ≡ 1 → MatchOption result.lost ⊥ (λ lost. IsLost R.remaining folder lost × GoesOutUnrecovered R.remaining W.contents (recovery_text mode.has_pairs) folder out.old out.new lost
        × IsRecoveryTold E.contents errors.old errors.new dir.now lost) }
{
    match recover_folder(alloc, folder, mode.has_pairs, out) {
        Ok(lacks) => {
            let status = status_of(mode.is_strict, &lacks);
            let lacks = Some(lacks);
            EndedRecovery {
                status,
                lacks,
                lost: None,
            }
        }
        Err(lost) => {
            tell_lost(dir.as_bytes(), &lost, errors);
            EndedRecovery {
                status: 1,
                lacks: None,
                lost: Some(lost),
            }
        }
    }
}

// The status of a recovery with these gaps, if all of the output went out.
fn status_of(is_strict: bool, lacks: &Lacks) -> u8
    ensures given { result ≡ recovery_status is_strict (Some lacks.now) }
    ensures statuses { (result ≡ 0) ⊎ (result ≡ 4) }
{
    if is_strict && !lacks.is_whole() {
        LACKING
    } else {
        0
    }
}

fn recover_folder<R: Read + Drop, W: Write>(
    alloc: Global,
    folder: Folder<R>,
    has_pairs: bool,
    out: &mut Tally<W>,
) -> Result<Lacks, Lost<R>>
    ensures lacks { IfOk result (IsLacking R.remaining folder) }
    ensures recovered { OnOk result (PrintsAll R.remaining W.contents (recovery_text has_pairs) folder out.old out.new) }
    ensures sound { OnOk result (failures_of out.new ≡ failures_of out.old) }
    ensures cause { IfErr result (IsLost R.remaining folder) }
    ensures goes_out { IfErr result (GoesOutUnrecovered R.remaining W.contents (recovery_text has_pairs) folder out.old out.new) }
{
    let Worth {
        parts,
        recovered,
        lacks,
    } = recover_read(alloc, folder)?;
    let put = put_recovered(out, has_pairs, &parts, &recovered);
    match end_output(put, out) {
        Ok(()) => Ok(lacks),
        Err(_) => Err(Lost::Output),
    }
}

/// The part files of a folder that were read, the state recovered from all of its files, and the gaps.
#[derive(Drop)]
pub(crate) struct Worth {
    pub(crate) parts: Vec<PartBytes>,
    pub(crate) recovered: Recovered,
    pub(crate) lacks: Lacks,
}

/// Reads all files of the folder, and recovers their state.
pub(crate) fn recover_read<R: Read + Drop>(
    alloc: Global,
    folder: Folder<R>,
) -> Result<Worth, Lost<R>>
    ensures worth { (base : List ℕ) (names parts : List (List ℕ)) (log : List ℕ) → HoldsAll R.remaining folder base names parts log → IfOk result (λ worth.
        (names_of worth.parts.items ≡ names) × (recovery base parts log ≡ Ok (recovery_of worth.recovered)) × IsOfRun base worth.recovered.run
        × (worth.lacks ≡ lacks_of (is_ok folder.log) parts log (recovery_of worth.recovered))) }
    ensures rise { IfOk result (λ worth. KeysRise worth.recovered.pairs.items) }
    ensures opened { OnOk result (AreAllOpened folder) }
    ensures cause { IfErr result (λ lost. IsLost R.remaining folder lost × (lost ≢ Lost.Output)) }
{
    let files = read_folder(alloc, folder)?;
    let recovered = match recover_files(alloc, &files) {
        Ok(recovered) => recovered,
        Err(why) => return Err(Lost::Folder(why)),
    };
    let lacks = match lacks_of(alloc, files.is_logged, &files.parts, &files.log, &recovered) {
        Ok(lacks) => lacks,
        Err(_) => return Err(Lost::Folder(Refusal::OutOfMemory)),
    };
    let FolderBytes {
        base: _,
        parts,
        is_logged: _,
        log: _,
    } = files;
    Ok(Worth {
        parts,
        recovered,
        lacks,
    })
}

/// Writes the line that says why nothing is recovered of the folder of this name: by the name of the file or the folder. It reports
/// no fault of the output.
pub fn tell_lost<R, E: Write>(dir: &[u8], lost: &Lost<R>, errors: &mut Tally<E>)
    ensures { IsRecoveryTold E.contents errors.old errors.new dir.now lost.now }
{
    let _ = match lost {
        Lost::Base(why) => report(b"base.pcb", why.refusal(), errors),
        Lost::Part(name, why) => report(name, why.refusal(), errors),
        Lost::Log(why) => report(b"log.pcl", why.refusal(), errors),
        Lost::Folder(why) => report(dir, *why, errors),
        Lost::Damaged => tell_reason(dir, b"Damaged", errors),
        Lost::Output => Ok(()),
    };
}

/// Writes the line of a reason that is no refusal, by the name of a file or a folder. Returns `Device` if and only if the device
/// failed in this call.
pub fn tell_reason<E: Write>(
    name: &[u8],
    reason: &[u8],
    errors: &mut Tally<E>,
) -> Result<(), Refusal>
    ensures { Puts E.contents errors.old errors.new result (reason_text name.now reason.now) }
{
    report_words(name, reason, errors)
}

fn recover_files(alloc: Global, files: &FolderBytes) -> Result<Recovered, Refusal>
    ensures rules { Gives recovery_of result (recovery files.now.base.items (bytes_of files.now.parts.items) files.now.log.items) }
    ensures rise { IfOk result (λ recovered. KeysRise recovered.pairs.items) }
    ensures run { IfOk result (λ recovered. IsOfRun files.now.base.items recovered.run) }
{
    let parts = part_slices(alloc, &files.parts)?;
    recover(alloc, &files.base, &parts, &files.log)
}
