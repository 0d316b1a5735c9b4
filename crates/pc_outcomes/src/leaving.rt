//! The report of a closed store: the file of all points, and whether its files are correct by its log.
ghost use Rattle.std.specs.Prelude.{◌≡◌, ◌≤◌, ◌⊎◌, Some, IfOk, IfErr, drop, length};
ghost use Rattle.pc_types.specs.declared.Refusal.TheVariants.{OutOfMemory};
ghost use Rattle.pc_model.specs.Maps.{len};
ghost use Rattle.pc_model.specs.History.{History};
ghost use Rattle.pc_model.specs.LaidFiles.{laid_file};
ghost use Rattle.pc_model.specs.Replies.{Setting};
ghost use Rattle.pc_types.specs.declared.limits.TheConstants.{MOST_COLLAPSERS};
ghost use Rattle.pc_kept_log.specs.Logs.{entries_of};
ghost use Rattle.pc_outcomes.specs.Leaving.{is_commit, commits_in, summary_if_any, summary_of, with_file, Folded, AreLeftAfter, IsStoreReport, IsLegacy, IsUnfolded, IsUnlaid, IsReportUntold, IsUntoldAfter};

use crate::run_report::{Collapsed, StoreReport};
use pc_audit::{are_files_right, files_of_their_points_are_right};
use pc_bases::{Base, lay};
use pc_capture::SharedPart;
use pc_collapse::{collapse_bag_owned, files_fold_well};
use pc_kept_log::{LentEntry, Log};
use pc_part::Part;
use pc_types::{Gate, Refusal};
use std::alloc::{AllocError, Global};
use std::hash::RandomState;
use std::sync::Wait;
use std::thread::Threads;

/// The number of commits that the log has.
pub fn commits_in(log: &Log) -> usize
    ensures { result ≡ commits_in (entries_of log.now) }
{
    let mut count = 0;
    for entry in log.lent(0, log.len()) {
        if is_commit(&entry) {
            count += 1;
        }
    }
    count
}

fn is_commit(entry: &LentEntry<'_>) -> bool
    ensures { result ≡ is_commit entry.now }
{
    entry.token().is_none()
}

fn copies(alloc: Global, parts: &[SharedPart]) -> Result<Vec<Part>, AllocError>
    ensures { IfOk result (λ copies. copies.items ≡ parts.now) }
{
    let mut copies = Vec::new(alloc);
    for shared in parts {
        copies.push(shared.part().copy(alloc)?)?;
    }
    Ok(copies)
}

// The join of the parts, if there are any.
fn collapsed<G: Gate + Sync, R: Threads + Wait + Sync>(
    rt: &R,
    alloc: Global,
    parts: &[SharedPart],
    collapsers: u8,
    gate: &G,
) -> Result<Option<Part>, Refusal>
    requires { (1 ≤ collapsers) × (collapsers ≤ MOST_COLLAPSERS) }
    ensures folded { IfOk result (Folded parts.now) }
    ensures refused { IfErr result (λ why. (why ≡ OutOfMemory) ⊎ IsUnfolded parts.now why) }
{
    if parts.is_empty() {
        return Ok(None);
    }
    let copies = copies(alloc, parts)?;
    let part = collapse_bag_owned(rt, alloc, copies, collapsers, gate)?;
    Ok(Some(part))
}

// The number of keys that the file has.
fn keys_in(part: &Part) -> usize
    ensures { result ≡ len part.now.triples }
{
    part.entries().len()
}

// The number of pairs that the base has with the file applied to it.
fn pairs_with(alloc: Global, base: &Base, part: &Part) -> Result<usize, Refusal>
    ensures pairs { IfOk result (λ pairs. pairs ≡ len (laid_file base.now part.now).pairs) }
    ensures refused { IfErr result (λ why. (why ≡ OutOfMemory) ⊎ IsUnlaid base.now (Some part.now) why) }
{
    let laid = lay(alloc, base, part)?;
    Ok(laid.pairs().len())
}

// The report of the file of all points.
fn summary_of(alloc: Global, base: &Base, part: &Part) -> Result<Collapsed, Refusal>
    ensures summary { IfOk result (λ summary. summary ≡ summary_of base.now part.now) }
    ensures refused { IfErr result (λ why. (why ≡ OutOfMemory) ⊎ IsUnlaid base.now (Some part.now) why) }
{
    let pairs = pairs_with(alloc, base, part)?;
    let points = part.points(alloc)?;
    let entries = keys_in(part) as u64;
    Ok(Collapsed {
        points,
        entries,
        pairs,
    })
}

// The files, and after them the part, if there is one.
fn with_file(
    alloc: Global,
    files: Vec<SharedPart>,
    part: Option<Part>,
) -> Result<Vec<SharedPart>, Refusal>
    ensures all { IfOk result (λ all. all.items ≡ with_file files.items part) }
    ensures memory { IfErr result (λ why. why ≡ OutOfMemory) }
{
    let mut files = files;
    if let Some(part) = part {
        files.push(SharedPart::new(alloc, part)?)?;
    }
    Ok(files)
}

// The report of the file of all points, if there is one.
fn summary_if_any(
    alloc: Global,
    base: &Base,
    part: &Option<Part>,
) -> Result<Option<Collapsed>, Refusal>
    ensures summary { IfOk result (λ summary. summary ≡ summary_if_any base.now part.now) }
    ensures refused { IfErr result (λ why. (why ≡ OutOfMemory) ⊎ IsUnlaid base.now part.now why) }
{
    match part {
        Some(part) => Ok(Some(summary_of(alloc, base, part)?)),
        None => Ok(None),
    }
}

// The files after the first ones, whose number is given.
fn behind(files: &[SharedPart], singles: usize) -> &[SharedPart]
    requires { singles ≤ length files.now }
    ensures { result.now ≡ drop singles files.now }
{
    &files[singles..]
}

/// What the report of a store is made with: the runtime of threads, the allocator, the seed of the hashes of keys, the number of
/// collapsers that join the files, each on a thread of its own, and the gate that they pass.
#[derive(Drop)]
pub struct Reporter<'a, G: Gate, R> {
    pub rt: &'a R,
    pub alloc: Global,
    pub seed: RandomState,
    pub collapsers: u8,
    pub gate: &'a G,
}

/// The outcome of a closed store's files. Those after the first `singles` are folded to one, by 1 to 64 collapsers; that one is
/// audited too. After a legal history everything is correct. Refuses for what keeps them from being folded, or the base from having
/// their fold applied to it, and otherwise with `OutOfMemory` alone: after a legal history that is `Gap`, if one of the points up to
/// theirs is missing, or `Full`, and that only of a store that began with more pairs than it has room for, or has room for more than
/// a file may have. Keys are hashed under the seed, a random 128-bit number.
pub fn left_by<G: Gate + Sync, R: Threads + Wait + Sync>(
    reporter: &Reporter<'_, G, R>,
    base: &Base,
    log: &Log,
    files: Vec<SharedPart>,
    singles: usize,
) -> Result<StoreReport, Refusal>
    requires singles { singles ≤ length files.items }
    requires collapsers { (1 ≤ reporter.now.collapsers) × (reporter.now.collapsers ≤ MOST_COLLAPSERS) }
    ensures left { IfOk result (IsStoreReport base.now (entries_of log.now) files.items (drop singles files.items)) }
    ensures legacy { (st : Setting) (history : History) → AreLeftAfter st history base.now (entries_of log.now) files.items → IfOk result (IsLegacy base.now (entries_of log.now) (drop singles files.items)) }
    ensures refused { IfErr result (IsReportUntold base.now (drop singles files.items)) }
    ensures untold { (st : Setting) (history : History) → AreLeftAfter st history base.now (entries_of log.now) files.items → IfErr result (IsUntoldAfter st (drop singles files.items)) }
{
    files_fold_well();
    files_of_their_points_are_right();
    let alloc = reporter.alloc;
    let several = behind(&files, singles);
    let part = collapsed(
        reporter.rt,
        alloc,
        several,
        reporter.collapsers,
        reporter.gate,
    )?;
    let collapsed = summary_if_any(alloc, base, &part)?;
    let files = with_file(alloc, files, part)?;
    let is_right = are_files_right(alloc, reporter.seed, base, log, &files)?;
    Ok(StoreReport {
        collapsed,
        is_right,
    })
}
