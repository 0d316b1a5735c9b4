//! A run of a workload, from its reader to the status.
ghost use Rattle.std.specs.Prelude.{◌≡◌, ◌⊎◌, ◌≤◌, ⊤, is_some, IsOk, IsTrue, IfOk, IfErr, OnOk};
ghost use Rattle.pc_types.specs.declared.limits.TheConstants.{MOST_KEYS, MOST_SESSIONS};
ghost use Rattle.pc_shared.specs.Sitters.{new_sitters};
ghost use Rattle.pc_threads.specs.Clients.{HaveSeats};
ghost use Rattle.pc_threads.specs.Files.{RefusedBy, RefusesNoMore};
ghost use Rattle.pc_runs.specs.Faults.{EndsRun};
ghost use Rattle.pc_runs.specs.Folders.{HasBegunFiles, IsBeginLost};
ghost use Rattle.pc_runs.specs.Runs.{RunBegins, IsOutputWritten, IsAnswer, IsCauseOfUnprinted, IsFailed, IsWorkloadRun, IsRunUnanswered, maker_of, run_setting};

use crate::crew::RunContext;
use crate::failure::{RunFailure, print, usable};
use crate::files::{RunFolder, begin_files};
use crate::origin::Origin;
use crate::starting::base_of;
use crate::store::run_store;
use pc_bases::Base;
use pc_io::Tally;
use pc_jobs::{Workload, WorkloadReading, read_workload};
use pc_outcomes::{Printed, RunReport};
use pc_shared::Opened;
use pc_texts::{NamedFile, Unread, read_opened};
use pc_threads::{FileFault, NewFiles, ThreadsFault};
use pc_types::{MOST_SESSIONS, Refusal};
use pc_workers::ClientGate;
use std::io::{Read, Write};
use std::marker::Brand;
use std::sync::Wait;
use std::thread::Threads;

/// How a run ended.
#[derive(Drop)]
pub struct Finished<R, S, D, F> {
    pub status: u8,
    /// The maker of the folder's files, if there is a folder and the workload was run.
    pub folder: Option<D>,
    /// Why nothing, or not all, was printed, if so.
    pub failure: Option<RunFailure<R, S, F>>,
}

/// Reads a workload, runs its clients on threads concurrently with a checkpointer and collapsers, over a store without pairs or
/// with those recovered from a folder's files, and prints the result: the number of transactions that were committed and given up,
/// the number of points that were taken, the file of all points, and whether the files are correct by the log. Its status is
///
/// - 0 if all of that was done;
/// - 3 if the workload has a bad line, whose number is printed: nothing is run;
/// - otherwise 1, and a line on the error writer says why: the workload doesn't exist, can't be read or is too large for memory, a
///   file of the folder can't be made or written, a thread can't be started, or a call was refused; or, by the folder's name, the
///   folder can't be used, or, by the names that a recovery prints, nothing can be recovered of the folder that the store was to
///   start from, or it is damaged and that isn't accepted: then nothing is run, and no file is made. An output that fails isn't
///   reported. The cause is returned; if `Device` is reported, the file whose device failed is returned too, which has counted that:
///   one that was read, if it was opened, or one that was written.
///
/// The damage and the gaps of the files that the store starts from are reported on the error writer before the run begins. If there
/// is a folder for files, the base, the log and the file of each point are written to it, the log as it grows, and the folder is
/// returned if all of that was done.
pub fn run_workload<
    R: Read + Drop,
    S: Read + Drop,
    F: Write + Drop + Send,
    D: NewFiles<F> + Drop,
    W: Write,
    E: Write,
    G: ClientGate + Sync,
    H: Threads + Wait + Sync,
>(
    rt: &H,
    context: &RunContext<'_, G>,
    workload: NamedFile<R>,
    origin: Origin<S>,
    folder: Option<RunFolder<D>>,
    out: &mut Tally<W>,
    errors: &mut Tally<E>,
) -> Finished<R, S, D, F>
    ensures status { (result.status ≡ 0) ⊎ (result.status ≡ 1) ⊎ (result.status ≡ 3) }
    ensures opened { ¬ (result.status ≡ 1) → IsOk workload.opened }
    ensures printed { ¬ (result.status ≡ 1) → IsOutputWritten {F = F} R.remaining D.holds W.contents workload.opened folder (RunBegins S.remaining E.contents origin errors.old errors.new) out.old out.new result.folder result.status }
    ensures cause { result.status ≡ 1 → IsFailed E.contents workload.name.items errors.new result.failure
        (λ between. IsCauseOfUnprinted (RefusedBy D.refuses (maker_of folder)) R.remaining D.holds W.contents workload.opened folder (RunBegins S.remaining E.contents origin errors.old between) out.old out.new) }
{
    let NamedFile { name, opened } = workload;
    match run_opened(rt, context, opened, origin, folder, out, errors) {
        Ok(finished) => finished,
        Err(failure) => {
            failure.report(&name, errors);
            Finished {
                status: 1,
                folder: None,
                failure: Some(failure),
            }
        }
    }
}

// Writes the output of the workload; gives the status.
fn run_opened<
    R: Read + Drop,
    S: Read + Drop,
    F: Write + Drop + Send,
    D: NewFiles<F> + Drop,
    W: Write,
    E: Write,
    G: ClientGate + Sync,
    H: Threads + Wait + Sync,
>(
    rt: &H,
    context: &RunContext<'_, G>,
    opened: Result<R, Refusal>,
    origin: Origin<S>,
    folder: Option<RunFolder<D>>,
    out: &mut Tally<W>,
    errors: &mut Tally<E>,
) -> Result<Finished<R, S, D, F>, RunFailure<R, S, F>>
    ensures opened { OnOk result (IsOk opened) }
    ensures printed { IfOk result (λ finished. IsOutputWritten {F = F} R.remaining D.holds W.contents opened folder (RunBegins S.remaining E.contents origin errors.old errors.new) out.old out.new finished.folder finished.status) }
    ensures cause { IfErr result (IsCauseOfUnprinted (RefusedBy D.refuses (maker_of folder)) R.remaining D.holds W.contents opened folder (RunBegins S.remaining E.contents origin errors.old errors.new) out.old out.new) }
{
    let (printed, folder) = answer(rt, context, opened, origin, folder, errors)?;
    print::<R, S, F, W>(&printed, out)?;
    let status = printed.status();
    Ok(Finished {
        status,
        folder,
        failure: None,
    })
}

// The output of the workload: the first bad line, or the result of its run; and the folder, if it is left.
fn answer<
    R: Read + Drop,
    S: Read + Drop,
    F: Write + Drop + Send,
    D: NewFiles<F> + Drop,
    E: Write,
    G: ClientGate + Sync,
    H: Threads + Wait + Sync,
>(
    rt: &H,
    context: &RunContext<'_, G>,
    opened: Result<R, Refusal>,
    origin: Origin<S>,
    folder: Option<RunFolder<D>>,
    errors: &mut Tally<E>,
) -> Result<(Printed, Option<D>), RunFailure<R, S, F>>
    ensures opened { OnOk result (IsOk opened) }
    ensures answer { IfOk result (λ r. IsAnswer {F = F} R.remaining D.holds opened folder (RunBegins S.remaining E.contents origin errors.old errors.new) r.1 r.0) }
    ensures cause { IfErr result (IsRunUnanswered (RefusedBy D.refuses (maker_of folder)) R.remaining opened folder (RunBegins S.remaining E.contents origin errors.old errors.new)) }
{
    let alloc = context.alloc;
    let text = read_opened(alloc, opened)?;
    let reading = match read_workload(alloc, &text) {
        Ok(reading) => reading,
        Err(_) => return Err(RunFailure::Unread(Unread::NoMemory)),
    };
    match reading {
        WorkloadReading::BadLine(line) => Ok((Printed::BadLine(line), None)),
        WorkloadReading::Runs(workload) => {
            let folder = usable::<R, S, F, D>(folder)?;
            let Origin { start, capacity } = origin;
            let base = base_of::<R, S, F, E>(alloc, start, errors)?;
            let (outcome, folder) = run_read::<F, D, G, H>(
                rt, context, workload, base, capacity, folder,
            )?;
            Ok((Printed::Whole(outcome), folder))
        }
    }
}

// Runs the workload over a new store, which starts from the base and has room for this many keys. If the base has more of them no
// file is made.
fn run_read<
    F: Write + Drop + Send,
    D: NewFiles<F> + Drop,
    G: ClientGate + Sync,
    H: Threads + Wait + Sync,
>(
    rt: &H,
    context: &RunContext<'_, G>,
    workload: Workload,
    base: Base,
    capacity: u32,
    folder: Option<D>,
) -> Result<(RunReport, Option<D>), ThreadsFault<F>>
    requires start { base.point ≡ 0 }
    requires capacity { (1 ≤ capacity) × (capacity ≤ MOST_KEYS) }
    requires seats { HaveSeats (new_sitters MOST_SESSIONS) workload.clients }
    ensures run { IfOk result (λ r. IsWorkloadRun D.holds (run_setting base capacity) workload (is_some folder) r.1 r.0) }
    ensures ended { IfErr result (EndsRun (RefusedBy D.refuses folder) (run_setting base capacity) workload (is_some folder)) }
{
    if base.pairs().len() > capacity as usize {
        return Err(ThreadsFault::Refused(Refusal::Full));
    }
    let (folder, log) = begin(folder, &base)?;
    let opened = Opened::new(context.alloc, base, MOST_SESSIONS, capacity, context.seed)?;
    run_store::<Brand, F, D, G, H>(rt, context, opened, workload, folder, log)
}

// Begins the files of the folder, if there is one. A file of which a call failed is returned.
fn begin<F: Write + Drop, D: NewFiles<F> + Drop>(
    folder: Option<D>,
    base: &Base,
) -> Result<(Option<D>, Option<Tally<F>>), FileFault<F>>
    ensures there { IfOk result (λ r. is_some r.0 ≡ is_some folder) }
    ensures begun { IfOk result (λ r. HasBegunFiles D.holds F.contents D.blank base.now r.0 r.1) }
    ensures refusals { IfOk result (λ r. RefusesNoMore (RefusedBy D.refuses folder) (RefusedBy D.refuses r.0)) }
    ensures lost { IfErr result (λ lost. IsTrue (is_some folder) × IsBeginLost (RefusedBy D.refuses folder) lost) }
{
    match folder {
        Some(mut folder) => {
            let log = begin_files(&mut folder, base)?;
            Ok((Some(folder), Some(log)))
        }
        None => Ok((None, None)),
    }
}
