//! The reports of a run that failed, and of an output that did.
ghost use Rattle.std.specs.Prelude.{◌≡◌, IfErr, IfOk, OnOk, is_some};
ghost use Rattle.std.specs.Io.KnownBytes.{Appends};
ghost use Rattle.pc_io.specs.Counted.{HasRisen, AppendsBeginning};
ghost use Rattle.pc_io.specs.Tallies.{inner_of, failures_of};
ghost use Rattle.pc_outcomes.specs.Outcomes.{printed_text};
ghost use Rattle.pc_runs.specs.Runs.{IsRunTold, IsUsable, IsUnusable, maker_of};

use crate::files::{RunFolder, Unusable, report_unmade};
use pc_io::Tally;
use pc_outcomes::Printed;
use pc_restore::{Lost, tell_lost, tell_reason};
use pc_texts::{Unread, end_output, report};
use pc_threads::ThreadsFault;
use pc_types::Refusal;
use std::io::Write;

/// Why nothing, or not all, is printed of a workload. A file whose device failed is returned, and has counted the failure.
#[derive(Drop)]
pub enum RunFailure<R, S, F> {
    /// It was not run: it isn't there, can't be read, or is too large for memory.
    Unread(Unread<R>),
    /// Its run failed.
    Run(ThreadsFault<F>),
    /// It was not run: the folder of this name can't be used for its files.
    Folder(Vec<u8>, Unusable),
    /// It was not run: nothing can be recovered of the folder of this name, which it was to start from, or it is damaged.
    Start(Vec<u8>, Lost<S>),
    /// The output failed.
    Output,
}

impl<R, S, F> From<ThreadsFault<F>> for RunFailure<R, S, F> {
    ghost use Rattle.pc_runs.specs.declared.failure.RunFailure.TheVariants.{Run};

    ghost from_gives = { λ fault failure. failure ≡ Run fault };

    fn from(fault: ThreadsFault<F>) -> RunFailure<R, S, F> {
        RunFailure::Run(fault)
    }
}

impl<R, S, F> From<Unread<R>> for RunFailure<R, S, F> {
    ghost use Rattle.pc_runs.specs.declared.failure.RunFailure.TheVariants.{Unread};

    ghost from_gives = { λ why failure. failure ≡ Unread why };

    fn from(why: Unread<R>) -> RunFailure<R, S, F> {
        RunFailure::Unread(why)
    }
}

/// The maker of the folder's files, if there is a folder.
pub fn usable<R, S, F, D: Drop>(
    folder: Option<RunFolder<D>>,
) -> Result<Option<D>, RunFailure<R, S, F>>
    ensures usable { OnOk result (IsUsable folder) }
    ensures maker { IfOk result (λ files. files ≡ maker_of folder) }
    ensures there { IfOk result (λ files. is_some files ≡ is_some folder) }
    ensures unusable { IfErr result (IsUnusable folder) }
{
    let Some(RunFolder { name, files }) = folder else {
        return Ok(None);
    };
    match files {
        Ok(files) => Ok(Some(files)),
        Err(why) => Err(RunFailure::Folder(name, why)),
    }
}

/// Writes the lines out; if that fails, the output has failed, and a beginning went out.
pub fn print<R, S, F, W: Write>(
    printed: &Printed,
    out: &mut Tally<W>,
) -> Result<(), RunFailure<R, S, F>>
    ensures printed { OnOk result (Appends (W.contents (inner_of out.old)) (W.contents (inner_of out.new)) (printed_text printed.now) × (failures_of out.new ≡ failures_of out.old)) }
    ensures failed { IfErr result (λ why. (why ≡ RunFailure.Output) × HasRisen (failures_of out.old) (failures_of out.new)
        × AppendsBeginning (W.contents (inner_of out.old)) (W.contents (inner_of out.new)) (printed_text printed.now)) }
{
    let put = printed.put(out);
    match end_output(put, out) {
        Ok(()) => Ok(()),
        Err(_) => Err(RunFailure::Output),
    }
}

impl<R, S, F> RunFailure<R, S, F> {
    /// Writes the line of the failure, by the name of the workload, of a file or of a folder; nothing if the output failed.
    pub fn report<E: Write>(&self, workload: &[u8], errors: &mut Tally<E>)
        ensures { IsRunTold E.contents errors.old errors.new workload.now self.now }
    {
        let _ = match self {
            RunFailure::Unread(why) => report(workload, why.refusal(), errors),
            RunFailure::Run(fault) => match fault {
                ThreadsFault::Refused(why) => report(workload, *why, errors),
                ThreadsFault::Unmade(file, why) => report_unmade(*file, *why, errors),
                ThreadsFault::Failed(_) => report(workload, Refusal::Device, errors),
                ThreadsFault::NoThread => tell_reason(workload, b"NoThread", errors),
            },
            RunFailure::Folder(folder, unusable) => match unusable {
                Unusable::NotEmpty => tell_reason(folder, b"NotEmpty", errors),
                Unusable::Unlisted(why) => report(folder, *why, errors),
            },
            RunFailure::Start(old, lost) => {
                tell_lost(old, lost, errors);
                Ok(())
            }
            RunFailure::Output => Ok(()),
        };
    }
}
