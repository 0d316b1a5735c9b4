//! A run of a script, from its reader to the status.
ghost use Rattle.std.specs.Prelude.{◌≡◌, IfOk, IfErr};
ghost use Rattle.std.specs.Io.KnownBytes.{Keeps};
ghost use Rattle.pc_types.specs.declared.refusal.Refusal.{Refusal};
ghost use Rattle.pc_io.specs.Tallies.{inner_of, failures_of};
ghost use Rattle.pc_io.specs.Counted.{HasRisen};
ghost use Rattle.pc_script.specs.declared.script.Status.{Status};
ghost use Rattle.pc_script.specs.Runs.{exit_of, AnswersAll, AnswersInPart, IsScriptFailure, IsFault};
ghost use Rattle.pc_texts.specs.Files.{TellsOf};
ghost use Rattle.pc_texts.specs.declared.files.Unread.TheVariants as Unread;

use crate::script::{Status, answer_script};
use crate::setup::Setup;
use pc_io::Tally;
use pc_texts::{Unread, end_output, read_opened, report};
use pc_types::Refusal;
use std::alloc::Global;
use std::hash::RandomState;
use std::io::{Read, Write};

/// Why a run ended without a status of the script's own.
#[derive(Drop)]
enum ScriptFault<R> {
    /// The script isn't there, can't be read, or is too large for memory.
    Script(Unread<R>),
    /// The output failed.
    Output,
}

/// The outcome of a script's run.
#[derive(Drop)]
pub struct EndedScript<R> {
    pub status: u8,
    /// Why the script isn't answered to its end, if that is reported: it isn't there, can't be read, or is too large for
    /// memory.
    pub unread: Option<Unread<R>>,
}

/// Reads a script, answers its lines and returns the exit status: 0 if each line was answered, 3 if some line is a bad line,
/// and otherwise 1. If the script isn't there, can't be read or is too large for memory, a line on the error writer reports it;
/// if the output fails, or the store can't be made because an allocation failed, nothing is reported there. It gives 1 for no
/// other cause: the script's fault is reported, the output's failures have increased, or the lines end with the store not made.
/// Of a script that can't be read nothing went out; otherwise at the status 1 a prefix of what its first lines print. The seed
/// is that of the hashes of the store's keys: a random 128-bit number (`RandomState::new`), so that no script can pick keys
/// that all share a chain. What may be printed doesn't depend on it.
pub fn run_script<R: Read + Drop, W: Write, E: Write>(
    alloc: Global,
    setup: Setup,
    seed: RandomState,
    name: &str,
    opened: Result<R, Refusal>,
    out: &mut Tally<W>,
    errors: &mut Tally<E>,
) -> EndedScript<R>
    ensures answered { ¬ (result.status ≡ 1) → (status : Status) × (result.status ≡ exit_of status) × AnswersAll R.remaining W.contents setup opened out.old out.new status }
    ensures quiet { ¬ (result.status ≡ 1) → Keeps (E.contents (inner_of errors.old)) (E.contents (inner_of errors.new)) }
    ensures told { IfErr opened (λ why. (result.status ≡ 1) × (out.new ≡ out.old) × TellsOf E.contents errors.old errors.new name.now why) }
    ensures in_part { result.status ≡ 1 → AnswersInPart R.remaining W.contents setup opened out.old out.new }
    ensures cause { result.status ≡ 1 → IsScriptFailure R.remaining W.contents setup opened out.old out.new result.unread (errors.new ≡ errors.old) (TellsOf E.contents errors.old errors.new name.now) }
{
    match answer_opened(alloc, setup, seed, opened, out) {
        Ok(status) => {
            let status = exit_code(status);
            EndedScript {
                status,
                unread: None,
            }
        }
        Err(ScriptFault::Script(why)) => {
            let _ = report(name.as_bytes(), why.refusal(), errors);
            let unread = Some(why);
            EndedScript { status: 1, unread }
        }
        Err(ScriptFault::Output) => EndedScript {
            status: 1,
            unread: None,
        },
    }
}

fn exit_code(status: Status) -> u8
    ensures { result ≡ exit_of status }
{
    match status {
        Status::Done => 0,
        Status::BadLines => 3,
        Status::NoStore => 1,
    }
}

fn answer_opened<R: Read + Drop, W: Write>(
    alloc: Global,
    setup: Setup,
    seed: RandomState,
    opened: Result<R, Refusal>,
    out: &mut Tally<W>,
) -> Result<Status, ScriptFault<R>>
    ensures answered { IfOk result (AnswersAll R.remaining W.contents setup opened out.old out.new) }
    ensures unopened { IfErr opened (λ why. (result ≡ Err (ScriptFault.Script (Unread.Absent why))) × (out.new ≡ out.old)) }
    ensures in_part { AnswersInPart R.remaining W.contents setup opened out.old out.new }
    ensures cause { IfErr result (IsFault opened out.old out.new) }
{
    let script = match read_opened(alloc, opened) {
        Ok(script) => script,
        Err(why) => return Err(ScriptFault::Script(why)),
    };
    let answered = answer_script(alloc, setup, seed, &script, out);
    match end_output(answered, out) {
        Ok(status) => Ok(status),
        Err(Refusal::Device) => Err(ScriptFault::Output),
        Err(_) => Err(ScriptFault::Script(Unread::NoMemory)),
    }
}
