//! The lines of a log, from its reader to the status.
ghost use Rattle.std.specs.Prelude.{◌≡◌, ◌≢◌, ◌⊎◌, ℕ, List, IfOk, IfErr, IsOk, MatchOption, OnOk};
ghost use Rattle.pc_types.specs.declared.refusal.Refusal.{Refusal};
ghost use Rattle.pc_io.specs.Tallies.{failures_of};
ghost use Rattle.pc_texts.specs.Files.{HoldsBytes, IsUnread};
ghost use Rattle.pc_texts.specs.declared.files.Unread.{Unread};
ghost use Rattle.pc_log_lines.specs.declared.run.LostLog.{LostLog};
ghost use Rattle.pc_log_lines.specs.Runs.{IsLogUnprinted, IsLostTold, PrintsLines};

use crate::reading::{EntryRange, put_log};
use pc_io::Tally;
use pc_texts::{Unread, end_output, read_opened, report};
use pc_types::Refusal;
use std::alloc::Global;
use std::io::{Read, Write};

/// Why not all lines of a log went out.
#[derive(Drop)]
pub enum LostLog<R> {
    /// The log can't be opened or read. A reader whose device failed is handed back, and has counted that.
    Unread(Unread<R>),
    /// An allocation failed.
    NoMemory,
    /// The output failed.
    Output,
}

/// The outcome of printing a log's lines.
#[derive(Drop)]
pub struct EndedLog<R> {
    pub status: u8,
    /// Why not all of them went out, if they didn't.
    pub lost: Option<LostLog<R>>,
}

/// Prints a line for each whole entry of a log whose number lies in the range, in their order, and a last one if the bytes after
/// them have a fault: which, and with which byte of the log, from 1, begins what has it. It gives the status
///
/// - 0 if the log is whole;
/// - 4 if it has a fault: its header, or the bytes after its whole entries, which may just be truncated;
/// - 1 if not all of that went out: the log can't be opened or read, or an allocation failed, for which the error writer gets a
///   line; or the output failed, for which it gets none. Then the cause is handed back.
///
/// The log is read whole; besides its bytes it allocates memory for one entry at a time.
pub fn run_log<R: Read + Drop, W: Write, E: Write>(
    alloc: Global,
    name: &str,
    opened: Result<R, Refusal>,
    range: EntryRange,
    out: &mut Tally<W>,
    errors: &mut Tally<E>,
) -> EndedLog<R>
    ensures statuses { (result.status ≡ 0) ⊎ (result.status ≡ 1) ⊎ (result.status ≡ 4) }
    ensures lines { ¬ (result.status ≡ 1) → PrintsLines R.remaining W.contents opened range out.old out.new result.status }
    ensures sound { ¬ (result.status ≡ 1) → failures_of out.new ≡ failures_of out.old }
    ensures quiet { ¬ (result.status ≡ 1) → errors.new ≡ errors.old }
    ensures cause { result.status ≡ 1 → MatchOption result.lost ⊥ (λ lost. IsLogUnprinted R.remaining W.contents opened range out.old out.new lost × IsLostTold E.contents errors.old errors.new name.now lost) }
{
    match print_log(alloc, opened, range, out) {
        Ok(status) => EndedLog { status, lost: None },
        Err(lost) => {
            tell_lost(name.as_bytes(), &lost, errors);
            EndedLog {
                status: 1,
                lost: Some(lost),
            }
        }
    }
}

// The lines of the log; the status.
fn print_log<R: Read + Drop, W: Write>(
    alloc: Global,
    opened: Result<R, Refusal>,
    range: EntryRange,
    out: &mut Tally<W>,
) -> Result<u8, LostLog<R>>
    ensures statuses { IfOk result (λ status. (status ≡ 0) ⊎ (status ≡ 4)) }
    ensures lines { IfOk result (λ status. PrintsLines R.remaining W.contents opened range out.old out.new status) }
    ensures sound { OnOk result (failures_of out.new ≡ failures_of out.old) }
    ensures cause { IfErr result (λ lost. IsLogUnprinted R.remaining W.contents opened range out.old out.new lost) }
{
    let bytes = read_bytes(alloc, opened)?;
    let put = put_log(alloc, range, &bytes, out);
    match end_output(put, out) {
        Ok(status) => Ok(status),
        Err(why) => Err(lost_by(why)),
    }
}

// Why not all lines went out, if this ended them: memory, or else the output.
fn lost_by<R>(why: Refusal) -> LostLog<R>
    ensures { ((why ≡ Refusal.OutOfMemory) × (result ≡ LostLog.NoMemory)) ⊎ ((why ≢ Refusal.OutOfMemory) × (result ≡ LostLog.Output)) }
{
    if why == Refusal::OutOfMemory {
        return LostLog::NoMemory;
    }
    LostLog::Output
}

// All bytes of the log.
fn read_bytes<R: Read + Drop>(
    alloc: Global,
    opened: Result<R, Refusal>,
) -> Result<Vec<u8>, LostLog<R>>
    ensures held { (held : List ℕ) → HoldsBytes R.remaining opened held → IfOk result (λ bytes. bytes.items ≡ held) }
    ensures opened { OnOk result (IsOk opened) }
    ensures cause { IfErr result (λ lost. (why : Unread R) × (lost ≡ LostLog.Unread why) × IsUnread opened why) }
{
    match read_opened(alloc, opened) {
        Ok(bytes) => Ok(bytes),
        Err(why) => Err(LostLog::Unread(why)),
    }
}

// Reports why not all lines of the log of this name went out. A fault of the output isn't reported.
fn tell_lost<R, E: Write>(name: &[u8], lost: &LostLog<R>, errors: &mut Tally<E>)
    ensures { IsLostTold E.contents errors.old errors.new name.now lost.now }
{
    let _ = match lost {
        LostLog::Unread(why) => report(name, why.refusal(), errors),
        LostLog::NoMemory => report(name, Refusal::OutOfMemory, errors),
        LostLog::Output => Ok(()),
    };
}
