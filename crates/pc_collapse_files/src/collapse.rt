//! A collapse of part files, from their readers to the status.
ghost use Rattle.std.specs.Prelude.{◌≡◌, ◌⊎◌, None, IfErr, MatchBool, OnOk};
ghost use Rattle.std.specs.declared.result.Result.{Result};
ghost use Rattle.pc_types.specs.declared.refusal.Refusal.{Refusal};
ghost use Rattle.pc_io.specs.Tallies.{Puts};
ghost use Rattle.pc_collapse_files.specs.Collapses.{IsCollapseCause, IsCollapseDone, IsCollapseFailed, IsLeftByCollapse, IsCollapseTold, TellsUsage, has_file_named, usage_text};

use crate::inputs::{CollapseFault, UnopenedInputs, is_input, open_inputs};
use crate::output::{Maker, Unfinished, WrittenFile, name_file, print, unmade, write_file};
use pc_io::Tally;
use pc_streams::PartReader;
use pc_texts::{NamedFile, report, report_words};
use pc_types::Refusal;
use std::alloc::Global;
use std::io::{Read, Write};

/// How a collapse ended: its exit status; if the inputs ended it, their readers, with the number of their reads that failed; and
/// the file that was begun and could not be written whole, if there is one, with the number of its calls that failed.
#[derive(Drop)]
pub struct EndedCollapse<R, F> {
    pub status: u8,
    pub inputs: Vec<PartReader<R>>,
    pub begun: Option<Tally<F>>,
}

/// Joins part files to a file that the maker makes, and prints the points of the join and the number of its entries. First the
/// header of each is read, in their order; then the file is made, and the entries are read, joined and written in order, with no
/// more in memory than an entry and a piece of each file; then the file gets its name. Its status is
///
/// - 0 if all of that was done;
/// - 2 if an input has the name of the file that is to be written: nothing is read or made, and a line on the error writer says so;
/// - otherwise 1, and a line on the error writer reports the fault: by the name of the first input that can't be opened; otherwise
///   by the name of the file that is to be written, if an input can't be read or is refused, the parts can't be joined, an
///   allocation failed, or the file can't be made, written or named. An output that fails isn't reported. `Device` is reported of
///   the inputs if and only if a read of theirs failed, which the returned readers have counted; for the maker its own refusal is
///   reported.
///
/// No file is made before the headers of all inputs are read. Until a file is whole, the earlier text under its name stays,
/// whatever fails. A file that was made, and could not be written whole, is read as `Short`.
pub fn run_collapse<R: Read + Drop, F: Write + Drop, M: Maker<F>, W: Write, E: Write>(
    alloc: Global,
    name: &str,
    files: Vec<NamedFile<R>>,
    maker: &mut M,
    out: &mut Tally<W>,
    errors: &mut Tally<E>,
) -> EndedCollapse<R, F>
    ensures status { (result.status ≡ 0) ⊎ (result.status ≡ 1) ⊎ (result.status ≡ 2) }
    ensures usage { MatchBool (has_file_named files.items name.now)
        ((result.status ≡ 2) × (result.begun ≡ None) × (maker.new ≡ maker.old) × (out.new ≡ out.old) × TellsUsage E.contents errors.old errors.new name.now)
        (¬ (result.status ≡ 2)) }
    ensures done { result.status ≡ 0 → IsCollapseDone R.remaining F.contents W.contents files.items (M.stands maker.new) out.old out.new × (errors.new ≡ errors.old) × (result.begun ≡ None) }
    ensures cause { result.status ≡ 1 → IsCollapseFailed R.remaining F.contents W.contents files.items result.inputs.items (M.refuses maker.new) result.begun (M.stands maker.old) (M.stands maker.new) out.old out.new (IsCollapseTold E.contents errors.old errors.new name.now) }
{
    if is_input(&files, name.as_bytes()) {
        let _ = put_usage(name, errors);
        return ended(alloc, 2);
    }
    match collapse(alloc, files, maker, out) {
        Ok(()) => ended(alloc, 0),
        Err(
            Unfinished {
                inputs,
                file,
                fault,
            },
        ) => {
            tell(name, &fault, errors);
            let (status, begun) = (1, file);
            EndedCollapse {
                status,
                inputs,
                begun,
            }
        }
    }
}

// The collapse ended with this status, and returns no files.
fn ended<R, F>(alloc: Global, status: u8) -> EndedCollapse<R, F>
    ensures { (result.status ≡ status) × (result.begun ≡ None) }
{
    EndedCollapse {
        status,
        inputs: Vec::new(alloc),
        begun: None,
    }
}

// Reports that an input has the name of the file that is to be written.
fn put_usage<E: Write>(name: &str, errors: &mut Tally<E>) -> Result<(), Refusal>
    ensures { Puts E.contents errors.old errors.new result (usage_text name.now) }
{
    report_words(name.as_bytes(), b"an input has this name", errors)
}

// Reports the fault.
fn tell<E: Write>(name: &str, fault: &CollapseFault, errors: &mut Tally<E>)
    ensures { IsCollapseTold E.contents errors.old errors.new name.now fault.now }
{
    let _ = match fault {
        CollapseFault::Unopened(input, why) => report(input, *why, errors),
        CollapseFault::Refused(why) => report(name.as_bytes(), *why, errors),
        CollapseFault::Unmade(why) => report(name.as_bytes(), *why, errors),
        CollapseFault::Unjoined(why) => report(name.as_bytes(), *why, errors),
        CollapseFault::Unwritten => report(name.as_bytes(), Refusal::Device, errors),
        CollapseFault::Unnamed(why) => report(name.as_bytes(), *why, errors),
        CollapseFault::Output => Ok(()),
    };
}

// Makes, writes and names the file, and prints its line.
fn collapse<R: Read + Drop, F: Write + Drop, M: Maker<F>, W: Write>(
    alloc: Global,
    files: Vec<NamedFile<R>>,
    maker: &mut M,
    out: &mut Tally<W>,
) -> Result<(), Unfinished<R, F>>
    ensures done { OnOk result (IsCollapseDone R.remaining F.contents W.contents files.items (M.stands maker.new) out.old out.new) }
    ensures cause { IfErr result (λ unfinished. IsCollapseCause R.remaining files.items unfinished.inputs.items (M.refuses maker.new) unfinished.fault) }
    ensures left { IfErr result (λ unfinished. IsLeftByCollapse R.remaining F.contents W.contents files.items unfinished.fault unfinished.file (M.stands maker.old) (M.stands maker.new) out.old out.new) }
{
    let inputs = match open_inputs(alloc, files) {
        Ok(inputs) => inputs,
        Err(unopened) => return Err(unstarted(unopened)),
    };
    let WrittenFile {
        file,
        points,
        entries,
    } = write_file(alloc, inputs, maker)?;
    match name_file(maker, file) {
        Ok(()) => match print(out, points.as_slice(), u64::from(entries)) {
            Ok(()) => Ok(()),
            Err(fault) => Err(unmade(Vec::new(alloc), fault)),
        },
        Err(fault) => Err(unmade(Vec::new(alloc), fault)),
    }
}

// No file is made if the inputs have no header together.
fn unstarted<R, F>(unopened: UnopenedInputs<R>) -> Unfinished<R, F>
    ensures { result ≡ record { inputs = unopened.readers; file = None; fault = unopened.fault } }
{
    let UnopenedInputs { readers, fault } = unopened;
    unmade(readers, fault)
}
