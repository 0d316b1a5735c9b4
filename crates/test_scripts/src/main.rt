//! Runs the rows of its input, scripts and folders of files, and prints what each prints with its status.
//!
//! A row begins with a line `== NAME KIND`, and the lines up to the next such line are its own.
//!
//! | kind | lines | what is printed |
//! |---|---|---|
//! | `step`, with `--sessions N`, `--capacity N`, `--run N` as for `pcalc step`, and `--bare` | a script; `--bare` drops its last byte, the end of its last line | what it prints against a store of its own |
//! | `recover` | `FILE HEX`, a file of a folder with its bytes, or `FILE NoFile` and `FILE Device`, why it can't be opened; the folder itself is `.` | what a recovery of the folder prints |
//! | `cuts` | the same | the same for each prefix of `log.pcl`, by its length, if it is another than that of the one before |
//! | either with `--strict` | the same | the same of a strict recovery, and before its status what it did without |
#![tactic(auto)]

ghost use Rattle.std.specs.Prelude.{◌≤◌};

mod folders;
mod heads;

use bstr::ByteSlice;
use folders::{files_of, put_cuts, put_recovery};
use heads::{FolderRow, RowHead, ScriptStep, head_of};
use pc_io::{Tally, read_all};
use pc_script::run_script;
use pc_types::Refusal;
use std::alloc::Global;
use std::hash::RandomState;
use std::io;
use std::io::{BufWriter, Write};
use std::process::ExitCode;

// The status is 1 if memory, the input, the output or the draw of a seed failed.
fn main(rt: HostRuntime) -> ExitCode {
    match run_input(&rt) {
        Ok(()) => ExitCode::from(0),
        Err(_) => ExitCode::from(1),
    }
}

fn run_input(rt: &HostRuntime) -> io::Result<()> {
    let alloc = rt.alloc();
    let text = match read_all(alloc, &mut Tally::new(rt.reader())) {
        Ok(text) => text,
        Err(_) => return Err(io::ErrorKind::Other.into()),
    };
    let mut out = Tally::new(BufWriter::new(alloc, io::writer(rt))?);
    match run_rows(alloc, RandomState::new(rt)?, &text, &mut out) {
        Ok(()) => out.flush(),
        Err(_) => Err(io::ErrorKind::Other.into()),
    }
}

// The line that begins a row, and the lines of the row, each with its end.
#[derive(Drop)]
struct ScriptRow {
    head: Vec<u8>,
    lines: Vec<u8>,
}

// The stores of all scripts hash their keys under one seed.
fn run_rows<W: Write>(
    alloc: Global,
    seed: RandomState,
    text: &[u8],
    out: &mut Tally<W>,
) -> Result<(), Refusal> {
    let mut row = new_row(alloc, b"")?;
    for line in text.lines_with_terminator() {
        if line.starts_with(b"== ") {
            run_row(alloc, seed, &row, out)?;
            row = new_row(alloc, line)?;
        } else {
            row.lines.extend_from_slice(line)?;
        }
    }
    run_row(alloc, seed, &row, out)
}

fn new_row(alloc: Global, head: &[u8]) -> Result<ScriptRow, Refusal> {
    let head = Vec::from_slice(alloc, head)?;
    let lines = Vec::new(alloc);
    Ok(ScriptRow { head, lines })
}

// Lines that no row has are passed over.
fn run_row<W: Write>(
    alloc: Global,
    seed: RandomState,
    row: &ScriptRow,
    out: &mut Tally<W>,
) -> Result<(), Refusal> {
    if row.head.is_empty() {
        return Ok(());
    }
    out.put(&row.head)?;
    match head_of(alloc, &row.head) {
        Some(RowHead::Step(step)) => run_step(alloc, seed, &step, &row.lines, out),
        Some(RowHead::Folder(folder)) => run_folder(alloc, &row.lines, folder, out),
        None => out.put(b"bad head\n"),
    }
}

// The folder of the files of these lines.
fn run_folder<W: Write>(
    alloc: Global,
    lines: &[u8],
    folder: FolderRow,
    out: &mut Tally<W>,
) -> Result<(), Refusal> {
    let Some(files) = files_of(alloc, lines)? else {
        return out.put(b"bad line\n");
    };
    if folder.has_cuts {
        return put_cuts(alloc, &files, folder.is_strict, out);
    }
    put_recovery(alloc, &files, folder.is_strict, out)
}

fn run_step<W: Write>(
    alloc: Global,
    seed: RandomState,
    step: &ScriptStep,
    lines: &[u8],
    out: &mut Tally<W>,
) -> Result<(), Refusal> {
    let mut script = lines;
    if step.is_bare {
        if let Some((_, front)) = lines.split_last() {
            script = front;
        }
    }
    let mut errors = Tally::new(Vec::new(alloc));
    let ended = run_script(alloc, step.setup, seed, "s", Ok(script), out, &mut errors);
    out.put(&errors.into_inner())?;
    put_status(ended.status, out)
}

fn put_status<W: Write>(status: u8, out: &mut Tally<W>) -> Result<(), Refusal> {
    match status {
        0 => out.put(b"status 0\n"),
        3 => out.put(b"status 3\n"),
        _ => out.put(b"status 1\n"),
    }
}
