//! Reads rows of small databases, writes, logs and files, and prints what `pc_replay` makes of them.
//!
//! A key or value is one byte, a value also a capital letter: the number that is its place in the alphabet, in eight bytes, 0 for
//! `A`. Pairs, writes and entries are such bytes in turn, `-` for what is absent, and `.` alone for none of them. A write may add to
//! a key: `+` 1, `<` -1, `>` the greatest number there is; a greater number than 25 is printed as `?`. A log is commits, each its writes, and tokens, `^N` for that of prepare and `|N` for that of resolve, parted by commas. A
//! file is its point, `:`, and its triples: a key, a point's digit and a value each.
//!
//!     overlay PAIRS WRITES     the pairs written over in place, and by the plain form
//!     replay PAIRS LOG         the pairs after the log, and before the tokens of the points 1 and 2, each with its place lay PAIRS
//!     POINT TRIPLES  the pairs at the point with the triples applied
//!     first ENTRIES            the first entry of each key, ascending
//!     audit LOG FILE..         whether each file is correct
//!     holds LOG PAIRS          whether the pairs are the log replayed
#![tactic(auto)]

mod rows;
mod texts;

use bstr::ByteSlice;
use pc_io::{Tally, read_all};
use pc_types::Refusal;
use rows::answer;
use std::alloc::Global;
use std::io;
use std::io::{BufWriter, Write};
use std::process::ExitCode;

fn main(rt: HostRuntime) -> ExitCode {
    match run_input(&rt) {
        Ok(()) => ExitCode::from(0),
        Err(_) => ExitCode::from(1),
    }
}

fn run_input(rt: &HostRuntime) -> io::Result<()> {
    let alloc = rt.alloc();
    let Ok(text) = read_all(alloc, &mut Tally::new(rt.reader())) else {
        return Err(io::ErrorKind::Other.into());
    };
    let mut out = Tally::new(BufWriter::new(alloc, io::writer(rt))?);
    for line in text.as_slice().lines() {
        if tell(alloc, line, &mut out).is_err() {
            return Err(io::ErrorKind::Other.into());
        }
    }
    out.flush()
}

// The line, and what it comes to.
fn tell<W: Write>(alloc: Global, line: &[u8], out: &mut Tally<W>) -> Result<(), Refusal> {
    let words = words_of(alloc, line)?;
    let answer = answer(alloc, &words)?;
    out.put_all(&[line, b": ", &answer, b"\n"])
}

fn words_of<'a>(alloc: Global, line: &'a [u8]) -> Result<Vec<&'a [u8]>, Refusal> {
    Ok(line.split(|byte| *byte == b' ').collect(alloc)?)
}
