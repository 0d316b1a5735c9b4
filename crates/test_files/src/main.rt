//! Reads the texts of its input as part files, base files and logs, and prints what each holds.
//!
//! A line of the input is `KIND NAME VERBS HEX ..`: a kind of file, a name for the reader, verbs with commas between them,
//! and texts in hexadecimal digits.
//!
//! | verb | what is printed |
//! |---|---|
//! | `read` | what the text holds |
//! | `list` | each entry or pair of the text |
//! | `write` | the text that is written of what the text holds, of a log of its whole entries |
//! | `cuts` | what each proper prefix of the text holds |
//! | `changes` | what the text holds with each byte in turn of each value |
//! | `longer` | what the text holds with one byte more, of each value |
//! | `join` | the parts that the texts hold, joined from the left |
//! | `stream` | the same, written as the texts are read, or why not, and what is then read of what was written |
//! | `lay` | the base that the first text holds, with the parts of the others applied to it from the left |
#![tactic(auto)]

mod found;
mod items;
mod kinds;
mod streams;
mod sweeps;
mod unions;

use bstr::ByteSlice;
use items::put_items;
use kinds::{Kind, Verb, kind_of, verb_of};
use pc_io::{Tally, read_all};
use pc_types::Refusal;
use std::alloc::Global;
use std::io;
use std::io::{BufWriter, Write};
use std::process::ExitCode;
use streams::put_streamed;
use sweeps::{put_changes, put_cuts, put_longer, put_read};
use unions::{put_joined, put_laid, put_rewritten};

fn main(rt: HostRuntime) -> ExitCode {
    match run_input(&rt) {
        Ok(()) => ExitCode::from(0),
        Err(_) => ExitCode::from(1),
    }
}

fn run_input(rt: &HostRuntime) -> io::Result<()> {
    let alloc = rt.alloc();
    let text = match read_all(alloc, &mut Tally::new(rt.reader())) {
        Ok(text) => text,
        Err(_) => return Err(io::ErrorKind::Other.into()),
    };
    let mut out = Tally::new(BufWriter::new(alloc, io::writer(rt))?);
    match run_lines(alloc, &text, &mut out) {
        Ok(()) => out.flush(),
        Err(_) => Err(io::ErrorKind::Other.into()),
    }
}

fn run_lines<W: Write>(alloc: Global, text: &[u8], out: &mut Tally<W>) -> Result<(), Refusal> {
    for line in text.lines() {
        run_line(alloc, line, out)?;
    }
    Ok(())
}

fn run_line<W: Write>(alloc: Global, line: &[u8], out: &mut Tally<W>) -> Result<(), Refusal> {
    let words: Vec<&[u8]> = line.split(|byte| *byte == b' ').collect(alloc)?;
    let [kind, name, verbs, texts @ ..] = words.as_slice() else {
        return out.put(b"bad line\n");
    };
    let (Some(kind), Some(texts)) = (kind_of(kind), decoded(alloc, texts)) else {
        return out.put(b"bad line\n");
    };
    for verb in verbs.split(|byte| *byte == b',') {
        out.put_all(&[b"== ", name, b" ", verb, b"\n"])?;
        run_verb(alloc, kind, verb_of(verb), &texts, out)?;
    }
    Ok(())
}

// The bytes of each word, if all are of hexadecimal digits.
fn decoded(alloc: Global, words: &[&[u8]]) -> Option<Vec<Vec<u8>>> {
    let mut texts = Vec::new(alloc);
    for word in words {
        let bytes = hex::decode(alloc, *word).ok()?;
        texts.push(bytes).ok()?;
    }
    Some(texts)
}

fn run_verb<W: Write>(
    alloc: Global,
    kind: Kind,
    verb: Option<Verb>,
    texts: &[Vec<u8>],
    out: &mut Tally<W>,
) -> Result<(), Refusal> {
    let (Some(verb), Some((text, others))) = (verb, texts.split_first()) else {
        return out.put(b"bad line\n");
    };
    match verb {
        Verb::Read => put_read(alloc, kind, text, out),
        Verb::List => put_items(alloc, kind, text, out),
        Verb::Write => put_rewritten(alloc, kind, text, out),
        Verb::Cuts => put_cuts(alloc, kind, text, out),
        Verb::Changes => put_changes(alloc, kind, text, out),
        Verb::Longer => put_longer(alloc, kind, text, out),
        Verb::Join => put_joined(alloc, text, others, out),
        Verb::Stream => put_streamed(alloc, texts, out),
        Verb::Lay => put_laid(alloc, text, others, out),
    }
}
