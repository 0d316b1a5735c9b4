//! The entries and pairs of a text, one by one.
ghost use Rattle.std.specs.Prelude.{◌≡◌};

use crate::found::put_refusal;
use crate::kinds::Kind;
use pc_bases::Base;
use pc_io::{Format, Tally};
use pc_log::{LastToken, read_entry, read_header};
use pc_part::{Part, Range};
use pc_taken::LentTriple;
use pc_types::{Change, Entry, Key, Phase, Refusal, Value};
use std::alloc::Global;
use std::io::Write;

/// Prints the head and each entry or pair of the text.
pub fn put_items<W: Write>(
    alloc: Global,
    kind: Kind,
    bytes: &[u8],
    out: &mut Tally<W>,
) -> Result<(), Refusal> {
    match kind {
        Kind::Part => match Part::decode(alloc, bytes) {
            Ok(part) => put_part(alloc, &part, out),
            Err(refusal) => put_refusal(alloc, refusal, out),
        },
        Kind::Base => match Base::decode(alloc, bytes) {
            Ok(base) => put_base(alloc, &base, out),
            Err(refusal) => put_refusal(alloc, refusal, out),
        },
        Kind::Log => match read_header(bytes) {
            Ok((format, run, rest)) => put_log(alloc, format, run, rest, out),
            Err(refusal) => put_refusal(alloc, refusal, out),
        },
    }
}

/// Prints the part: its run, its points, the last of them if they are all from 1 on, and its entries.
pub fn put_part<W: Write>(alloc: Global, part: &Part, out: &mut Tally<W>) -> Result<(), Refusal> {
    let run = part.run();
    let complete = match part.complete_to() {
        Some(point) => point.0,
        None => 0,
    };
    let head = format!(in alloc; "run {run} complete to {complete} points")?;
    out.put(head.as_bytes())?;
    put_ranges(alloc, part.ranges(), out)?;
    for entry in part.entries() {
        put_entry(alloc, &entry, out)?;
    }
    Ok(())
}

fn put_ranges<W: Write>(
    alloc: Global,
    ranges: &[Range],
    out: &mut Tally<W>,
) -> Result<(), Refusal> {
    for range in ranges {
        let text = format!(in alloc; " {}-{}", range.low.0, range.high.0)?;
        out.put(text.as_bytes())?;
    }
    out.put(b"\n")
}

fn put_entry<W: Write>(
    alloc: Global,
    entry: &LentTriple,
    out: &mut Tally<W>,
) -> Result<(), Refusal> {
    let point = format!(in alloc; "point {} ", entry.point.0)?;
    out.put(point.as_bytes())?;
    put_write(alloc, entry.key, entry.content, out)?;
    out.put(b"\n")
}

// A key and its value, or that it has none.
fn put_write<W: Write>(
    alloc: Global,
    key: &Key,
    content: &Option<Value>,
    out: &mut Tally<W>,
) -> Result<(), Refusal> {
    put_key(alloc, key, out)?;
    match content {
        Some(value) => {
            out.put(b" = ")?;
            put_hex(alloc, value.as_bytes(), out)
        }
        None => out.put(b" tombstone"),
    }
}

// A key: its space if that isn't 0, and its own bytes.
fn put_key<W: Write>(alloc: Global, key: &Key, out: &mut Tally<W>) -> Result<(), Refusal> {
    if key.space() != 0 {
        let space = format!(in alloc; "{}:", key.space())?;
        out.put(space.as_bytes())?;
    }
    put_hex(alloc, key.own_bytes(), out)
}

/// Prints the bytes in hexadecimal digits, none as `-`.
pub fn put_hex<W: Write>(alloc: Global, bytes: &[u8], out: &mut Tally<W>) -> Result<(), Refusal> {
    if bytes.is_empty() {
        return out.put(b"-");
    }
    let digits = hex::encode(alloc, bytes)?;
    out.put(digits.as_bytes())
}

/// Prints the base: its run, its point and its pairs.
pub fn put_base<W: Write>(alloc: Global, base: &Base, out: &mut Tally<W>) -> Result<(), Refusal> {
    let head = format!(in alloc; "run {} point {}\n", base.run(), base.point().0)?;
    out.put(head.as_bytes())?;
    for (key, value) in base.pairs() {
        put_key(alloc, key, out)?;
        out.put(b" = ")?;
        put_hex(alloc, value.as_bytes(), out)?;
        out.put(b"\n")?;
    }
    Ok(())
}

// The run, and each entry by its number in a log to which they are appended, with how many bytes are left after it; and the
// fault after the last.
fn put_log<W: Write>(
    alloc: Global,
    format: Format,
    run: u64,
    bytes: &[u8],
    out: &mut Tally<W>,
) -> Result<(), Refusal> {
    let head = format!(in alloc; "run {run}\n")?;
    out.put(head.as_bytes())?;
    let mut log: Vec<Entry> = Vec::new(alloc);
    let mut last = LastToken::none();
    let mut rest = bytes;
    for _ in 0..bytes.len() {
        if rest.is_empty() {
            break;
        }
        match read_entry(alloc, format, last, rest) {
            Ok((entry, after)) => {
                last = last.after(&entry);
                rest = after;
                put_logged(alloc, &mut log, entry, rest.len(), out)?;
            }
            Err(fault) => return put_refusal(alloc, fault, out),
        }
    }
    Ok(())
}

fn put_logged<W: Write>(
    alloc: Global,
    log: &mut Vec<Entry>,
    entry: Entry,
    left: usize,
    out: &mut Tally<W>,
) -> Result<(), Refusal> {
    log.push(entry)?;
    let number = log.len();
    let head = format!(in alloc; "{number} of {number} left {left}: ")?;
    out.put(head.as_bytes())?;
    match log.last() {
        Some(entry) => put_body(alloc, entry, out),
        None => Ok(()),
    }
}

fn put_body<W: Write>(alloc: Global, entry: &Entry, out: &mut Tally<W>) -> Result<(), Refusal> {
    match entry {
        Entry::Commit(session, writes) => {
            let head = format!(in alloc; "commit of {}", session.0)?;
            out.put(head.as_bytes())?;
            for write in writes.as_slice() {
                out.put(b" ")?;
                put_change(alloc, write, out)?;
            }
            out.put(b"\n")
        }
        Entry::Token(phase, point) => {
            let text = format!(in alloc; "{} {}\n", name_of(*phase), point.0)?;
            out.put(text.as_bytes())
        }
    }
}

// A key with its value, that it has none, or what is added to it.
fn put_change<W: Write>(
    alloc: Global,
    write: &pc_types::Write,
    out: &mut Tally<W>,
) -> Result<(), Refusal> {
    put_key(alloc, &write.key, out)?;
    match &write.change {
        Change::Set(value) => {
            out.put(b" = ")?;
            put_hex(alloc, value.as_bytes(), out)
        }
        Change::Remove => out.put(b" tombstone"),
        Change::Add(delta) => {
            let text = format!(in alloc; " + {delta}")?;
            out.put(text.as_bytes())
        }
    }
}

fn name_of(phase: Phase) -> &'static str {
    match phase {
        Phase::Rest => "rest",
        Phase::Prepare => "prepare",
        Phase::Resolve => "resolve",
        Phase::Capture => "capture",
        Phase::Complete => "complete",
    }
}
