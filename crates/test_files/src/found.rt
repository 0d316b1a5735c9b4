//! What a text holds.
ghost use Rattle.std.specs.Prelude.{◌≡◌, true};
ghost use Rattle.pc_model.specs.FewWrites.{HasFewWrites};

use crate::kinds::Kind;
use pc_bases::Base;
use pc_io::Tally;
use pc_log::{LogText, encode_entry, encode_header, read_log};
use pc_part::Part;
use pc_types::{Entry, MOST_WRITES, Refusal};
use std::alloc::Global;
use std::io::Write;

/// What was read of a text, or why nothing was.
#[derive(Clone, Copy)]
pub enum Found {
    Items(ReadItems),
    Refused(Refusal),
}

/// How many entries or pairs were read, where the bytes of the last one end, the fault after it in a log, and whether what
/// was read is written again as the bytes up to that end; else, how many bytes are written.
#[derive(Clone, Copy)]
pub struct ReadItems {
    count: usize,
    end: usize,
    fault: Option<Refusal>,
    is_same: bool,
    written: usize,
}

impl Found {
    /// Whether both say the same.
    pub fn is(&self, other: &Found) -> bool {
        match (self, other) {
            (Found::Items(read), Found::Items(other)) => read.is(other),
            (Found::Refused(refusal), Found::Refused(other)) => *refusal == *other,
            _ => false,
        }
    }

    /// Prints it after the label, as a line.
    pub fn put<W: Write>(
        &self,
        alloc: Global,
        label: &[u8],
        out: &mut Tally<W>,
    ) -> Result<(), Refusal> {
        out.put(label)?;
        match self {
            Found::Items(read) => read.put(alloc, out),
            Found::Refused(refusal) => put_refusal(alloc, *refusal, out),
        }
    }
}

impl ReadItems {
    fn is(&self, other: &ReadItems) -> bool {
        self.count == other.count
            && self.end == other.end
            && self.fault == other.fault
            && self.is_same == other.is_same
            && self.written == other.written
    }

    fn put<W: Write>(&self, alloc: Global, out: &mut Tally<W>) -> Result<(), Refusal> {
        let fault = match self.fault {
            Some(fault) => fault.name(),
            None => "whole",
        };
        let text = format!(in alloc; "items {} end {} {fault} ", self.count, self.end)?;
        out.put(text.as_bytes())?;
        if self.is_same {
            return out.put(b"same\n");
        }
        let text = format!(in alloc; "becomes {}\n", self.written)?;
        out.put(text.as_bytes())
    }
}

/// Prints a refusal as a line, a gap with its point.
pub fn put_refusal<W: Write>(
    alloc: Global,
    refusal: Refusal,
    out: &mut Tally<W>,
) -> Result<(), Refusal> {
    if let Refusal::Gap(point) = refusal {
        let text = format!(in alloc; "refused Gap {}\n", point.0)?;
        return out.put(text.as_bytes());
    }
    out.put_all(&[b"refused ", refusal.name().as_bytes(), b"\n"])
}

/// What the text holds as a file of the kind.
pub fn found_in(alloc: Global, kind: Kind, bytes: &[u8]) -> Found {
    match read_again(alloc, kind, bytes) {
        Ok(found) => Found::Items(found.items),
        Err(refusal) => Found::Refused(refusal),
    }
}

/// The text that is written of what the text holds as a file of the kind.
pub fn rewritten(alloc: Global, kind: Kind, bytes: &[u8]) -> Result<Vec<u8>, Refusal> {
    let ReadAgain { text, .. } = read_again(alloc, kind, bytes)?;
    Ok(text)
}

// What was read, and the text that is written of it.
#[derive(Drop)]
struct ReadAgain {
    items: ReadItems,
    text: Vec<u8>,
}

fn read_again(alloc: Global, kind: Kind, bytes: &[u8]) -> Result<ReadAgain, Refusal> {
    match kind {
        Kind::Part => read_part(alloc, bytes),
        Kind::Base => read_base(alloc, bytes),
        Kind::Log => read_entries(alloc, bytes),
    }
}

fn read_part(alloc: Global, bytes: &[u8]) -> Result<ReadAgain, Refusal> {
    let part = Part::decode(alloc, bytes)?;
    let mut out = Tally::new(Vec::new(alloc));
    part.encode(&mut out)?;
    Ok(whole(part.entries().len(), bytes, out.into_inner()))
}

fn read_base(alloc: Global, bytes: &[u8]) -> Result<ReadAgain, Refusal> {
    let base = Base::decode(alloc, bytes)?;
    let mut out = Tally::new(Vec::new(alloc));
    base.encode(&mut out)?;
    Ok(whole(base.pairs().len(), bytes, out.into_inner()))
}

// The given number of items in all of the bytes, which are written again so.
fn whole(count: usize, bytes: &[u8], text: Vec<u8>) -> ReadAgain {
    let items = ReadItems {
        count,
        end: bytes.len(),
        fault: None,
        is_same: bytes == text.as_slice(),
        written: text.len(),
    };
    ReadAgain { items, text }
}

fn read_entries(alloc: Global, bytes: &[u8]) -> Result<ReadAgain, Refusal> {
    let log = read_log(alloc, bytes)?;
    let mut out = Tally::new(Vec::new(alloc));
    put_log(&log, &mut out)?;
    let end = bytes.len().saturating_sub(log.rest);
    let text = out.into_inner();
    let items = ReadItems {
        count: log.entries.len(),
        end,
        fault: log.fault,
        is_same: bytes.get(..end) == Some(text.as_slice()),
        written: text.len(),
    };
    Ok(ReadAgain { items, text })
}

fn put_log(text: &LogText, out: &mut Tally<Vec<u8>>) -> Result<(), Refusal> {
    encode_header(out, text.run)?;
    for entry in &text.entries {
        if has_few_writes(entry) {
            encode_entry(out, entry)?;
        }
    }
    Ok(())
}

fn has_few_writes(entry: &Entry) -> bool
    ensures { result ≡ true → HasFewWrites entry.now }
{
    match entry {
        Entry::Commit(_, writes) => writes.len() <= MOST_WRITES,
        Entry::Token(_, _) => true,
    }
}
