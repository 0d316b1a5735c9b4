//! What is written again, and parts that are joined, and applied to a base.
use crate::found::{put_refusal, rewritten};
use crate::items::{put_base, put_hex, put_part};
use crate::kinds::Kind;
use pc_bases::{Base, lay};
use pc_io::Tally;
use pc_part::{Part, join};
use pc_types::Refusal;
use std::alloc::Global;
use std::io::Write;

/// Prints the join of the parts that the texts hold, and its text, or why there is none.
pub fn put_joined<W: Write>(
    alloc: Global,
    text: &[u8],
    others: &[Vec<u8>],
    out: &mut Tally<W>,
) -> Result<(), Refusal> {
    match joined(alloc, text, others) {
        Ok(part) => {
            put_part(alloc, &part, out)?;
            let mut text = Tally::new(Vec::new(alloc));
            part.encode(&mut text)?;
            put_text(alloc, &text.into_inner(), out)
        }
        Err(refusal) => put_refusal(alloc, refusal, out),
    }
}

fn joined(alloc: Global, text: &[u8], others: &[Vec<u8>]) -> Result<Part, Refusal> {
    let mut part = Part::decode(alloc, text)?;
    for other in others {
        let next = Part::decode(alloc, other)?;
        part = join(alloc, &part, &next)?;
    }
    Ok(part)
}

/// Prints the base that the text holds with the parts that the others hold applied to it, and its text, or why there is
/// none.
pub fn put_laid<W: Write>(
    alloc: Global,
    text: &[u8],
    others: &[Vec<u8>],
    out: &mut Tally<W>,
) -> Result<(), Refusal> {
    match laid(alloc, text, others) {
        Ok(base) => {
            put_base(alloc, &base, out)?;
            let mut text = Tally::new(Vec::new(alloc));
            base.encode(&mut text)?;
            put_text(alloc, &text.into_inner(), out)
        }
        Err(refusal) => put_refusal(alloc, refusal, out),
    }
}

fn laid(alloc: Global, text: &[u8], others: &[Vec<u8>]) -> Result<Base, Refusal> {
    let mut base = Base::decode(alloc, text)?;
    for other in others {
        let part = Part::decode(alloc, other)?;
        base = lay(alloc, &base, &part)?;
    }
    Ok(base)
}

/// Prints the text that is written of what the text holds, or why it holds nothing.
pub fn put_rewritten<W: Write>(
    alloc: Global,
    kind: Kind,
    bytes: &[u8],
    out: &mut Tally<W>,
) -> Result<(), Refusal> {
    match rewritten(alloc, kind, bytes) {
        Ok(text) => put_text(alloc, &text, out),
        Err(refusal) => put_refusal(alloc, refusal, out),
    }
}

/// Prints a text in hexadecimal digits.
pub fn put_text<W: Write>(alloc: Global, bytes: &[u8], out: &mut Tally<W>) -> Result<(), Refusal> {
    out.put(b"text ")?;
    put_hex(alloc, bytes, out)?;
    out.put(b"\n")
}
