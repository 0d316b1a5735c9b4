//! What a text holds, whole, cut and changed.
use crate::found::{Found, found_in};
use crate::kinds::Kind;
use pc_io::Tally;
use pc_types::Refusal;
use std::alloc::Global;
use std::io::Write;

// Numbers from a first to a last one, at which the same was found.
#[derive(Clone, Copy)]
struct Span {
    first: usize,
    last: usize,
    found: Found,
}

/// Prints what the text holds.
pub fn put_read<W: Write>(
    alloc: Global,
    kind: Kind,
    bytes: &[u8],
    out: &mut Tally<W>,
) -> Result<(), Refusal> {
    found_in(alloc, kind, bytes).put(alloc, b"", out)
}

/// Prints what each proper prefix of the text holds, by its length.
pub fn put_cuts<W: Write>(
    alloc: Global,
    kind: Kind,
    bytes: &[u8],
    out: &mut Tally<W>,
) -> Result<(), Refusal> {
    let mut span = None;
    for cut in 0..bytes.len() {
        let found = found_in(alloc, kind, &bytes[..cut]);
        span = extended(alloc, span, (cut, found), b"", out)?;
    }
    put_span(alloc, span, b"", out)
}

/// Prints what the text holds with each byte in turn of each value, by the byte's place and value.
pub fn put_changes<W: Write>(
    alloc: Global,
    kind: Kind,
    bytes: &[u8],
    out: &mut Tally<W>,
) -> Result<(), Refusal> {
    for at in 0..bytes.len() {
        let mut changed = Vec::from_slice(alloc, bytes)?;
        put_values(alloc, kind, &mut changed, at, out)?;
    }
    Ok(())
}

/// Prints what the text holds with one byte more, by the byte's place and value.
pub fn put_longer<W: Write>(
    alloc: Global,
    kind: Kind,
    bytes: &[u8],
    out: &mut Tally<W>,
) -> Result<(), Refusal> {
    let mut longer = Vec::from_slice(alloc, bytes)?;
    longer.push(0)?;
    put_values(alloc, kind, &mut longer, bytes.len(), out)
}

// What the text holds with each value of the byte at the place.
fn put_values<W: Write>(
    alloc: Global,
    kind: Kind,
    bytes: &mut Vec<u8>,
    at: usize,
    out: &mut Tally<W>,
) -> Result<(), Refusal> {
    let label = format!(in alloc; "{at} ")?;
    let mut span = None;
    for value in 0..=255u8 {
        if let Some(byte) = bytes.get_mut(at) {
            *byte = value;
        }
        let found = found_in(alloc, kind, bytes);
        let next = (usize::from(value), found);
        span = extended(alloc, span, next, label.as_bytes(), out)?;
    }
    put_span(alloc, span, label.as_bytes(), out)
}

// Prints the span if something else was found at the next number, and returns the span with that number in it.
fn extended<W: Write>(
    alloc: Global,
    span: Option<Span>,
    next: (usize, Found),
    label: &[u8],
    out: &mut Tally<W>,
) -> Result<Option<Span>, Refusal> {
    let (number, found) = next;
    let first = first_of(&span, number, &found);
    if first == number {
        put_span(alloc, span, label, out)?;
    }
    let last = number;
    Ok(Some(Span { first, last, found }))
}

// Where the span of the number begins: where the span before it does, if the same was found there, else at the number.
fn first_of(span: &Option<Span>, number: usize, found: &Found) -> usize {
    match span {
        Some(span) if span.found.is(found) => span.first,
        _ => number,
    }
}

fn put_span<W: Write>(
    alloc: Global,
    span: Option<Span>,
    label: &[u8],
    out: &mut Tally<W>,
) -> Result<(), Refusal> {
    let Some(Span { first, last, found }) = span else {
        return Ok(());
    };
    out.put(label)?;
    let range = format!(in alloc; "{first}..{last}: ")?;
    found.put(alloc, range.as_bytes(), out)
}
