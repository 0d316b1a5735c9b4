//! An entry is read by itself, whatever token was before it, of bytes that are known to be entries' texts in format 02.
ghost use Rattle.pc_io.specs.Fields.{Gives, Reads};
ghost use Rattle.pc_log.specs.Plain.{plain_token_at, plain_kind_at, plain_body_at, plain_entry_at};

use crate::phases;
use crate::reading::{read_byte, read_commit};
use pc_io::{Format, read_bytes, read_u32};
use pc_types::{Entry, MOST_POINTS, Point, Refusal};
use std::alloc::Global;

/// Reads the entry with which the bytes begin in format 02, whatever token was before it: the entry, and the bytes after it. Of
/// an entry's text that is just the entry. Refuses other bytes with the first fault that is met: `Short` if they end inside the
/// entry, else `BadLength`, `BadKind`, `KeyOrder` or `TokenOrder`; what is left of a body after its entry is passed over. It
/// refuses with `OutOfMemory` only if a growth was refused, and takes memory for the entry alone.
#[tactic(auto, unfolding(crate::specs::Plain::plain_entry_at))]
pub fn read_plain_entry(alloc: Global, bytes: &[u8]) -> Result<(Entry, &[u8]), Refusal>
    ensures { Gives (λ x. (x.0, x.1.now)) result (plain_entry_at bytes.now) }
{
    let (size, rest) = read_u32(bytes, Refusal::Short)?;
    let (body, rest) = read_bytes(rest, size as usize, Refusal::Short)?;
    let (entry, _) = read_plain_body(alloc, body)?;
    Ok((entry, rest))
}

#[tactic(auto, unfolding(crate::specs::Plain::plain_body_at, crate::specs::Plain::plain_kind_at))]
fn read_plain_body(alloc: Global, bytes: &[u8]) -> Result<(Entry, &[u8]), Refusal>
    ensures { Gives (λ x. (x.0, x.1.now)) result (plain_body_at bytes.now) }
{
    let (kind, rest) = read_byte(bytes)?;
    read_plain_kind(alloc, kind, rest)
}

#[tactic(auto, unfolding(crate::specs::Plain::plain_kind_at))]
fn read_plain_kind(alloc: Global, kind: u8, bytes: &[u8]) -> Result<(Entry, &[u8]), Refusal>
    ensures { Gives (λ x. (x.0, x.1.now)) result (plain_kind_at kind bytes.now) }
{
    match kind {
        1 => read_commit(alloc, Format::Second, bytes),
        2 => read_plain_token(bytes),
        _ => Err(Refusal::BadKind),
    }
}

#[tactic(auto, unfolding(crate::specs::Plain::plain_token_at))]
fn read_plain_token(bytes: &[u8]) -> Result<(Entry, &[u8]), Refusal>
    ensures { Reads (λ x. (x.0, x.1.now)) result (plain_token_at bytes.now) }
{
    let (number, rest) = read_byte(bytes)?;
    let phase = phases::numbered(number)?;
    let (point, rest) = read_u32(rest, Refusal::BadLength)?;
    if point > u32::from(MOST_POINTS) {
        return Err(Refusal::TokenOrder);
    }
    Ok((Entry::Token(phase, Point(point as u16)), rest))
}
