//! A log is read from its text, which may have been truncated.
ghost use Rattle.std.specs.Prelude.{◌≡◌, ◌<◌, [], length, IfOk, Ok, Err, Some};
ghost use Rattle.pc_io.specs.Fields.{Gives, Reads};
ghost use Rattle.pc_log.specs.Reading.{byte_at, change_at, write_at, writes_at, commit_at, token_at, kind_at, body_at, most_body_bytes, entry_at, entries_at, header_at, log_at, log_read, of_run, is_written};
ghost use Rattle.pc_log.specs.Orders.{no_token};
ghost use Rattle.pc_log.specs.Laws.{AreWholeEntries};

use crate::order::LastToken;
use crate::phases;
use pc_io::{Format, read_bytes, read_key, read_magic, read_u16, read_u32, read_u64, read_value};
use pc_types::{
    Change, Entry, Items, Key, MOST_KEY_BYTES, MOST_SESSIONS, MOST_VALUE_BYTES, MOST_WRITES, Point,
    Refusal, SPACE_BYTES, SessionNo, Write,
};
use std::alloc::Global;

/// The number of bytes that the body of an entry has at most in this format: those of the most writes, of the longest keys and
/// values, with two for the length of each key, one for the byte after it and four for the length of its value, after one each
/// for the kind and the session and two for the number of writes.
pub fn most_body_bytes(format: Format) -> usize
    ensures { result ≡ most_body_bytes format }
{
    let key = match format {
        Format::First => MOST_KEY_BYTES,
        Format::Second => SPACE_BYTES + MOST_KEY_BYTES,
    };
    4 + MOST_WRITES * (2 + key + 1 + 4 + MOST_VALUE_BYTES)
}

/// The result of reading a log's text: its whole entries, which are all that can be read after the header one by one with their
/// tokens in order, and what is left after them.
#[derive(Drop)]
pub struct LogText {
    /// The number of the run.
    pub run: u64,
    /// The whole entries, the oldest first.
    pub entries: Vec<Entry>,
    /// How many bytes are left after the whole entries.
    pub rest: usize,
    /// `None` if no byte is left, else the fault that stopped the reading.
    pub fault: Option<Refusal>,
}

/// Reads a log's text, of either format: the header determines which, for all of it. Refuses with `Short`, `BadMagic` or
/// `BadRanges` if the header of 20 bytes has that fault, and with `OutOfMemory` only if a growth was refused. It allocates memory
/// for the entries alone.
pub fn read_log(alloc: Global, bytes: &[u8]) -> Result<LogText, Refusal>
    ensures exact { Gives log_read result (log_at bytes.now) }
    ensures whole { IfOk result (λ text. AreWholeEntries bytes.now text.run text.entries.items text.rest) }
{
    read_text(alloc, bytes)
}

// The header, and then the entries.
#[tactic(auto, unfolding(crate::specs::Reading::log_at))]
fn read_text(alloc: Global, bytes: &[u8]) -> Result<LogText, Refusal>
    ensures { Gives log_read result (log_at bytes.now) }
{
    let (format, run, rest) = read_header(bytes)?;
    read_entries(alloc, format, run, rest)
}

/// Reads the header of 20 bytes with which a log's text begins: the format of all that follows, the number of the run, and the
/// bytes after it. Refuses with `Short` if there are fewer bytes, with `BadMagic` if the first 8 are those of no format, and with
/// `BadRanges` if the base point isn't 0; of several faults with the first. It allocates no memory.
#[tactic(auto, unfolding(crate::specs::Reading::header_at))]
pub fn read_header(bytes: &[u8]) -> Result<(Format, u64, &[u8]), Refusal>
    ensures { Reads (λ x. (x.0, x.1, x.2.now)) result (header_at bytes.now) }
{
    let (format, rest) = read_magic(bytes, b"PCALCL01", b"PCALCL02")?;
    let (run, rest) = read_u64(rest, Refusal::Short)?;
    let (base, rest) = read_u32(rest, Refusal::Short)?;
    if base != 0 {
        return Err(Refusal::BadRanges);
    }
    Ok((format, run, rest))
}

// As many entries as can be read in order.
fn read_entries(alloc: Global, format: Format, run: u64, bytes: &[u8]) -> Result<LogText, Refusal>
    ensures { Gives log_read result (Ok (of_run run (entries_at format (length bytes.now) no_token bytes.now))) }
{
    let mut entries = Vec::new(alloc);
    let mut last = LastToken::none();
    let mut rest = bytes;
    while !rest.is_empty() {
        match read_entry(alloc, format, last, rest) {
            Ok((entry, after)) => {
                last = last.after(&entry);
                entries.push(entry)?;
                rest = after;
            }
            Err(fault) => return stopped(run, entries, rest, fault),
        }
    }
    Ok(LogText {
        run,
        entries,
        rest: 0,
        fault: None,
    })
}

// The result if the rest has this fault, or an allocation failed.
fn stopped(run: u64, entries: Vec<Entry>, rest: &[u8], fault: Refusal) -> Result<LogText, Refusal>
    ensures read { Gives log_read result (Ok (record { run = run; entries = entries.items; rest = length rest.now; fault = Some fault })) }
    ensures memory { fault ≡ Refusal.OutOfMemory → result ≡ Err Refusal.OutOfMemory }
{
    if fault == Refusal::OutOfMemory {
        return Err(Refusal::OutOfMemory);
    }
    Ok(LogText {
        run,
        entries,
        rest: rest.len(),
        fault: Some(fault),
    })
}

/// Reads the entry with which the bytes begin, in the format of their log: the entry, and the bytes after it. A token has to be
/// the one that follows the last token before these bytes. Refuses with the first fault of the entry: `Short` if the bytes end
/// inside it, else `BadLength`, `BadKind`, `KeyOrder`, `TokenOrder` or `Trailing`; and with `OutOfMemory` only if a growth was
/// refused. It allocates memory for the entry alone.
#[tactic(auto, unfolding(crate::specs::Reading::entry_at))]
pub fn read_entry(
    alloc: Global,
    format: Format,
    last: LastToken,
    bytes: &[u8],
) -> Result<(Entry, &[u8]), Refusal>
    ensures { Gives (λ x. (x.0, x.1.now)) result (entry_at format last bytes.now) }
{
    let (size, rest) = read_u32(bytes, Refusal::Short)?;
    if size == 0 || most_body_bytes(format) < size as usize {
        return Err(Refusal::BadLength);
    }
    let (body, rest) = read_bytes(rest, size as usize, Refusal::Short)?;
    Ok((read_body(alloc, format, last, body)?, rest))
}

#[tactic(auto, unfolding(crate::specs::Reading::body_at, crate::specs::Reading::kind_at))]
fn read_body(alloc: Global, format: Format, last: LastToken, bytes: &[u8]) -> Result<Entry, Refusal>
    ensures { Gives (λ entry. entry) result (body_at format last bytes.now) }
{
    let (kind, rest) = read_byte(bytes)?;
    let (entry, rest) = read_kind(alloc, format, kind, last, rest)?;
    if !rest.is_empty() {
        return Err(Refusal::Trailing);
    }
    Ok(entry)
}

#[tactic(auto, unfolding(crate::specs::Reading::kind_at))]
fn read_kind(
    alloc: Global,
    format: Format,
    kind: u8,
    last: LastToken,
    bytes: &[u8],
) -> Result<(Entry, &[u8]), Refusal>
    ensures { Gives (λ x. (x.0, x.1.now)) result (kind_at format kind last bytes.now) }
{
    match kind {
        1 => read_commit(alloc, format, bytes),
        2 => read_token(last, bytes),
        _ => Err(Refusal::BadKind),
    }
}

#[tactic(auto, unfolding(crate::specs::Reading::token_at))]
fn read_token(last: LastToken, bytes: &[u8]) -> Result<(Entry, &[u8]), Refusal>
    ensures { Reads (λ x. (x.0, x.1.now)) result (token_at last bytes.now) }
{
    let (number, rest) = read_byte(bytes)?;
    let phase = phases::numbered(number)?;
    let (point, rest) = read_u32(rest, Refusal::BadLength)?;
    if !last.is_before(phase, point) {
        return Err(Refusal::TokenOrder);
    }
    Ok((Entry::Token(phase, Point(point as u16)), rest))
}

#[tactic(auto, unfolding(crate::specs::Reading::commit_at))]
pub(crate) fn read_commit(
    alloc: Global,
    format: Format,
    bytes: &[u8],
) -> Result<(Entry, &[u8]), Refusal>
    ensures { Gives (λ x. (x.0, x.1.now)) result (commit_at format bytes.now) }
{
    let (session, rest) = read_byte(bytes)?;
    if session == 0 || MOST_SESSIONS < session {
        return Err(Refusal::BadLength);
    }
    let (count, rest) = read_u16(rest, Refusal::BadLength)?;
    if usize::from(count) > MOST_WRITES {
        return Err(Refusal::BadLength);
    }
    let (writes, rest) = read_writes(alloc, format, count, rest)?;
    let session = SessionNo(u32::from(session));
    Ok((Entry::Commit(session, writes), rest))
}

// The given number of writes, of which no two have the same key. Room is made for just as many.
fn read_writes(
    alloc: Global,
    format: Format,
    count: u16,
    bytes: &[u8],
) -> Result<(Items<Write>, &[u8]), Refusal>
    ensures { Gives (λ x. (x.0, x.1.now)) result (writes_at format count [] bytes.now) }
{
    let room = Vec::with_capacity(alloc, usize::from(count))?;
    let mut writes = Items::from_vec(room);
    let mut rest = bytes;
    for _ in 0..count {
        let (write, after) = read_write(alloc, format, writes.as_slice(), rest)?;
        writes.push(write)?;
        rest = after;
    }
    Ok((writes, rest))
}

#[tactic(auto, unfolding(crate::specs::Reading::write_at))]
fn read_write<'a>(
    alloc: Global,
    format: Format,
    earlier: &[Write],
    bytes: &'a [u8],
) -> Result<(Write, &'a [u8]), Refusal>
    ensures { Gives (λ x. (x.0, x.1.now)) result (write_at format earlier.now bytes.now) }
{
    let (key, rest) = read_key(alloc, format, bytes, Refusal::BadLength)?;
    if is_written(earlier, &key) {
        return Err(Refusal::KeyOrder);
    }
    let (change, rest) = read_change(alloc, rest)?;
    Ok((Write { key, change }, rest))
}

// The effect of a write on its key: a kind of 0 and nothing, of 1 and a value, or of 2 and a number in two's complement.
#[tactic(auto, unfolding(crate::specs::Reading::change_at))]
fn read_change(alloc: Global, bytes: &[u8]) -> Result<(Change, &[u8]), Refusal>
    ensures { Gives (λ x. (x.0, x.1.now)) result (change_at bytes.now) }
{
    match bytes {
        [] => Err(Refusal::BadLength),
        [0, rest @ ..] => Ok((Change::Remove, rest)),
        [1, rest @ ..] => {
            let (value, rest) = read_value(alloc, rest, Refusal::BadLength)?;
            Ok((Change::Set(value), rest))
        }
        [2, rest @ ..] => {
            let (number, rest) = read_u64(rest, Refusal::BadLength)?;
            Ok((Change::Add(number.cast_signed()), rest))
        }
        [_, ..] => Err(Refusal::BadKind),
    }
}

// Whether one of the writes has this key.
fn is_written(writes: &[Write], key: &Key) -> bool
    ensures { result ≡ is_written writes.now key.now }
{
    writes.iter().any(|write| key.is(&write.key))
}

pub(crate) fn read_byte(bytes: &[u8]) -> Result<(u8, &[u8]), Refusal>
    ensures { Reads (λ x. (x.0, x.1.now)) result (byte_at bytes.now) }
{
    match bytes {
        [] => Err(Refusal::BadLength),
        [byte, rest @ ..] => Ok((*byte, rest)),
    }
}
