//! The text of a log goes out, in format 02.
ghost use Rattle.std.specs.Prelude.{ℕ, ◌≡◌, ◌≤◌, ◌*◌, length, All};
ghost use Rattle.std.specs.List.{flat_map};
ghost use Rattle.pc_types.specs.Changes.{number_text};
ghost use Rattle.pc_io.specs.Tallies.{Puts};
ghost use Rattle.pc_model.specs.FewWrites.{HasFewWrites};
ghost use Rattle.pc_log.specs.Texts.{header_text, write_text, body_text, commit_head_text, entry_text, log_text};
ghost use Rattle.pc_types.specs.declared.Entry.TheVariants.{Commit, Token};

use crate::phases;
use byteorder::{BigEndian, ByteOrder};
use pc_io::Tally;
use pc_types::{Change, Entry, MOST_WRITES, Phase, Point, Refusal, SPACE_BYTES, SessionNo, Write};
use std::io;

const MAGIC: [u8; 8] = *b"PCALCL02";

// The base point of the header.
const BASE_POINT: [u8; 4] = [0; 4];

/// The kind of a commit, the byte with which its body begins.
pub const COMMIT: u8 = 1;

/// The kind of a token, the byte with which its body begins.
pub const TOKEN: u8 = 2;

/// The kind of a write that leaves its key without a value, the byte after the key.
pub const ABSENCE: u8 = 0;

/// The kind of a write that gives its key a value, the byte after the key.
pub const VALUE: u8 = 1;

/// The kind of a write that adds to the number that its key has, the byte after the key.
pub const ADD: u8 = 2;

/// Writes the header, which comes before the entries, of the run. It allocates no memory, and returns `Device` if and only if
/// the device failed; then a prefix of the text went out, and not all of it.
pub fn encode_header<W: io::Write>(out: &mut Tally<W>, run: u64) -> Result<(), Refusal>
    ensures { Puts W.contents out.old out.new result (header_text run) }
{
    let mut run_bytes = [0u8; 8];
    BigEndian::write_u64(&mut run_bytes, run);
    out.put_all(&[&MAGIC, &run_bytes, &BASE_POINT])
}

/// Writes the text of the entry, which has at most 256 writes. It allocates no memory, and returns `Device` if and only if the
/// device failed; then a prefix of the text went out, and not all of it.
pub fn encode_entry<W: io::Write>(out: &mut Tally<W>, entry: &Entry) -> Result<(), Refusal>
    requires { HasFewWrites entry.now }
    ensures { Puts W.contents out.old out.new result (entry_text entry.now) }
{
    match entry {
        Entry::Commit(session, writes) => {
            let writes = writes.as_slice();
            put_commit_head(out, *session, writes)?;
            put_writes(out, writes)
        }
        Entry::Token(phase, point) => put_token(out, *phase, *point),
    }
}

/// Writes the text of a log: the header of the run, and the entries, each of which has at most 256 writes. It allocates no
/// memory, and returns `Device` if and only if the device failed; then a prefix of the text went out, and not all of it.
pub fn encode_log<W: io::Write>(
    out: &mut Tally<W>,
    run: u64,
    entries: &[Entry],
) -> Result<(), Refusal>
    requires { All HasFewWrites entries.now }
    ensures { Puts W.contents out.old out.new result (log_text run entries.now) }
{
    encode_header(out, run)?;
    put_entries(out, entries)
}

// One entry after the other.
fn put_entries<W: io::Write>(out: &mut Tally<W>, entries: &[Entry]) -> Result<(), Refusal>
    requires { All HasFewWrites entries.now }
    ensures { Puts W.contents out.old out.new result (flat_map entry_text entries.now) }
{
    for entry in entries {
        encode_entry(out, entry)?;
    }
    Ok(())
}

// The length of the body, the kind, the session, and how many writes there are.
fn put_commit_head<W: io::Write>(
    out: &mut Tally<W>,
    session: SessionNo,
    writes: &[Write],
) -> Result<(), Refusal>
    requires { length writes.now ≤ MOST_WRITES }
    ensures { Puts W.contents out.old out.new result (commit_head_text session writes.now) }
{
    let size = 4 + writes_size(writes);
    let mut size_bytes = [0u8; 4];
    BigEndian::write_u32(&mut size_bytes, size);
    let mut count_bytes = [0u8; 2];
    BigEndian::write_u16(&mut count_bytes, writes.len() as u16);
    let session_bytes = session.0.to_be_bytes();
    out.put_all(&[&size_bytes, &[COMMIT, session_bytes[3]], &count_bytes])
}

// One write after the other.
fn put_writes<W: io::Write>(out: &mut Tally<W>, writes: &[Write]) -> Result<(), Refusal>
    ensures { Puts W.contents out.old out.new result (flat_map write_text writes.now) }
{
    for write in writes {
        put_write(out, write)?;
    }
    Ok(())
}

fn put_write<W: io::Write>(out: &mut Tally<W>, write: &Write) -> Result<(), Refusal>
    ensures { Puts W.contents out.old out.new result (write_text write.now) }
{
    let key = write.key.as_bytes();
    let mut key_len = [0u8; 2];
    BigEndian::write_u16(&mut key_len, (key.len() - SPACE_BYTES) as u16);
    match &write.change {
        Change::Remove => out.put_all(&[&key_len, key, &[ABSENCE]]),
        Change::Set(value) => {
            let value = value.as_bytes();
            let mut value_len = [0u8; 4];
            BigEndian::write_u32(&mut value_len, value.len() as u32);
            out.put_all(&[&key_len, key, &[VALUE], &value_len, value])
        }
        Change::Add(delta) => out.put_all(&[&key_len, key, &[ADD], &number_bytes(*delta)]),
    }
}

/// The eight bytes of a number in two's complement, the highest first.
pub fn number_bytes(number: i64) -> [u8; 8]
    ensures { result ≡ number_text number }
{
    number.to_be_bytes()
}

fn put_token<W: io::Write>(out: &mut Tally<W>, phase: Phase, point: Point) -> Result<(), Refusal>
    ensures { Puts W.contents out.old out.new result (entry_text (Token phase point)) }
{
    let mut point_bytes = [0u8; 4];
    BigEndian::write_u32(&mut point_bytes, u32::from(point.0));
    out.put_all(&[&[0, 0, 0, 6, TOKEN, phases::number(phase)], &point_bytes])
}

/// The number of bytes that the text of the entry takes, which has at most 256 writes.
pub fn entry_size(entry: &Entry) -> u32
    requires { HasFewWrites entry.now }
    ensures { result ≡ length (entry_text entry.now) }
{
    match entry {
        Entry::Commit(_, writes) => 8 + writes_size(writes.as_slice()),
        Entry::Token(_, _) => TOKEN_SIZE,
    }
}

/// The number of bytes that the text of a commit of these writes takes, which are at most 256.
pub fn commit_size(writes: &[Write]) -> u32
    requires { length writes.now ≤ MOST_WRITES }
    ensures { (session : ℕ) → result ≡ length (entry_text (Commit session writes.now)) }
{
    8 + writes_size(writes)
}

/// The number of bytes that the text of a token takes.
pub const TOKEN_SIZE: u32 = 10;

/// The number of bytes that the texts of these writes take, which are at most 256: at most 65,799 each.
pub fn writes_size(writes: &[Write]) -> u32
    requires { length writes.now ≤ MOST_WRITES }
    ensures size { result ≡ length (flat_map write_text writes.now) }
    ensures limit { result ≤ 65799 * length writes.now }
{
    let mut size = 0;
    for write in writes {
        size += write_size(write);
    }
    size
}

fn write_size(write: &Write) -> u32
    ensures size { result ≡ length (write_text write.now) }
    ensures limit { result ≤ 65799 }
{
    let key = write.key.as_bytes().len() as u32;
    match &write.change {
        Change::Remove => 3 + key,
        Change::Set(value) => 7 + key + value.as_bytes().len() as u32,
        Change::Add(_) => 11 + key,
    }
}
