//! The lines of a log's entries. They go out piece by piece and take no memory.
ghost use Rattle.std.specs.Prelude.{◌≡◌, ◌++◌, codes, decimal};
ghost use Rattle.std.specs.List.{flat_map};
ghost use Rattle.std.specs.Fmt.{signed_decimal};
ghost use Rattle.pc_types.specs.Names.{refusal_name};
ghost use Rattle.pc_io.specs.Tallies.{Puts};
ghost use Rattle.pc_texts.specs.Texts.{printed, printed_key};
ghost use Rattle.pc_log_lines.specs.Lines.{change_words, entry_line, entry_words, fault_line, later_words, write_words, writes_words};

use itoa::Buffer;
use pc_io::Tally;
use pc_texts::{phase_name, put_key, put_printed};
use pc_types::{Change, Entry, Key, Phase, Point, Refusal, SessionNo, Value, Write};
use std::io;

/// Writes the line of the entry of this number.
pub(crate) fn put_entry_line<W: io::Write>(
    out: &mut Tally<W>,
    number: u64,
    entry: &Entry,
) -> Result<(), Refusal>
    ensures { Puts W.contents out.old out.new result (entry_line number entry.now) }
{
    put_place(out, number)?;
    put_entry_end(out, entry)
}

/// Writes the line of the fault of the bytes from this one on, which is counted from 1.
pub(crate) fn put_fault_line<W: io::Write>(
    out: &mut Tally<W>,
    why: Refusal,
    byte: u64,
) -> Result<(), Refusal>
    ensures { Puts W.contents out.old out.new result (fault_line why byte) }
{
    let mut buffer = Buffer::new();
    out.put_all(&[
        b"log ",
        why.name().as_bytes(),
        b" byte ",
        buffer.format(byte).as_bytes(),
        b"\n",
    ])
}

fn put_place<W: io::Write>(out: &mut Tally<W>, number: u64) -> Result<(), Refusal>
    ensures { Puts W.contents out.old out.new result (decimal number ++ codes " ") }
{
    let mut buffer = Buffer::new();
    out.put_all(&[buffer.format(number).as_bytes(), b" "])
}

// An entry's words, and the end of the line.
fn put_entry_end<W: io::Write>(out: &mut Tally<W>, entry: &Entry) -> Result<(), Refusal>
    ensures { Puts W.contents out.old out.new result (entry_words entry.now ++ codes "\n") }
{
    put_entry(out, entry)?;
    out.put(b"\n")
}

fn put_entry<W: io::Write>(out: &mut Tally<W>, entry: &Entry) -> Result<(), Refusal>
    ensures { Puts W.contents out.old out.new result (entry_words entry.now) }
{
    match entry {
        Entry::Commit(session, writes) => put_commit(out, *session, writes.as_slice()),
        Entry::Token(phase, point) => put_token(out, *phase, *point),
    }
}

fn put_token<W: io::Write>(out: &mut Tally<W>, phase: Phase, point: Point) -> Result<(), Refusal>
    ensures { Puts W.contents out.old out.new result (entry_words (Entry.Token phase point)) }
{
    let mut buffer = Buffer::new();
    out.put_all(&[phase_name(phase), b" ", buffer.format(point.0).as_bytes()])
}

fn put_commit<W: io::Write>(
    out: &mut Tally<W>,
    session: SessionNo,
    writes: &[Write],
) -> Result<(), Refusal>
    ensures { Puts W.contents out.old out.new result ((codes "commit session " ++ decimal session) ++ writes_words writes.now) }
{
    put_session(out, session)?;
    put_writes(out, writes)
}

fn put_session<W: io::Write>(out: &mut Tally<W>, session: SessionNo) -> Result<(), Refusal>
    ensures { Puts W.contents out.old out.new result (codes "commit session " ++ decimal session) }
{
    put_counted(out, b"commit session ", session.0)
}

// Words and a number.
fn put_counted<W: io::Write>(out: &mut Tally<W>, words: &[u8], number: u32) -> Result<(), Refusal>
    ensures { Puts W.contents out.old out.new result (words.now ++ decimal number) }
{
    let mut buffer = Buffer::new();
    out.put_all(&[words, buffer.format(number).as_bytes()])
}

// The writes of a commit, with commas between them.
fn put_writes<W: io::Write>(out: &mut Tally<W>, writes: &[Write]) -> Result<(), Refusal>
    ensures { Puts W.contents out.old out.new result (writes_words writes.now) }
{
    let Some((first, later)) = writes.split_first() else {
        return Ok(());
    };
    put_first_of(out, first, later)
}

fn put_first_of<W: io::Write>(
    out: &mut Tally<W>,
    first: &Write,
    later: &[Write],
) -> Result<(), Refusal>
    ensures { Puts W.contents out.old out.new result ((codes " " ++ write_words first.now) ++ flat_map later_words later.now) }
{
    put_write(out, b" ", first)?;
    put_later(out, later)
}

fn put_later<W: io::Write>(out: &mut Tally<W>, writes: &[Write]) -> Result<(), Refusal>
    ensures { Puts W.contents out.old out.new result (flat_map later_words writes.now) }
{
    for write in writes {
        put_write(out, b", ", write)?;
    }
    Ok(())
}

// A write, and the text before it.
fn put_write<W: io::Write>(out: &mut Tally<W>, before: &[u8], write: &Write) -> Result<(), Refusal>
    ensures { Puts W.contents out.old out.new result (before.now ++ write_words write.now) }
{
    out.put(before)?;
    put_change(out, &write.key, &write.change)
}

fn put_change<W: io::Write>(out: &mut Tally<W>, key: &Key, change: &Change) -> Result<(), Refusal>
    ensures { Puts W.contents out.old out.new result (change_words key.now change.now) }
{
    match change {
        Change::Set(value) => put_set(out, key, value),
        Change::Remove => put_verb(out, b"del ", key),
        Change::Add(number) => put_add(out, key, number),
    }
}

fn put_set<W: io::Write>(out: &mut Tally<W>, key: &Key, value: &Value) -> Result<(), Refusal>
    ensures { Puts W.contents out.old out.new result (change_words key.now (Change.Set value.now)) }
{
    put_verb(out, b"put ", key)?;
    put_value(out, value)
}

fn put_add<W: io::Write>(out: &mut Tally<W>, key: &Key, number: &i64) -> Result<(), Refusal>
    ensures { Puts W.contents out.old out.new result (change_words key.now (Change.Add number.now)) }
{
    put_verb(out, b"add ", key)?;
    put_number(out, number)
}

// The word for a write, and its key.
fn put_verb<W: io::Write>(out: &mut Tally<W>, verb: &[u8], key: &Key) -> Result<(), Refusal>
    ensures { Puts W.contents out.old out.new result (verb.now ++ printed_key key.now) }
{
    out.put(verb)?;
    put_key(out, key)
}

fn put_value<W: io::Write>(out: &mut Tally<W>, value: &Value) -> Result<(), Refusal>
    ensures { Puts W.contents out.old out.new result (codes " " ++ printed value.now) }
{
    out.put(b" ")?;
    put_printed(out, value.as_bytes())
}

fn put_number<W: io::Write>(out: &mut Tally<W>, number: &i64) -> Result<(), Refusal>
    ensures { Puts W.contents out.old out.new result (codes " " ++ signed_decimal number.now) }
{
    let mut buffer = Buffer::new();
    out.put_all(&[b" ", buffer.format(*number).as_bytes()])
}
