//! Views of the writes of an entry, from its text, without memory.
ghost use Rattle.std.specs.Prelude.{◌≡◌, ◌<◌, [], length, slice_get, IfOk};
ghost use Rattle.std.specs.Iterator.{YieldsFirst, item_count};
ghost use Rattle.pc_io.specs.Fields.{Reads, key_at, value_at};
ghost use Rattle.pc_types.specs.declared.refusal.Refusal.TheVariants.{BadLength};
ghost use Rattle.pc_io.specs.declared.formats.Format.TheVariants.{Second};
ghost use Rattle.pc_types.specs.Limits.{IsKey, IsValue};
ghost use Rattle.pc_log.specs.Reading.{change_at};
ghost use Rattle.pc_kept_log.specs.Logs.{entries_of, writes_of_entry};
ghost use Rattle.pc_kept_log.specs.LentChanges.{lent_change, IsShort};
ghost use Rattle.pc_kept_log.specs.LentWrites.{plain_write_at};

use crate::chunk::Chunk;
use crate::log::Log;
use pc_io::{Format, read_bytes, read_key_text, read_u16, read_u32, read_u64};
use pc_log::COMMIT;
use pc_types::{Change, Key, MOST_VALUE_BYTES, Refusal, Value, Write};
use std::alloc::{AllocError, Global};
use std::marker::Model;

/// A borrowed write of a log's entry. A contract sees the write.
#[derive(Drop)]
pub struct LentWrite<'a> {
    /// The bytes of its key, as `Key::as_bytes` has them: the space's two, and its own after them.
    pub key: &'a [u8],
    /// Its effect on the key.
    pub change: LentChange<'a>,
}

/// The effect of a borrowed write on its key. A contract sees the change by `lent_change`.
#[derive(Drop)]
pub enum LentChange<'a> {
    /// The key has this value then.
    Set(&'a [u8]),
    /// The key has no value then.
    Remove,
    /// This is added to the number that the key has.
    Add(i64),
}

impl<'a> Model for LentWrite<'a> {
    ghost use Rattle.pc_types.specs.declared.Write.{Write};
    ghost use Rattle.pc_kept_log.specs.LentChanges.{lent_change, IsShortWrite};

    ghost Value = { Write };

    ghost view = { λ w. record { key = w.key.now; change = lent_change w.change } };

    ghost invariant = { λ w. IsShortWrite (record { key = w.key.now; change = lent_change w.change }) };
}

impl<'a> LentWrite<'a> {
    /// The same write, with a key and a value of its own. It allocates memory only for a key with more than 16 bytes of its own and
    /// for a value of more than 16 bytes, and fails only if that allocation fails.
    pub fn to_write(&self, alloc: Global) -> Result<Write, AllocError>
        ensures { IfOk result (λ write. write ≡ self.now) }
    {
        let key = Key::of_bytes(alloc, self.key)?;
        let change = to_change(alloc, &self.change)?;
        Ok(Write { key, change })
    }
}

// The same change, with a value of its own.
fn to_change(alloc: Global, change: &LentChange<'_>) -> Result<Change, AllocError>
    requires { IsShort (lent_change change.now) }
    ensures { IfOk result (λ own. own ≡ lent_change change.now) }
{
    match change {
        LentChange::Set(bytes) => match Value::new(alloc, bytes) {
            Ok(value) => Ok(Change::Set(value)),
            Err(_) => Err(AllocError),
        },
        LentChange::Remove => Ok(Change::Remove),
        LentChange::Add(delta) => Ok(Change::Add(*delta)),
    }
}

/// Borrowed writes of an entry, in order. A contract sees those to come.
#[derive(Drop)]
pub struct LentWrites<'a> {
    // The texts of the writes to come, in order, and the bytes after them.
    bytes: &'a [u8],
    // The number of items to come.
    count: usize,
}

impl<'a> Model for LentWrites<'a> {
    ghost use Rattle.std.specs.Prelude.{◌≡◌, List, length};
    ghost use Rattle.pc_types.specs.declared.Write.{Write};
    ghost use Rattle.pc_kept_log.specs.LentWrites.{readable_writes};

    ghost Value = { List Write };

    ghost view = { λ w. readable_writes w.count w.bytes.now };

    // The number of writes that can be read.
    ghost invariant = { λ w. length (readable_writes w.count w.bytes.now) ≡ w.count };
}

impl<'a> LentWrites<'a> {
    fn none() -> LentWrites<'a>
        ensures { result ≡ [] }
    {
        LentWrites {
            bytes: &[],
            count: 0,
        }
    }

    /// The number of items to come.
    pub fn len(&self) -> usize
        ensures { result ≡ length self.now }
    {
        self.count
    }
}

impl Chunk {
    // The writes of the entry at this place, which counts from 0.
    pub(crate) fn writes(&self, place: usize) -> LentWrites<'_>
        requires { place < length self.now.entries }
        ensures { result ≡ writes_of_entry (slice_get self.now.entries place) }
    {
        let text = self.text(place, self.len());
        if text[4] != COMMIT {
            return LentWrites::none();
        }
        let count = u16::from_be_bytes([text[6], text[7]]);
        LentWrites {
            bytes: &text[8..],
            count: usize::from(count),
        }
    }
}

impl Log {
    /// Views of the writes of the entry at this place, which counts from 0, from its text: those of a commit, and none if it is a
    /// token or if there is no such entry. It allocates no memory.
    pub fn writes(&self, place: usize) -> LentWrites<'_>
        ensures { result ≡ writes_of_entry (slice_get (entries_of self.now) place) }
    {
        if self.len() <= place {
            return LentWrites::none();
        }
        let piece = self.piece_of(place);
        piece.writes(place - piece.first())
    }
}

impl<'a> Iterator for LentWrites<'a> {
    type Item = LentWrite<'a>;

    ghost next_gives = { YieldsFirst (λ s. s) };

    ghost remaining = { item_count (λ s. s) };

    fn next(&mut self) -> Option<LentWrite<'a>> {
        if self.count == 0 {
            return None;
        }
        match lend_write(self.bytes) {
            Ok((write, rest)) => {
                self.bytes = rest;
                self.count -= 1;
                Some(write)
            }
            Err(_) => unreachable!(),
        }
    }

    fn size_hint(&self) -> (usize, Option<usize>) {
        (self.count, Some(self.count))
    }
}

// Returns a view of the write with which the bytes begin, and the bytes after it.
#[tactic(auto, unfolding(crate::specs::LentWrites::plain_write_at))]
fn lend_write(bytes: &[u8]) -> Result<(LentWrite<'_>, &[u8]), Refusal>
    ensures { Reads (λ x. (x.0, x.1.now)) result (plain_write_at bytes.now) }
{
    let (key, rest) = lend_key(bytes)?;
    let (change, rest) = lend_change(rest)?;
    Ok((LentWrite { key, change }, rest))
}

// A key, the length of its own bytes before it.
#[tactic(auto, unfolding(pc_io::specs::Fields::key_at))]
fn lend_key(bytes: &[u8]) -> Result<(&[u8], &[u8]), Refusal>
    ensures read { Reads (λ x. (x.0.now, x.1.now)) result (key_at Second BadLength bytes.now) }
    ensures in_limits { IfOk result (λ x. IsKey x.0.now) }
{
    let (count, rest) = read_u16(bytes, Refusal::BadLength)?;
    read_key_text(Format::Second, rest, count, Refusal::BadLength)
}

// The effect of a write on its key: a kind of 0 and nothing, of 1 and a value, or of 2 and a number in two's complement.
#[tactic(auto, unfolding(pc_log::specs::Reading::change_at))]
fn lend_change(bytes: &[u8]) -> Result<(LentChange<'_>, &[u8]), Refusal>
    ensures read { Reads (λ x. (lent_change x.0, x.1.now)) result (change_at bytes.now) }
    ensures in_limits { IfOk result (λ x. IsShort (lent_change x.0)) }
{
    match bytes {
        [] => Err(Refusal::BadLength),
        [0, rest @ ..] => Ok((LentChange::Remove, rest)),
        [1, rest @ ..] => {
            let (value, rest) = lend_value(rest)?;
            Ok((LentChange::Set(value), rest))
        }
        [2, rest @ ..] => {
            let (number, rest) = read_u64(rest, Refusal::BadLength)?;
            Ok((LentChange::Add(number.cast_signed()), rest))
        }
        [_, ..] => Err(Refusal::BadKind),
    }
}

// A value, its length before it.
#[tactic(auto, unfolding(pc_io::specs::Fields::value_at))]
fn lend_value(bytes: &[u8]) -> Result<(&[u8], &[u8]), Refusal>
    ensures read { Reads (λ x. (x.0.now, x.1.now)) result (value_at BadLength bytes.now) }
    ensures in_limits { IfOk result (λ x. IsValue x.0.now) }
{
    let (count, rest) = read_u32(bytes, Refusal::BadLength)?;
    if MOST_VALUE_BYTES < count as usize {
        return Err(Refusal::BadLength);
    }
    read_bytes(rest, count as usize, Refusal::BadLength)
}
