//! The next entry of a part's text, borrowed in place.
ghost use Rattle.std.specs.Prelude.{◌≡◌, ◌∷◌, zero, IfOk, option_map};
ghost use Rattle.std.specs.Ordering.{is_lt, nat_cmp};
ghost use Rattle.std.specs.Cmp.Lexicographic.{slice_cmp};
ghost use Rattle.pc_io.specs.Fields.{Reads, content_at, key_behind, value_at};
ghost use Rattle.pc_types.specs.Limits.{IsKey};
ghost use Rattle.pc_types.specs.declared.refusal.Refusal.TheVariants.{Short};
ghost use Rattle.pc_model.specs.Database.{key_cmp};
ghost use Rattle.pc_entries.specs.Lent.{IsHead};
ghost use Rattle.pc_part.specs.Parts.{RangesFrom};
ghost use Rattle.pc_part.specs.Reading.{part_entry_at, next_entry_at, next_key_at};

use crate::heads::head_in_space_0;
use pc_io::{Format, read_bytes, read_key_text, read_u16, read_u32};
use pc_part::{Range, read_point};
use pc_types::{MOST_VALUE_BYTES, Refusal, head_of};
use std::marker::Model;

/// An entry of a part, borrowed from its text. A contract sees the entry.
#[derive(Drop)]
pub struct LentEntry<'a> {
    pub(crate) format: Format,
    // All of its text.
    pub(crate) text: &'a [u8],
    // The bytes of its key after the length.
    pub(crate) key: &'a [u8],
    pub(crate) point: u16,
    pub(crate) value: Option<&'a [u8]>,
}

impl<'a> Model for LentEntry<'a> {
    ghost use Rattle.std.specs.Prelude.{option_map};
    ghost use Rattle.pc_io.specs.Fields.{key_behind};
    ghost use Rattle.pc_types.specs.declared.Triple.{Triple};
    ghost use Rattle.pc_entries.specs.Lent.{IsEntryIn};

    ghost Value = { Triple };

    ghost view = { λ e. record { key = key_behind e.format e.key.now; point = e.point; content = option_map (λ value. value.now) e.value } };

    ghost invariant = { λ e. IsEntryIn e.format e.text.now (record { key = key_behind e.format e.key.now; point = e.point; content = option_map (λ value. value.now) e.value }) };
}

/// The entry at the front of the bytes of a text in this format, whose key comes after the last one, or `None` at the end mark; and
/// the bytes after it. The entry is borrowed. The last key is given by its space's two bytes and its own after them, and by its
/// head; if it is empty, its head is 0, and each key comes after it. It allocates no memory. Refuses with `Short`, `BadLength`,
/// `KeyOrder`, `NotCovered` or `BadKind`, the first fault from the left.
#[tactic(auto, unfolding(pc_part::specs::Reading::next_entry_at))]
#[inline(always)]
pub fn lend_next_entry<'a>(
    format: Format,
    ranges: &[Range],
    last: &[u8],
    last_head: u64,
    bytes: &'a [u8],
) -> Result<(Option<LentEntry<'a>>, &'a [u8]), Refusal>
    requires ranges { RangesFrom 1 ranges.now }
    requires head { IsHead last.now last_head }
    ensures { Reads (λ x. (x.0, x.1.now)) result (next_entry_at format ranges.now last.now bytes.now) }
{
    let (count, rest) = read_u16(bytes, Refusal::Short)?;
    if count == 0 {
        return Ok((None, rest));
    }
    let (key, rest) = lend_next_key(format, last, last_head, count, rest)?;
    let (point, value, rest) = lend_entry(ranges, rest)?;
    let text = &bytes[..bytes.len() - rest.len()];
    let entry = LentEntry {
        format,
        text,
        key,
        point,
        value,
    };
    Ok((Some(entry), rest))
}

// The bytes after the length of a key with the given number of bytes of its own that comes after the last one.
#[tactic(auto, unfolding(pc_part::specs::Reading::next_key_at))]
#[inline(always)]
fn lend_next_key<'a>(
    format: Format,
    last: &[u8],
    last_head: u64,
    count: u16,
    bytes: &'a [u8],
) -> Result<(&'a [u8], &'a [u8]), Refusal>
    requires { IsHead last.now last_head }
    ensures { Reads (λ x. (key_behind format x.0.now, x.1.now)) result (next_key_at format last.now count bytes.now) }
{
    let (key, rest) = read_key_text(format, bytes, count, Refusal::Short)?;
    if !comes_after(format, key, last, last_head) {
        return Err(Refusal::KeyOrder);
    }
    Ok((key, rest))
}

// Whether the key with these bytes after its length comes after the last one: as their heads are if they differ, and otherwise by
// the keys.
#[inline(always)]
#[tactic(auto, using(crate::proofs::LentLaws::heads_tell))]
fn comes_after(format: Format, key: &[u8], last: &[u8], last_head: u64) -> bool
    requires key { IsKey (key_behind format key.now) }
    requires head { IsHead last.now last_head }
    ensures { result ≡ is_lt (key_cmp last.now (key_behind format key.now)) }
{
    let head = head_in(format, key);
    if head != last_head {
        return last_head < head;
    }
    comes_after_by_bytes(format, key, last)
}

// The head of the key with these bytes after its length.
#[inline(always)]
fn head_in(format: Format, key: &[u8]) -> u64
    requires { IsKey (key_behind format key.now) }
    ensures { IsHead (key_behind format key.now) result }
{
    match format {
        Format::First => head_in_space_0(key),
        Format::Second => head_of(key),
    }
}

// Whether the key with these bytes after its length comes after the last one, by all of their bytes.
#[inline(never)]
fn comes_after_by_bytes(format: Format, key: &[u8], last: &[u8]) -> bool
    ensures { result ≡ is_lt (key_cmp last.now (key_behind format key.now)) }
{
    match format {
        Format::First => comes_after_in_space_0(key, last),
        Format::Second => last.cmp(&key).is_lt(),
    }
}

// Whether the key of space 0 with these bytes of its own comes after the last one.
fn comes_after_in_space_0(own: &[u8], last: &[u8]) -> bool
    ensures { result ≡ is_lt (slice_cmp nat_cmp last.now (0 ∷ 0 ∷ own.now)) }
{
    match last {
        [] => true,
        [high] => *high == 0,
        [high, low, behind @ ..] => *high == 0 && *low == 0 && behind.cmp(&own).is_lt(),
    }
}

// The point of a key's entry, and the value that the key had there, if there was one.
#[tactic(auto, unfolding(pc_part::specs::Reading::part_entry_at))]
#[inline(always)]
fn lend_entry<'a>(
    ranges: &[Range],
    bytes: &'a [u8],
) -> Result<(u16, Option<&'a [u8]>, &'a [u8]), Refusal>
    requires { RangesFrom 1 ranges.now }
    ensures { Reads (λ x. (record { point = x.0; content = option_map (λ value. value.now) x.1 }, x.2.now)) result (part_entry_at ranges.now bytes.now) }
{
    let (point, rest) = read_point(ranges, bytes)?;
    let (value, rest) = lend_content(rest)?;
    Ok((point, value, rest))
}

// The content of a key: a kind of 0 and nothing, or a kind of 1 and a value.
#[tactic(auto, unfolding(pc_io::specs::Fields::content_at))]
#[inline(always)]
fn lend_content(bytes: &[u8]) -> Result<(Option<&[u8]>, &[u8]), Refusal>
    ensures { Reads (λ x. (option_map (λ value. value.now) x.0, x.1.now)) result (content_at Short bytes.now) }
{
    match bytes {
        [] => Err(Refusal::Short),
        [0, rest @ ..] => Ok((None, rest)),
        [1, rest @ ..] => {
            let (value, rest) = lend_value(rest)?;
            Ok((Some(value), rest))
        }
        [_, ..] => Err(Refusal::BadKind),
    }
}

// A value, its length before it.
#[tactic(auto, unfolding(pc_io::specs::Fields::value_at))]
#[inline(always)]
fn lend_value(bytes: &[u8]) -> Result<(&[u8], &[u8]), Refusal>
    ensures { Reads (λ x. (x.0.now, x.1.now)) result (value_at Short bytes.now) }
{
    let (count, rest) = read_u32(bytes, Refusal::Short)?;
    if MOST_VALUE_BYTES < count as usize {
        return Err(Refusal::BadLength);
    }
    read_bytes(rest, count as usize, Refusal::Short)
}
