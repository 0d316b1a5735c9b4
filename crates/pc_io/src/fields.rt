//! The fields of a text, read from left to right. A field is its value and the bytes after it; if the bytes end inside it, the
//! fault is the one that the caller gives.
ghost use Rattle.std.specs.Prelude.{◌≡◌, ◌≤◌, length, IfOk};
ghost use Rattle.std.specs.Int.{w16, w32, w64};
ghost use Rattle.pc_types.specs.Limits.{IsKey};
ghost use Rattle.pc_io.specs.Fields.{Reads, Gives, bytes_at, number_at, magic_at, key_behind, sized_key_at, key_at, value_at, content_at};

use crate::formats::Format;
use pc_types::{Key, MOST_KEY_BYTES, MOST_VALUE_BYTES, Refusal, SPACE_BYTES, Value};
use std::alloc::{AllocError, Global};

/// The given number of bytes. Returns `missing` if and only if there are fewer.
pub fn read_bytes(bytes: &[u8], count: usize, missing: Refusal) -> Result<(&[u8], &[u8]), Refusal>
    ensures read { Reads (λ x. (x.0.now, x.1.now)) result (bytes_at missing count bytes.now) }
    ensures length { IfOk result (λ x. length x.0.now ≡ count) }
{
    if bytes.len() < count {
        return Err(missing);
    }
    Ok(bytes.split_at(count))
}

/// A number of 2 bytes, the higher one first. Returns `missing` if and only if there are fewer.
pub fn read_u16(bytes: &[u8], missing: Refusal) -> Result<(u16, &[u8]), Refusal>
    ensures { Reads (λ x. (x.0, x.1.now)) result (number_at missing w16 bytes.now) }
{
    if bytes.len() < 2 {
        return Err(missing);
    }
    let (front, rest) = bytes.split_at(2);
    Ok((u16::from_be_bytes([front[0], front[1]]), rest))
}

/// A number of 4 bytes, the highest one first. Returns `missing` if and only if there are fewer.
pub fn read_u32(bytes: &[u8], missing: Refusal) -> Result<(u32, &[u8]), Refusal>
    ensures { Reads (λ x. (x.0, x.1.now)) result (number_at missing w32 bytes.now) }
{
    if bytes.len() < 4 {
        return Err(missing);
    }
    let (front, rest) = bytes.split_at(4);
    let number = u32::from_be_bytes([front[0], front[1], front[2], front[3]]);
    Ok((number, rest))
}

/// A number of 8 bytes, the highest one first. Returns `missing` if and only if there are fewer.
pub fn read_u64(bytes: &[u8], missing: Refusal) -> Result<(u64, &[u8]), Refusal>
    ensures { Reads (λ x. (x.0, x.1.now)) result (number_at missing w64 bytes.now) }
{
    if bytes.len() < 8 {
        return Err(missing);
    }
    let (front, rest) = bytes.split_at(8);
    let number = u64::from_be_bytes([
        front[0], front[1], front[2], front[3], front[4], front[5], front[6], front[7],
    ]);
    Ok((number, rest))
}

/// The format of the magic of 8 bytes: 01 for the first of the given ones, 02 for the second; and the bytes after it. Returns
/// `Short` if and only if there are fewer than 8, else `BadMagic` if and only if the first 8 are neither.
#[tactic(auto, unfolding(crate::specs::Fields::magic_at))]
pub fn read_magic<'a>(
    bytes: &'a [u8],
    first: &[u8],
    second: &[u8],
) -> Result<(Format, &'a [u8]), Refusal>
    ensures { Reads (λ x. (x.0, x.1.now)) result (magic_at first.now second.now bytes.now) }
{
    let (magic, rest) = read_bytes(bytes, 8, Refusal::Short)?;
    if magic == second {
        return Ok((Format::Second, rest));
    }
    if magic != first {
        return Err(Refusal::BadMagic);
    }
    Ok((Format::First, rest))
}

/// The bytes of a key after its length in this format, and the bytes after it. The length is that of its own bytes. Returns
/// `BadLength` if and only if it isn't 1 to 255, else `missing` if and only if there are fewer bytes.
#[tactic(auto, unfolding(crate::specs::Fields::sized_key_at))]
pub fn read_key_text(
    format: Format,
    bytes: &[u8],
    count: u16,
    missing: Refusal,
) -> Result<(&[u8], &[u8]), Refusal>
    ensures read { Reads (λ x. (key_behind format x.0.now, x.1.now)) result (sized_key_at format missing count bytes.now) }
    ensures in_limits { IfOk result (λ x. IsKey (key_behind format x.0.now)) }
{
    if count == 0 || MOST_KEY_BYTES < usize::from(count) {
        return Err(Refusal::BadLength);
    }
    let own = usize::from(count);
    match format {
        Format::First => read_bytes(bytes, own, missing),
        Format::Second => read_bytes(bytes, own + SPACE_BYTES, missing),
    }
}

// The key of the bytes after its length in this format. It allocates memory only for more than 16 bytes of its own, and fails
// only if that allocation fails.
fn key_of_text(alloc: Global, format: Format, text: &[u8]) -> Result<Key, AllocError>
    requires { IsKey (key_behind format text.now) }
    ensures { IfOk result (λ key. key ≡ key_behind format text.now) }
{
    match format {
        Format::First => key_in_space_0(alloc, text),
        Format::Second => Key::of_bytes(alloc, text),
    }
}

// The key of space 0 with these bytes of its own.
fn key_in_space_0(alloc: Global, own: &[u8]) -> Result<Key, AllocError>
    requires { IsKey (key_behind Format.First own.now) }
    ensures { IfOk result (λ key. key ≡ key_behind Format.First own.now) }
{
    match Key::new(alloc, own) {
        Ok(key) => Ok(key),
        Err(_) => Err(AllocError),
    }
}

/// A key whose length was read. Refuses with `BadLength` if that isn't 1 to 255, with `missing` if the bytes end inside the key,
/// and with `OutOfMemory` only if a growth was refused.
pub fn read_sized_key(
    alloc: Global,
    format: Format,
    bytes: &[u8],
    count: u16,
    missing: Refusal,
) -> Result<(Key, &[u8]), Refusal>
    ensures read { Gives (λ x. (x.0, x.1.now)) result (sized_key_at format missing count bytes.now) }
{
    let (text, rest) = read_key_text(format, bytes, count, missing)?;
    Ok((key_of_text(alloc, format, text)?, rest))
}

/// A key, its length before it. Refuses with `BadLength` if the length isn't 1 to 255, with `missing` if the bytes end inside
/// it, and with `OutOfMemory` only if a growth was refused.
#[tactic(auto, unfolding(crate::specs::Fields::key_at))]
pub fn read_key(
    alloc: Global,
    format: Format,
    bytes: &[u8],
    missing: Refusal,
) -> Result<(Key, &[u8]), Refusal>
    ensures { Gives (λ x. (x.0, x.1.now)) result (key_at format missing bytes.now) }
{
    let (count, rest) = read_u16(bytes, missing)?;
    let (text, rest) = read_key_text(format, rest, count, missing)?;
    Ok((key_of_text(alloc, format, text)?, rest))
}

/// A value, its length before it. Refuses with `BadLength` if it is longer than a value may be, with `missing` if the bytes end
/// inside it, and with `OutOfMemory` only if a growth was refused.
#[tactic(auto, unfolding(crate::specs::Fields::value_at))]
pub fn read_value(alloc: Global, bytes: &[u8], missing: Refusal) -> Result<(Value, &[u8]), Refusal>
    ensures { Gives (λ x. (x.0, x.1.now)) result (value_at missing bytes.now) }
{
    let (count, rest) = read_u32(bytes, missing)?;
    if MOST_VALUE_BYTES < count as usize {
        return Err(Refusal::BadLength);
    }
    let (value, rest) = read_bytes(rest, count as usize, missing)?;
    Ok((Value::new(alloc, value)?, rest))
}

/// The content of a key: a kind of 0 and nothing, or a kind of 1 and a value. Refuses with `BadKind` at another kind, with
/// `BadLength` if the value is longer than a value may be, with `missing` if the bytes end inside a field, and with
/// `OutOfMemory` only if a growth was refused.
#[tactic(auto, unfolding(crate::specs::Fields::content_at))]
pub fn read_content(
    alloc: Global,
    bytes: &[u8],
    missing: Refusal,
) -> Result<(Option<Value>, &[u8]), Refusal>
    ensures { Gives (λ x. (x.0, x.1.now)) result (content_at missing bytes.now) }
{
    match bytes {
        [] => Err(missing),
        [0, rest @ ..] => Ok((None, rest)),
        [1, rest @ ..] => {
            let (value, rest) = read_value(alloc, rest, missing)?;
            Ok((Some(value), rest))
        }
        [_, ..] => Err(Refusal::BadKind),
    }
}
