//! A line of JSON is read as a pair.
ghost use Rattle.std.specs.Prelude.{◌≡◌, Some, None, IfOk, length, option_map, codes};
ghost use Rattle.json.specs.Value.{value_view};
ghost use Rattle.serde_json.specs.Find.{get};
ghost use Rattle.serde_json.specs.View.{view};
ghost use Rattle.pc_json.specs.JsonLines.{bytes_in, bytes_under, json_pair, line_pair, member_count, most, names_in, names_written, object_pair, read_pair, space_member, space_number, text_under};

use base64::DecodeAllocError;
use base64::engine::general_purpose::STANDARD;
use json::Scratch;
use serde_json::{Category, Value};
use std::alloc::{AllocError, Global};

/// The pair of a line: the number of the key's space, its own bytes, and the value's. They may be too few or too many for a key or a value.
#[derive(Drop)]
pub struct JsonPair {
    pub space: u16,
    pub own: Vec<u8>,
    pub value: Vec<u8>,
}

/// The pair of a line, without the line's end. `None` if the line isn't JSON in UTF-8, or not an object that has just a key, a
/// value and, optionally, a space from 0 to 65,535, each of them once. Its only error is a failed allocation.
pub fn read_json(alloc: Global, line: &[u8]) -> Result<Option<JsonPair>, AllocError>
    ensures { IfOk result (λ found. option_map read_pair found ≡ json_pair line.now) }
{
    let Ok(text) = str::from_utf8(line) else {
        return Ok(None);
    };
    match Value::from_str(alloc, text) {
        Ok(value) => line_pair(alloc, text, &value),
        Err(why) => match why.classify() {
            Category::Memory => Err(AllocError),
            _ => Ok(None),
        },
    }
}

// The pair of the object of a line, in which each name is written once.
fn line_pair(alloc: Global, text: &str, found: &Value) -> Result<Option<JsonPair>, AllocError>
    ensures { IfOk result (λ pair. option_map read_pair pair ≡ line_pair text.now (view found.now)) }
{
    if names_written(alloc, text)? != member_count(found) {
        return Ok(None);
    }
    object_pair(alloc, found)
}

// How often the names of the members of a text's object are written.
fn names_written(alloc: Global, text: &str) -> Result<usize, AllocError>
    ensures { IfOk result (λ count. count ≡ names_written text.now) }
{
    let mut scratch = Scratch::new(alloc);
    match json::Value::parse(alloc, text, &mut scratch) {
        Ok(written) => Ok(names_in(&written)),
        Err(json::Error::Invalid) => Ok(0),
        Err(_) => Err(AllocError),
    }
}

fn names_in(written: &json::Value<'_>) -> usize
    ensures { result ≡ names_in (value_view written.now) }
{
    if let json::Value::Object(members) = written {
        count_of(members)
    } else {
        0
    }
}

fn count_of(members: &[(&str, json::Value<'_>)]) -> usize
    ensures { result ≡ length members.now }
{
    members.len()
}

// The pair of an object.
fn object_pair(alloc: Global, found: &Value) -> Result<Option<JsonPair>, AllocError>
    ensures { IfOk result (λ pair. option_map read_pair pair ≡ object_pair (view found.now)) }
{
    if member_count(found) != most(found) {
        return Ok(None);
    }
    let own = bytes_under(alloc, found, "key", "key64")?;
    let value = bytes_under(alloc, found, "value", "value64")?;
    match (space_member(found), own, value) {
        (Some(space), Some(own), Some(value)) => Ok(Some(JsonPair { space, own, value })),
        _ => Ok(None),
    }
}

// The number of an object's members.
fn member_count(found: &Value) -> usize
    ensures { result ≡ member_count (view found.now) }
{
    match found.as_object() {
        Some(members) => members.len(),
        None => 0,
    }
}

// The greatest number of members that it may have.
fn most(found: &Value) -> usize
    ensures { result ≡ most (get (codes "space") (view found.now)) }
{
    match found.get("space") {
        Some(_) => 3,
        None => 2,
    }
}

// The number of a space.
fn space_member(found: &Value) -> Option<u16>
    ensures { result ≡ space_member (get (codes "space") (view found.now)) }
{
    match found.get("space") {
        Some(space) => space_number(space.as_u64()?),
        None => Some(0),
    }
}

fn space_number(number: u64) -> Option<u16>
    ensures { result ≡ space_number number }
{
    u16::try_from(number).ok()
}

// The bytes of the member of the first name, or of the second, which has them in base64.
fn bytes_under(
    alloc: Global,
    found: &Value,
    name: &str,
    name64: &str,
) -> Result<Option<Vec<u8>>, AllocError>
    ensures { IfOk result (λ bytes. option_map (λ b. b.items) bytes ≡ bytes_under name.now name64.now (view found.now)) }
{
    match (text_under(found, name), text_under(found, name64)) {
        (Some(text), None) => Ok(Some(Vec::from_slice(alloc, text.as_bytes())?)),
        (None, Some(text)) => decoded(alloc, text),
        _ => Ok(None),
    }
}

// The text of the member of this name.
fn text_under<'a>(found: &'a Value, name: &str) -> Option<&'a str>
    ensures { option_map (λ text. text.now) result ≡ text_under name.now (view found.now) }
{
    match found.get(name) {
        Some(member) => member.as_str(),
        None => None,
    }
}

fn decoded(alloc: Global, text: &str) -> Result<Option<Vec<u8>>, AllocError>
    ensures { IfOk result (λ bytes. option_map (λ b. b.items) bytes ≡ bytes_in None (Some text.now)) }
{
    match STANDARD.decode(alloc, text.as_bytes()) {
        Ok(bytes) => Ok(Some(bytes)),
        Err(DecodeAllocError::OutOfMemory) => Err(AllocError),
        Err(DecodeAllocError::DecodeError(_)) => Ok(None),
    }
}
