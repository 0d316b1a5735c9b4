//! A pair is written as a line of JSON.
ghost use Rattle.std.specs.Prelude.{◌≡◌, ◌++◌, [], ◌∷◌, IfOk, OnOk, Some, codes, string_bytes};
ghost use Rattle.serde_json.specs.Data.{object};
ghost use Rattle.serde_json.specs.View.{members_view, view};
ghost use Rattle.pc_json.specs.JsonLines.{json_of, json_text, json_pair, with_bytes, with_space};

use base64::engine::general_purpose::STANDARD;
use serde_json::{Map, Value, put};
use std::alloc::{AllocError, Global};

/// The line of a pair, with its end: of the key's space and own bytes, and the value's bytes. It is UTF-8, has no line feed but its
/// last byte, and `read_json` returns the pair of it.
pub fn json_line(alloc: Global, space: u16, own: &[u8], value: &[u8]) -> Result<String, AllocError>
    ensures text { IfOk result (λ line. string_bytes line ≡ json_text space own.now value.now ++ 10 ∷ []) }
{
    let mut line = json_of(alloc, space, own, value)?.to_string(alloc)?;
    line.push('\n')?;
    Ok(line)
}

// The object of a pair.
fn json_of(alloc: Global, space: u16, own: &[u8], value: &[u8]) -> Result<Value, AllocError>
    ensures { IfOk result (λ made. view made ≡ json_of space own.now value.now) }
{
    let mut members = Map::new(alloc);
    put_bytes(alloc, &mut members, "key", "key64", own)?;
    put_space(alloc, &mut members, space)?;
    put_bytes(alloc, &mut members, "value", "value64", value)?;
    Ok(Value::Object(members))
}

// Adds the number of a space, unless it is 0.
fn put_space(alloc: Global, members: &mut Map<String, Value>, space: u16) -> Result<(), AllocError>
    ensures { OnOk result (members_view members.new.entries ≡ with_space space (members_view members.old.entries)) }
{
    if space == 0 {
        return Ok(());
    }
    put(members, alloc, "space", Value::from(space))
}

// Adds bytes under the first name, as a text, if they are UTF-8, and otherwise under the second one, in base64.
fn put_bytes(
    alloc: Global,
    members: &mut Map<String, Value>,
    name: &str,
    name64: &str,
    bytes: &[u8],
) -> Result<(), AllocError>
    ensures { OnOk result (members_view members.new.entries ≡ with_bytes name.now name64.now bytes.now (members_view members.old.entries)) }
{
    match str::from_utf8(bytes) {
        Ok(text) => {
            let text = String::from_str(alloc, text)?;
            put(members, alloc, name, Value::String(text))
        }
        Err(_) => {
            let text = STANDARD.encode(alloc, bytes)?;
            put(members, alloc, name64, Value::String(text))
        }
    }
}
