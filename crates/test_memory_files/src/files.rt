//! Parts that are joined, and applied to a base.
ghost use Rattle.std.specs.Prelude.{◌≤◌};

use pc_bases::{Base, lay};
use pc_io::Tally;
use pc_part::{Part, join};
use pc_types::{Key, Point, Refusal, Value};
use std::alloc::Global;
use std::test::Fail;
use test_support::{Pair, THIRD_POINT, are_pairs};

// Takes memory of its own.
const LONG: &[u8] = b"more than 16 bytes";

// The part of point 1 of run 1, at which that key had that value.
const FIRST: [u8; 83] = *b"PCALCP02\
    \x00\x00\x00\x00\x00\x00\x00\x01\
    \x00\x00\x00\x01\x00\x00\x00\x01\x00\x00\x00\x01\
    \x00\x12\x00\x00more than 16 bytes\x00\x00\x00\x01\x01\x00\x00\x00\x12more than 16 bytes\
    \x00\x00\x00\x00\x00\x01";

// The join of that one with the part of point 3.
const JOINED: [u8; 101] = *b"PCALCP02\
    \x00\x00\x00\x00\x00\x00\x00\x01\
    \x00\x00\x00\x02\x00\x00\x00\x01\x00\x00\x00\x01\x00\x00\x00\x03\x00\x00\x00\x03\
    \x00\x01\x00\x00b\x00\x00\x00\x03\x00\
    \x00\x12\x00\x00more than 16 bytes\x00\x00\x00\x01\x01\x00\x00\x00\x12more than 16 bytes\
    \x00\x00\x00\x00\x00\x02";

const PAIRS: [Pair; 2] = [(b"b", b"0"), (b"c", b"0")];

// These with the part of point 1 applied to them.
const LAID: [Pair; 3] = [(b"b", b"0"), (b"c", b"0"), (LONG, LONG)];

// The part of a point of run 1 at which one key was taken.
fn part_once(alloc: Global, point: u16, key: &[u8], value: Option<&[u8]>) -> Result<Part, Refusal>
    requires { 1 ≤ point }
{
    let mut entries = Vec::with_capacity(alloc, 1)?;
    let content = match value {
        Some(bytes) => Some(Value::new(alloc, bytes)?),
        None => None,
    };
    let key = Key::new(alloc, key)?;
    entries.push_reserved((key, content));
    Part::of_point(alloc, 1, Point(point), entries)
}

fn first(alloc: Global) -> Result<Part, Refusal> {
    match part_once(alloc, 1, LONG, Some(LONG)) {
        Ok(part) => Ok(part),
        Err(_) => part_once(alloc, 1, LONG, Some(LONG)),
    }
}

fn third(alloc: Global) -> Result<Part, Refusal> {
    match part_once(alloc, 3, b"b", None) {
        Ok(part) => Ok(part),
        Err(_) => part_once(alloc, 3, b"b", None),
    }
}

fn text_of(alloc: Global, part: &Part) -> Result<Vec<u8>, Refusal> {
    let mut out = Tally::new(Vec::new(alloc));
    part.encode(&mut out)?;
    Ok(out.into_inner())
}

// Whether the part's text is this, written again if an allocation failed.
fn has_text(alloc: Global, part: &Part, text: &[u8]) -> Result<bool, Refusal> {
    let found = match text_of(alloc, part) {
        Err(_) => text_of(alloc, part)?,
        Ok(found) => found,
    };
    Ok(found.as_slice() == text)
}

fn joined_again(alloc: Global, one: &Part, other: &Part) -> Result<Part, Refusal> {
    match join(alloc, one, other) {
        Ok(joined) => Ok(joined),
        Err(Refusal::OutOfMemory) => join(alloc, one, other),
        Err(why) => Err(why),
    }
}

// What isn't as it should be once the two parts are joined.
fn wrong_of_join(alloc: Global) -> Result<&'static str, Refusal> {
    let first = first(alloc)?;
    let third = third(alloc)?;
    let joined = joined_again(alloc, &first, &third)?;
    wrong_text(alloc, &first, &third, &joined)
}

fn wrong_text(
    alloc: Global,
    first: &Part,
    third: &Part,
    joined: &Part,
) -> Result<&'static str, Refusal> {
    if !has_text(alloc, joined, &JOINED)? {
        return Ok("the join");
    }
    if !has_text(alloc, first, &FIRST)? {
        return Ok("the first part");
    }
    if !has_text(alloc, third, &THIRD_POINT)? {
        return Ok("the third part");
    }
    Ok("nothing")
}

// Both parts stay as they are, and the join's text is the same, whichever growth is refused.
#[test]
fn joins_leave_both_parts_at_each_refused_growth(rt: HostRuntime) -> Result<(), Fail> {
    assert_eq!(rt; wrong_of_join(rt.alloc())?, "nothing");
    Ok(())
}

// The base of run 1 with these pairs.
fn base_once(alloc: Global) -> Result<Base, Refusal> {
    let mut pairs = Vec::with_capacity(alloc, 2)?;
    let key = Key::new(alloc, b"b")?;
    let value = Value::new(alloc, b"0")?;
    pairs.push_reserved((key, value));
    let key = Key::new(alloc, b"c")?;
    let value = Value::new(alloc, b"0")?;
    pairs.push_reserved((key, value));
    Ok(Base::start(1, pairs))
}

fn base(alloc: Global) -> Result<Base, Refusal> {
    match base_once(alloc) {
        Ok(base) => Ok(base),
        Err(_) => base_once(alloc),
    }
}

fn laid_again(alloc: Global, base: &Base, part: &Part) -> Result<Base, Refusal> {
    match lay(alloc, base, part) {
        Ok(laid) => Ok(laid),
        Err(Refusal::OutOfMemory) => lay(alloc, base, part),
        Err(why) => Err(why),
    }
}

// What isn't as it should be once the part is applied to the base.
fn wrong_of_laying(alloc: Global) -> Result<&'static str, Refusal> {
    let base = base(alloc)?;
    let part = first(alloc)?;
    let laid = laid_again(alloc, &base, &part)?;
    wrong_laid(alloc, &base, &part, &laid)
}

fn wrong_laid(
    alloc: Global,
    base: &Base,
    part: &Part,
    laid: &Base,
) -> Result<&'static str, Refusal> {
    if laid.point() != Point(1) || !are_pairs(laid.pairs(), &LAID) {
        return Ok("what is laid");
    }
    if base.point() != Point(0) || !are_pairs(base.pairs(), &PAIRS) {
        return Ok("the base");
    }
    let is_part = has_text(alloc, part, &FIRST)?;
    Ok(if is_part { "nothing" } else { "the part" })
}

// The base and the part stay as they are, and what is laid is the same, whichever growth is refused.
#[test]
fn laying_leaves_base_and_part_at_each_refused_growth(rt: HostRuntime) -> Result<(), Fail> {
    assert_eq!(rt; wrong_of_laying(rt.alloc())?, "nothing");
    Ok(())
}
