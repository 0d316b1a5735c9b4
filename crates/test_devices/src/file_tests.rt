//! Parts and bases go out as far as the writer takes them.
use crate::sink::stops_at;
use pc_bases::Base;
use pc_io::Tally;
use pc_part::Part;
use pc_types::{Key, Point, Refusal, Value};
use std::alloc::Global;
use std::test::Fail;
use test_support::EMPTY_BASE;

// Point 1 of run 1, in which no key was written.
const NO_ENTRIES: [u8; 34] = *b"PCALCP02\
    \x00\x00\x00\x00\x00\x00\x00\x01\
    \x00\x00\x00\x01\x00\x00\x00\x01\x00\x00\x00\x01\
    \x00\x00\x00\x00\x00\x00";

// Point 1 of run 1, at which `a` was `1` and `b` was `9`.
const TWO_VALUES: [u8; 64] = *b"PCALCP02\
    \x00\x00\x00\x00\x00\x00\x00\x01\
    \x00\x00\x00\x01\x00\x00\x00\x01\x00\x00\x00\x01\
    \x00\x01\x00\x00a\x00\x00\x00\x01\x01\x00\x00\x00\x011\
    \x00\x01\x00\x00b\x00\x00\x00\x01\x01\x00\x00\x00\x019\
    \x00\x00\x00\x00\x00\x02";

// Point 65,534 of a great run, at which the key of one zero byte had the empty value, and `ab` had none.
const A_TOMBSTONE: [u8; 59] = *b"PCALCP02\
    \x01\x02\x03\x04\x05\x06\x07\x08\
    \x00\x00\x00\x01\x00\x00\xff\xfe\x00\x00\xff\xfe\
    \x00\x01\x00\x00\x00\x00\x00\xff\xfe\x01\x00\x00\x00\x00\
    \x00\x02\x00\x00ab\x00\x00\xff\xfe\x00\
    \x00\x00\x00\x00\x00\x02";

// Points 1 to 3 of run 1, after which `a` is `2`, of point 2, and `b` is gone, at point 3.
const THREE_POINTS: [u8; 59] = *b"PCALCP02\
    \x00\x00\x00\x00\x00\x00\x00\x01\
    \x00\x00\x00\x01\x00\x00\x00\x01\x00\x00\x00\x03\
    \x00\x01\x00\x00a\x00\x00\x00\x02\x01\x00\x00\x00\x012\
    \x00\x01\x00\x00b\x00\x00\x00\x03\x00\
    \x00\x00\x00\x00\x00\x02";

// At point 7 of run 2, `a` was `1` and `b` was empty.
const TWO_PAIRS: [u8; 43] = *b"PCALCB02\
    \x00\x00\x00\x00\x00\x00\x00\x02\
    \x00\x00\x00\x07\x00\x00\x00\x02\
    \x00\x01\x00\x00a\x00\x00\x00\x011\
    \x00\x01\x00\x00b\x00\x00\x00\x00";

fn no_entries(alloc: Global) -> Result<Part, Refusal> {
    Part::of_point(alloc, 1, Point(1), Vec::new(alloc))
}

fn two_values(alloc: Global) -> Result<Part, Refusal> {
    let mut entries = Vec::new(alloc);
    entries.push((Key::new(alloc, b"a")?, Some(Value::new(alloc, b"1")?)))?;
    entries.push((Key::new(alloc, b"b")?, Some(Value::new(alloc, b"9")?)))?;
    Part::of_point(alloc, 1, Point(1), entries)
}

fn a_tombstone(alloc: Global) -> Result<Part, Refusal> {
    let mut entries = Vec::new(alloc);
    entries.push((Key::new(alloc, b"\x00")?, Some(Value::new(alloc, b"")?)))?;
    entries.push((Key::new(alloc, b"ab")?, None))?;
    Part::of_point(alloc, 0x0102_0304_0506_0708, Point(65534), entries)
}

// Writers take each number of bytes in turn.
#[test]
fn a_point_without_writes_goes_out(rt: HostRuntime) -> Result<(), Fail> {
    let part = no_entries(rt.alloc())?;
    assert_eq!(rt; stops_at(&NO_ENTRIES, |out| part.encode(out)), None);
    Ok(())
}

#[test]
fn values_go_out(rt: HostRuntime) -> Result<(), Fail> {
    let part = two_values(rt.alloc())?;
    assert_eq!(rt; stops_at(&TWO_VALUES, |out| part.encode(out)), None);
    Ok(())
}

#[test]
fn tombstones_go_out(rt: HostRuntime) -> Result<(), Fail> {
    let part = a_tombstone(rt.alloc())?;
    assert_eq!(rt; stops_at(&A_TOMBSTONE, |out| part.encode(out)), None);
    Ok(())
}

#[test]
fn joined_points_go_out(rt: HostRuntime) -> Result<(), Fail> {
    let part = Part::decode(rt.alloc(), &THREE_POINTS)?;
    assert_eq!(rt; stops_at(&THREE_POINTS, |out| part.encode(out)), None);
    Ok(())
}

#[test]
fn an_empty_base_goes_out(rt: HostRuntime) -> Result<(), Fail> {
    let base = Base::decode(rt.alloc(), &EMPTY_BASE)?;
    assert_eq!(rt; stops_at(&EMPTY_BASE, |out| base.encode(out)), None);
    Ok(())
}

// The text of a part whose one entry is as long as an entry can be.
fn longest_text(alloc: Global) -> Result<Vec<u8>, Refusal> {
    let mut text = Vec::from_slice(alloc, &THREE_POINTS[..28])?;
    text.extend_from_slice(b"\x00\xff\xff\xff")?;
    text.extend_from_slice(&[b'a'; 255])?;
    text.extend_from_slice(b"\x00\x00\x00\x02\x01\x00\x00\xff\xff")?;
    text.extend_from_slice(&[b'v'; 65_535])?;
    text.extend_from_slice(b"\x00\x00\x00\x00\x00\x01")?;
    Ok(text)
}

// Whether the text is that of a part, and that part's text is this again.
fn is_written_again(alloc: Global, text: &[u8]) -> Result<bool, Refusal> {
    let part = Part::decode(alloc, text)?;
    let mut out = Tally::new(Vec::new(alloc));
    part.encode(&mut out)?;
    Ok(out.into_inner().as_slice() == text)
}

#[test]
fn the_longest_entry_is_written_again(rt: HostRuntime) -> Result<(), Fail> {
    let text = longest_text(rt.alloc())?;
    assert!(rt; is_written_again(rt.alloc(), &text)?);
    Ok(())
}

#[test]
fn bases_go_out(rt: HostRuntime) -> Result<(), Fail> {
    let base = Base::decode(rt.alloc(), &TWO_PAIRS)?;
    assert_eq!(rt; stops_at(&TWO_PAIRS, |out| base.encode(out)), None);
    Ok(())
}
