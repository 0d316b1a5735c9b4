//! A part's text, read piece by piece, by readers that give few bytes or fail.
use crate::tape::Tape;
use pc_entries::EntryText;
use pc_io::Tally;
use pc_merge::Entries;
use pc_part::Part;
use pc_streams::PartReader;
use pc_types::{Refusal, SPACE_BYTES};
use std::alloc::{AllocError, Global};
use std::io::{ErrorKind, Read};
use std::test::Fail;

// Points 1 and 3 to 65,535 of a great run: a value, a key of 17 bytes without one, and in space 7 an empty value.
const THREE_ENTRIES: [u8; 97] = *b"PCALCP02\
    \x01\x02\x03\x04\x05\x06\x07\x08\
    \x00\x00\x00\x02\x00\x00\x00\x01\x00\x00\x00\x01\x00\x00\x00\x03\x00\x00\xff\xff\
    \x00\x01\x00\x00a\x00\x00\x00\x01\x01\x00\x00\x00\x011\
    \x00\x11\x00\x00abcdefghijklmnopq\x00\x00\xff\xff\x00\
    \x00\x01\x00\x07b\x00\x00\x00\x03\x01\x00\x00\x00\x00\
    \x00\x00\x00\x00\x00\x03";

// The same in format 01, but that the last key is of space 0.
const OLD: [u8; 91] = *b"PCALCP01\
    \x01\x02\x03\x04\x05\x06\x07\x08\
    \x00\x00\x00\x02\x00\x00\x00\x01\x00\x00\x00\x01\x00\x00\x00\x03\x00\x00\xff\xff\
    \x00\x01a\x00\x00\x00\x01\x01\x00\x00\x00\x011\
    \x00\x11abcdefghijklmnopq\x00\x00\xff\xff\x00\
    \x00\x01b\x00\x00\x00\x03\x01\x00\x00\x00\x00\
    \x00\x00\x00\x00\x00\x03";

const STEPS: [usize; 3] = [1, 7, 1_000_000];

fn reader_of(
    alloc: Global,
    bytes: &[u8],
    step: usize,
    then: Option<ErrorKind>,
) -> PartReader<Tape<'_>> {
    PartReader::new(
        alloc,
        Tally::new(Tape {
            rest: bytes,
            step,
            then,
        }),
    )
}

// The entry in format 02, of what it shows.
fn push_entry(text: &mut Vec<u8>, entry: &EntryText) -> Result<(), AllocError> {
    let own = entry.key().len().saturating_sub(SPACE_BYTES) as u16;
    text.extend_from_slice(&own.to_be_bytes())?;
    text.extend_from_slice(entry.key())?;
    text.extend_from_slice(&u32::from(entry.point()).to_be_bytes())?;
    match entry.value() {
        None => text.push(0)?,
        Some(value) => {
            text.push(1)?;
            text.extend_from_slice(&(value.len() as u64).to_be_bytes()[4..])?;
            text.extend_from_slice(value)?;
        }
    }
    Ok(())
}

fn push_header<R: Read>(text: &mut Vec<u8>, reader: &mut PartReader<R>) -> Result<(), Refusal> {
    text.extend_from_slice(b"PCALCP02")?;
    text.extend_from_slice(&reader.header()?.to_be_bytes())?;
    text.extend_from_slice(&(reader.ranges().len() as u64).to_be_bytes()[4..])?;
    for range in reader.ranges() {
        text.extend_from_slice(&u32::from(range.low.0).to_be_bytes())?;
        text.extend_from_slice(&u32::from(range.high.0).to_be_bytes())?;
    }
    Ok(())
}

// The text in format 02 of what a reader gives, entry by entry, up to its end; a Conflict if an entry's own text is another one.
fn told<R: Read>(alloc: Global, reader: &mut PartReader<R>) -> Result<Vec<u8>, Refusal> {
    let mut text = Vec::new(alloc);
    push_header(&mut text, reader)?;
    for count in 0..u32::MAX {
        match reader.next(Vec::new(alloc))? {
            Some(entry) => {
                let start = text.len();
                push_entry(&mut text, &entry)?;
                if text.get(start..) != Some(entry.text()) {
                    return Err(Refusal::Conflict);
                }
            }
            None => {
                text.extend_from_slice(&[0, 0])?;
                text.extend_from_slice(&count.to_be_bytes())?;
                return Ok(text);
            }
        }
    }
    Err(Refusal::Full)
}

// Whether the reader gives just this text, and ends again when it is asked again.
fn gives(alloc: Global, bytes: &[u8], step: usize) -> bool {
    gives_as(alloc, bytes, bytes, step)
}

// Whether the reader of the bytes gives what this text of format 02 holds, and ends again when it is asked again.
fn gives_as(alloc: Global, bytes: &[u8], wanted: &[u8], step: usize) -> bool {
    let mut reader = reader_of(alloc, bytes, step, None);
    match told(alloc, &mut reader) {
        Ok(text) => {
            text.as_slice() == wanted
                && matches!(reader.next(Vec::new(alloc)), Ok(None))
                && reader.header().is_ok()
                && reader.failures() == 0
        }
        Err(_) => false,
    }
}

// What the reader refuses, if each later call is refused so.
fn refusal_of(
    alloc: Global,
    bytes: &[u8],
    step: usize,
    then: Option<ErrorKind>,
) -> Option<Refusal> {
    let mut reader = reader_of(alloc, bytes, step, then);
    let first = told(alloc, &mut reader).err();
    let failures = reader.failures();
    let again = reader.next(Vec::new(alloc)).err();
    let header = reader.header().err();
    if again == first && header == first && reader.failures() == failures {
        first
    } else {
        None
    }
}

#[test]
fn gives_what_stands_there(rt: HostRuntime) {
    for step in STEPS {
        assert!(rt; gives(rt.alloc(), &THREE_ENTRIES, step), "{step}");
    }
}

#[test]
fn gives_what_stands_in_a_text_of_01(rt: HostRuntime) -> Result<(), Fail> {
    let mut wanted = Vec::from_slice(rt.alloc(), &THREE_ENTRIES)?;
    wanted[80] = 0;
    for step in STEPS {
        assert!(rt; gives_as(rt.alloc(), &OLD, &wanted, step), "{step}");
    }
    Ok(())
}

#[test]
fn a_cut_text_has_the_fault_of_the_whole_decoder(rt: HostRuntime) {
    for text in [&THREE_ENTRIES[..], &OLD] {
        for step in STEPS {
            for length in 0..text.len() {
                let cut = &text[..length];
                let fault = Part::decode(rt.alloc(), cut).err();
                assert_eq!(rt; refusal_of(rt.alloc(), cut, step, None), fault, "{length}");
            }
        }
    }
}

// Each byte in turn is another one.
#[test]
fn a_changed_text_has_the_fault_of_the_whole_decoder(rt: HostRuntime) -> Result<(), Fail> {
    for place in 0..THREE_ENTRIES.len() {
        let mut changed = Vec::new(rt.alloc());
        changed.extend_from_slice(&THREE_ENTRIES)?;
        changed[place] ^= 2;
        let fault = Part::decode(rt.alloc(), &changed).err();
        if fault.is_none() {
            assert!(rt; gives(rt.alloc(), &changed, 7), "{place}");
        } else {
            assert_eq!(rt; refusal_of(rt.alloc(), &changed, 7, None), fault, "{place}");
        }
    }
    Ok(())
}

#[test]
fn a_device_that_fails_is_told_again(rt: HostRuntime) {
    for step in STEPS {
        for length in 0..=THREE_ENTRIES.len() {
            let cut = &THREE_ENTRIES[..length];
            let refused = refusal_of(rt.alloc(), cut, step, Some(ErrorKind::Other));
            assert_eq!(rt; refused, Some(Refusal::Device), "{length}");
        }
    }
}

#[test]
fn a_byte_too_many_and_a_wrong_count(rt: HostRuntime) -> Result<(), Fail> {
    let mut longer = Vec::new(rt.alloc());
    longer.extend_from_slice(&THREE_ENTRIES)?;
    longer.push(0)?;
    let refused = refusal_of(rt.alloc(), &longer, 7, None);
    assert_eq!(rt; refused, Some(Refusal::Trailing));
    longer[96] = 2;
    let refused = refusal_of(rt.alloc(), &longer, 7, None);
    assert_eq!(rt; refused, Some(Refusal::BadLength));
    Ok(())
}

// The longest value between two short ones.
#[test]
fn a_long_value_between_short_ones(rt: HostRuntime) -> Result<(), Fail> {
    let mut text = Vec::new(rt.alloc());
    text.extend_from_slice(&THREE_ENTRIES[..51])?;
    text.extend_from_slice(b"\x00\x02\x00\x00a0\x00\x00\x00\x01\x01\x00\x00\xff\xff")?;
    text.extend_from_slice(&[b'v'; 65_535])?;
    text.extend_from_slice(&THREE_ENTRIES[51..])?;
    let last = text.len() - 1;
    text[last] = 4;
    for step in [1000, 1_000_000] {
        assert!(rt; gives(rt.alloc(), &text, step), "{step}");
    }
    Ok(())
}
