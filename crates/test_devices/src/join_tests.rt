//! Parts that are joined as they are read, from readers that give few bytes or fail, to writers that take few.
use crate::sink::stops_at;
use crate::tape::Tape;
use pc_collapse::fold;
use pc_io::Tally;
use pc_part::{Part, join};
use pc_stream_join::stream_join;
use pc_streams::PartReader;
use pc_types::Refusal;
use std::alloc::Global;
use std::io::{ErrorKind, Write};
use std::test::Fail;

// Point 1 of run 1: two values, in format 01.
const OLD: [u8; 60] = *b"PCALCP01\
    \x00\x00\x00\x00\x00\x00\x00\x01\
    \x00\x00\x00\x01\x00\x00\x00\x01\x00\x00\x00\x01\
    \x00\x01a\x00\x00\x00\x01\x01\x00\x00\x00\x011\
    \x00\x01b\x00\x00\x00\x01\x01\x00\x00\x00\x019\
    \x00\x00\x00\x00\x00\x02";

// The same point in format 02, but that the second key is of space 256.
const NEW: [u8; 64] = *b"PCALCP02\
    \x00\x00\x00\x00\x00\x00\x00\x01\
    \x00\x00\x00\x01\x00\x00\x00\x01\x00\x00\x00\x01\
    \x00\x01\x00\x00a\x00\x00\x00\x01\x01\x00\x00\x00\x011\
    \x00\x01\x01\x00b\x00\x00\x00\x01\x01\x00\x00\x00\x019\
    \x00\x00\x00\x00\x00\x02";

const FIRSTS: [&[u8]; 2] = [&OLD, &NEW];

// Points 1 to 3 of run 1: another value, and a key without one.
const SECOND: [u8; 59] = *b"PCALCP02\
    \x00\x00\x00\x00\x00\x00\x00\x01\
    \x00\x00\x00\x01\x00\x00\x00\x01\x00\x00\x00\x03\
    \x00\x01\x00\x00a\x00\x00\x00\x02\x01\x00\x00\x00\x012\
    \x00\x01\x00\x00c\x00\x00\x00\x03\x00\
    \x00\x00\x00\x00\x00\x02";

const STEPS: [usize; 3] = [1, 7, 1_000_000];

const FILES: u16 = 64;

const ENTRIES: u32 = 1_000;

fn reader_of(
    alloc: Global,
    rest: &[u8],
    step: usize,
    then: Option<ErrorKind>,
) -> PartReader<Tape<'_>> {
    PartReader::new(alloc, Tally::new(Tape { rest, step, then }))
}

// The join of two texts, the first of which may fail after its bytes.
fn join_two<W: Write>(
    alloc: Global,
    first: (&[u8], Option<ErrorKind>),
    second: &[u8],
    step: usize,
    out: &mut Tally<W>,
) -> Result<u32, Refusal> {
    let mut inputs = Vec::new(alloc);
    inputs.push(reader_of(alloc, first.0, step, first.1))?;
    inputs.push(reader_of(alloc, second, step, None))?;
    let joined = stream_join(alloc, &mut inputs, out)?;
    Ok(joined.entries)
}

// The text of the join of what both texts hold, or the fault of the first, or why they can't be joined.
fn wanted(alloc: Global, first: &[u8], second: &[u8]) -> Result<Vec<u8>, Refusal> {
    let first = Part::decode(alloc, first)?;
    let second = Part::decode(alloc, second)?;
    text_of(alloc, &join(alloc, &first, &second)?)
}

fn text_of(alloc: Global, part: &Part) -> Result<Vec<u8>, Refusal> {
    let mut out = Tally::new(Vec::new(alloc));
    part.encode(&mut out)?;
    Ok(out.into_inner())
}

// Whether the join of both texts is written, or refused for the same reason; what was written then is Short.
fn agrees(alloc: Global, first: &[u8], step: usize) -> bool {
    let mut out = Tally::new(Vec::new(alloc));
    let answer = join_two(alloc, (first, None), &SECOND, step, &mut out);
    let written = out.into_inner();
    match (answer, wanted(alloc, first, &SECOND)) {
        (Ok(_), Ok(text)) => written.as_slice() == text.as_slice(),
        (Err(why), Err(fault)) => why == fault && is_short(alloc, &written),
        _ => false,
    }
}

fn is_short(alloc: Global, written: &[u8]) -> bool {
    Part::decode(alloc, written).err() == Some(Refusal::Short)
}

#[test]
fn gives_the_join_of_few_bytes_at_a_time(rt: HostRuntime) {
    for first in FIRSTS {
        for step in STEPS {
            assert!(rt; agrees(rt.alloc(), first, step), "{step}");
        }
    }
}

#[test]
fn a_cut_or_longer_text_beside_a_whole_one(rt: HostRuntime) -> Result<(), Fail> {
    for first in FIRSTS {
        for length in 0..first.len() {
            assert!(rt; agrees(rt.alloc(), &first[..length], 7), "{length}");
        }
        let mut longer = Vec::from_slice(rt.alloc(), first)?;
        longer.push(0)?;
        assert!(rt; agrees(rt.alloc(), &longer, 7));
    }
    Ok(())
}

// Each byte in turn is another one.
#[test]
fn a_changed_text_beside_a_whole_one(rt: HostRuntime) -> Result<(), Fail> {
    for first in FIRSTS {
        for place in 0..first.len() {
            for bits in [1, 2, 3, 128] {
                let mut changed = Vec::from_slice(rt.alloc(), first)?;
                changed[place] ^= bits;
                assert!(rt; agrees(rt.alloc(), &changed, 7), "{place} {bits}");
            }
        }
    }
    Ok(())
}

// The reader fails after each number of its bytes; the count of the one that failed has increased, and no other.
#[test]
fn a_reader_that_fails_at_each_place(rt: HostRuntime) -> Result<(), Fail> {
    let alloc = rt.alloc();
    for length in 0..=OLD.len() {
        for kind in [ErrorKind::Other, ErrorKind::Interrupted] {
            let mut inputs = Vec::new(alloc);
            inputs.push(reader_of(alloc, &SECOND, 7, None))?;
            inputs.push(reader_of(alloc, &OLD[..length], 7, Some(kind)))?;
            let mut out = Tally::new(Vec::new(alloc));
            let refused = stream_join(alloc, &mut inputs, &mut out).err();
            assert_eq!(rt; refused, Some(Refusal::Device), "{length}");
            assert!(rt; is_short(alloc, &out.into_inner()), "{length}");
            let failures: Vec<u64> = inputs.iter().map(|input| input.failures()).collect(alloc)?;
            assert_eq!(rt; failures.as_slice(), [0, 1].as_slice(), "{length}");
        }
    }
    Ok(())
}

// A writer takes each number of bytes in turn, and then fails: just these went out, and `Device` is returned if they aren't
// all.
#[test]
fn a_writer_that_takes_each_number_of_bytes(rt: HostRuntime) -> Result<(), Fail> {
    let alloc = rt.alloc();
    for first in FIRSTS {
        let text = wanted(alloc, first, &SECOND)?;
        let stopped = stops_at(&text, |out| {
            join_two(alloc, (first, None), &SECOND, 7, out).map(|_| ())
        });
        assert_eq!(rt; stopped, None);
    }
    Ok(())
}

// The text of a part of a point, of format 01 if its number is even, with keys of space 0 of which most are in the next
// point's part too; each fifth has no value.
fn text_at(alloc: Global, point: u16) -> Result<Vec<u8>, Refusal> {
    let mut text = Vec::new(alloc);
    let number = u32::from(point).to_be_bytes();
    let (magic, before) = if point % 2 == 0 {
        (b"PCALCP01", &[0, 4][..])
    } else {
        (b"PCALCP02", &[0, 4, 0, 0][..])
    };
    text.extend_from_slice(magic)?;
    text.extend_from_slice(&[0, 0, 0, 0, 0, 0, 0, 1, 0, 0, 0, 1])?;
    text.extend_from_slice(&number)?;
    text.extend_from_slice(&number)?;
    for place in 0..ENTRIES {
        let key = u32::from(point).wrapping_mul(300).wrapping_add(place);
        text.extend_from_slice(before)?;
        text.extend_from_slice(&key.to_be_bytes())?;
        text.extend_from_slice(&number)?;
        if place % 5 == 0 {
            text.push(0)?;
        } else {
            text.extend_from_slice(&[1, 0, 0, 0, 4])?;
            text.extend_from_slice(&place.to_be_bytes())?;
        }
    }
    text.extend_from_slice(&[0, 0])?;
    text.extend_from_slice(&ENTRIES.to_be_bytes())?;
    Ok(text)
}

// Whether the join of the texts, read in steps of the given number of bytes, is their fold.
fn is_fold(alloc: Global, texts: &[Vec<u8>], step: usize) -> Result<bool, Refusal> {
    let mut parts = Vec::new(alloc);
    let mut inputs = Vec::new(alloc);
    for text in texts {
        parts.push(Part::decode(alloc, text)?)?;
        inputs.push(reader_of(alloc, text, step, None))?;
    }
    let mut out = Tally::new(Vec::new(alloc));
    let joined = stream_join(alloc, &mut inputs, &mut out)?;
    let folded = fold(alloc, &parts)?;
    let points = folded.points(alloc)?;
    Ok(
        out.into_inner().as_slice() == text_of(alloc, &folded)?.as_slice()
            && joined.points.as_slice() == points.as_slice()
            && u64::from(joined.entries) == folded.entries().len() as u64,
    )
}

#[test]
fn many_files_are_their_fold(rt: HostRuntime) -> Result<(), Fail> {
    let alloc = rt.alloc();
    let mut texts = Vec::new(alloc);
    for point in 1..=FILES {
        texts.push(text_at(alloc, point)?)?;
    }
    for step in [1, 1_000_000] {
        assert!(rt; is_fold(alloc, &texts, step)?, "{step}");
    }
    Ok(())
}

// The longest entry, of 65,803 bytes, is between two short ones.
#[test]
fn the_longest_entry_between_short_ones(rt: HostRuntime) -> Result<(), Fail> {
    let alloc = rt.alloc();
    let mut text = Vec::from_slice(alloc, &NEW[..43])?;
    text.extend_from_slice(b"\x00\xff\x00\xff")?;
    text.extend_from_slice(&[b'a'; 255])?;
    text.extend_from_slice(b"\x00\x00\x00\x01\x01\x00\x00\xff\xff")?;
    text.extend_from_slice(&[b'v'; 65_535])?;
    text.extend_from_slice(&NEW[43..])?;
    let last = text.len() - 1;
    text[last] = 3;
    let mut texts = Vec::new(alloc);
    texts.push(text)?;
    texts.push(Vec::from_slice(alloc, &SECOND)?)?;
    for step in [1000, 1_000_000] {
        assert!(rt; is_fold(alloc, &texts, step)?, "{step}");
    }
    Ok(())
}
