//! Pairs that are printed in pieces.
use crate::sink::{Sink, is_answered};
use pc_io::Tally;
use pc_texts::put_pairs;
use pc_types::{Key, Refusal, Value};
use std::alloc::{AllocError, Global};
use std::test::Fail;

// The number of pairs before one whose line is longer than a piece, and also after it.
const PAIRS: u16 = 2_000;

const LONG: usize = 65_535;

// Pairs, and the text of their lines.
#[derive(Drop)]
struct Printed {
    alloc: Global,
    pairs: Vec<(Key, Value)>,
    text: Vec<u8>,
}

impl Printed {
    fn new(alloc: Global) -> Printed {
        Printed {
            alloc,
            pairs: Vec::new(alloc),
            text: Vec::new(alloc),
        }
    }

    // One more pair, whose value is printed so.
    fn push(&mut self, number: u16, value: &[u8], printed: &[u8]) -> Result<(), Refusal> {
        let key = key_of(number);
        let pair = (Key::new(self.alloc, &key)?, Value::new(self.alloc, value)?);
        self.pairs.push(pair)?;
        self.text.extend_from_slice(&key)?;
        self.text.extend_from_slice(b" ")?;
        self.text.extend_from_slice(printed)?;
        self.text.extend_from_slice(b"\n")?;
        Ok(())
    }
}

fn key_of(number: u16) -> [u8; 5] {
    [
        b'k',
        digit(number / 1000),
        digit(number / 100),
        digit(number / 10),
        digit(number),
    ]
}

// The last digit of the number.
fn digit(number: u16) -> u8 {
    b'0' + (number % 10) as u8
}

// The given number of zeros, and how they are printed.
fn zeros(alloc: Global, count: usize) -> Result<(Vec<u8>, Vec<u8>), AllocError> {
    let mut bytes = Vec::new(alloc);
    let mut printed = Vec::new(alloc);
    for _ in 0..count {
        bytes.push(0)?;
        printed.extend_from_slice(b"\\x00")?;
    }
    Ok((bytes, printed))
}

fn printed_pairs(alloc: Global) -> Result<Printed, Refusal> {
    let mut all = Printed::new(alloc);
    for number in 0..PAIRS {
        all.push(number, b"pear\\", b"pear\\x5c")?;
    }
    let (bytes, printed) = zeros(alloc, LONG)?;
    all.push(PAIRS, &bytes, &printed)?;
    for number in PAIRS + 1..2 * PAIRS {
        all.push(number, b"-", b"\\x2d")?;
    }
    Ok(all)
}

// Whether as much of the lines goes out as there is room for.
fn goes_out(all: &Printed, room: usize) -> bool {
    let mut out = Tally::new(Sink::new(&all.text, room));
    let refused = put_pairs(&mut out, &all.pairs).err();
    is_answered(out, refused)
}

// Writers that take nothing, all but the last byte, all, and what ends within lines and pieces in between.
#[test]
fn puts_pairs_as_far_as_there_is_room(rt: HostRuntime) -> Result<(), Fail> {
    let all = printed_pairs(rt.alloc())?;
    let whole = all.text.len();
    for room in [
        0,
        1,
        20_000,
        28_000,
        65_536,
        290_000,
        whole.saturating_sub(1),
        whole,
    ] {
        assert!(rt; goes_out(&all, room), "{room}");
    }
    Ok(())
}
