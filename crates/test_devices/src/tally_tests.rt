//! Counted readers and writers.
use crate::sink::{Sink, is_answered};
use crate::tape::Tape;
use pc_io::{Tally, read_all};
use pc_types::Refusal;
use std::alloc::{AllocError, Global};
use std::io::{ErrorKind, Write};
use std::test::Fail;

const FAULTS: [ErrorKind; 2] = [ErrorKind::Other, ErrorKind::Interrupted];

// 2 the given number of times, then 1, and then 0.
fn push_thirds(bytes: &mut Vec<u8>, third: usize) -> Result<(), AllocError> {
    for byte in [2u8, 1, 0] {
        for _ in 0..third {
            bytes.push(byte)?;
        }
    }
    Ok(())
}

// Whether the bytes are read to their end, at most 4,000 of them at a read, with no failure.
fn is_read(alloc: Global, bytes: &[u8]) -> bool {
    let mut tape = Tape::new(bytes, false);
    tape.step = 4000;
    let mut tally = Tally::new(tape);
    match read_all(alloc, &mut tally) {
        Ok(read) => read.as_slice() == bytes && tally.failures() == 0,
        Err(_) => false,
    }
}

#[test]
fn reads_to_the_end(rt: HostRuntime) -> Result<(), Fail> {
    let mut bytes = Vec::new(rt.alloc());
    push_thirds(&mut bytes, 4000)?;
    assert_eq!(rt; bytes.len(), 12000);
    assert!(rt; is_read(rt.alloc(), &bytes));
    Ok(())
}

// Whether the reader's fault after these bytes, five at a read, is answered by `Device` and counted once.
fn is_stopped(alloc: Global, bytes: &[u8], fault: ErrorKind) -> bool {
    let mut tally = Tally::new(Tape {
        rest: bytes,
        step: 5,
        then: Some(fault),
    });
    let refused = read_all(alloc, &mut tally).err();
    refused == Some(Refusal::Device) && tally.failures() == 1
}

const HUNDRED: [u8; 100] = [b'x'; 100];

// A reader that fails at each place in turn.
#[test]
fn stops_at_a_failed_read(rt: HostRuntime) {
    for length in 0..=HUNDRED.len() {
        for fault in FAULTS {
            assert!(rt;
                is_stopped(rt.alloc(), &HUNDRED[..length], fault),
                "after {length}"
            );
        }
    }
}

// Five bytes in three pieces, of which a writer takes at most two at each write.
fn puts_pieces(room: usize, then: Option<ErrorKind>) -> bool {
    let mut sink = Sink::new(b"abcde", room);
    sink.step = 2;
    sink.then = then;
    let mut out = Tally::new(sink);
    let refused = out.put_all(&[b"abc", b"", b"de"]).err();
    is_answered(out, refused)
}

// A writer takes each number of bytes in turn, and then fails, or takes nothing.
#[test]
fn puts_what_the_writer_takes(rt: HostRuntime) {
    for then in [None, Some(ErrorKind::Other), Some(ErrorKind::Interrupted)] {
        for room in 0..7usize {
            assert!(rt; puts_pieces(room, then), "{room}");
        }
    }
}

#[test]
fn counts_a_failed_flush(rt: HostRuntime) {
    let mut tally = Tally::new(Sink::unflushed(b""));
    assert!(rt; tally.flush().is_err());
    assert_eq!(rt; tally.failures(), 1);
}
