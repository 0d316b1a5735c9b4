//! A writer that takes some bytes, and then fails.
use pc_io::Tally;
use pc_types::Refusal;
use std::io;
use std::io::{Error, ErrorKind, Write};

/// Takes `room` bytes, at most `step` of them at a write, and compares them with the text that is wanted. Then it answers
/// `then`, or that it takes nothing if that is `None`.
#[derive(Drop)]
pub struct Sink<'a> {
    /// What is wanted of the text after the bytes that were taken.
    pub wanted: &'a [u8],
    /// How many more bytes are taken.
    pub room: usize,
    /// How many bytes of the text there is no room for.
    pub excess: usize,
    /// The number of bytes taken at most at a write.
    pub step: usize,
    /// What is answered once there is no room.
    pub then: Option<ErrorKind>,
    /// What a flush answers, if it fails.
    pub flush_fault: Option<ErrorKind>,
    /// Whether all that was taken was wanted.
    pub is_same: bool,
}

impl<'a> Sink<'a> {
    /// Takes the given number of bytes of this text, and then fails. Flushes succeed.
    pub fn new(wanted: &'a [u8], room: usize) -> Sink<'a> {
        Sink {
            wanted,
            room,
            excess: wanted.len().saturating_sub(room),
            step: 1_000_000,
            then: Some(ErrorKind::Other),
            flush_fault: None,
            is_same: true,
        }
    }

    /// Takes this text and no more.
    pub fn of(wanted: &'a [u8]) -> Sink<'a> {
        Sink::new(wanted, wanted.len())
    }

    /// Takes this text, and fails if it is flushed.
    pub fn unflushed(wanted: &'a [u8]) -> Sink<'a> {
        let mut sink = Sink::of(wanted);
        sink.flush_fault = Some(ErrorKind::Other);
        sink
    }

    // Whether it has taken the expected text, with the given number of failures.
    fn is_right(&self, failures: u64) -> bool {
        let has_failed = self.excess > 0 || self.flush_fault.is_some();
        self.is_same && self.wanted.len() == self.excess && failures == u64::from(has_failed)
    }
}

impl<'a> Write for Sink<'a> {
    fn write(&mut self, buf: &[u8]) -> io::Result<usize> {
        let count = self.room.min(buf.len()).min(self.step);
        if count == 0 && !buf.is_empty() {
            return match self.then {
                None => Ok(0),
                Some(kind) => Err(Error::from(kind)),
            };
        }
        let is_wanted = self.wanted.starts_with(&buf[..count]);
        self.is_same = self.is_same && is_wanted;
        self.wanted = behind(self.wanted, count);
        self.room -= count;
        Ok(count)
    }

    fn flush(&mut self) -> io::Result<()> {
        match self.flush_fault {
            None => Ok(()),
            Some(kind) => Err(Error::from(kind)),
        }
    }
}

fn behind(text: &[u8], count: usize) -> &[u8] {
    &text[count.min(text.len())..]
}

/// Whether as much of the text went out as there was room for; if that isn't all of it, or the flush failed, one failure was
/// counted.
pub fn went_out(out: Tally<Sink>) -> bool {
    let failures = out.failures();
    out.into_inner().is_right(failures)
}

/// Whether it went out so, and `Device` was answered if that isn't all of it.
pub fn is_answered(out: Tally<Sink>, refused: Option<Refusal>) -> bool {
    let failures = out.failures();
    let sink = out.into_inner();
    let wanted = (sink.excess > 0).then_some(Refusal::Device);
    refused == wanted && sink.is_right(failures)
}

/// Whether what is put is answered so by writers that take each number of bytes in turn, up to one more than the text has;
/// otherwise the number at which it isn't.
pub fn stops_at<F: Fn(&mut Tally<Sink>) -> Result<(), Refusal>>(
    text: &[u8],
    put: F,
) -> Option<usize>
    requires { F.IsAlwaysCallable put }
{
    for room in 0..text.len().saturating_add(2) {
        let mut out = Tally::new(Sink::new(text, room));
        let refused = put(&mut out).err();
        if !is_answered(out, refused) {
            return Some(room);
        }
    }
    None
}
