//! Readers that give some bytes, and then end or fail.
use std::io;
use std::io::{Error, ErrorKind, Read};

/// Returns the bytes, at most `step` of them at a read, and then ends, or answers `then`.
#[derive(Drop)]
pub struct Tape<'a> {
    /// What is still to be read.
    pub rest: &'a [u8],
    /// How many bytes are given at most at a read.
    pub step: usize,
    /// What is answered once all is read, if the end is a fault.
    pub then: Option<ErrorKind>,
}

impl<'a> Tape<'a> {
    /// Returns the bytes and then ends, or fails if it is torn.
    pub fn new(rest: &'a [u8], is_torn: bool) -> Tape<'a> {
        let step = 1_000_000;
        let then = if is_torn {
            Some(ErrorKind::Other)
        } else {
            None
        };
        Tape { rest, step, then }
    }
}

impl<'a> Read for Tape<'a> {
    fn read(&mut self, buf: &mut [u8]) -> io::Result<usize> {
        let count = self.step.min(buf.len()).min(self.rest.len());
        if self.rest.is_empty() {
            return match self.then {
                None => Ok(0),
                Some(kind) => Err(Error::from(kind)),
            };
        }
        let (given, left) = self.rest.split_at(count);
        buf[..count].copy_from_slice(given);
        self.rest = left;
        Ok(count)
    }
}

/// Returns the bytes before its failure, fails once, and then gives those after it.
#[derive(Drop)]
pub struct TornOnce<'a> {
    /// What is read first.
    pub before: Tape<'a>,
    /// Whether the failure has come.
    pub has_failed: bool,
    /// What is read after the failure.
    pub behind: Tape<'a>,
}

impl<'a> TornOnce<'a> {
    /// Fails between both pieces, and ends after the second.
    pub fn new(before: &'a [u8], behind: &'a [u8]) -> TornOnce<'a> {
        TornOnce {
            before: Tape::new(before, true),
            has_failed: false,
            behind: Tape::new(behind, false),
        }
    }
}

impl<'a> Read for TornOnce<'a> {
    fn read(&mut self, buf: &mut [u8]) -> io::Result<usize> {
        if self.has_failed {
            return self.behind.read(buf);
        }
        let answer = self.before.read(buf);
        self.has_failed = answer.is_err();
        answer
    }
}
