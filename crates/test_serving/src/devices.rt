//! Devices in memory that fail from some call or byte on, and an input that comes in pieces.
use pc_io::Tally;
use pc_part::Part;
use pc_server::PointFiles;
use pc_turn::LogDevice;
use pc_types::Refusal;
use std::alloc::Global;
use std::io;
use std::io::{Error, ErrorKind, Read, Write};

/// A log in memory. The call after `calls` more of them fails, and so do all after it; an `append` that fails writes half of its bytes.
#[derive(Drop)]
pub struct MemoryLog {
    /// What was written.
    pub bytes: Vec<u8>,
    /// The number of bytes written at each `sync` that succeeded.
    pub kept: Vec<usize>,
    /// How many calls succeed.
    pub calls: usize,
}

impl MemoryLog {
    fn is_called(&mut self) -> io::Result<()> {
        if self.calls == 0 {
            return Err(Error::from(ErrorKind::Other));
        }
        self.calls -= 1;
        Ok(())
    }
}

impl LogDevice for MemoryLog {
    ghost use Rattle.std.specs.Prelude.{None};

    ghost written = { λ log. None };

    ghost kept = { λ log. None };

    fn append(&mut self, bytes: &[u8]) -> io::Result<()> {
        let called = self.is_called();
        let most = if called.is_ok() {
            bytes.len()
        } else {
            bytes.len() / 2
        };
        if self.bytes.extend_from_slice(&bytes[..most]).is_err() {
            return Err(Error::from(ErrorKind::OutOfMemory));
        }
        called
    }

    fn sync(&mut self) -> io::Result<()> {
        self.is_called()?;
        match self.kept.push(self.bytes.len()) {
            Ok(()) => Ok(()),
            Err(_) => Err(Error::from(ErrorKind::OutOfMemory)),
        }
    }
}

/// Takes `room` bytes, and then fails.
#[derive(Drop)]
pub struct Output {
    /// What was taken.
    pub bytes: Vec<u8>,
    /// How many more bytes are taken.
    pub room: usize,
}

impl Write for Output {
    fn write(&mut self, buf: &[u8]) -> io::Result<usize> {
        let count = buf.len().min(self.room);
        if count == 0 && !buf.is_empty() {
            return Err(Error::from(ErrorKind::Other));
        }
        match self.bytes.extend_from_slice(&buf[..count]) {
            Ok(()) => {
                self.room -= count;
                Ok(count)
            }
            Err(_) => Err(Error::from(ErrorKind::OutOfMemory)),
        }
    }

    fn flush(&mut self) -> io::Result<()> {
        Ok(())
    }
}

/// Returns its bytes, at most `step` of them at a read, and then ends.
#[derive(Drop)]
pub struct Pieces<'a> {
    /// What is still to be read.
    pub rest: &'a [u8],
    /// How many bytes are given at most at a read.
    pub step: usize,
}

impl<'a> Read for Pieces<'a> {
    fn read(&mut self, buf: &mut [u8]) -> io::Result<usize> {
        let count = self.step.min(buf.len()).min(self.rest.len());
        let (given, left) = self.rest.split_at(count);
        buf[..count].copy_from_slice(given);
        self.rest = left;
        Ok(count)
    }
}

/// Keeps the texts of the files of points, and refuses the one after `room` of them.
#[derive(Drop)]
pub struct Files {
    /// Whose memory the texts take.
    pub alloc: Global,
    /// The texts that were kept.
    pub texts: Vec<Vec<u8>>,
    /// How many more are kept.
    pub room: usize,
}

impl PointFiles for Files {
    ghost use Rattle.std.specs.Prelude.{⊤};

    ghost holds = { λ files point text. ⊤ };

    fn keep(&mut self, file: &Part) -> Result<(), Refusal> {
        if self.room == 0 {
            return Err(Refusal::Device);
        }
        self.room -= 1;
        let mut text = Tally::new(Vec::new(self.alloc));
        file.encode(&mut text)?;
        match self.texts.push(text.into_inner()) {
            Ok(()) => Ok(()),
            Err(_) => Err(Refusal::OutOfMemory),
        }
    }
}
