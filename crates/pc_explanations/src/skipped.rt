//! The lines of skipped parts in the output of a recovery.
use std::alloc::Global;
use std::io;
use std::io::Write;

/// A writer that keeps the lines of skipped parts of what goes through it, up to the line of the number of the pairs.
#[derive(Drop)]
pub struct SkippedLines<W> {
    inner: W,
    // The written part of a line.
    line: Vec<u8>,
    kept: Vec<u8>,
    has_ended: bool,
}

impl<W> SkippedLines<W> {
    /// All writes go on to the writer.
    pub fn new(alloc: Global, inner: W) -> SkippedLines<W> {
        SkippedLines {
            inner,
            line: Vec::new(alloc),
            kept: Vec::new(alloc),
            has_ended: false,
        }
    }

    fn note(&mut self, byte: u8) {
        let _ = self.line.push(byte);
        if byte != b'\n' {
            return;
        }
        if self.line.starts_with(b"skipped ") {
            let _ = self.kept.extend_from_slice(&self.line);
        }
        self.has_ended = self.line.starts_with(b"pairs ");
        self.line.clear();
    }
}

impl<W: Drop> SkippedLines<W> {
    /// The lines that were kept.
    pub fn into_lines(self) -> Vec<u8> {
        let SkippedLines { kept, .. } = self;
        kept
    }
}

impl<W: Write> Write for SkippedLines<W> {
    fn write(&mut self, buf: &[u8]) -> io::Result<usize> {
        let count = self.inner.write(buf)?;
        for byte in &buf[..count] {
            if self.has_ended {
                break;
            }
            self.note(*byte);
        }
        Ok(count)
    }

    fn flush(&mut self) -> io::Result<()> {
        self.inner.flush()
    }
}
