//! What a recovered folder lacks, a line for each thing.
use crate::explaining::{Lines, bytes_of};
use crate::meanings::meaning_of;
use itoa::Buffer;
use pc_disk::{LOG, ReadFolder, names_in, path_in};
use pc_faults::{TextKind, locate};
use pc_io::Tally;
use pc_log::{LogText, read_log};
use pc_restore::{Lacks, LogHeader};
use pc_texts::put_name;
use pc_types::Refusal;
use std::io::Write;
use std::string::String;

const MISSING: &[u8] = b" isn't there: commits that only it had are lost\n";

const CUT: &[u8] = b" ends within its header: commits that only it had are lost\n";

/// A folder that was recovered.
#[derive(Clone, Copy)]
pub struct Lacking<'a> {
    pub dir: ReadFolder<'a>,
}

impl<'a> Lacking<'a> {
    /// Writes a line for each thing that the folder lacks, none if it is whole: of its log, and of each part that was skipped by these
    /// lines of a recovery.
    pub fn put<E: Write>(
        &self,
        lacks: &Lacks,
        skipped: &[u8],
        errors: &mut Tally<E>,
    ) -> Result<(), Refusal> {
        let mut lines = Tally::new(Vec::new(self.dir.rt.alloc()));
        self.put_log(lacks, &mut lines)?;
        for line in skipped.split(|byte| *byte == b'\n') {
            self.put_line(line, &mut lines)?;
        }
        errors.put(&lines.into_inner())
    }

    fn put_log(&self, lacks: &Lacks, lines: &mut Lines) -> Result<(), Refusal> {
        match (lacks.header, lacks.unused) {
            (LogHeader::Missing, _) => self.put_of_log(&[MISSING], lines)?,
            (LogHeader::Cut, _) => self.put_of_log(&[CUT], lines)?,
            (LogHeader::Whole, Some(count)) => {
                let mut buffer = Buffer::new();
                self.put_unused(buffer.format(count).as_bytes(), lines)?;
            }
            (LogHeader::Whole, None) => {}
        }
        if lacks.fault.is_some() {
            self.put_rest(lines)?;
        }
        Ok(())
    }

    /// Writes the line that explains this one, if it says what the folder lacks.
    pub fn put_line(&self, line: &[u8], lines: &mut Lines) -> Result<(), Refusal> {
        if let Some(words) = line.strip_prefix(b"log ") {
            return self.put_of_state(words, lines);
        }
        match line.strip_prefix(b"skipped ") {
            Some(words) => self.put_part(words, lines),
            None => Ok(()),
        }
    }

    /// Writes the line of a log whose last entry is truncated, if it is.
    pub fn put_truncated<E: Write>(&self, errors: &mut Tally<E>) -> Result<(), Refusal> {
        let mut lines = Tally::new(Vec::new(self.dir.rt.alloc()));
        match self.rest()? {
            Some(rest) if rest.why == Refusal::Short => rest.put(&mut lines)?,
            _ => {}
        }
        errors.put(&lines.into_inner())
    }

    // Explains a line of the log, by its words.
    fn put_of_state(&self, words: &[u8], lines: &mut Lines) -> Result<(), Refusal> {
        if words == b"NoFile".as_slice() {
            return self.put_of_log(&[MISSING], lines);
        }
        if words == b"Short".as_slice() {
            return self.put_of_log(&[CUT], lines);
        }
        match words.strip_prefix(b"unused ") {
            Some(count) => self.put_unused(count, lines),
            None => self.put_rest(lines),
        }
    }

    fn put_unused(&self, count: &[u8], lines: &mut Lines) -> Result<(), Refusal> {
        let words: [&[u8]; 3] = [
            b" ends before the token of the recovered point: none of its ",
            count,
            b" entries is used\n",
        ];
        self.put_of_log(&words, lines)
    }

    // The log's path, and these words after it.
    fn put_of_log(&self, words: &[&[u8]], lines: &mut Lines) -> Result<(), Refusal> {
        let path = path_in(self.dir.rt.alloc(), self.dir.path, LOG)?;
        lines.put(b"  ")?;
        put_name(lines, path.as_bytes())?;
        lines.put_all(words)
    }

    // The fault of the log's rest.
    fn put_rest(&self, lines: &mut Lines) -> Result<(), Refusal> {
        match self.rest()? {
            Some(rest) => rest.put(lines),
            None => Ok(()),
        }
    }

    // The rest of the log, if it can be read and has one. Zeros are Short, as recovery takes them.
    fn rest(&self) -> Result<Option<LogRest>, Refusal> {
        let alloc = self.dir.rt.alloc();
        let path = path_in(alloc, self.dir.path, LOG)?;
        let Some(bytes) = bytes_of(self.dir.rt, self.dir.causes, path.as_str()) else {
            return Ok(None);
        };
        let Ok(text) = read_log(alloc, &bytes) else {
            return Ok(None);
        };
        let LogText { rest, fault, .. } = text;
        let Some(why) = fault else {
            return Ok(None);
        };
        let end = bytes.len().saturating_sub(rest);
        let is_zero = bytes.iter().skip(end).all(|byte| *byte == 0);
        Ok(Some(LogRest {
            path,
            why: if is_zero { Refusal::Short } else { why },
            begin: end.saturating_add(1),
        }))
    }

    // Explains why a part was skipped, by its printed name and the reason.
    fn put_part(&self, words: &[u8], lines: &mut Lines) -> Result<(), Refusal> {
        let mut words = words.splitn(2, |byte| *byte == b' ');
        let (Some(name), Some(reason)) = (words.next(), words.next()) else {
            return Ok(());
        };
        let Some(path) = self.path_of(name)? else {
            return Ok(());
        };
        if reason == b"OtherRun".as_slice() {
            return put_words(&path, &[b": of another run than base.pcb\n"], lines);
        }
        match reason.strip_prefix(b"Gap ") {
            Some(point) => {
                lines.put(b"  ")?;
                put_name(lines, path.as_bytes())?;
                lines.put_all(&[b" isn't used: point ", point, b" is in no part\n"])
            }
            None => self.put_fault_of_part(&path, lines),
        }
    }

    // The path of the part with this printed name, if it is there.
    fn path_of(&self, printed: &[u8]) -> Result<Option<String>, Refusal> {
        let alloc = self.dir.rt.alloc();
        for name in names_in(self.dir)?.split(|byte| *byte == 0) {
            let mut shown = Tally::new(Vec::new(alloc));
            put_name(&mut shown, name)?;
            if shown.into_inner().as_slice() == printed {
                if let Ok(text) = str::from_utf8(name) {
                    return Ok(Some(path_in(alloc, self.dir.path, text)?));
                }
            }
        }
        Ok(None)
    }

    // The fault of a part's text, and the byte with which it is seen.
    fn put_fault_of_part(&self, path: &String, lines: &mut Lines) -> Result<(), Refusal> {
        let Some(bytes) = bytes_of(self.dir.rt, self.dir.causes, path.as_str()) else {
            return Ok(());
        };
        match locate(self.dir.rt.alloc(), TextKind::Part, &bytes)? {
            Some(fault) => {
                let mut buffer = Buffer::new();
                let byte = buffer.format(fault.bytes).as_bytes();
                let meaning = meaning_of(fault.why.name().as_bytes()).unwrap_or(b"a fault");
                put_words(path, &[b", byte ", byte, b": ", meaning, b"\n"], lines)
            }
            None => Ok(()),
        }
    }
}

// A line of what is seen in the file of this path.
fn put_words(path: &String, words: &[&[u8]], lines: &mut Lines) -> Result<(), Refusal> {
    lines.put(b"  reading ")?;
    put_name(lines, path.as_bytes())?;
    lines.put_all(words)
}

// The rest of a log.
#[derive(Drop)]
struct LogRest {
    path: String,
    why: Refusal,
    // The byte, from 1, with which the entry begins that has the fault.
    begin: usize,
}

impl LogRest {
    // The line of its fault.
    fn put(&self, lines: &mut Lines) -> Result<(), Refusal> {
        let meaning = meaning_of(self.why.name().as_bytes()).unwrap_or(b"a fault");
        let mut buffer = Buffer::new();
        let words: [&[u8]; 5] = [
            b", the entry that begins with byte ",
            buffer.format(self.begin).as_bytes(),
            b": ",
            meaning,
            b"\n",
        ];
        put_words(&self.path, &words, lines)
    }
}
