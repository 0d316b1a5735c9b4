//! The explanation of a fault, printed after its line: which file, the operation, the place, and the system's error.
use crate::damage::Damage;
use crate::lacking::Lacking;
use crate::meanings::meaning_of;
use pc_disk::{BASE, Cause, Causes, Doing, INPUT, NO_FILE, OUTPUT, ReadFolder, is_device};
use pc_io::Tally;
use pc_texts::{put_name, report};
use pc_types::Refusal;
use std::io::{Error, ErrorKind, IsTerminal, Read, Write};
use std::{fs, io};

/// The files that a command is about.
#[derive(Clone, Copy)]
pub enum About<'a> {
    /// A file that is read by itself, as a script or a log, by its path.
    Script(&'a str),
    /// Part files, by their paths.
    Parts(&'a [&'a str]),
    /// A folder whose recovered state is printed.
    Folder(&'a str),
    /// A run that starts from nothing.
    Run,
    /// A run that starts from this folder, over a store with room for this many keys.
    Start(&'a str, u32),
    /// A store that is served.
    Store(Served<'a>),
}

/// A store that is served, and starts from the state of a folder.
#[derive(Clone, Copy)]
pub struct Served<'a> {
    /// The folder of its generations.
    pub dir: &'a str,
    /// The folder from which it starts.
    pub from: &'a str,
    /// For how many keys it has room.
    pub capacity: u32,
}

/// The information for explaining faults.
#[derive(Drop)]
pub struct Explainer<'a> {
    pub rt: &'a HostRuntime,
    pub causes: &'a Causes,
    pub about: About<'a>,
    /// Whether faults are explained.
    pub is_on: bool,
}

/// Whether faults are explained: if that is asked for, and if standard error is a terminal.
pub fn is_explained(rt: &HostRuntime, is_asked: bool) -> bool {
    is_asked || rt.stderr().is_terminal()
}

impl<'a> Explainer<'a> {
    /// An explainer for a command about these files. Whether faults are explained is as `is_explained` says.
    pub fn new(
        rt: &'a HostRuntime,
        causes: &'a Causes,
        about: About<'a>,
        is_asked: bool,
    ) -> Explainer<'a> {
        Explainer {
            rt,
            causes,
            about,
            is_on: is_explained(rt, is_asked),
        }
    }

    /// A counted writer of errors over this one, which explains each line that reports a fault.
    pub fn errors<W: Write>(&'a self, inner: W) -> Tally<Explained<'a, W>> {
        Tally::new(Explained::new(self, inner))
    }
}

/// A writer to standard error that explains each line that reports a fault, right after it.
#[derive(Drop)]
pub struct Explained<'a, W> {
    inner: W,
    explainer: &'a Explainer<'a>,
    // The written part of a line.
    line: Vec<u8>,
}

impl<'a, W> Explained<'a, W> {
    /// All writes go on to the writer.
    pub fn new(explainer: &'a Explainer<'a>, inner: W) -> Explained<'a, W> {
        let line = Vec::new(explainer.rt.alloc());
        Explained {
            inner,
            explainer,
            line,
        }
    }
}

impl<'a, W: Write> Write for Explained<'a, W> {
    fn write(&mut self, buf: &[u8]) -> io::Result<usize> {
        let count = self.inner.write(buf)?;
        if !self.explainer.is_on {
            return Ok(count);
        }
        for byte in &buf[..count] {
            if *byte == b'\n' {
                let told = self.explainer.explanation(&self.line);
                let _ = self.inner.write_all(&told);
                self.line.clear();
            } else {
                let _ = self.line.push(*byte);
            }
        }
        Ok(count)
    }

    fn flush(&mut self) -> io::Result<()> {
        self.inner.flush()
    }
}

/// Lines that explain a fault, as they are put together.
pub type Lines = Tally<Vec<u8>>;

impl<'a> Explainer<'a> {
    /// The lines that explain this one: none if it reports no fault, or an allocation failed.
    fn explanation(&self, line: &[u8]) -> Vec<u8> {
        let mut lines = Tally::new(Vec::new(self.rt.alloc()));
        let _ = match (fault_in(line), self.recovered()) {
            (Some((name, word)), _) => self.explain(name, word, &mut lines),
            (None, Some(dir)) => Lacking { dir }.put_line(line, &mut lines),
            (None, None) => Ok(()),
        };
        lines.into_inner()
    }

    // The folder of which what it lacks is reported, if there is one.
    fn recovered(&self) -> Option<ReadFolder<'a>> {
        let path = match self.about {
            About::Folder(path) => path,
            About::Start(path, _) => path,
            About::Store(store) => store.from,
            _ => return None,
        };
        Some(ReadFolder {
            rt: self.rt,
            path,
            causes: self.causes,
        })
    }

    /// Writes the line of the truncated log of the folder from whose state a command goes on, if it is, and if faults are explained.
    pub fn tell_truncated<E: Write>(&self, errors: &mut Tally<E>) {
        if let (true, Some(dir)) = (self.is_on, self.recovered()) {
            let _ = Lacking { dir }.put_truncated(errors);
        }
    }

    // Explains the fault of this word, which was reported by this name.
    fn explain(&self, name: &[u8], word: &[u8], lines: &mut Lines) -> Result<(), Refusal> {
        if let Some(cause) = self.cause_of(name, word) {
            return put_cause(cause, lines);
        }
        let damage = Damage {
            rt: self.rt,
            causes: self.causes,
            word,
        };
        let is_told = match self.about {
            // The lines before say what is damaged.
            _ if word == b"Damaged".as_slice() => false,
            About::Parts(paths) => damage.put_of_parts(paths, lines)?,
            About::Folder(dir) => damage.put_of_folder(dir, lines)?,
            About::Start(old, _) if is_of_folder(name, old) => damage.put_of_folder(old, lines)?,
            About::Start(old, capacity) => damage.put_of_start(old, capacity, lines)?,
            About::Store(store) if is_of_folder(name, store.from) => {
                damage.put_of_folder(store.from, lines)? || damage.put_of_store(store, lines)?
            }
            About::Store(store) => damage.put_of_store(store, lines)?,
            _ => false,
        };
        if is_told {
            return Ok(());
        }
        match meaning_of(word) {
            Some(meaning) => lines.put_all(&[b"  ", meaning, b"\n"]),
            None => Ok(()),
        }
    }

    // The system's error about it: of a file of this name, or else, if the word reports failures of the system, the first that
    // there was.
    fn cause_of(&self, name: &[u8], word: &[u8]) -> Option<&'a Cause> {
        if !is_of_system(word) {
            return None;
        }
        let causes = self.causes;
        match causes.of_name(name) {
            Some(cause) => Some(cause),
            None => causes.first(),
        }
    }
}

/// How a command has ended. That memory ran out is reported by this name, since a command that ends with that has reported nothing.
pub fn tell_ended(rt: &HostRuntime, name: &str, ended: io::Result<u8>) -> io::Result<u8> {
    if let Err(e) = &ended {
        if e.kind() == io::ErrorKind::OutOfMemory {
            let stderr = rt.stderr();
            let mut errors = Tally::new(io::writer(&stderr));
            let _ = report(name.as_bytes(), Refusal::OutOfMemory, &mut errors);
        }
    }
    ended
}

/// Standard output's failure, if it failed: it is reported only if faults are explained.
pub fn explain_output<E: Write>(explainer: &Explainer<'_>, errors: &mut E) {
    if !explainer.is_on {
        return;
    }
    let causes = explainer.causes;
    if let Some(cause) = causes.of_path(OUTPUT) {
        let mut lines = Tally::new(Vec::new(explainer.rt.alloc()));
        let _ = put_cause(cause, &mut lines);
        let _ = errors.write_all(&lines.into_inner());
    }
}

// The name and the word of a line that reports a fault.
fn fault_in(line: &[u8]) -> Option<(&[u8], &[u8])> {
    let rest = line.strip_prefix(b"pcalc: ")?;
    let mut colon = None;
    for at in 0..rest.len() {
        if rest[at..].starts_with(b": ") {
            colon = Some(at);
        }
    }
    let at = colon?;
    Some((rest.get(..at)?, rest.get(at..)?.get(2..)?))
}

// Whether a reported name is of a folder: its own, or that of a file in it.
fn is_of_folder(name: &[u8], dir: &str) -> bool {
    name == dir.as_bytes() || name == BASE.as_bytes()
}

// Whether the word reports a failure of the system.
fn is_of_system(word: &[u8]) -> bool {
    word == b"Device".as_slice()
        || word == b"NoFile".as_slice()
        || word == b"OutOfMemory".as_slice()
}

/// Writes the line of a failure of the system's.
pub fn put_cause(cause: &Cause, lines: &mut Lines) -> Result<(), Refusal> {
    lines.put_all(&[b"  ", cause.doing.word().as_bytes(), b" "])?;
    let path = cause.path.as_str();
    if path == OUTPUT || path == INPUT {
        lines.put(path.as_bytes())?;
    } else {
        put_name(lines, path.as_bytes())?;
    }
    lines.put(b": ")?;
    let _ = write!(lines, "{}", cause.error);
    lines.put(b"\n")
}

/// All bytes of a plain file, if it can be read. If it can't, or is a pipe, a socket or a device, that is noted.
pub fn bytes_of(rt: &HostRuntime, causes: &Causes, path: &str) -> Option<Vec<u8>> {
    let mut bytes = Vec::new(rt.alloc());
    let opened = if is_device(rt, path) {
        Err(Error::new(ErrorKind::InvalidInput, NO_FILE))
    } else {
        fs::open(rt, path)
    };
    let read = match opened {
        Ok(mut file) => file.read_to_end(&mut bytes),
        Err(e) => Err(e),
    };
    match read {
        Ok(_) => Some(bytes),
        Err(e) => {
            causes.note(Doing::Reading, path, e);
            None
        }
    }
}
