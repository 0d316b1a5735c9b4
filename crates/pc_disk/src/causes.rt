//! The system's error for a file that couldn't be opened or read, kept until it is printed.
use crate::standard::INPUT;
use pc_io::Tally;
use pc_texts::put_name;
use pc_types::Refusal;
use std::alloc::{AllocError, Global};
use std::fs::File;
use std::io;
use std::io::{Error, ErrorKind, Read, Write};
use std::string::String;
use std::sync::OnceLock;

/// The most failures that are kept; later ones are dropped.
const KEPT: usize = 8;

/// The operation on a file that failed.
#[derive(Clone, Copy)]
pub enum Doing {
    Opening,
    Listing,
    Reading,
    Making,
    Writing,
    Syncing,
    Naming,
    Removing,
    Locking,
}

impl Doing {
    /// The word that reports it.
    pub fn word(self) -> &'static str {
        match self {
            Doing::Opening => "opening",
            Doing::Listing => "listing",
            Doing::Reading => "reading",
            Doing::Making => "making",
            Doing::Writing => "writing",
            Doing::Syncing => "writing to the device",
            Doing::Naming => "naming",
            Doing::Removing => "removing",
            Doing::Locking => "locking",
        }
    }
}

/// A failure of the system's.
#[derive(Drop)]
pub struct Cause {
    pub doing: Doing,
    /// The file's path.
    pub path: String,
    /// The system's error.
    pub error: Error,
}

/// The first failures of a command, in the order in which they came. Threads share it.
#[derive(Drop)]
pub struct Causes {
    alloc: Global,
    kept: Vec<OnceLock<Cause>>,
}

impl Causes {
    /// Nothing has failed.
    pub fn new(alloc: Global) -> Result<Causes, AllocError> {
        let mut kept = Vec::with_capacity(alloc, KEPT)?;
        for _ in 0..KEPT {
            kept.push(OnceLock::new())?;
        }
        Ok(Causes { alloc, kept })
    }

    /// Keeps the failure, if there is room for it.
    pub fn note(&self, doing: Doing, path: &str, error: Error) {
        let Ok(path) = String::from_str(self.alloc, path) else {
            return;
        };
        let mut cause = Cause { doing, path, error };
        for place in &self.kept {
            match place.try_set(cause) {
                Ok(_) => return,
                Err(back) => cause = back,
            }
        }
    }

    /// Keeps the failure of a file that can't be opened or read, or of a folder that can't be listed; returns how the program reports
    /// it.
    pub fn note_unread(&self, doing: Doing, path: &str, error: Error) -> Refusal {
        self.note(doing, path, error);
        match error.kind() {
            ErrorKind::NotFound => Refusal::NoFile,
            ErrorKind::OutOfMemory => Refusal::OutOfMemory,
            _ => Refusal::Device,
        }
    }

    /// Keeps the failure of a file that can't be made, named or locked; returns how the program reports it.
    pub fn note_unmade(&self, doing: Doing, path: &str, error: Error) -> Refusal {
        self.note(doing, path, error);
        why_unmade(&error)
    }

    /// The first failure of this path.
    pub fn of_path(&self, path: &str) -> Option<&Cause> {
        for place in &self.kept {
            if let Some(cause) = place.get() {
                if cause.path.as_str() == path {
                    return Some(cause);
                }
            }
        }
        None
    }

    /// The first failure of a file of this name, as names are printed.
    pub fn of_name(&self, name: &[u8]) -> Option<&Cause> {
        for place in &self.kept {
            if let Some(cause) = place.get() {
                if has_name(self.alloc, cause, name) {
                    return Some(cause);
                }
            }
        }
        None
    }

    /// The first failure but that a file wasn't there, which is none of a log.
    pub fn first(&self) -> Option<&Cause> {
        for place in &self.kept {
            if let Some(cause) = place.get() {
                if cause.error.kind() != ErrorKind::NotFound {
                    return Some(cause);
                }
            }
        }
        None
    }
}

// Why a file can't be made, named or locked, as the program reports it.
pub(crate) fn why_unmade(e: &Error) -> Refusal {
    if e.kind() == ErrorKind::OutOfMemory {
        return Refusal::OutOfMemory;
    }
    Refusal::Device
}

// Whether the failure is of a file whose path ends with this name, as names are printed, or of standard input, by its own name.
fn has_name(alloc: Global, cause: &Cause, name: &[u8]) -> bool {
    if cause.path.as_str() == INPUT {
        return name == INPUT.as_bytes();
    }
    let mut path = Tally::new(Vec::new(alloc));
    let _ = put_name(&mut path, cause.path.as_bytes());
    let path = path.into_inner();
    let Some(before) = path.strip_suffix(name) else {
        return false;
    };
    before.is_empty() || before.ends_with(b"/")
}

/// A file or stream whose failures are noted by its path. A call that a signal interrupted has failed, as any other: whoever keeps
/// bytes before it would try that again and again.
#[derive(Drop)]
pub struct Noted<'a, T> {
    inner: T,
    path: String,
    causes: &'a Causes,
}

impl<'a, T> Noted<'a, T> {
    /// The failures of this one are noted by this path.
    pub fn new(inner: T, path: String, causes: &'a Causes) -> Noted<'a, T> {
        Noted {
            inner,
            path,
            causes,
        }
    }

    // The failure, which is noted.
    fn noted(&self, doing: Doing, error: Error) -> Error {
        self.causes.note(doing, self.path.as_str(), error);
        if error.kind() == ErrorKind::Interrupted {
            return Error::from(ErrorKind::Other);
        }
        error
    }
}

impl<'a> Noted<'a, File> {
    /// All bytes that were written reach the device.
    pub fn sync(&self) -> io::Result<()> {
        match self.inner.sync_data() {
            Ok(()) => Ok(()),
            Err(e) => Err(self.noted(Doing::Syncing, e)),
        }
    }
}

impl<'a, T: Read> Read for Noted<'a, T> {
    fn read(&mut self, buf: &mut [u8]) -> io::Result<usize> {
        match self.inner.read(buf) {
            Ok(count) => Ok(count),
            Err(e) => Err(self.noted(Doing::Reading, e)),
        }
    }
}

impl<'a, T: Write> Write for Noted<'a, T> {
    fn write(&mut self, buf: &[u8]) -> io::Result<usize> {
        match self.inner.write(buf) {
            Ok(count) => Ok(count),
            Err(e) => Err(self.noted(Doing::Writing, e)),
        }
    }

    fn flush(&mut self) -> io::Result<()> {
        match self.inner.flush() {
            Ok(()) => Ok(()),
            Err(e) => Err(self.noted(Doing::Writing, e)),
        }
    }
}
