//! A file that is opened once it is read.
use crate::causes::{Causes, Doing};
use pc_types::Refusal;
use std::fs::File;
use std::io::{Error, ErrorKind, Read};
use std::string::String;
use std::{fs, io};

/// A file that is opened at its first read, and stays open to be read piece by piece, or whose bytes were read before. It is noted why
/// it can't be opened or read.
#[derive(Drop)]
pub struct LateFile<'a> {
    rt: &'a HostRuntime,
    causes: &'a Causes,
    path: String,
    opened: Opened,
}

// The rest of a file, to be read.
#[derive(Drop)]
enum Opened {
    NotYet,
    File(File),
    // All of its bytes, and how many of them were read.
    Bytes(Vec<u8>, usize),
    // It couldn't be read.
    Failed,
}

impl<'a> LateFile<'a> {
    /// The file of this path, not yet opened.
    pub fn new(rt: &'a HostRuntime, causes: &'a Causes, path: String) -> LateFile<'a> {
        LateFile::with(rt, causes, path, Opened::NotYet)
    }

    /// A file that is open.
    pub fn of_open(
        rt: &'a HostRuntime,
        causes: &'a Causes,
        path: String,
        file: File,
    ) -> LateFile<'a> {
        LateFile::with(rt, causes, path, Opened::File(file))
    }

    fn with(rt: &'a HostRuntime, causes: &'a Causes, path: String, opened: Opened) -> LateFile<'a> {
        LateFile {
            rt,
            causes,
            path,
            opened,
        }
    }

    /// Reads all of a file that is not yet opened, so that of many files one is open at a time. If it can't be read, that is reported
    /// when it is: it is an error only if an allocation failed.
    pub fn read_whole(self) -> Result<LateFile<'a>, Refusal> {
        let opened = match self.all_bytes() {
            Ok(bytes) => Opened::Bytes(bytes, 0),
            Err(e) if e.kind() == ErrorKind::OutOfMemory => return Err(Refusal::OutOfMemory),
            Err(_) => Opened::Failed,
        };
        Ok(LateFile::with(self.rt, self.causes, self.path, opened))
    }

    fn all_bytes(&self) -> io::Result<Vec<u8>> {
        let mut file = self.open()?;
        let mut bytes = Vec::new(self.rt.alloc());
        match file.read_to_end(&mut bytes) {
            Ok(_) => Ok(bytes),
            Err(e) => Err(self.failed(Doing::Reading, e)),
        }
    }

    fn open(&self) -> io::Result<File> {
        match fs::open(self.rt, self.path.as_str()) {
            Ok(file) => Ok(file),
            Err(e) => Err(self.failed(Doing::Opening, e)),
        }
    }

    fn failed(&self, doing: Doing, e: Error) -> Error {
        self.causes.note(doing, self.path.as_str(), e);
        e
    }
}

impl<'a> Read for LateFile<'a> {
    fn read(&mut self, buf: &mut [u8]) -> io::Result<usize> {
        if let Opened::NotYet = self.opened {
            self.opened = Opened::File(self.open()?);
        }
        match &mut self.opened {
            Opened::NotYet => Ok(0),
            Opened::File(file) => match file.read(buf) {
                Ok(count) => Ok(count),
                Err(e) => {
                    self.causes.note(Doing::Reading, self.path.as_str(), e);
                    Err(e)
                }
            },
            Opened::Bytes(bytes, at) => {
                let left = bytes.get(*at..).unwrap_or(&[]);
                let count = left.len().min(buf.len());
                buf[..count].copy_from_slice(&left[..count]);
                *at = at.saturating_add(count);
                Ok(count)
            }
            Opened::Failed => Err(Error::from(ErrorKind::Other)),
        }
    }
}
