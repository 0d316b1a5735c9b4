//! The files of a folder that recovery reads.
use crate::causes::{Causes, Doing};
use crate::late::LateFile;
use pc_generations::number_in;
use pc_io::{Tally, read_all};
use pc_restore::Folder;
use pc_texts::{NamedFile, report};
use pc_types::Refusal;
use std::alloc::{AllocError, Global};
use std::fs;
use std::fs::Files;
use std::io::{Error, ErrorKind, Write};
use std::os::unix::fs::FileTypeExt;
use std::string::String;

/// The name of the base in a folder.
pub const BASE: &str = "base.pcb";

/// The name of the log.
pub const LOG: &str = "log.pcl";

/// The name of the file that the process that serves a folder holds locked.
pub const LOCK: &str = "lock";

/// What is said of what isn't opened, since it is none of a folder's files.
pub const NO_FILE: &str = "it is a pipe, a socket or a device";

/// The suffix of the names of parts.
pub const PART_END: &[u8] = b".pcp";

/// The files that recovery finds in a folder.
#[derive(Drop)]
pub struct FoundFolder<'a> {
    /// The base, the parts in the byte order of their names, and the log.
    pub folder: Folder<LateFile<'a>>,
    /// The names of part files that are no UTF-8, in their byte order: such a file can't be opened.
    pub unopened: Vec<Vec<u8>>,
}

/// A folder whose files are read, by its path.
#[derive(Clone, Copy)]
pub struct ReadFolder<'a> {
    pub rt: &'a HostRuntime,
    pub path: &'a str,
    /// The list of the causes why files can't be read.
    pub causes: &'a Causes,
}

/// The folder's files for recovery. It is an error only if an allocation failed.
pub fn open_folder<'a>(dir: ReadFolder<'a>) -> Result<FoundFolder<'a>, AllocError> {
    let mut unopened = Vec::new(dir.rt.alloc());
    let base = open_named(dir, BASE)?;
    let parts = match list_parts(dir) {
        Ok(names) => Ok(late_files(dir, names, &mut unopened)?),
        Err(why) => Err(why),
    };
    let log = open_named(dir, LOG)?;
    let folder = Folder { base, parts, log };
    Ok(FoundFolder { folder, unopened })
}

/// Reports the part files that can't be opened, by their names.
pub fn tell_unopened<E: Write>(unopened: &[Vec<u8>], errors: &mut Tally<E>) {
    for name in unopened {
        let _ = report(name, Refusal::Device, errors);
    }
}

/// The path of a file of a folder.
pub fn path_in(alloc: Global, dir: &str, name: &str) -> Result<String, AllocError> {
    let mut path = String::from_str(alloc, dir)?;
    path.push('/')?;
    path.push_str(name)?;
    Ok(path)
}

// The file of this name, open, or why it can't be opened. In the folder of a generation, which is read at each start, nothing is waited
// for.
fn open_named<'a>(
    dir: ReadFolder<'a>,
    name: &str,
) -> Result<Result<LateFile<'a>, Refusal>, AllocError> {
    let path = path_in(dir.rt.alloc(), dir.path, name)?;
    let opened = if is_generation(dir.path) && is_device(dir.rt, path.as_str()) {
        Err(Error::new(ErrorKind::InvalidInput, NO_FILE))
    } else {
        fs::open(dir.rt, path.as_str())
    };
    match opened {
        Ok(file) => Ok(Ok(LateFile::of_open(dir.rt, dir.causes, path, file))),
        Err(e) => {
            let why = dir.causes.note_unread(Doing::Opening, path.as_str(), e);
            Ok(Err(why))
        }
    }
}

/// The names of what the folder has, each ended by a NUL. They are bytes, since a name need not be UTF-8.
pub fn names_in(dir: ReadFolder<'_>) -> Result<Vec<u8>, Refusal> {
    let alloc = dir.rt.alloc();
    let path = path_in(alloc, dir.path, "")?;
    match dir.rt.open_dir(path.as_str()) {
        Ok(names) => read_all(alloc, &mut Tally::new(names)),
        Err(e) => Err(dir.causes.note_unread(Doing::Listing, dir.path, e)),
    }
}

/// Whether recovery reads a file of this name.
pub fn is_run_file(name: &[u8]) -> bool {
    name == BASE.as_bytes() || name == LOG.as_bytes() || name.ends_with(PART_END)
}

// The names of the folder's part files, in their byte order.
fn list_parts(dir: ReadFolder<'_>) -> Result<Vec<Vec<u8>>, Refusal> {
    let alloc = dir.rt.alloc();
    let mut parts = Vec::new(alloc);
    for name in names_in(dir)?.split(|byte| *byte == 0) {
        if name.ends_with(PART_END) {
            parts.push(Vec::from_slice(alloc, name)?)?;
        }
    }
    parts.sort_unstable();
    Ok(parts)
}

// The files of these names, none of them opened; those whose names are no UTF-8 are set apart. What is no file of bytes is passed by.
fn late_files<'a>(
    dir: ReadFolder<'a>,
    names: Vec<Vec<u8>>,
    unopened: &mut Vec<Vec<u8>>,
) -> Result<Vec<NamedFile<LateFile<'a>>>, AllocError> {
    let mut files = Vec::new(dir.rt.alloc());
    for name in names {
        let Ok(text) = str::from_utf8(&name) else {
            unopened.push(name)?;
            continue;
        };
        let path = path_in(dir.rt.alloc(), dir.path, text)?;
        if !is_passed_by(dir.rt, path.as_str()) {
            let opened = Ok(LateFile::new(dir.rt, dir.causes, path));
            files.push(NamedFile { name, opened })?;
        }
    }
    Ok(files)
}

// Whether what has a part's name is none: a folder, or a device.
fn is_passed_by(rt: &HostRuntime, path: &str) -> bool {
    match fs::symlink_metadata(rt, path) {
        Ok(found) if found.is_dir() => true,
        _ => is_device(rt, path),
    }
}

/// Whether this is a pipe, a socket or a device, also if a link leads to it: it may be opened only once another process opens it, or be
/// read for ever.
pub fn is_device(rt: &HostRuntime, path: &str) -> bool {
    match fs::metadata(rt, path) {
        Ok(found) => {
            let kind = found.file_type();
            kind.is_fifo() || kind.is_socket() || kind.is_char_device() || kind.is_block_device()
        }
        Err(_) => false,
    }
}

// Whether the path is that of a generation's folder, by its name.
fn is_generation(path: &str) -> bool {
    let mut last = b"".as_slice();
    for name in path.as_bytes().split(|byte| *byte == b'/') {
        if !name.is_empty() {
            last = name;
        }
    }
    number_in(last).is_some()
}
