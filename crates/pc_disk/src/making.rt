//! How a file is made so that nothing is lost: under another name, and renamed once it is whole.
use crate::causes::{Causes, Doing, Noted, why_unmade};
use pc_io::Tally;
use pc_texts::report;
use pc_types::Refusal;
use std::alloc::AllocError;
use std::fs::{File, Metadata};
use std::io::ErrorKind;
use std::string::String;
use std::{fs, io};

/// The suffix of the name of a file that is not whole yet. Recovery ignores files with such names.
const NEW_END: &str = ".new";

/// The most temporary names that are tried for a file.
const MOST_NAMES: u32 = 1_000;

/// The destination of a file. Its bytes are written to another file in the same folder, which no other process has and no link leads
/// to, and which gets the name once it is whole; until then the file at the destination stays. If that is no plain file, as a device
/// or a pipe, it is written to as it is.
#[derive(Drop)]
pub struct Target<'a> {
    rt: &'a HostRuntime,
    causes: &'a Causes,
    path: String,
    // The path of the file that is made apart, until it has its name.
    apart: Option<String>,
}

impl<'a> Target<'a> {
    /// A file to be made at this path; nothing is made yet.
    pub fn new(rt: &'a HostRuntime, causes: &'a Causes, path: String) -> Target<'a> {
        let apart = None;
        Target {
            rt,
            causes,
            path,
            apart,
        }
    }

    /// The path that the file is to have.
    pub fn path(&self) -> &str {
        self.path.as_str()
    }

    /// The file, without bytes.
    pub fn make(&mut self) -> Result<Noted<'a, File>, Refusal> {
        let path = String::from_str(self.rt.alloc(), self.path.as_str())?;
        let opened = match fs::metadata(self.rt, self.path.as_str()) {
            Ok(found) if is_stream(&found, self.path.as_str()) => self.open_stream(),
            found => self.make_apart(found.ok()),
        };
        let causes = self.causes;
        match opened {
            Ok(file) => Ok(Noted::new(file, path, causes)),
            Err(e) => Err(causes.note_unmade(Doing::Making, self.path.as_str(), e)),
        }
    }

    // The file at the destination, to be written to as it is.
    fn open_stream(&self) -> io::Result<File> {
        File::options()
            .append(true)
            .open(self.rt, self.path.as_str())
    }

    // A new file in the same folder, with the permissions of the file at the destination, if there is one and they can be set.
    fn make_apart(&mut self, standing: Option<Metadata>) -> io::Result<File> {
        for number in 0..MOST_NAMES {
            let path = self.path_apart(number)?;
            match File::create_new(self.rt, path.as_str()) {
                Ok(file) => {
                    self.apart = Some(path);
                    if let Some(standing) = standing {
                        let _ = file.set_permissions(standing.permissions());
                    }
                    return Ok(file);
                }
                Err(e) if e.kind() == ErrorKind::AlreadyExists => {}
                Err(e) => return Err(e),
            }
        }
        Err(io::Error::from(ErrorKind::AlreadyExists))
    }

    // One of the paths that the file may be made under.
    fn path_apart(&self, number: u32) -> Result<String, AllocError> {
        let alloc = self.rt.alloc();
        if number == 0 {
            return format!(in alloc; "{}{NEW_END}", self.path.as_str());
        }
        format!(in alloc; "{}{NEW_END}{number}", self.path.as_str())
    }

    /// The file is whole and gets its name. If it is synced, all of it has reached the device before, and the name does.
    pub fn finish(&mut self, file: &Noted<'a, File>, is_synced: bool) -> Result<(), Refusal> {
        let Some(apart) = &self.apart else {
            return Ok(());
        };
        if is_synced {
            if let Err(e) = file.sync() {
                return Err(why_unmade(&e));
            }
        }
        let (causes, path) = (self.causes, self.path.as_str());
        if let Err(e) = fs::rename(self.rt, apart.as_str(), path) {
            return Err(causes.note_unmade(Doing::Naming, path, e));
        }
        self.apart = None;
        if !is_synced {
            return Ok(());
        }
        match sync_folder(self.rt, folder_of(path)) {
            Ok(()) => Ok(()),
            Err(e) => Err(causes.note_unmade(Doing::Syncing, path, e)),
        }
    }

    /// A file that is not whole is removed, and the file at the destination stays. If it can't be removed, a line on standard error names
    /// it.
    pub fn discard(&mut self) {
        let Some(apart) = &self.apart else {
            return;
        };
        match fs::remove_file(self.rt, apart.as_str()) {
            Err(e) if e.kind() != ErrorKind::NotFound => {
                let stderr = self.rt.stderr();
                let mut errors = Tally::new(io::writer(&stderr));
                let _ = report(apart.as_bytes(), why_unmade(&e), &mut errors);
            }
            _ => {}
        }
        self.apart = None;
    }
}

// Whether the file at the destination is written to as it is: it is no plain file, or the system's own name of an open one.
fn is_stream(found: &Metadata, path: &str) -> bool {
    let is_open = path.starts_with("/dev/std") || path.starts_with("/dev/fd/");
    !found.is_file() || is_open || path.starts_with("/proc/")
}

/// The folder of a file, by its path.
pub fn folder_of(path: &str) -> &str {
    match path.rfind('/') {
        Some(0) => "/",
        Some(end) => &path[..end],
        None => ".",
    }
}

/// The names that the folder has reach its device.
pub fn sync_folder(rt: &HostRuntime, path: &str) -> io::Result<()> {
    File::open(rt, path)?.sync_all()
}
