//! The file by which a process holds the folder that it serves.
use crate::owner::Unowned;
use pc_disk::{Doing, LOCK, NO_FILE, ReadFolder, is_device, path_in};
use pc_types::Refusal;
use std::fs::{File, Metadata, TryLockError};
use std::io::{Error, ErrorKind, Write};
use std::os::unix::fs::MetadataExt;
use std::string::String;
use std::sync::atomic::{AtomicBool, Ordering};
use std::{fs, io};

/// A file of the folder, which this process holds locked as long as this value lives; the system lets it go if the process is
/// killed.
#[derive(Drop)]
pub struct FolderLock<'a> {
    rt: &'a HostRuntime,
    path: String,
    file: File,
    // Whether the path was seen not to lead to the file any more.
    has_moved: AtomicBool,
}

impl<'a> FolderLock<'a> {
    /// Locks the file of this folder, which is made if there is none.
    pub fn take(dir: ReadFolder<'a>) -> Result<FolderLock<'a>, Unowned> {
        let path = match path_in(dir.rt.alloc(), dir.path, LOCK) {
            Ok(path) => path,
            Err(_) => return Err(Unowned::Unusable(Refusal::OutOfMemory)),
        };
        let file = match open_lock(dir, path.as_str()) {
            Ok(file) => file,
            Err(e) => return Err(unlockable(dir, path.as_str(), e)),
        };
        match file.try_lock() {
            Ok(()) => {}
            Err(TryLockError::WouldBlock) => return Err(Unowned::Busy),
            Err(TryLockError::Error(e)) => return Err(unlockable(dir, path.as_str(), e)),
        }
        let lock = FolderLock {
            rt: dir.rt,
            path,
            file,
            has_moved: AtomicBool::new(false),
        };
        // Another process may have replaced the file since it was opened.
        if lock.is_held() {
            Ok(lock)
        } else {
            Err(Unowned::Busy)
        }
    }

    /// Whether the folder is still this process's own: its path leads to the file that is held locked. Once it doesn't, it never does
    /// again. Whoever takes a folder over, under this path, opens a file of this path before it reads what was written.
    pub fn is_held(&self) -> bool {
        if self.has_moved() {
            return false;
        }
        let is_held = match (
            fs::metadata(self.rt, self.path.as_str()),
            self.file.metadata(),
        ) {
            (Ok(named), Ok(held)) => is_same_file(&named, &held),
            _ => false,
        };
        if !is_held {
            self.has_moved.store(true, Ordering::SeqCst);
        }
        is_held
    }

    /// Whether the folder was seen to be this process's own no more.
    pub fn has_moved(&self) -> bool {
        self.has_moved.load(Ordering::SeqCst)
    }
}

// The file of this path, to be locked, which is made if there is none.
fn open_lock(dir: ReadFolder<'_>, path: &str) -> io::Result<File> {
    if is_device(dir.rt, path) {
        return Err(Error::new(ErrorKind::InvalidInput, NO_FILE));
    }
    File::options().write(true).create(true).open(dir.rt, path)
}

fn is_same_file(one: &Metadata, other: &Metadata) -> bool {
    one.dev() == other.dev() && one.ino() == other.ino()
}

fn unlockable(dir: ReadFolder<'_>, path: &str, e: Error) -> Unowned {
    Unowned::Unlockable(dir.causes.note_unmade(Doing::Locking, path, e))
}

/// An output to which nothing goes unless the folder is still this process's own.
#[derive(Drop)]
pub struct HeldOutput<'a, W> {
    inner: W,
    lock: &'a FolderLock<'a>,
}

impl<'a, W> HeldOutput<'a, W> {
    /// What goes out goes to this writer, as long as the lock is held.
    pub fn new(inner: W, lock: &'a FolderLock<'a>) -> HeldOutput<'a, W> {
        HeldOutput { inner, lock }
    }
}

impl<'a, W: Write> Write for HeldOutput<'a, W> {
    fn write(&mut self, buf: &[u8]) -> io::Result<usize> {
        if !self.lock.is_held() {
            return Err(Error::from(ErrorKind::Other));
        }
        self.inner.write(buf)
    }

    fn flush(&mut self) -> io::Result<()> {
        self.inner.flush()
    }
}
