//! The log of a store that is served, on the disk.
use pc_disk::{Doing, Noted, ReadFolder};
use pc_turn::LogDevice;
use pc_types::Refusal;
use std::fs::File;
use std::io;
use std::io::Write;
use std::string::String;

/// A log's file. What was written is kept when the process is killed; if it is synced, it is on the disk.
#[derive(Drop)]
pub struct LogFile<'a> {
    file: Noted<'a, File>,
    is_synced: bool,
}

impl<'a> LogFile<'a> {
    /// The log of this path, in the folder of a store. It is there, and grows at its end.
    pub fn open(dir: ReadFolder<'a>, path: &str, is_synced: bool) -> Result<LogFile<'a>, Refusal> {
        let named = String::from_str(dir.rt.alloc(), path)?;
        match File::options().append(true).open(dir.rt, path) {
            Ok(file) => Ok(LogFile {
                file: Noted::new(file, named, dir.causes),
                is_synced,
            }),
            Err(e) => Err(dir.causes.note_unmade(Doing::Opening, path, e)),
        }
    }
}

// No contract knows the contents of a disk.
impl<'a> LogDevice for LogFile<'a> {
    ghost use Rattle.std.specs.Prelude.{None};

    ghost written = { λ log. None };

    ghost kept = { λ log. None };

    fn append(&mut self, bytes: &[u8]) -> io::Result<()> {
        self.file.write_all(bytes)
    }

    fn sync(&mut self) -> io::Result<()> {
        if self.is_synced {
            self.file.sync()
        } else {
            Ok(())
        }
    }
}
