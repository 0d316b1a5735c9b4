//! The generations of a folder on the disk.
use crate::causes::Doing;
use crate::folder::{ReadFolder, names_in, path_in};
use crate::making::{Target, sync_folder};
use pc_generations::{BASE_NAME, Generations, LOG_NAME, generation_name, number_in};
use pc_types::Refusal;
use std::alloc::{AllocError, Global};
use std::io::{ErrorKind, Write};
use std::string::String;
use std::{fs, io};

/// The number of bytes of a log without entries: its header's.
const HEADER: u64 = 20;

/// A folder of generations, each a folder with the files of a run. What is written there is on the disk once the call has ended.
#[derive(Clone, Copy)]
pub struct GenerationFolders<'a> {
    pub dir: ReadFolder<'a>,
}

/// The path of the folder of a generation.
pub fn generation_path(dir: ReadFolder<'_>, number: u32) -> Result<String, AllocError> {
    let name = generation_name(number);
    // A name of letters and digits is UTF-8.
    path_in(
        dir.rt.alloc(),
        dir.path,
        str::from_utf8(&name).unwrap_or(""),
    )
}

impl<'a> GenerationFolders<'a> {
    // The path of a file of a generation.
    fn path_of(&self, number: u32, name: &[u8]) -> Result<String, Refusal> {
        let folder = generation_path(self.dir, number)?;
        match str::from_utf8(name) {
            Ok(name) => Ok(path_in(self.dir.rt.alloc(), folder.as_str(), name)?),
            Err(_) => Err(Refusal::Device),
        }
    }

    // The folder of a generation is there no more.
    fn clear(&self, path: &str) -> io::Result<()> {
        match fs::remove_dir_all(self.dir.rt, path) {
            Err(e) if e.kind() != ErrorKind::NotFound => Err(e),
            _ => Ok(()),
        }
    }

    // Whether the generation has a base, or entries in its log: something of it may have been answered.
    fn is_used(&self, number: u32) -> Result<bool, Refusal> {
        Ok(self.has_base(number)? || self.has_entries(number)?)
    }

    // The folder of a generation is made anew.
    fn make_anew(&self, path: &str) -> io::Result<()> {
        self.clear(path)?;
        fs::create_dir(self.dir.rt, path)?;
        sync_folder(self.dir.rt, self.dir.path)
    }
}

// No contract knows the contents of a disk.
impl<'a> Generations for GenerationFolders<'a> {
    ghost use Rattle.std.specs.Prelude.{⊤};

    ghost stands = { λ folders number name content. ⊤ };

    fn numbers(&self, alloc: Global) -> Result<Vec<u32>, Refusal> {
        let mut numbers = Vec::new(alloc);
        for name in names_in(self.dir)?.split(|byte| *byte == 0) {
            if let Some(number) = number_in(name) {
                numbers.push(number)?;
            }
        }
        Ok(numbers)
    }

    fn has_base(&self, number: u32) -> Result<bool, Refusal> {
        let path = self.path_of(number, BASE_NAME)?;
        match fs::exists(self.dir.rt, path.as_str()) {
            Ok(is_there) => Ok(is_there),
            Err(e) => {
                let causes = self.dir.causes;
                Err(causes.note_unread(Doing::Opening, path.as_str(), e))
            }
        }
    }

    fn has_entries(&self, number: u32) -> Result<bool, Refusal> {
        let path = self.path_of(number, LOG_NAME)?;
        match fs::metadata(self.dir.rt, path.as_str()) {
            Ok(log) => Ok(log.len() > HEADER),
            Err(e) if e.kind() == ErrorKind::NotFound || e.kind() == ErrorKind::NotADirectory => Ok(
                false,
            ),
            Err(e) => {
                let causes = self.dir.causes;
                Err(causes.note_unread(Doing::Opening, path.as_str(), e))
            }
        }
    }

    fn make(&mut self, number: u32) -> Result<(), Refusal> {
        let path = generation_path(self.dir, number)?;
        if self.is_used(number)? {
            let causes = self.dir.causes;
            let used = io::Error::from(ErrorKind::AlreadyExists);
            return Err(causes.note_unmade(Doing::Making, path.as_str(), used));
        }
        match self.make_anew(path.as_str()) {
            Ok(()) => Ok(()),
            Err(e) => {
                let causes = self.dir.causes;
                Err(causes.note_unmade(Doing::Making, path.as_str(), e))
            }
        }
    }

    fn write(&mut self, number: u32, name: &[u8], text: &[u8]) -> Result<(), Refusal> {
        let path = self.path_of(number, name)?;
        let mut target = Target::new(self.dir.rt, self.dir.causes, path);
        let written = write_whole(&mut target, text);
        target.discard();
        written
    }

    fn remove(&mut self, number: u32) -> Result<(), Refusal> {
        let path = generation_path(self.dir, number)?;
        match self.clear(path.as_str()) {
            Ok(()) => Ok(()),
            Err(e) => {
                let causes = self.dir.causes;
                Err(causes.note_unmade(Doing::Removing, path.as_str(), e))
            }
        }
    }
}

// The file with this text, which has its name once all of it is on the disk.
fn write_whole(target: &mut Target<'_>, text: &[u8]) -> Result<(), Refusal> {
    let mut file = target.make()?;
    match file.write_all(text) {
        Ok(()) => target.finish(&file, true),
        Err(_) => Err(Refusal::Device),
    }
}
