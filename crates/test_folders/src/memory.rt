//! A folder in memory.
ghost use Rattle.std.specs.Prelude.{◌≡◌, []};

use pc_runs::NewFiles;
use pc_texts::FileName;
use pc_types::{Items, Refusal};
use std::alloc::Global;

/// A folder in memory. A file is in it once it is finished, in the place of the one that had its name.
#[derive(Drop)]
pub struct MemoryFolder {
    alloc: Global,
    // Each file with its name, the one that was finished last in front.
    files: Vec<(FileName, Items<u8>)>,
}

impl MemoryFolder {
    /// A folder without files.
    pub fn new(alloc: Global) -> MemoryFolder
        ensures { result.files.items ≡ [] }
    {
        MemoryFolder {
            alloc,
            files: Vec::new(alloc),
        }
    }

    /// The text of the file of this name, if there is one.
    pub fn text(&self, name: FileName) -> Option<&[u8]> {
        for file in &self.files {
            if file.0 == name {
                return Some(file.1.as_slice());
            }
        }
        None
    }
}

impl NewFiles<Vec<u8>> for MemoryFolder {
    ghost use Rattle.std.specs.Prelude.{◌≡◌, Some, []};
    ghost use Rattle.pc_types.specs.declared.refusal.Refusal.TheVariants.{OutOfMemory};
    ghost use Rattle.test_folders.specs.Texts.{HasText};

    ghost holds = { λ folder name text. HasText folder.files.items name text };

    ghost refuses = { λ folder name why. why ≡ OutOfMemory };

    ghost blank = { Some [] };

    fn make(&mut self, _name: &FileName) -> Result<Vec<u8>, Refusal> {
        Ok(Vec::new(self.alloc))
    }

    fn finish(&mut self, name: &FileName, file: Vec<u8>) -> Result<(), Refusal> {
        self.files.insert(0, (*name, Items::from_vec(file)))?;
        Ok(())
    }
}
