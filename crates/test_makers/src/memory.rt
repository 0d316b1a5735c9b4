//! A file in memory.
ghost use Rattle.std.specs.Prelude.{◌≡◌};

use pc_collapse_files::Maker;
use pc_types::Refusal;
use std::alloc::Global;

/// A file in memory: the bytes under its name, which are those of the file that was finished last.
#[derive(Drop)]
pub struct MemoryFile {
    alloc: Global,
    /// The contents under the name.
    pub standing: Vec<u8>,
    /// Whether no file can get the name.
    pub is_unnamed: bool,
}

impl MemoryFile {
    /// Puts these bytes under the name.
    pub fn new(alloc: Global, standing: Vec<u8>) -> MemoryFile
        ensures { result.standing.items ≡ standing.items }
    {
        MemoryFile {
            alloc,
            standing,
            is_unnamed: false,
        }
    }
}

impl Maker<Vec<u8>> for MemoryFile {
    ghost use Rattle.std.specs.Prelude.{◌≡◌, true};
    ghost use Rattle.pc_types.specs.declared.Refusal.{Refusal};

    ghost stands = { λ file text. file.standing.items ≡ text };

    ghost refuses = { λ file why. (file.is_unnamed ≡ true) × (why ≡ Refusal.Device) };

    fn make(&mut self) -> Result<Vec<u8>, Refusal> {
        Ok(Vec::new(self.alloc))
    }

    fn finish(&mut self, file: Vec<u8>) -> Result<(), Refusal> {
        if self.is_unnamed {
            return Err(Refusal::Device);
        }
        self.standing = file;
        Ok(())
    }
}
