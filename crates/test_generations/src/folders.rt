//! Folders of generations in memory.
use pc_generations::{BASE_NAME, Generations, LOG_NAME};
use pc_types::Refusal;
use std::alloc::Global;

/// The number of bytes of a log without entries.
const HEADER: usize = 20;

/// A file of a generation.
#[derive(Drop)]
pub struct StoredFile {
    /// The number of the generation.
    pub number: u32,
    pub name: Vec<u8>,
    pub text: Vec<u8>,
}

/// How a call that fails leaves what it is about.
#[derive(Clone, Copy, Debug, PartialEq, Eq)]
pub enum Failure {
    /// As it was.
    Undone,
    /// Done in part, or all of it, if it has no parts.
    Done,
}

/// Folders in memory. Of the calls that change them the one after `calls` more fails, and so do all after it, which do nothing.
#[derive(Drop)]
pub struct MemoryFolders {
    pub alloc: Global,
    pub files: Vec<StoredFile>,
    /// How many calls succeed.
    pub calls: usize,
    /// What the first one leaves that fails.
    pub failure: Failure,
}

impl MemoryFolders {
    /// The text of a file, if it is there.
    pub fn text(&self, number: u32, name: &[u8]) -> Option<&[u8]> {
        for file in &self.files {
            if file.number == number && file.name.as_slice() == name {
                return Some(file.text.as_slice());
            }
        }
        None
    }

    /// The number of files that a generation has.
    pub fn count(&self, number: u32) -> usize {
        let mut count = 0usize;
        for file in &self.files {
            if file.number == number {
                count = count.saturating_add(1);
            }
        }
        count
    }

    // The first file of a generation, by its place.
    fn place(&self, number: u32) -> Option<usize> {
        self.files.iter().position(|file| file.number == number)
    }

    // How many files of a generation go, at most.
    fn remove_files(&mut self, number: u32, most: usize) {
        for _ in 0..most {
            let Some(place) = self.place(number) else {
                return;
            };
            if place < self.files.len() {
                drop(self.files.swap_remove(place));
            }
        }
    }

    // Adds a file, in the place of one of its name.
    fn put(&mut self, number: u32, name: &[u8], text: &[u8]) -> Result<(), Refusal> {
        let alloc = self.alloc;
        let named = Vec::from_slice(alloc, name)?;
        let text = Vec::from_slice(alloc, text)?;
        let place = self.files.iter().position(|file| file.number == number
            && file.name.as_slice() == name);
        if let Some(place) = place {
            if place < self.files.len() {
                drop(self.files.swap_remove(place));
            }
        }
        self.files.push(StoredFile {
            number,
            name: named,
            text,
        })?;
        Ok(())
    }

    // Whether the call is made: it succeeds, or fails and is done, in part at least.
    fn call(&mut self) -> (bool, Result<(), Refusal>) {
        if self.calls > 0 {
            self.calls -= 1;
            return (true, Ok(()));
        }
        let is_done = self.failure == Failure::Done;
        self.failure = Failure::Undone;
        (is_done, Err(Refusal::Device))
    }

    // The files of a generation go, or one of them if the call fails.
    fn clear(&mut self, number: u32) -> Result<(), Refusal> {
        let (is_made, called) = self.call();
        if is_made {
            let most = if called.is_ok() { self.files.len() } else { 1 };
            self.remove_files(number, most);
        }
        called
    }
}

// Only the tests read the contents of these folders.
impl Generations for MemoryFolders {
    ghost use Rattle.std.specs.Prelude.{⊤};

    ghost stands = { λ folders number name content. ⊤ };

    fn numbers(&self, alloc: Global) -> Result<Vec<u32>, Refusal> {
        let mut numbers = Vec::new(alloc);
        for file in &self.files {
            if !numbers.contains(&file.number) {
                numbers.push(file.number)?;
            }
        }
        Ok(numbers)
    }

    fn has_base(&self, number: u32) -> Result<bool, Refusal> {
        Ok(self.text(number, BASE_NAME).is_some())
    }

    fn has_entries(&self, number: u32) -> Result<bool, Refusal> {
        Ok(
            self.text(number, LOG_NAME)
                .is_some_and(|text| text.len() > HEADER),
        )
    }

    fn make(&mut self, number: u32) -> Result<(), Refusal> {
        if self.has_base(number)? || self.has_entries(number)? {
            return Err(Refusal::Device);
        }
        self.clear(number)
    }

    fn write(&mut self, number: u32, name: &[u8], text: &[u8]) -> Result<(), Refusal> {
        let (is_made, called) = self.call();
        if is_made {
            self.put(number, name, text)?;
        }
        called
    }

    fn remove(&mut self, number: u32) -> Result<(), Refusal> {
        self.clear(number)
    }
}
