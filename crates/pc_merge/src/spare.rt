//! Memory of entries that are done with.

use std::alloc::Global;
use std::mem;

// The memories of up to two entries that are done with, for the next ones. No contract sees them.
#[derive(Drop)]
pub(crate) struct Spare {
    alloc: Global,
    first: Vec<u8>,
    second: Vec<u8>,
}

impl Spare {
    // It has none yet, and takes none.
    pub(crate) fn new(alloc: Global) -> Spare {
        Spare {
            alloc,
            first: Vec::new(alloc),
            second: Vec::new(alloc),
        }
    }

    // Hands the first one out.
    pub(crate) fn take(&mut self) -> Vec<u8> {
        let second = mem::replace(&mut self.second, Vec::new(self.alloc));
        mem::replace(&mut self.first, second)
    }

    // Takes this one as the first.
    pub(crate) fn put(&mut self, memory: Vec<u8>) {
        self.second = mem::replace(&mut self.first, memory);
    }
}
