//! The heads of a run's files: its base begins with the number of the run, and its log with a header of that.

use arrayvec::ArrayVec;
use pc_disk::Noted;
use pc_io::Tally;
use pc_log::encode_header;
use pc_types::Refusal;
use std::alloc::Global;
use std::fs::File;
use std::io;
use std::io::Write;

/// A base begins with this many bytes up to the end of the number of its run.
const BASE_HEAD: usize = 16;

/// The number of bytes of a log's header.
pub const LOG_HEAD: usize = 20;

/// The first bytes of a base as it is written: its magic, and then the number of its run, big-endian.
#[derive(Drop)]
pub struct BaseHead {
    bytes: ArrayVec<u8, BASE_HEAD>,
}

impl BaseHead {
    /// Nothing was written.
    pub fn new() -> BaseHead {
        BaseHead {
            bytes: ArrayVec::new(),
        }
    }

    /// These bytes were written next.
    pub fn note(&mut self, bytes: &[u8]) {
        for byte in bytes {
            if self.bytes.try_push(*byte).is_err() {
                return;
            }
        }
    }

    /// The number of the run; 0 if not all of it was written.
    pub fn run(&self) -> u64 {
        match self.bytes.as_slice() {
            [_, _, _, _, _, _, _, _, a, b, c, d, e, f, g, h] => {
                u64::from_be_bytes([*a, *b, *c, *d, *e, *f, *g, *h])
            }
            _ => 0,
        }
    }
}

/// Writes the header of the log of the run of this number. If it is synced, it reaches the device.
pub fn head_log(
    alloc: Global,
    file: &mut Noted<'_, File>,
    run: u64,
    is_synced: bool,
) -> Result<(), Refusal> {
    let mut header = Tally::new(Vec::with_capacity(alloc, LOG_HEAD)?);
    encode_header(&mut header, run)?;
    match write_whole(file, &header.into_inner(), is_synced) {
        Ok(()) => Ok(()),
        Err(_) => Err(Refusal::Device),
    }
}

fn write_whole(file: &mut Noted<'_, File>, bytes: &[u8], is_synced: bool) -> io::Result<()> {
    file.write_all(bytes)?;
    if is_synced { file.sync() } else { Ok(()) }
}
