//! The standard streams.
use crate::causes::{Causes, Noted};
use std::alloc::AllocError;
use std::fs::File;
use std::io::{BufWriter, Write};
use std::os::fd::AsRawFd;
use std::string::String;
use std::{fs, io};

/// The name of standard output in the message of its failure.
pub const OUTPUT: &str = "standard output";

/// The name of standard input.
pub const INPUT: &str = "standard input";

/// How many standard streams there are; they have the first descriptors.
const STREAMS: i32 = 3;

/// Fills the places of those standard streams that the program was started without, until the files are dropped: else a file that
/// it opens would take such a place, and what is printed would go into it. They are open for reading, so that printing fails as it
/// does on a closed stream. If there is no null device, no place is filled.
pub fn fill_places(rt: &HostRuntime) -> Result<Vec<File>, AllocError> {
    let mut files = Vec::new(rt.alloc());
    for _ in 0..STREAMS {
        let Ok(file) = fs::open(rt, "/dev/null") else {
            break;
        };
        if file.as_raw_fd() >= STREAMS {
            break;
        }
        files.push(file)?;
    }
    Ok(files)
}

/// A buffer before a writer to standard output, whose failures are noted.
pub fn output_before<'a, W: Write + Drop>(
    rt: &HostRuntime,
    causes: &'a Causes,
    writer: W,
) -> io::Result<BufWriter<Noted<'a, W>>> {
    let alloc = rt.alloc();
    let name = String::from_str(alloc, OUTPUT)?;
    BufWriter::new(alloc, Noted::new(writer, name, causes))
}
