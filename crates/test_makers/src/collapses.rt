//! The contents of a joined file after a collapse that succeeds, that fails, or whose file can't get the name.
use crate::memory::MemoryFile;
use pc_collapse_files::run_collapse;
use pc_io::Tally;
use pc_texts::NamedFile;
use pc_types::Refusal;
use std::alloc::Global;
use std::test::Fail;

// Point 1 of run 1: a is 1.
const FIRST: &[u8] = b"PCALCP02\
    \x00\x00\x00\x00\x00\x00\x00\x01\
    \x00\x00\x00\x01\x00\x00\x00\x01\x00\x00\x00\x01\
    \x00\x01\x00\x00a\x00\x00\x00\x01\x01\x00\x00\x00\x011\
    \x00\x00\x00\x00\x00\x01";

// Point 2: a is 2.
const SECOND: &[u8] = b"PCALCP02\
    \x00\x00\x00\x00\x00\x00\x00\x01\
    \x00\x00\x00\x01\x00\x00\x00\x02\x00\x00\x00\x02\
    \x00\x01\x00\x00a\x00\x00\x00\x02\x01\x00\x00\x00\x012\
    \x00\x00\x00\x00\x00\x01";

// Points 1 and 2: a is 2.
const BOTH: &[u8] = b"PCALCP02\
    \x00\x00\x00\x00\x00\x00\x00\x01\
    \x00\x00\x00\x01\x00\x00\x00\x01\x00\x00\x00\x02\
    \x00\x01\x00\x00a\x00\x00\x00\x02\x01\x00\x00\x00\x012\
    \x00\x00\x00\x00\x00\x01";

// Joins the first part and the bytes, and returns the status.
fn collapse(alloc: Global, second: &[u8], file: &mut MemoryFile) -> Result<u8, Refusal> {
    let mut files = Vec::new(alloc);
    for (name, bytes) in [(b"1", FIRST), (b"2", second)] {
        let name = Vec::from_slice(alloc, name)?;
        let opened = Ok(bytes);
        files.push(NamedFile { name, opened })?;
    }
    let mut out = Tally::new(Vec::new(alloc));
    let mut errors = Tally::new(Vec::new(alloc));
    let ended = run_collapse(alloc, "both", files, file, &mut out, &mut errors);
    Ok(ended.status)
}

#[test]
fn the_join_takes_the_place_of_what_stood_there(rt: HostRuntime) -> Result<(), Fail> {
    let alloc = rt.alloc();
    let mut file = MemoryFile::new(alloc, Vec::from_slice(alloc, b"before")?);
    assert_eq!(rt; collapse(alloc, SECOND, &mut file)?, 0);
    assert_eq!(rt; file.standing.as_slice(), BOTH);
    Ok(())
}

// The second input is truncated at each byte.
#[test]
fn a_fault_leaves_what_stood_there(rt: HostRuntime) -> Result<(), Fail> {
    let alloc = rt.alloc();
    let mut file = MemoryFile::new(alloc, Vec::from_slice(alloc, b"before")?);
    for length in 0..SECOND.len() {
        assert_eq!(rt; collapse(alloc, &SECOND[..length], &mut file)?, 1);
        assert_eq!(rt; file.standing.as_slice(), b"before".as_slice());
    }
    Ok(())
}

#[test]
fn so_does_a_file_that_gets_no_name(rt: HostRuntime) -> Result<(), Fail> {
    let alloc = rt.alloc();
    let mut file = MemoryFile::new(alloc, Vec::from_slice(alloc, b"before")?);
    file.is_unnamed = true;
    assert_eq!(rt; collapse(alloc, SECOND, &mut file)?, 1);
    assert_eq!(rt; file.standing.as_slice(), b"before".as_slice());
    Ok(())
}
