//! Whether the parts of a folder are those of its log. A run's number tells that of files that are mixed, unless it is the one that each
//! run has which isn't given another.

use crate::heads::BaseHead;
use pc_bases::Base;
use pc_disk::{BASE, FoundFolder, LateFile, ReadFolder, is_device, open_folder, path_in};
use pc_io::Tally;
use pc_restore::{Folder, recover_base};
use pc_texts::NamedFile;
use pc_types::{Key, Refusal, Value};
use std::alloc::AllocError;
use std::fs::File;
use std::io::Read;

/// The number of a run that isn't given another.
const USUAL_RUN: u64 = 1;

/// The files of a folder from whose state another store starts, as `open_folder` gives them. If its run has the number 1, and the log
/// reaches the recovered point, the state is recovered without the parts too: if it has other pairs then, the parts are of another run,
/// and are refused as such. It is an error only if an allocation failed.
pub fn open_start<'a>(dir: ReadFolder<'a>) -> Result<FoundFolder<'a>, AllocError> {
    let FoundFolder { folder, unopened } = open_folder(dir)?;
    let Folder { base, parts, log } = folder;
    let parts = match parts {
        Ok(files) => own_parts(dir, files)?,
        Err(why) => Err(why),
    };
    let folder = Folder { base, parts, log };
    Ok(FoundFolder { folder, unopened })
}

// The parts, unless they are of another run.
fn own_parts<'a>(
    dir: ReadFolder<'a>,
    files: Vec<NamedFile<LateFile<'a>>>,
) -> Result<Result<Vec<NamedFile<LateFile<'a>>>, Refusal>, AllocError> {
    let are_foreign = !files.is_empty() && run_of(dir)? == USUAL_RUN && has_foreign_parts(dir)?;
    if are_foreign {
        return Ok(Err(Refusal::OtherRun));
    }
    Ok(Ok(files))
}

// The number of the run of the folder's base; 0 if it can't be read.
fn run_of(dir: ReadFolder<'_>) -> Result<u64, AllocError> {
    let path = path_in(dir.rt.alloc(), dir.path, BASE)?;
    if is_device(dir.rt, path.as_str()) {
        return Ok(0);
    }
    let mut head = BaseHead::new();
    let Ok(mut file) = File::open(dir.rt, path.as_str()) else {
        return Ok(0);
    };
    let mut bytes = [0u8; 16];
    if file.read_exact(&mut bytes).is_ok() {
        head.note(&bytes);
    }
    Ok(head.run())
}

// Whether the pairs are others if the parts aren't used.
fn has_foreign_parts(dir: ReadFolder<'_>) -> Result<bool, AllocError> {
    let Some(whole) = state_of(dir, true)? else {
        return Ok(false);
    };
    match state_of(dir, false)? {
        Some(logged) => Ok(!are_same(whole.pairs(), logged.pairs())),
        None => Ok(false),
    }
}

// The state that is recovered with the parts, or without them; `None` if there is none, or if it lacks something of the log.
fn state_of(dir: ReadFolder<'_>, has_parts: bool) -> Result<Option<Base>, AllocError> {
    let alloc = dir.rt.alloc();
    let FoundFolder {
        folder,
        unopened: _,
    } = open_folder(dir)?;
    let Folder { base, parts, log } = folder;
    let parts = if has_parts {
        parts
    } else {
        Ok(Vec::new(alloc))
    };
    let folder = Folder { base, parts, log };
    let mut told = Tally::new(Vec::new(alloc));
    let Ok(base) = recover_base(alloc, folder, true, &mut told) else {
        return Ok(None);
    };
    if told.failures() > 0 {
        return Err(AllocError);
    }
    let told = told.into_inner();
    let lacks_log = told
        .split(|byte| *byte == b'\n')
        .any(|line| line.starts_with(b"log "));
    Ok(if lacks_log { None } else { Some(base) })
}

fn are_same(one: &[(Key, Value)], other: &[(Key, Value)]) -> bool {
    if one.len() != other.len() {
        return false;
    }
    for (pair, same) in one.iter().zip(other) {
        if !pair.0.is(&same.0) || !pair.1.is(&same.1) {
            return false;
        }
    }
    true
}
