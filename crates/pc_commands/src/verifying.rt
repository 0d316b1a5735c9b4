//! Files that are read by their own readers, and what recovery makes of a folder of them.
use crate::parts::open_named;
use pc_disk::{Causes, FoundFolder, ReadFolder, open_folder, output_before, tell_unopened};
use pc_explanations::{About, Explainer, explain_output};
use pc_folders::RecoveredFolder;
use pc_io::Tally;
use pc_options::VerifyOptions;
use pc_restore::{Folder, Lost, RecoveryMode, run_recover};
use pc_texts::{NamedFile, end_output, report};
use pc_types::Refusal;
use pc_verify::{FileKind, Verified, verify_file};
use std::alloc::Global;
use std::io::{Read, Write};
use std::{fs, io};

/// The status if a file or a folder isn't whole.
const LACKING: u8 = 4;

/// Reports for each of the files and folders whether it is whole, as the options say; the status.
pub fn verify_paths(rt: &HostRuntime, options: &VerifyOptions<'_>) -> io::Result<u8> {
    let causes = Causes::new(rt.alloc())?;
    let explainer = Explainer::new(
        rt,
        &causes,
        About::Folder(first_of(options)),
        options.is_explained,
    );
    let stderr = rt.stderr();
    let mut errors = explainer.errors(io::writer(&stderr));
    let status = verify_all(&explainer, options, &mut errors)?;
    explain_output(&explainer, &mut errors);
    Ok(status)
}

fn first_of<'a>(options: &VerifyOptions<'a>) -> &'a str {
    match options.paths.first() {
        Some(path) => *path,
        None => "",
    }
}

fn verify_all<E: Write>(
    explainer: &Explainer<'_>,
    options: &VerifyOptions<'_>,
    errors: &mut Tally<E>,
) -> io::Result<u8> {
    let rt = explainer.rt;
    let mut out = Tally::new(output_before(rt, explainer.causes, io::writer(rt))?);
    let put = verify_each(explainer, options, &mut out, errors);
    match end_output(put, &mut out) {
        Ok(true) => Ok(0),
        Ok(false) => Ok(LACKING),
        Err(_) => Ok(1),
    }
}

// Whether all of them are whole. If an allocation fails, the error writer gets the path that it was needed for.
fn verify_each<W: Write, E: Write>(
    explainer: &Explainer<'_>,
    options: &VerifyOptions<'_>,
    out: &mut Tally<W>,
    errors: &mut Tally<E>,
) -> Result<bool, Refusal> {
    let mut are_whole = true;
    for path in &options.paths {
        match verify_path(explainer, path, out, errors) {
            Ok(is_whole) => are_whole = are_whole && is_whole,
            Err(why) => {
                if why == Refusal::OutOfMemory {
                    let _ = report(path.as_bytes(), why, errors);
                }
                return Err(why);
            }
        }
    }
    Ok(are_whole)
}

fn verify_path<W: Write, E: Write>(
    explainer: &Explainer<'_>,
    path: &str,
    out: &mut Tally<W>,
    errors: &mut Tally<E>,
) -> Result<bool, Refusal> {
    let (rt, causes) = (explainer.rt, explainer.causes);
    match fs::metadata(rt, path) {
        Ok(found) if found.is_dir() => verify_store(ReadFolder { rt, path, causes }, out, errors),
        _ => {
            let opened = open_named(rt, causes, path);
            verify(
                rt.alloc(),
                FileKind::of_name(path.as_bytes()),
                path,
                opened,
                out,
            )
        }
    }
}

fn verify<R: Read + Drop, W: Write>(
    alloc: Global,
    kind: FileKind,
    name: &str,
    opened: Result<R, Refusal>,
    out: &mut Tally<W>,
) -> Result<bool, Refusal> {
    let name = Vec::from_slice(alloc, name.as_bytes())?;
    verify_named(alloc, kind, NamedFile { name, opened }, out)
}

fn verify_named<R: Read + Drop, W: Write>(
    alloc: Global,
    kind: FileKind,
    file: NamedFile<R>,
    out: &mut Tally<W>,
) -> Result<bool, Refusal> {
    let Verified { is_whole, .. } = verify_file(alloc, kind, file, out)?;
    Ok(is_whole)
}

// The folder itself, or that of the generation that counts.
fn verify_store<W: Write, E: Write>(
    named: ReadFolder<'_>,
    out: &mut Tally<W>,
    errors: &mut Tally<E>,
) -> Result<bool, Refusal> {
    let found = RecoveredFolder::find(named)?;
    if !found.tell(named, false, errors)? {
        return Ok(false);
    }
    verify_folder(named.rt, named.causes, found.path.as_str(), out, errors)
}

// The files of the folder of this path, and what recovery makes of them.
fn verify_folder<'a, W: Write, E: Write>(
    rt: &'a HostRuntime,
    causes: &'a Causes,
    path: &'a str,
    out: &mut Tally<W>,
    errors: &mut Tally<E>,
) -> Result<bool, Refusal> {
    let dir = ReadFolder { rt, path, causes };
    let FoundFolder { folder, unopened } = open_folder(dir)?;
    tell_unopened(&unopened, errors);
    let are_whole = verify_files(dir, folder, out, errors)?;
    let lacks_nothing = put_summary(dir, out, errors)?;
    Ok(unopened.is_empty() && are_whole && lacks_nothing)
}

// Each file of the folder by itself.
fn verify_files<R: Read + Drop, W: Write, E: Write>(
    dir: ReadFolder<'_>,
    folder: Folder<R>,
    out: &mut Tally<W>,
    errors: &mut Tally<E>,
) -> Result<bool, Refusal> {
    let alloc = dir.rt.alloc();
    let Folder { base, parts, log } = folder;
    let mut are_whole = verify(alloc, FileKind::Base, "base.pcb", base, out)?;
    match parts {
        Ok(files) => {
            for file in files {
                let is_whole = verify_named(alloc, FileKind::Part, file, out)?;
                are_whole = are_whole && is_whole;
            }
        }
        Err(Refusal::OutOfMemory) => return Err(Refusal::OutOfMemory),
        Err(why) => {
            let _ = report(dir.path.as_bytes(), why, errors);
            are_whole = false;
        }
    }
    let is_whole = verify(alloc, FileKind::Log, "log.pcl", log, out)?;
    Ok(are_whole && is_whole)
}

// The result of recovering the folder, without the pairs; whether it lacks nothing. It is an error if the output failed, or if memory
// ran out, which is reported.
fn put_summary<W: Write, E: Write>(
    dir: ReadFolder<'_>,
    out: &mut Tally<W>,
    errors: &mut Tally<E>,
) -> Result<bool, Refusal> {
    let FoundFolder {
        folder,
        unopened: _,
    } = open_folder(dir)?;
    let mode = RecoveryMode {
        is_strict: true,
        has_pairs: false,
    };
    let ended = run_recover(dir.rt.alloc(), dir.path, folder, mode, out, errors);
    match &ended.lost {
        Some(Lost::Output) => Err(Refusal::Device),
        Some(lost) if is_for_memory(lost) => Err(Refusal::Device),
        _ => Ok(ended.status == 0),
    }
}

// Whether nothing was recovered because memory ran out.
fn is_for_memory<R>(lost: &Lost<R>) -> bool {
    let why = match lost {
        Lost::Base(why) | Lost::Part(_, why) | Lost::Log(why) => why.refusal(),
        Lost::Folder(why) => *why,
        Lost::Damaged | Lost::Output => return false,
    };
    why == Refusal::OutOfMemory
}
