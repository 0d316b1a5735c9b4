//! Folders of files, and what their recovery prints.
ghost use Rattle.std.specs.Prelude.{◌≤◌};

use bstr::ByteSlice;
use pc_io::Tally;
use pc_restore::{EndedRecovery, Folder, Lacks, LogHeader, RecoveryMode, run_recover};
use pc_texts::NamedFile;
use pc_types::Refusal;
use std::alloc::Global;
use std::io::Write;

/// A file of a folder: its name, and its bytes or why it can't be opened.
#[derive(Drop)]
pub struct FolderFile {
    name: Vec<u8>,
    bytes: Vec<u8>,
    fault: Option<Refusal>,
}

/// The files that the lines name; `None` if a line doesn't have a name and bytes or a fault.
pub fn files_of(alloc: Global, lines: &[u8]) -> Result<Option<Vec<FolderFile>>, Refusal> {
    let mut files = Vec::new(alloc);
    for line in lines.lines() {
        match file_of(alloc, line)? {
            Some(file) => files.push(file)?,
            None => return Ok(None),
        }
    }
    Ok(Some(files))
}

fn file_of(alloc: Global, line: &[u8]) -> Result<Option<FolderFile>, Refusal> {
    let Some((name, text)) = line.split_once_str(b" ") else {
        return Ok(None);
    };
    let fault = fault_of(text);
    let digits = if fault.is_some() { b"" } else { text };
    let Ok(bytes) = hex::decode(alloc, digits) else {
        return Ok(None);
    };
    let name = Vec::from_slice(alloc, name)?;
    Ok(Some(FolderFile { name, bytes, fault }))
}

fn fault_of(word: &[u8]) -> Option<Refusal> {
    match word {
        b"NoFile" => Some(Refusal::NoFile),
        b"Device" => Some(Refusal::Device),
        _ => None,
    }
}

/// Prints what a recovery of the folder prints, and its status.
pub fn put_recovery<W: Write>(
    alloc: Global,
    files: &[FolderFile],
    is_strict: bool,
    out: &mut Tally<W>,
) -> Result<(), Refusal> {
    let text = recovered(alloc, files, usize::MAX, is_strict)?;
    out.put(&text)
}

/// Prints the same for each prefix of the log, if it is another than that of the one before, after its length.
pub fn put_cuts<W: Write>(
    alloc: Global,
    files: &[FolderFile],
    is_strict: bool,
    out: &mut Tally<W>,
) -> Result<(), Refusal> {
    let mut last = Vec::new(alloc);
    for cut in 0..=len_of_log(files) {
        let text = recovered(alloc, files, cut, is_strict)?;
        if text.as_slice() != last.as_slice() {
            let head = format!(in alloc; "-- {cut}\n")?;
            out.put(head.as_bytes())?;
            out.put(&text)?;
        }
        last = text;
    }
    Ok(())
}

fn len_of_log(files: &[FolderFile]) -> usize {
    match opened(files, b"log.pcl") {
        Ok(bytes) => bytes.len(),
        Err(_) => 0,
    }
}

// What a recovery prints, on either of its outputs, if the log is cut at the length; and what it did without, if it is strict.
fn recovered(
    alloc: Global,
    files: &[FolderFile],
    cut: usize,
    is_strict: bool,
) -> Result<Vec<u8>, Refusal> {
    let folder = folder_of(alloc, files, cut)?;
    let mut out = Tally::new(Vec::new(alloc));
    let mut errors = Tally::new(Vec::new(alloc));
    let mode = RecoveryMode {
        is_strict,
        has_pairs: true,
    };
    let EndedRecovery {
        status,
        lacks,
        lost: _,
    } = run_recover(alloc, "d d", folder, mode, &mut out, &mut errors);
    let mut text = out.into_inner();
    text.extend_from_slice(&errors.into_inner())?;
    if let (true, Some(lacks)) = (is_strict, &lacks) {
        push_lacks(alloc, &mut text, lacks)?;
    }
    text.extend_from_slice(match status {
        0 => b"status 0\n",
        4 => b"status 4\n",
        _ => b"status 1\n",
    })?;
    Ok(text)
}

fn push_lacks(alloc: Global, text: &mut Vec<u8>, lacks: &Lacks) -> Result<(), Refusal> {
    let header = match lacks.header {
        LogHeader::Missing => "missing",
        LogHeader::Cut => "cut",
        LogHeader::Whole => "whole",
    };
    let fault = match lacks.fault {
        Some(why) => why.name(),
        None => "none",
    };
    let unused = match lacks.unused {
        Some(count) => format!(in alloc; "{count}")?,
        None => String::from_str(alloc, "none")?,
    };
    let (skipped, verdict) = (lacks.skipped, verdict_of(lacks));
    let line = format!(in alloc;
        "lacks header {header} fault {fault} unused {unused} skipped {skipped}: {verdict}\n"
    )?;
    text.extend_from_slice(line.as_bytes())?;
    Ok(())
}

fn verdict_of(lacks: &Lacks) -> &'static str {
    match (lacks.is_whole(), lacks.is_damaged()) {
        (true, false) => "whole",
        (false, false) => "cut off",
        (false, true) => "damaged",
        (true, true) => "whole and damaged",
    }
}

fn folder_of(alloc: Global, files: &[FolderFile], cut: usize) -> Result<Folder<&[u8]>, Refusal> {
    let log = match opened(files, b"log.pcl") {
        Ok(bytes) => Ok(&bytes[..cut.min(bytes.len())]),
        Err(why) => Err(why),
    };
    let parts = match listing_fault(files) {
        Some(why) => Err(why),
        None => Ok(parts_of(alloc, files)?),
    };
    let base = opened(files, b"base.pcb");
    Ok(Folder { base, parts, log })
}

// The bytes of the file of the name, or why it can't be opened.
fn opened<'a>(files: &'a [FolderFile], name: &[u8]) -> Result<&'a [u8], Refusal> {
    for file in files {
        if file.name.as_slice() == name {
            return content(file);
        }
    }
    Err(Refusal::NoFile)
}

// Why the folder can't be listed, if it can't.
fn listing_fault(files: &[FolderFile]) -> Option<Refusal> {
    for file in files {
        if file.name.as_slice() == b".".as_slice() {
            return file.fault;
        }
    }
    None
}

fn content(file: &FolderFile) -> Result<&[u8], Refusal> {
    match file.fault {
        Some(why) => Err(why),
        None => Ok(file.bytes.as_slice()),
    }
}

fn parts_of(alloc: Global, files: &[FolderFile]) -> Result<Vec<NamedFile<&[u8]>>, Refusal> {
    let mut parts = Vec::new(alloc);
    for file in files {
        if file.name.ends_with(b".pcp") {
            let name = Vec::from_slice(alloc, &file.name)?;
            let opened = content(file);
            parts.push(NamedFile { name, opened })?;
        }
    }
    Ok(parts)
}
