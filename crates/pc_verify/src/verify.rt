//! A file, from its reader to its line.
ghost use Rattle.std.specs.Prelude.{◌≡◌, ◌≢◌, true, None, IfOk, IfErr};
ghost use Rattle.pc_types.specs.declared.refusal.Refusal.{Refusal};
ghost use Rattle.pc_verify.specs.declared.findings.Finding.{Finding};
ghost use Rattle.pc_verify.specs.Findings.{IsFinding, is_of_text};
ghost use Rattle.pc_verify.specs.Runs.{IsFindingAbout, IsFindingPrinted, IsUntold};

use crate::findings::{FileKind, Finding, finding_of};
use crate::lines::put_finding;
use pc_io::Tally;
use pc_texts::{NamedFile, Unread, read_opened};
use pc_types::Refusal;
use std::alloc::Global;
use std::io::{Read, Write};

/// The result of a file's reading.
#[derive(Drop)]
pub struct Verified<R> {
    /// Whether it is a whole text of its kind.
    pub is_whole: bool,
    /// The reader of a file that was opened and can't be read, which has counted the read that failed.
    pub failed: Option<Tally<R>>,
}

/// Reads a file as a text of this kind, and writes its line: its format, its run and its counts, or its fault and the byte, from 1, with
/// which that is seen, or why it can't be opened or read. Returns whether the file is a whole text of its kind; and its reader if it was
/// opened and its line says `Device`, and only then: a read of it failed, which the reader has counted. It is refused with
/// `OutOfMemory`, and then nothing went out, and with `Device` if and only if the output failed, and then a part of the line did.
pub fn verify_file<R: Read + Drop, W: Write>(
    alloc: Global,
    kind: FileKind,
    file: NamedFile<R>,
    out: &mut Tally<W>,
) -> Result<Verified<R>, Refusal>
    ensures told { IfOk result (λ verified. IsFindingPrinted R.remaining W.contents kind file out.old out.new verified.failed verified.is_whole) }
    ensures untold { IfErr result (IsUntold R.remaining W.contents kind file out.old out.new) }
{
    let NamedFile { name, opened } = file;
    let Found { finding, failed } = find(alloc, kind, opened)?;
    put_finding(out, &name, &finding)?;
    Ok(Verified {
        is_whole: finding.is_sound(),
        failed,
    })
}

// The finding about a file, and its reader if a read of it failed.
#[derive(Drop)]
struct Found<R> {
    finding: Finding,
    failed: Option<Tally<R>>,
}

// The finding about a file. It is refused only if an allocation failed.
fn find<R: Read + Drop>(
    alloc: Global,
    kind: FileKind,
    opened: Result<R, Refusal>,
) -> Result<Found<R>, Refusal>
    ensures found { IfOk result (λ found. IsFindingAbout R.remaining kind opened found.failed found.finding) }
    ensures memory { IfErr result (λ why. why ≡ Refusal.OutOfMemory) }
{
    match read_opened(alloc, opened) {
        Ok(bytes) => found_in(alloc, kind, &bytes),
        Err(Unread::Failed(reader)) => Ok(Found {
            finding: Finding::Unread(Refusal::Device),
            failed: Some(reader),
        }),
        Err(Unread::Absent(why)) => found_absent(why),
        Err(Unread::NoMemory) => Err(Refusal::OutOfMemory),
    }
}

fn found_in<R>(alloc: Global, kind: FileKind, bytes: &[u8]) -> Result<Found<R>, Refusal>
    ensures found { IfOk result (λ found. IsFinding kind bytes.now found.finding) }
    ensures text { IfOk result (λ found. (is_of_text found.finding ≡ true) × (found.failed ≡ None)) }
    ensures memory { IfErr result (λ why. why ≡ Refusal.OutOfMemory) }
{
    match finding_of(alloc, kind, bytes) {
        Ok(finding) => Ok(Found {
            finding,
            failed: None,
        }),
        Err(_) => Err(Refusal::OutOfMemory),
    }
}

// The finding about a file that can't be opened for this, unless an allocation failed.
fn found_absent<R>(why: Refusal) -> Result<Found<R>, Refusal>
    ensures found { IfOk result (λ found. (found.finding ≡ Finding.Unread why) × (found.failed ≡ None) × (why ≢ Refusal.OutOfMemory)) }
    ensures memory { IfErr result (λ why. why ≡ Refusal.OutOfMemory) }
{
    if why == Refusal::OutOfMemory {
        return Err(Refusal::OutOfMemory);
    }
    Ok(Found {
        finding: Finding::Unread(why),
        failed: None,
    })
}
