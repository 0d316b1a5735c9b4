//! The files of a folder, read whole.
ghost use Rattle.std.specs.Prelude.{◌≡◌, ◌++◌, [], ◌∷◌, ℕ, List, map, is_ok, IsOk, IfOk, IfErr, OnOk};
ghost use Rattle.pc_restore.specs.declared.recovery.Lost.{Lost};
ghost use Rattle.pc_restore.specs.Recoveries.{AreAllOpened, ArePartsOpened, HoldsLog, HoldEach, HoldParts, HoldsAll, IsEachLost, IsFolderUnread, IsListLost, IsLogFault, IsLogOpened, bytes_of, names_of};
ghost use Rattle.pc_texts.specs.Files.{IsUnread, HoldsBytes, AreOpened};
ghost use Rattle.pc_texts.specs.declared.files.Unread.{Unread};

use crate::recovery::{Folder, Lost};
use pc_texts::{NamedFile, Unread, read_opened};
use pc_types::Refusal;
use std::alloc::{AllocError, Global};
use std::io::Read;

/// A part file that was read.
#[derive(Drop)]
pub struct PartBytes {
    pub name: Vec<u8>,
    pub bytes: Vec<u8>,
}

/// The files of a folder that were read. A log that doesn't exist has no bytes.
#[derive(Drop)]
pub struct FolderBytes {
    pub base: Vec<u8>,
    pub parts: Vec<PartBytes>,
    pub is_logged: bool,
    pub log: Vec<u8>,
}

/// The bytes of the parts, in their order.
pub fn part_slices<'a>(alloc: Global, parts: &'a [PartBytes]) -> Result<Vec<&'a [u8]>, AllocError>
    ensures { IfOk result (λ slices. map (λ slice. slice.now) slices.items ≡ bytes_of parts.now) }
{
    let mut slices = Vec::new(alloc);
    for part in parts {
        slices.push(part.bytes.as_slice())?;
    }
    Ok(slices)
}

/// Reads all files of the folder: the base first, then the parts, and the log last. Otherwise it returns the first cause: a file
/// can't be opened or read, the parts can't be listed, or an allocation failed.
pub fn read_folder<R: Read + Drop>(alloc: Global, folder: Folder<R>) -> Result<FolderBytes, Lost<R>>
    ensures held { (base : List ℕ) (names parts : List (List ℕ)) (log : List ℕ) → HoldsAll R.remaining folder base names parts log → IfOk result (λ files.
        (files.base.items ≡ base) × (names_of files.parts.items ≡ names) × (bytes_of files.parts.items ≡ parts) × (files.log.items ≡ log)) }
    ensures logged { IfOk result (λ files. files.is_logged ≡ is_ok folder.log) }
    ensures opened { OnOk result (AreAllOpened folder) }
    ensures cause { IfErr result (IsFolderUnread folder) }
{
    let Folder { base, parts, log } = folder;
    let is_logged = log.is_ok();
    let base = match read_opened(alloc, base) {
        Ok(base) => base,
        Err(why) => return Err(Lost::Base(why)),
    };
    let parts = read_listed(alloc, parts)?;
    let log = match read_log(alloc, log) {
        Ok(log) => log,
        Err(why) => return Err(Lost::Log(why)),
    };
    Ok(FolderBytes {
        base,
        parts,
        is_logged,
        log,
    })
}

// The log's bytes, none if it doesn't exist.
fn read_log<R: Read + Drop>(alloc: Global, opened: Result<R, Refusal>) -> Result<Vec<u8>, Unread<R>>
    ensures held { (held : List ℕ) → HoldsLog R.remaining opened held → IfOk result (λ bytes. bytes.items ≡ held) }
    ensures opened { OnOk result (IsLogOpened opened) }
    ensures cause { IfErr result (IsLogFault opened) }
{
    match opened {
        Err(Refusal::NoFile) => Ok(Vec::new(alloc)),
        opened => read_opened(alloc, opened),
    }
}

fn read_listed<R: Read + Drop>(
    alloc: Global,
    listed: Result<Vec<NamedFile<R>>, Refusal>,
) -> Result<Vec<PartBytes>, Lost<R>>
    ensures held { (names parts : List (List ℕ)) → HoldParts R.remaining listed names parts → IfOk result (λ read. (names_of read.items ≡ names) × (bytes_of read.items ≡ parts)) }
    ensures opened { OnOk result (ArePartsOpened listed) }
    ensures cause { IfErr result (IsListLost listed) }
{
    match listed {
        Ok(files) => read_parts(alloc, files),
        Err(why) => Err(Lost::Folder(why)),
    }
}

fn read_parts<R: Read + Drop>(
    alloc: Global,
    files: Vec<NamedFile<R>>,
) -> Result<Vec<PartBytes>, Lost<R>>
    ensures held { (names parts : List (List ℕ)) → HoldEach R.remaining files.items names parts → IfOk result (λ read. (names_of read.items ≡ names) × (bytes_of read.items ≡ parts)) }
    ensures opened { OnOk result (AreOpened files.items) }
    ensures cause { IfErr result (IsEachLost files.items) }
{
    let mut read = Vec::new(alloc);
    for file in files {
        let part = read_part(alloc, file)?;
        push_part(&mut read, part)?;
    }
    Ok(read)
}

fn push_part<R>(read: &mut Vec<PartBytes>, part: PartBytes) -> Result<(), Lost<R>>
    ensures ok { OnOk result (read.new.items ≡ read.old.items ++ part ∷ []) }
    ensures err { IfErr result (λ lost. lost ≡ Lost.Folder Refusal.OutOfMemory) }
{
    match read.push(part) {
        Ok(()) => Ok(()),
        Err(_) => Err(Lost::Folder(Refusal::OutOfMemory)),
    }
}

fn read_part<R: Read + Drop>(alloc: Global, file: NamedFile<R>) -> Result<PartBytes, Lost<R>>
    ensures held { (held : List ℕ) → HoldsBytes R.remaining file.opened held → IfOk result (λ part. (part.name.items ≡ file.name.items) × (part.bytes.items ≡ held)) }
    ensures opened { OnOk result (IsOk file.opened) }
    ensures cause { IfErr result (λ lost. (why : Unread R) × (lost ≡ Lost.Part file.name why) × IsUnread file.opened why) }
{
    let NamedFile { name, opened } = file;
    match read_opened(alloc, opened) {
        Ok(bytes) => Ok(PartBytes { name, bytes }),
        Err(why) => Err(Lost::Part(name, why)),
    }
}
