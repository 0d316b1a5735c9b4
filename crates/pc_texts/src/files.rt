//! Files that may have been opened: their bytes, and the error line of a command.
ghost use Rattle.std.specs.Prelude.{◌≡◌, ◌++◌, codes, IsOk, IfOk, IfErr, IfSome, OnOk};
ghost use Rattle.std.specs.declared.result.Result.{Result};
ghost use Rattle.pc_types.specs.declared.refusal.Refusal.{Refusal};
ghost use Rattle.pc_io.specs.Tallies.{Puts};
ghost use Rattle.pc_texts.specs.Files.{IsUnread, line_about, refusal_of, report_text};
ghost use Rattle.pc_texts.specs.Texts.{printed_name};

use crate::texts::put_name;
use pc_io::{Tally, read_all};
use pc_types::Refusal;
use std::alloc::Global;
use std::io::{Read, Write};

/// A file of a folder: its name in the folder, and its reader, or why it can't be opened.
#[derive(Drop)]
pub struct NamedFile<R> {
    pub name: Vec<u8>,
    pub opened: Result<R, Refusal>,
}

/// Why the bytes of a file can't be had.
#[derive(Drop)]
pub enum Unread<R> {
    /// It can't be opened, for this reason.
    Absent(Refusal),
    /// An allocation failed.
    NoMemory,
    /// The device failed in a read of the file, which has counted that.
    Failed(Tally<R>),
}

impl<R> Unread<R> {
    /// The refusal that reports it.
    pub fn refusal(&self) -> Refusal
        ensures { result ≡ refusal_of self.now }
    {
        match self {
            Unread::Absent(why) => *why,
            Unread::NoMemory => Refusal::OutOfMemory,
            Unread::Failed(_) => Refusal::Device,
        }
    }
}

/// All bytes of a file, or why they can't be had: it can't be opened or read, or an allocation failed. Of a file that can't be
/// read the reader is handed back, which has counted the read that failed.
pub fn read_opened<R: Read + Drop>(
    alloc: Global,
    opened: Result<R, Refusal>,
) -> Result<Vec<u8>, Unread<R>>
    ensures opened { OnOk result (IsOk opened) }
    ensures script { IfOk result (λ bytes. IfOk opened (λ reader. IfSome (R.remaining reader) (λ script. bytes.items ≡ script))) }
    ensures unopened { IfErr opened (λ why. result ≡ Err (Unread.Absent why)) }
    ensures cause { IfErr result (IsUnread opened) }
{
    match opened {
        Ok(reader) => {
            let mut reader = Tally::new(reader);
            match read_all(alloc, &mut reader) {
                Ok(bytes) => Ok(bytes),
                Err(Refusal::Device) => Err(Unread::Failed(reader)),
                Err(_) => Err(Unread::NoMemory),
            }
        }
        Err(why) => Err(Unread::Absent(why)),
    }
}

/// Writes the error line of a command, by the name of a file or a word of the command line. Returns `Device` if and only if the
/// device failed in this call.
pub fn report<E: Write>(name: &[u8], why: Refusal, errors: &mut Tally<E>) -> Result<(), Refusal>
    ensures { Puts E.contents errors.old errors.new result (report_text name.now why) }
{
    report_words(name, why.name().as_bytes(), errors)
}

/// Writes the error line of a cause that is no refusal, with the name of a file or a word of the command line. Returns `Device`
/// if and only if the device failed in this call.
pub fn report_words<E: Write>(
    name: &[u8],
    words: &[u8],
    errors: &mut Tally<E>,
) -> Result<(), Refusal>
    ensures { Puts E.contents errors.old errors.new result (line_about name.now words.now) }
{
    begin_line(name, errors)?;
    errors.put_all(&[b": ", words, b"\n"])
}

fn begin_line<E: Write>(name: &[u8], errors: &mut Tally<E>) -> Result<(), Refusal>
    ensures { Puts E.contents errors.old errors.new result (codes "pcalc: " ++ printed_name name.now) }
{
    errors.put(b"pcalc: ")?;
    put_name(errors, name)
}
