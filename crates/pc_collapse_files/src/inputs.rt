//! The part files of a collapse, as readers of their parts.
ghost use Rattle.std.specs.Prelude.{◌≡◌, ◌++◌, ◌∷◌, [], IsOk, IfOk, IfErr, OnOk, length, map};
ghost use Rattle.pc_types.specs.declared.refusal.Refusal.{Refusal};
ghost use Rattle.pc_model.specs.Sets as set;
ghost use Rattle.pc_part.specs.Parts.{points_of};
ghost use Rattle.pc_merge.specs.Standings.{AllStand};
ghost use Rattle.pc_streams.specs.Readers.{header_of, standing_of};
ghost use Rattle.pc_stream_join.specs.Headers.{AreHeaded, IsHeadersFault, IsHeadersRefusal, StayKnown};
ghost use Rattle.pc_texts.specs.Files.{AreOpened};
ghost use Rattle.pc_collapse_files.specs.Collapses.{IsFirstUnopened, has_file_named};
ghost use Rattle.pc_collapse_files.specs.Reads.{AreSound, sound};
ghost use Rattle.pc_collapse_files.specs.Inputs.{AreReadersOf, IsHeadFault, IsOpenedAs, IsReaderOf};
ghost use Rattle.pc_collapse_files.specs.declared.inputs.CollapseFault.{CollapseFault};

use pc_io::Tally;
use pc_part::{PartHeader, points_in};
use pc_stream_join::read_headers;
use pc_streams::PartReader;
use pc_texts::NamedFile;
use pc_types::{Items, Point, Refusal};
use std::alloc::Global;
use std::io::Read;

/// Why no file was written whole, or why its line isn't printed.
#[derive(Drop)]
pub enum CollapseFault {
    /// The part file of this name can't be opened: no file was made.
    Unopened(Vec<u8>, Refusal),
    /// The header of a part file can't be read or is refused, two files are of different runs, or an allocation failed: no file was made.
    Refused(Refusal),
    /// The file that is to be written can't be made.
    Unmade(Refusal),
    /// The entries of a part file can't be read or are refused, they can't be joined, or an allocation failed, while the file was written.
    Unjoined(Refusal),
    /// The device failed while the file was written.
    Unwritten,
    /// The file was written whole, and can't get its name, or it isn't known to have reached the device under that name.
    Unnamed(Refusal),
    /// The output failed.
    Output,
}

// Part files whose headers are read: their readers, the header of their join, and its points.
#[derive(Drop)]
pub(crate) struct OpenedInputs<R> {
    pub(crate) readers: Vec<PartReader<R>>,
    pub(crate) header: PartHeader,
    pub(crate) points: Items<Point>,
}

// Part files that have no header together: the readers of those that were opened, and why.
#[derive(Drop)]
pub(crate) struct UnopenedInputs<R> {
    pub(crate) readers: Vec<PartReader<R>>,
    pub(crate) fault: CollapseFault,
}

// Whether one of the files has this name.
pub(crate) fn is_input<R>(files: &[NamedFile<R>], name: &[u8]) -> bool
    ensures { result ≡ has_file_named files.now name.now }
{
    files.iter().any(|file| file.name.as_slice() == name)
}

// The files as readers, with their headers read.
pub(crate) fn open_inputs<R: Read + Drop>(
    alloc: Global,
    files: Vec<NamedFile<R>>,
) -> Result<OpenedInputs<R>, UnopenedInputs<R>>
    ensures opened { IfOk result (IsOpenedAs R.remaining files.items) }
    ensures cause { IfErr result (λ unopened. IsHeadFault R.remaining files.items unopened.readers.items unopened.fault) }
{
    let mut readers = match readers_of(alloc, files) {
        Ok(readers) => readers,
        Err(fault) => {
            let readers = Vec::new(alloc);
            return Err(UnopenedInputs { readers, fault });
        }
    };
    match join_headers(alloc, &mut readers) {
        Ok((header, points)) => Ok(OpenedInputs {
            readers,
            header,
            points,
        }),
        Err(why) => {
            let fault = CollapseFault::Refused(why);
            Err(UnopenedInputs { readers, fault })
        }
    }
}

// The header of the join, and its points.
fn join_headers<R: Read>(
    alloc: Global,
    readers: &mut [PartReader<R>],
) -> Result<(PartHeader, Items<Point>), Refusal>
    ensures headed { IfOk result (λ joined. AreHeaded R.remaining joined.0.run joined.0.ranges.items readers.new) }
    ensures points { IfOk result (λ joined. joined.1 ≡ set.items (points_of joined.0.ranges.items)) }
    ensures stays { OnOk result (StayKnown R.remaining readers.old readers.new) }
    ensures cause { IfErr result (IsHeadersFault (map (header_of R.remaining) readers.old)) }
    ensures refusals { IfErr result (IsHeadersRefusal R.remaining readers.old readers.new) }
    ensures many { length readers.new ≡ length readers.old }
    ensures stand { AllStand (map standing_of readers.old) (map standing_of readers.new) result }
{
    let header = read_headers(alloc, readers)?;
    let points = points_in(alloc, &header.ranges)?;
    Ok((header, Items::from_vec(points)))
}

// A reader for each file, in their order.
fn readers_of<R: Read + Drop>(
    alloc: Global,
    files: Vec<NamedFile<R>>,
) -> Result<Vec<PartReader<R>>, CollapseFault>
    ensures opened { OnOk result (AreOpened files.items) }
    ensures readers { IfOk result (λ readers. AreReadersOf R.remaining files.items readers.items) }
    ensures many { IfOk result (λ readers. length readers.items ≡ length files.items) }
    ensures sound { IfOk result (λ readers. AreSound readers.items) }
    ensures cause { IfErr result (IsHeadFault R.remaining files.items []) }
{
    let mut readers = Vec::new(alloc);
    for file in files {
        let reader = reader_of(alloc, file)?;
        push_reader(&mut readers, reader)?;
    }
    Ok(readers)
}

fn push_reader<R: Read + Drop>(
    readers: &mut Vec<PartReader<R>>,
    reader: PartReader<R>,
) -> Result<(), CollapseFault>
    ensures ok { OnOk result (readers.new.items ≡ readers.old.items ++ reader ∷ []) }
    ensures err { IfErr result (λ fault. fault ≡ CollapseFault.Refused Refusal.OutOfMemory) }
{
    match readers.push(reader) {
        Ok(()) => Ok(()),
        Err(_) => Err(CollapseFault::Refused(Refusal::OutOfMemory)),
    }
}

// The reader of a file that was opened. It reads nothing yet.
fn reader_of<R: Read + Drop>(
    alloc: Global,
    file: NamedFile<R>,
) -> Result<PartReader<R>, CollapseFault>
    ensures opened { OnOk result (IsOk file.opened) }
    ensures reader { IfOk result (IsReaderOf R.remaining file) }
    ensures sound { IfOk result (λ reader. standing_of reader ≡ sound) }
    ensures cause { IfErr result (λ fault. (why : Refusal) × (fault ≡ CollapseFault.Unopened file.name why) × (file.opened ≡ Err why)) }
{
    let NamedFile { name, opened } = file;
    match opened {
        Ok(reader) => Ok(PartReader::new(alloc, Tally::new(reader))),
        Err(why) => Err(CollapseFault::Unopened(name, why)),
    }
}
