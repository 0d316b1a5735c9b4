//! The joined file is made and written, and its line printed.
ghost use Rattle.std.specs.Prelude.{◌≡◌, ◌⊎◌, ℕ, List, Some, None, IfOk, IfErr, OnOk, OnErr};
ghost use Rattle.std.specs.Io.KnownBytes.{Appends};
ghost use Rattle.pc_types.specs.declared.refusal.Refusal.{Refusal};
ghost use Rattle.pc_io.specs.Counted.{HasRisen, AppendsBeginning};
ghost use Rattle.pc_io.specs.Tallies.{inner_of, failures_of};
ghost use Rattle.pc_texts.specs.Texts.{joined_line};
ghost use Rattle.pc_texts.specs.declared.files.NamedFile.{NamedFile};
ghost use Rattle.pc_stream_join.specs.Headers.{AreHeaded};
ghost use Rattle.pc_collapse_files.specs.Collapses.{StaysAs};
ghost use Rattle.pc_collapse_files.specs.Inputs.{IsFileFault, IsOpenedAs, IsUnwritten, IsWrittenOf};
ghost use Rattle.pc_collapse_files.specs.declared.inputs.CollapseFault.{CollapseFault};

use crate::inputs::{CollapseFault, OpenedInputs};
use pc_io::Tally;
use pc_stream_join::join_entries;
use pc_streams::PartReader;
use pc_texts::{end_output, put_joined};
use pc_types::{Items, Point, Refusal};
use std::alloc::Global;
use std::io::{Read, Write};

/// Makes the file that a collapse writes. The file is made apart from an earlier one of its name, and takes its place once it is
/// whole. Bytes that are written to it go straight out: it is not flushed, and a file that isn't whole must not become so after a
/// fault. Contracts see the texts under the name; on a device whose texts aren't known each text counts as there.
pub trait Maker<F: Write> {
    ghost use Rattle.std.specs.Prelude.{◌≡◌, ◌⊎◌, ℕ, List, [], Some, IfErr, IfOk, IfSome, OnOk, OnErr, ⊤};
    ghost use Rattle.pc_types.specs.declared.refusal.Refusal.{Refusal};
    ghost use Rattle.pc_collapse_files.specs.Collapses.{StaysAs};

    // The file's name has this text.
    ghost stands: { Self → List ℕ → Type 0 };

    // A call that leaves the maker in this state is refused for this reason.
    ghost refuses: { Self → Refusal → Type 0 } = { λ _ _. ⊤ };

    /// Makes the file, without bytes; the text under its name stays. Its error is the cause that prevents this.
    fn make(&mut self) -> Result<F, Refusal>
        ensures empty { IfOk result (λ file. IfSome (F.contents file) (λ bytes. bytes ≡ [])) }
        ensures stays { StaysAs (stands self.old) (stands self.new) }
        ensures refused { IfErr result (refuses self.new) };

    /// All bytes of the file were written: it gets its name, in place of the earlier text. Its error is the cause that prevents
    /// this; then the earlier text stays, or the file has its name.
    fn finish(&mut self, file: F) -> Result<(), Refusal>
        ensures named { OnOk result ((text : List ℕ) → F.contents file ≡ Some text → stands self.new text) }
        ensures unnamed { OnErr result (StaysAs (stands self.old) (stands self.new) ⊎ ((text : List ℕ) → F.contents file ≡ Some text → stands self.new text)) }
        ensures refused { IfErr result (refuses self.new) };
}

// A joined file that was written, and its line of output.
#[derive(Drop)]
pub(crate) struct WrittenFile<F> {
    pub(crate) file: Tally<F>,
    pub(crate) points: Items<Point>,
    pub(crate) entries: u32,
}

// A collapse that ended by a fault, with the readers of the inputs if they ended it, and the file if it was begun and not written whole.
#[derive(Drop)]
pub(crate) struct Unfinished<R, F> {
    pub(crate) inputs: Vec<PartReader<R>>,
    pub(crate) file: Option<Tally<F>>,
    pub(crate) fault: CollapseFault,
}

// No file is left by the fault.
pub(crate) fn unmade<R, F>(inputs: Vec<PartReader<R>>, fault: CollapseFault) -> Unfinished<R, F>
    ensures { result ≡ record { inputs = inputs; file = None; fault = fault } }
{
    let file = None;
    Unfinished {
        inputs,
        file,
        fault,
    }
}

// Makes the file and writes the join of the inputs to it; the text under its name stays.
pub(crate) fn write_file<R: Read + Drop, F: Write + Drop, M: Maker<F>>(
    alloc: Global,
    inputs: OpenedInputs<R>,
    maker: &mut M,
) -> Result<WrittenFile<F>, Unfinished<R, F>>
    requires headed { AreHeaded R.remaining inputs.header.run inputs.header.ranges.items inputs.readers.items }
    ensures written { IfOk result (λ written. (files : List (NamedFile R)) → IsOpenedAs R.remaining files inputs → IsWrittenOf R.remaining F.contents files written) }
    ensures unwritten { IfErr result (λ unfinished. (files : List (NamedFile R)) → IsOpenedAs R.remaining files inputs → IsUnwritten R.remaining F.contents files unfinished.inputs.items (M.refuses maker.new) unfinished.file unfinished.fault) }
    ensures stays { StaysAs (M.stands maker.old) (M.stands maker.new) }
{
    let file = match maker.make() {
        Ok(file) => file,
        Err(why) => {
            let fault = CollapseFault::Unmade(why);
            return Err(unmade(Vec::new(alloc), fault));
        }
    };
    let OpenedInputs {
        readers,
        header,
        points,
    } = inputs;
    let (mut readers, mut file) = (readers, Tally::new(file));
    match join_entries(alloc, &header, &mut readers, &mut file) {
        Ok(entries) => Ok(WrittenFile {
            file,
            points,
            entries,
        }),
        Err(why) => {
            let fault = fault_of(&file, why);
            let (inputs, file) = (readers, Some(file));
            Err(Unfinished {
                inputs,
                file,
                fault,
            })
        }
    }
}

// The fault of a file that was begun: the device's if one of its own calls failed.
fn fault_of<F>(file: &Tally<F>, why: Refusal) -> CollapseFault
    ensures { IsFileFault file.now why result }
{
    if file.failures() > 0 {
        CollapseFault::Unwritten
    } else {
        CollapseFault::Unjoined(why)
    }
}

// The file gets its name.
pub(crate) fn name_file<F: Write + Drop, M: Maker<F>>(
    maker: &mut M,
    file: Tally<F>,
) -> Result<(), CollapseFault>
    ensures named { OnOk result ((text : List ℕ) → F.contents (inner_of file) ≡ Some text → M.stands maker.new text) }
    ensures fault { IfErr result (λ fault. (why : Refusal) × (fault ≡ CollapseFault.Unnamed why) × M.refuses maker.new why) }
    ensures unnamed { OnErr result (StaysAs (M.stands maker.old) (M.stands maker.new) ⊎ ((text : List ℕ) → F.contents (inner_of file) ≡ Some text → M.stands maker.new text)) }
{
    match maker.finish(file.into_inner()) {
        Ok(()) => Ok(()),
        Err(why) => Err(CollapseFault::Unnamed(why)),
    }
}

// Prints the line of the joined part.
pub(crate) fn print<W: Write>(
    out: &mut Tally<W>,
    points: &[Point],
    entries: u64,
) -> Result<(), CollapseFault>
    ensures printed { OnOk result (Appends (W.contents (inner_of out.old)) (W.contents (inner_of out.new)) (joined_line points.now entries) × (failures_of out.new ≡ failures_of out.old)) }
    ensures failed { IfErr result (λ why. (why ≡ CollapseFault.Output) × HasRisen (failures_of out.old) (failures_of out.new)
        × AppendsBeginning (W.contents (inner_of out.old)) (W.contents (inner_of out.new)) (joined_line points.now entries)) }
{
    let put = put_joined(out, points, entries);
    match end_output(put, out) {
        Ok(()) => Ok(()),
        Err(_) => Err(CollapseFault::Output),
    }
}
