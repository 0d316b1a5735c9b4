//! The files that a run makes in a folder.
ghost use Rattle.std.specs.Prelude.{◌≡◌, ℕ, List, true, false, IfErr, IfOk, OnOk};
ghost use Rattle.std.specs.Io.KnownBytes.{Appends, Keeps};
ghost use Rattle.pc_io.specs.Counted.{HasRisen};
ghost use Rattle.pc_io.specs.Tallies.{inner_of, failures_of};
ghost use Rattle.pc_types.specs.declared.refusal.Refusal.{Refusal};
ghost use Rattle.pc_model.specs.Sets as set;
ghost use Rattle.pc_part.specs.Texts.{part_text};
ghost use Rattle.pc_texts.specs.declared.file_names.FileName.TheVariants as file;
ghost use Rattle.pc_threads.specs.Faults.{IsFileLost};
ghost use Rattle.pc_threads.specs.Files.{KeepsOtherFiles, RefusesNoMore};
ghost use Rattle.pc_threads.specs.declared.files.FileFault.TheVariants as FileFault;

use crate::fault::ThreadsFault;
use pc_io::Tally;
use pc_part::Part;
use pc_texts::FileName;
use pc_types::{Point, Refusal};
use std::io::Write;

/// Makes the files of a folder. Contracts see the texts that the folder has under its names; of a folder whose texts aren't known
/// each text counts as there.
pub trait NewFiles<F: Write> {
    ghost use Rattle.std.specs.Prelude.{◌≡◌, ℕ, List, Option, IfErr, IfOk, OnOk};
    ghost use Rattle.std.specs.Io.KnownBytes.{Appends};
    ghost use Rattle.pc_types.specs.declared.refusal.Refusal.{Refusal};
    ghost use Rattle.pc_texts.specs.declared.file_names.FileName.{FileName};
    ghost use Rattle.pc_threads.specs.Files.{KeepsOtherFiles, RefusesNoMore};

    // The folder has this text under this name.
    ghost holds: { Self → FileName → List ℕ → Type 0 };

    // The folder refuses the file of this name for this reason, as it is made or as it becomes whole. No call adds such a reason.
    ghost refuses: { Self → FileName → Refusal → Type 0 };

    // The known bytes of a file that was just made.
    ghost blank: { Option (List ℕ) };

    /// Makes the file, without bytes; the earlier bytes of a file of this name are lost, and the other files stay. Its error is the
    /// cause that prevents this.
    fn make(&mut self, name: &FileName) -> Result<F, Refusal>
        ensures blank { IfOk result (λ file. F.contents file ≡ blank) }
        ensures refused { IfErr result (refuses self.old name.now) }
        ensures refusals { RefusesNoMore (refuses self.old) (refuses self.new) }
        ensures others { KeepsOtherFiles (holds self.old) (holds self.new) name.now };

    /// All bytes of the file were written and flushed: from now on it is whole, if it wasn't before. The other files stay. Its
    /// error is the cause that prevents this.
    fn finish(&mut self, name: &FileName, file: F) -> Result<(), Refusal>
        ensures whole { OnOk result ((text : List ℕ) → Appends blank (F.contents file) text → holds self.new name.now text) }
        ensures refused { IfErr result (refuses self.old name.now) }
        ensures refusals { RefusesNoMore (refuses self.old) (refuses self.new) }
        ensures others { KeepsOtherFiles (holds self.old) (holds self.new) name.now };
}

/// Why a file of a folder isn't whole.
#[derive(Drop)]
pub enum FileFault<F> {
    /// The file can't be made, or it can't be made whole.
    Unmade(FileName, Refusal),
    /// The device failed in a call of this file, which has counted the failure.
    Failed(Tally<F>),
}

impl<F: Drop> From<FileFault<F>> for ThreadsFault<F> {
    ghost use Rattle.std.specs.Prelude.{◌≡◌};
    ghost use Rattle.pc_threads.specs.Faults.{lost_file_fault};

    ghost from_gives = { λ lost fault. fault ≡ lost_file_fault lost };

    fn from(lost: FileFault<F>) -> ThreadsFault<F> {
        match lost {
            FileFault::Unmade(name, why) => ThreadsFault::Unmade(name, why),
            FileFault::Failed(file) => ThreadsFault::Failed(file),
        }
    }
}

/// Makes the file. Its only error is that the file can't be made, for a reason that the folder gives.
pub fn make_file<F: Write, D: NewFiles<F>>(
    folder: &mut D,
    name: FileName,
) -> Result<Tally<F>, FileFault<F>>
    ensures blank { IfOk result (λ file. F.contents (inner_of file) ≡ D.blank) }
    ensures fresh { IfOk result (λ file. failures_of file ≡ 0) }
    ensures others { KeepsOtherFiles (D.holds folder.old) (D.holds folder.new) name }
    ensures refusals { RefusesNoMore (D.refuses folder.old) (D.refuses folder.new) }
    ensures unmade { IfErr result (λ lost. (why : Refusal) × (lost ≡ FileFault.Unmade name why) × D.refuses folder.old name why) }
{
    match folder.make(&name) {
        Ok(file) => Ok(Tally::new(file)),
        Err(why) => Err(FileFault::Unmade(name, why)),
    }
}

// Flushes the bytes that were written. False if and only if the device failed in this call.
fn flush_file<F: Write>(file: &mut Tally<F>) -> bool
    ensures stays { Keeps (F.contents (inner_of file.old)) (F.contents (inner_of file.new)) }
    ensures failed { result ≡ false → HasRisen (failures_of file.old) (failures_of file.new) }
    ensures sound { result ≡ true → failures_of file.new ≡ failures_of file.old }
{
    file.flush().is_ok()
}

/// Flushes the bytes that were written, and makes the file whole. It fails only if the device failed in this call or the file can't
/// be made whole; a file of which a call failed is returned.
pub fn finish_file<F: Write + Drop, D: NewFiles<F>>(
    folder: &mut D,
    name: FileName,
    file: Tally<F>,
) -> Result<(), FileFault<F>>
    ensures whole { OnOk result ((text : List ℕ) → Appends D.blank (F.contents (inner_of file)) text → D.holds folder.new name text) }
    ensures others { KeepsOtherFiles (D.holds folder.old) (D.holds folder.new) name }
    ensures refusals { RefusesNoMore (D.refuses folder.old) (D.refuses folder.new) }
    ensures lost { IfErr result (IsFileLost (D.refuses folder.old) name (failures_of file)) }
{
    let mut file = file;
    if !flush_file(&mut file) {
        return Err(FileFault::Failed(file));
    }
    match folder.finish(&name, file.into_inner()) {
        Ok(()) => Ok(()),
        Err(why) => Err(FileFault::Unmade(name, why)),
    }
}

/// Writes the file of the point, which has that point alone. It fails only if the device failed in a call of the file, which is
/// then returned, or the file can't be made.
pub fn write_part<F: Write + Drop, D: NewFiles<F>>(
    folder: &mut D,
    point: Point,
    part: &Part,
) -> Result<(), FileFault<F>>
    requires { part.now.points ≡ set.insert set.empty point }
    ensures whole { OnOk result (D.holds folder.new (file.Part point) (part_text part.now)) }
    ensures others { KeepsOtherFiles (D.holds folder.old) (D.holds folder.new) (file.Part point) }
    ensures refusals { RefusesNoMore (D.refuses folder.old) (D.refuses folder.new) }
    ensures lost { IfErr result (IsFileLost (D.refuses folder.old) (file.Part point) 0) }
{
    let mut file = make_file(folder, FileName::Part(point))?;
    match part.encode(&mut file) {
        Ok(()) => finish_file(folder, FileName::Part(point), file),
        Err(_) => Err(FileFault::Failed(file)),
    }
}
