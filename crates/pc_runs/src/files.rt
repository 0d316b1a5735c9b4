//! The files that a run leaves in a folder.
ghost use Rattle.std.specs.Prelude.{◌≡◌, IfErr, IfOk, OnOk};
ghost use Rattle.pc_io.specs.Tallies.{Puts, inner_of};
ghost use Rattle.pc_bases.specs.Texts.{base_text};
ghost use Rattle.pc_texts.specs.Files.{report_text};
ghost use Rattle.pc_texts.specs.declared.file_names.FileName.TheVariants as file;
ghost use Rattle.pc_texts.specs.FileNames.{name_of_file};
ghost use Rattle.pc_threads.specs.Faults.{IsFileLost};
ghost use Rattle.pc_threads.specs.Files.{RefusesNoMore};
ghost use Rattle.pc_runs.specs.Folders.{IsBeginLost};

use pc_bases::Base;
use pc_io::Tally;
use pc_texts::{FileName, part_name, report};
use pc_threads::{FileFault, NewFiles, finish_file, make_file};
use pc_types::Refusal;
use std::io::Write;

/// Why the files of a run aren't made in a folder.
#[derive(Clone, Copy, Debug, PartialEq, Eq)]
pub enum Unusable {
    /// It has files of a run.
    NotEmpty,
    /// It can't be listed.
    Unlisted(Refusal),
}

/// A folder for the files of a run: its name, and the maker of its files, or why none are made.
#[derive(Drop)]
pub struct RunFolder<D> {
    pub name: Vec<u8>,
    pub files: Result<D, Unusable>,
}

/// Writes the line that says why the file can't be made.
pub fn report_unmade<E: Write>(
    file: FileName,
    why: Refusal,
    errors: &mut Tally<E>,
) -> Result<(), Refusal>
    ensures { Puts E.contents errors.old errors.new result (report_text (name_of_file file) why) }
{
    match file {
        FileName::Base => report(b"base.pcb", why, errors),
        FileName::Part(point) => report(&part_name(point), why, errors),
        FileName::Log => report(b"log.pcl", why, errors),
    }
}

// Writes the file of the base.
fn write_base<F: Write + Drop, D: NewFiles<F>>(
    folder: &mut D,
    base: &Base,
) -> Result<(), FileFault<F>>
    ensures whole { OnOk result (D.holds folder.new file.Base (base_text base.now)) }
    ensures refusals { RefusesNoMore (D.refuses folder.old) (D.refuses folder.new) }
    ensures lost { IfErr result (IsFileLost (D.refuses folder.old) file.Base 0) }
{
    let mut file = make_file(folder, FileName::Base)?;
    match base.encode(&mut file) {
        Ok(()) => finish_file(folder, FileName::Base, file),
        Err(_) => Err(FileFault::Failed(file)),
    }
}

/// Writes the file of the base, and makes that of the log, to which nothing is written yet. It fails only if one of them can't be
/// made, for a reason that the folder gives, or the device failed in a call of the base's file, which is then returned.
pub fn begin_files<F: Write + Drop, D: NewFiles<F>>(
    folder: &mut D,
    base: &Base,
) -> Result<Tally<F>, FileFault<F>>
    ensures base { OnOk result (D.holds folder.new file.Base (base_text base.now)) }
    ensures log { IfOk result (λ log. F.contents (inner_of log) ≡ D.blank) }
    ensures refusals { RefusesNoMore (D.refuses folder.old) (D.refuses folder.new) }
    ensures lost { IfErr result (IsBeginLost (D.refuses folder.old)) }
{
    write_base(folder, base)?;
    make_file(folder, FileName::Log)
}
