//! Parts on the shelf, and joins of them.
ghost use Rattle.std.specs.Prelude.{◌≡◌, IfOk, IfErr, option_copied};
ghost use Rattle.pc_model.specs.Files.{file_at};
ghost use Rattle.pc_engine.specs.Shelves.{IsJoin, IsShelvable};

use pc_capture::SharedPart;
use pc_part::{Part, join};
use pc_types::{FileNo, Items, MOST_FILES, Point, Refusal};
use std::alloc::Global;

/// The owner on the shelf of the file of this number, from 1 on.
pub(crate) fn shared_at(shelf: &[SharedPart], number: FileNo) -> Option<&SharedPart>
    ensures { option_copied result ≡ file_at shelf.now number }
{
    if number.0 == 0 {
        return None;
    }
    shelf.get(number.0 as usize - 1)
}

/// The shelf's file of this number, from 1 on.
pub(crate) fn file_at(shelf: &[SharedPart], number: FileNo) -> Option<&Part>
    ensures { option_copied result ≡ file_at shelf.now number }
{
    match shared_at(shelf, number) {
        Some(shared) => Some(shared.part()),
        None => None,
    }
}

/// A part that is about to be shelved, with its points and how many entries it has.
#[derive(Drop)]
pub(crate) struct Shelvable {
    pub(crate) part: SharedPart,
    pub(crate) points: Items<Point>,
    pub(crate) entries: u32,
}

/// The join of two shelved files.
pub(crate) fn joined(
    alloc: Global,
    shelf: &[SharedPart],
    first: FileNo,
    second: FileNo,
) -> Result<Shelvable, Refusal>
    ensures { IsJoin shelf.now first second result }
{
    let Some(first) = file_at(shelf, first) else {
        return Err(Refusal::NoFile);
    };
    let Some(second) = file_at(shelf, second) else {
        return Err(Refusal::NoFile);
    };
    if shelf.len() == MOST_FILES {
        return Err(Refusal::ShelfFull);
    }
    let part = join(alloc, first, second)?;
    with_points(alloc, part)
}

// The part with its points and how many entries it has.
fn with_points(alloc: Global, part: Part) -> Result<Shelvable, Refusal>
    ensures ok { IfOk result (λ s. IsShelvable part s) }
    ensures memory { IfErr result (λ e. e ≡ Refusal.OutOfMemory) }
{
    let points = part.points(alloc)?;
    let entries = part.entries().len() as u32;
    let part = SharedPart::new(alloc, part)?;
    Ok(Shelvable {
        part,
        points,
        entries,
    })
}
