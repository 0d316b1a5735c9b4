//! The state of a point that a folder's files have, from their readers.
ghost use Rattle.std.specs.Prelude.{IfOk, IfErr, IfSome, OnOk};
ghost use Rattle.pc_io.specs.Fields.{Gives};
ghost use Rattle.pc_model.specs.Database.{KeysRise};
ghost use Rattle.pc_restore.specs.declared.recovery.Lost.{Lost};
ghost use Rattle.pc_restore.specs.Recoveries.{AreAllOpened, bytes_of};
ghost use Rattle.pc_points.specs.Folders.{HasState, IsPointLost};
ghost use Rattle.pc_points.specs.Points.{found_database, point_state};

use crate::states::point_state;
use pc_restore::{Folder, FolderBytes, Lost, part_slices, read_folder};
use pc_types::{Key, Point, Refusal, Value};
use std::alloc::Global;
use std::io::Read;

/// Reads all files of the folder, and returns the pairs of the point's state, as `point_state` does of their bytes; a log that isn't
/// there has no bytes. `None` if and only if neither the parts nor the log reach the point. Otherwise it returns the first cause: a
/// file can't be opened or read, in the order of the base, the parts and the log; or the files are refused, or memory ran out.
pub fn read_point<R: Read + Drop>(
    alloc: Global,
    folder: Folder<R>,
    point: Point,
) -> Result<Option<Vec<(Key, Value)>>, Lost<R>>
    ensures state { IfOk result (HasState R.remaining folder point) }
    ensures rise { IfOk result (λ found. IfSome found (λ pairs. KeysRise pairs.items)) }
    ensures opened { OnOk result (AreAllOpened folder) }
    ensures cause { IfErr result (IsPointLost R.remaining folder point) }
{
    let files = match read_folder(alloc, folder) {
        Ok(files) => files,
        Err(lost) => return Err(lost),
    };
    match state_of(alloc, &files, point) {
        Ok(found) => Ok(found),
        Err(why) => Err(Lost::Folder(why)),
    }
}

fn state_of(
    alloc: Global,
    files: &FolderBytes,
    point: Point,
) -> Result<Option<Vec<(Key, Value)>>, Refusal>
    ensures rules { Gives found_database result (point_state point files.now.base.items (bytes_of files.now.parts.items) files.now.log.items) }
    ensures rise { IfOk result (λ found. IfSome found (λ pairs. KeysRise pairs.items)) }
{
    let parts = part_slices(alloc, &files.parts)?;
    point_state(alloc, point, &files.base, &parts, &files.log)
}
