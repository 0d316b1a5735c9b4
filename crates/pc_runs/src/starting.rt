//! The base from which a run starts.
ghost use Rattle.std.specs.Prelude.{◌≡◌, IfErr, IfOk};
ghost use Rattle.pc_runs.specs.Runs.{IsRunBase, IsUnstarted};

use crate::failure::RunFailure;
use crate::origin::{NamedFolder, Start};
use pc_bases::Base;
use pc_io::Tally;
use pc_restore::recover_base;
use std::alloc::Global;
use std::io::{Read, Write};

/// The base of a run. The gaps of a folder's files are reported on the error writer, even if they are damaged and that isn't
/// accepted; if nothing is recovered of them nothing is reported yet. If there is no base, the failure says why.
pub fn base_of<R, S: Read + Drop, F, E: Write>(
    alloc: Global,
    start: Start<S>,
    errors: &mut Tally<E>,
) -> Result<Base, RunFailure<R, S, F>>
    ensures point { IfOk result (λ base. base.point ≡ 0) }
    ensures start { IfOk result (IsRunBase S.remaining E.contents start errors.old errors.new) }
    ensures cause { IfErr result (IsUnstarted S.remaining E.contents start errors.old errors.new) }
{
    match start {
        Start::Empty(run) => Ok(Base::start(run, Vec::new(alloc))),
        Start::Folder(named) => {
            let NamedFolder {
                name,
                folder,
                accepts_damage,
            } = named;
            match recover_base(alloc, folder, accepts_damage, errors) {
                Ok(base) => Ok(base),
                Err(lost) => Err(RunFailure::Start(name, lost)),
            }
        }
    }
}
