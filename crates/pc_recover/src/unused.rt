//! The parts that are not used.
ghost use Rattle.std.specs.Prelude.{◌≡◌, IfOk};
ghost use Rattle.pc_recover.specs.Recovery.{unused_from, why_unused};

use crate::candidates::Candidate;
use crate::reach::{Reach, greatest_point};
use crate::recovered::Skipped;
use pc_types::Refusal;
use std::alloc::{AllocError, Global};

/// The places of the files that are not used, with the reasons, in their order. Its only error is a failed allocation.
pub(crate) fn unused(
    alloc: Global,
    reach: &Reach,
    files: &[Candidate],
) -> Result<Vec<Skipped>, AllocError>
    ensures { IfOk result (λ unused. unused.items ≡ unused_from 0 reach.now.point reach.now.missing files.now) }
{
    let mut unused = Vec::new(alloc);
    for (place, file) in files.iter().enumerate() {
        if let Some(reason) = why_unused(reach, file) {
            unused.push(Skipped { place, reason })?;
        }
    }
    Ok(unused)
}

// Why the file isn't used, if it isn't.
fn why_unused(reach: &Reach, file: &Candidate) -> Option<Refusal>
    ensures { result ≡ why_unused reach.now.point reach.now.missing file.now }
{
    match (file, reach.missing) {
        (Err(why), _) => Some(*why),
        (Ok(part), Some(missing)) if reach.point.0 < greatest_point(part).0 => Some(Refusal::Gap(
            missing,
        )),
        _ => None,
    }
}
