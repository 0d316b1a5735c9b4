//! Recovery by its rules.
ghost use Rattle.std.specs.Prelude.{map, IfOk};
ghost use Rattle.pc_io.specs.Fields.{Gives};
ghost use Rattle.pc_model.specs.Database.{KeysRise};
ghost use Rattle.pc_recover.specs.Recovery.{IsOfRun, recovery, recovery_of};

use crate::candidates::candidates;
use crate::reach::reach_from;
use crate::recovered::Recovered;
use crate::replaying::{Replayed, replay_log};
use crate::state::with_used;
use crate::unused::unused;
use pc_bases::Base;
use pc_replay::Overlay;
use pc_types::Refusal;
use std::alloc::Global;

/// The state recovered from a base, the parts of its run and the run's log after a crash, for any bytes. Each may be of either format.
///
/// A part is read if its bytes are a part of the base's run. The recovered point is the greatest one for which the parts that were
/// read, without a point above it, cover all points from the base's on; it is the base's if they reach none. These parts are joined
/// from the first to the last, and applied to the base. All other parts are skipped, with the reason. Then the log's commits after
/// the recovered point's token are applied, in order: those of all its whole entries if the point is 0, none if the log has no such
/// token. Fewer than the 20 bytes of a log's header count as a log without entries. Bytes after the last whole entry are left out,
/// and their fault is returned: `Short` if all of them are 0, as a file system leaves bytes that have not reached its disk.
///
/// If no point is in two of the parts that are used, it takes one pass over all of their entries; otherwise one for each of these
/// parts over the entries of those before it. Memory is allocated for the pairs and a number of every 32 of them, the parts that
/// were read and their join, one entry of the log at a time, and for one number of each point. Of several errors the first is
/// returned:
///
/// - the fault of the base's bytes;
/// - `Conflict` or `Full`, if the parts that are used can't be joined or applied;
/// - the fault of the log's header: `BadMagic`, or `BadRanges` if its base point isn't 0; `OtherRun` if it is of another run;
/// - `OutOfMemory` only if an allocation failed.
pub fn recover(
    alloc: Global,
    base: &[u8],
    parts: &[&[u8]],
    log: &[u8],
) -> Result<Recovered, Refusal>
    ensures rules { Gives recovery_of result (recovery base.now (map (λ part. part.now) parts.now) log.now) }
    ensures rise { IfOk result (λ recovered. KeysRise recovered.pairs.items) }
    ensures run { IfOk result (λ recovered. IsOfRun base.now recovered.run) }
{
    let base = Base::decode(alloc, base)?;
    let run = base.run();
    let files = candidates(alloc, run, parts)?;
    let reach = reach_from(alloc, base.point(), &files)?;
    let skipped = unused(alloc, &reach, &files)?;
    let state = with_used(alloc, base, reach.point, files)?;
    let database = Overlay::new(alloc, state.into_pairs())?;
    let Replayed {
        database,
        entries,
        fault,
        ..
    } = replay_log(alloc, run, reach.point, database, log)?;
    Ok(Recovered {
        run,
        pairs: database.into_pairs(alloc)?,
        point: reach.point,
        entries,
        skipped,
        fault,
    })
}
