//! The state of a point.
ghost use Rattle.std.specs.Prelude.{map, IfOk, IfSome};
ghost use Rattle.pc_io.specs.Fields.{Gives};
ghost use Rattle.pc_model.specs.Database.{KeysRise};
ghost use Rattle.pc_points.specs.Points.{found_database, point_state};

use crate::parts::parts_to;
use crate::replaying::replay_log;
use pc_recover::recover;
use pc_replay::Overlay;
use pc_types::{Key, Point, Refusal, Value};
use std::alloc::Global;

/// The pairs of a point's state, ascending by key: the database after what was committed before the point's token. `None` if and
/// only if neither the parts nor the log reach the point.
///
/// The parts that have a point above it are left out. The others are recovered on the base as `recover` does, without the log. If
/// that gives the state of the point, the log isn't read. Otherwise the log's commits are applied, in order, from behind the token
/// of the point that the parts gave (from the log's start where that is 0) up to the point's token; `None` is returned where the
/// whole entries of the log have no such token there. Bytes behind that token are not read.
///
/// Memory is taken as by `recover`, and for one part at a time before it. Of several refusals the first counts:
///
/// - the fault of the base's bytes;
/// - `Conflict` or `Full`, where the parts that are used can't be joined or laid;
/// - where the log is read, the fault of its header: `BadMagic`, or `BadRanges` where its base point isn't 0; `OtherRun` where it
///   is of another run;
/// - `OutOfMemory` only where memory ran out.
pub fn point_state(
    alloc: Global,
    point: Point,
    base: &[u8],
    parts: &[&[u8]],
    log: &[u8],
) -> Result<Option<Vec<(Key, Value)>>, Refusal>
    ensures rules { Gives found_database result (point_state point base.now (map (λ part. part.now) parts.now) log.now) }
    ensures rise { IfOk result (λ found. IfSome found (λ pairs. KeysRise pairs.items)) }
{
    let parts = match parts_to(alloc, point, parts) {
        Ok(parts) => parts,
        Err(why) => return Err(why),
    };
    let recovered = match recover(alloc, base, &parts, b"") {
        Ok(recovered) => recovered,
        Err(why) => return Err(why),
    };
    if recovered.point == point {
        return Ok(Some(recovered.pairs));
    }
    let points = (recovered.point, point);
    let database = Overlay::new(alloc, recovered.pairs)?;
    match replay_log(alloc, recovered.run, points, database, log) {
        Ok(Some(database)) => Ok(Some(database.into_pairs(alloc)?)),
        Ok(None) => Ok(None),
        Err(why) => Err(why),
    }
}
