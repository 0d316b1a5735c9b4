//! The pairs of a folder are written, a line for each.
ghost use Rattle.std.specs.Prelude.{◌≡◌, ◌≢◌, None, Some, IfErr, IfSome, IsSome, OnOk};
ghost use Rattle.pc_io.specs.Tallies.{failures_of};
ghost use Rattle.pc_types.specs.declared.refusal.Refusal.{Refusal};
ghost use Rattle.pc_model.specs.Database.{KeysRise, database_of};
ghost use Rattle.pc_restore.specs.declared.recovery.Lost.{Lost};
ghost use Rattle.pc_pairs.specs.Dumps.{Dumps, IsPutInPart, IsUndumped, PutsUntil, PutsWhole, dump_text, pair_lines};
ghost use Rattle.pc_pairs.specs.PointDumps.{DumpsAsChosen, DumpsPoint, IsPointUndumped, IsUndumpedAsChosen};

use crate::choice::Choice;
use crate::form::Form;
use crate::json::put_json;
use pc_io::Tally;
use pc_points::read_point;
use pc_restore::{Folder, Lost, recover_base};
use pc_texts::{end_output, put_pairs};
use pc_types::{Key, Point, Refusal, Value};
use std::alloc::Global;
use std::io::{Read, Write};

/// Why not all lines of a folder's pairs were written.
#[derive(Drop)]
pub enum Undumped<R> {
    /// Nothing was recovered, or not all lines went out.
    Lost(Lost<R>),
    /// Neither the parts nor the log reach the point.
    NoPoint,
}

/// Writes a line for each of the chosen pairs of a folder, ascending by key, in the chosen form: of the state of the chosen point, or,
/// if no point is chosen, of all that is recovered. It returns nothing if all lines went out, and otherwise why they didn't.
///
/// If no point is chosen, what the files lack is reported on the error writer, as far as it takes that; if damage is also not accepted
/// and the files lack more than what a process that is killed leaves, nothing is written, and the folder is refused as damaged. If a
/// point is chosen, nothing is reported there, and files that aren't needed for its state may be damaged. `Output` is returned if
/// and only if the output failed, and then a beginning of the lines went out, as where memory ran out for a line of JSON.
pub fn run_dump<R: Read + Drop, W: Write, E: Write>(
    alloc: Global,
    folder: Folder<R>,
    choice: &Choice<'_>,
    accepts_damage: bool,
    out: &mut Tally<W>,
    errors: &mut Tally<E>,
) -> Option<Undumped<R>>
    ensures dumped { result ≡ None → DumpsAsChosen choice.now.point R.remaining W.contents E.contents folder choice.now accepts_damage out.old out.new errors.old errors.new }
    ensures sound { result ≡ None → failures_of out.new ≡ failures_of out.old }
    ensures cause { IfSome result (IsUndumpedAsChosen choice.now.point R.remaining W.contents E.contents folder choice.now accepts_damage out.old out.new errors.old errors.new) }
    ensures quiet { IsSome choice.now.point → errors.new ≡ errors.old }
{
    match choice.point {
        Some(point) => dump_point(alloc, folder, point, choice, out),
        None => match dump_recovered(alloc, folder, choice, accepts_damage, out, errors) {
            Some(lost) => Some(Undumped::Lost(lost)),
            None => None,
        },
    }
}

// Writes the lines of the chosen pairs of all that is recovered.
fn dump_recovered<R: Read + Drop, W: Write, E: Write>(
    alloc: Global,
    folder: Folder<R>,
    choice: &Choice<'_>,
    accepts_damage: bool,
    out: &mut Tally<W>,
    errors: &mut Tally<E>,
) -> Option<Lost<R>>
    ensures dumped { result ≡ None → Dumps R.remaining W.contents E.contents folder choice.now accepts_damage out.old out.new errors.old errors.new }
    ensures sound { result ≡ None → failures_of out.new ≡ failures_of out.old }
    ensures cause { IfSome result (IsUndumped R.remaining W.contents E.contents folder choice.now accepts_damage out.old out.new errors.old errors.new) }
{
    match recover_base(alloc, folder, accepts_damage, errors) {
        Ok(base) => match put_chosen(alloc, base.into_pairs(), choice, out) {
            Ok(()) => None,
            Err(why) => Some(lost_by(why)),
        },
        Err(lost) => Some(lost),
    }
}

// Writes the lines of the chosen pairs of a point's state.
fn dump_point<R: Read + Drop, W: Write>(
    alloc: Global,
    folder: Folder<R>,
    point: Point,
    choice: &Choice<'_>,
    out: &mut Tally<W>,
) -> Option<Undumped<R>>
    ensures dumped { result ≡ None → DumpsPoint R.remaining W.contents folder point choice.now out.old out.new }
    ensures sound { result ≡ None → failures_of out.new ≡ failures_of out.old }
    ensures cause { IfSome result (IsPointUndumped R.remaining W.contents folder point choice.now out.old out.new) }
{
    match read_point(alloc, folder, point) {
        Ok(Some(pairs)) => match put_chosen(alloc, pairs, choice, out) {
            Ok(()) => None,
            Err(why) => Some(Undumped::Lost(lost_by(why))),
        },
        Ok(None) => Some(Undumped::NoPoint),
        Err(lost) => Some(Undumped::Lost(lost)),
    }
}

// Why not all lines went out, where a write was refused for this reason.
fn lost_by<R>(why: Refusal) -> Lost<R>
    ensures memory { why ≡ Refusal.OutOfMemory → result ≡ Lost.Folder Refusal.OutOfMemory }
    ensures output { why ≢ Refusal.OutOfMemory → result ≡ Lost.Output }
{
    if why == Refusal::OutOfMemory {
        Lost::Folder(why)
    } else {
        Lost::Output
    }
}

// Writes the lines of the chosen pairs of a database. It fails where the output failed, or memory ran out for a line of JSON.
fn put_chosen<W: Write>(
    alloc: Global,
    pairs: Vec<(Key, Value)>,
    choice: &Choice<'_>,
    out: &mut Tally<W>,
) -> Result<(), Refusal>
    requires { KeysRise pairs.items }
    ensures whole { OnOk result (PutsWhole W.contents out.old out.new (dump_text choice.now (database_of pairs.items))) }
    ensures part { IfErr result (IsPutInPart W.contents out.old out.new (dump_text choice.now (database_of pairs.items))) }
{
    let mut pairs = pairs;
    choice.keep(&mut pairs);
    let put = put_lines(alloc, choice.form, &pairs, out);
    end_output(put, out)
}

fn put_lines<W: Write>(
    alloc: Global,
    form: Form,
    pairs: &[(Key, Value)],
    out: &mut Tally<W>,
) -> Result<(), Refusal>
    ensures { PutsUntil W.contents out.old out.new result (pair_lines form pairs.now) }
{
    match form {
        Form::Words => put_pairs(out, pairs),
        Form::Json => put_json(alloc, out, pairs),
    }
}
