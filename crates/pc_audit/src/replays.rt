//! Contents, and files that cover all points up to one, against the log that a store keeps.
ghost use Rattle.std.specs.Prelude.{◌≡◌, ◌≤◌, ◌↔◌, length, take, All, IsTrue, is_some, IfSome, IfOk, OnOk};
ghost use Rattle.pc_model.specs.Database.{Database, database_of};
ghost use Rattle.pc_model.specs.Log.{after, front, has_token, state_at};
ghost use Rattle.pc_kept_log.specs.Logs.{entries_of};
ghost use Rattle.pc_replay.specs.Laying.{laid_in_turn};
ghost use Rattle.pc_replay.specs.Audits.{TriplesRise, IsRight, IsRightInTurn};
ghost use Rattle.pc_audit.specs.Tables.{is_mark};

use crate::table::Table;
use pc_kept_log::{LentEntry, Log};
use pc_replay::CompleteFile;
use pc_types::{Key, Phase, Point, Triple, Value};
use std::alloc::{AllocError, Global};
use std::hash::RandomState;

/// Whether each file is correct by the log, as `audit` finds it for a list of entries. The log is read where it lies, and
/// databases are maps by hash under the seed, a random 128-bit number: each file costs at most the sizes of the base, the log
/// and the file. It fails only if an allocation fails.
pub(crate) fn audit_log(
    alloc: Global,
    seed: RandomState,
    base: &[(Key, Value)],
    log: &Log,
    files: &[CompleteFile],
) -> Result<bool, AllocError>
    ensures { All TriplesRise files.now → IfOk result (λ right. IsTrue right ↔ All (IsRight (database_of base.now) (entries_of log.now)) files.now) }
{
    let right = are_right(alloc, seed, base, log, files)?;
    Ok(right)
}

/// Whether the pairs are the log replayed on the base. Of several pairs with one key the first counts. Keys are hashed under the
/// seed, a random 128-bit number. It fails only if an allocation fails.
pub(crate) fn is_log_replay(
    alloc: Global,
    seed: RandomState,
    base: &[(Key, Value)],
    log: &Log,
    pairs: &[(Key, Value)],
) -> Result<bool, AllocError>
    ensures { IfOk result (λ right. IsTrue right ↔ (database_of pairs.now ≡ after (database_of base.now) (entries_of log.now))) }
{
    let mut replayed = Table::of_pairs(alloc, seed, base)?;
    replayed.replay(alloc, log, 0, log.len())?;
    let table = replayed.beside(alloc, pairs)?;
    Ok(table.is(&replayed))
}

// Whether each file is correct, if its triples are laid in order.
fn are_right(
    alloc: Global,
    seed: RandomState,
    base: &[(Key, Value)],
    log: &Log,
    files: &[CompleteFile],
) -> Result<bool, AllocError>
    ensures { IfOk result (λ right. IsTrue right ↔ All (IsRightInTurn (database_of base.now) (entries_of log.now)) files.now) }
{
    let mut table = Table::of_pairs(alloc, seed, base)?;
    let mut at = 0;
    for file in files {
        if !is_right(alloc, base, log, file, &mut table, &mut at)? {
            return Ok(false);
        }
    }
    Ok(true)
}

// Whether the file is correct. The table is the base with the log's first entries replayed on it; their number is given too.
fn is_right(
    alloc: Global,
    base: &[(Key, Value)],
    log: &Log,
    file: &CompleteFile,
    table: &mut Table,
    at: &mut usize,
) -> Result<bool, AllocError>
    requires { table.old ≡ after (database_of base.now) (take at.old (entries_of log.now)) }
    ensures right { IfOk result (λ right. IsTrue right ↔ IsRightInTurn (database_of base.now) (entries_of log.now) file.now) }
    ensures replayed { OnOk result (table.new ≡ after (database_of base.now) (take at.new (entries_of log.now))) }
{
    let Some(to) = state_len(log, file.point) else {
        return Ok(false);
    };
    go_to(alloc, base, log, table, *at, to)?;
    *at = to;
    let laid = laid_beside(alloc, table, base, file.triples.as_slice())?;
    Ok(laid.is(table))
}

// How many entries of the log make the state of the point, if the log has its token.
fn state_len(log: &Log, point: Point) -> Option<usize>
    ensures token { is_some result ≡ has_token point (entries_of log.now) }
    ensures within { IfSome result (λ n. n ≤ length (entries_of log.now)) }
    ensures state { (base : Database) → IfSome result (λ n. after base (take n (entries_of log.now)) ≡ state_at base (entries_of log.now) point) }
{
    let place = front_len(log, point);
    if place == log.len() {
        return None;
    }
    if point == Point(0) {
        return Some(0);
    }
    Some(place)
}

// How many entries come before the point's token.
fn front_len(log: &Log, point: Point) -> usize
    ensures within { result ≤ length (entries_of log.now) }
    ensures front { take result (entries_of log.now) ≡ front point (entries_of log.now) }
{
    let mut place = 0;
    for entry in log.lent(0, log.len()) {
        if is_mark(&entry, point) {
            return place;
        }
        place += 1;
    }
    place
}

// Whether the entry is the point's token.
fn is_mark(entry: &LentEntry<'_>, point: Point) -> bool
    ensures { result ≡ is_mark point entry.now }
{
    match entry.token() {
        Some((phase, n)) => phase == Phase::Resolve && n == point,
        None => false,
    }
}

// Replays the log up to another entry: on from the table's entry, or from the base if the other entry is an earlier one.
fn go_to(
    alloc: Global,
    base: &[(Key, Value)],
    log: &Log,
    table: &mut Table,
    at: usize,
    to: usize,
) -> Result<(), AllocError>
    requires within { to ≤ length (entries_of log.now) }
    requires replayed { table.old ≡ after (database_of base.now) (take at (entries_of log.now)) }
    ensures { OnOk result (table.new ≡ after (database_of base.now) (take to (entries_of log.now))) }
{
    if to < at {
        *table = table.beside(alloc, base)?;
        table.replay(alloc, log, 0, to)
    } else {
        table.replay(alloc, log, at, to)
    }
}

// The triples applied to the base, in order, hashed as the table is.
fn laid_beside(
    alloc: Global,
    table: &Table,
    base: &[(Key, Value)],
    triples: &[Triple],
) -> Result<Table, AllocError>
    ensures { IfOk result (λ laid. laid ≡ laid_in_turn (database_of base.now) 0 triples.now) }
{
    let mut laid = table.beside(alloc, base)?;
    laid.lay(alloc, Point(0), triples)?;
    Ok(laid)
}
