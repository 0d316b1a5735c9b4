//! Files that cover all points up to one, against the log.
ghost use Rattle.std.specs.Prelude.{◌≡◌, ◌≤◌, ◌↔◌, length, take, All, IsTrue, is_some, IfSome, IfOk, OnOk};
ghost use Rattle.pc_model.specs.Database.{Database, database_of};
ghost use Rattle.pc_model.specs.Log.{after, has_token, state_at};
ghost use Rattle.pc_replay.specs.Laying.{laid_in_turn};
ghost use Rattle.pc_replay.specs.Audits.{TriplesRise, IsRight, IsRightInTurn};

use crate::replay::front_len;
use crate::tree::Tree;
use pc_types::{Entry, Key, Point, Triple, Value};
use std::alloc::{AllocError, Global};

/// A file of all the points from 1 to this one, as a part of the first point or a join of parts.
#[derive(Drop)]
pub struct CompleteFile {
    pub point: Point,
    pub triples: Vec<Triple>,
}

/// Whether each file is correct: the token of its point is in the log, and the base with the file applied to it is the state
/// of the point.
/// The base is at point 0, and of several of its pairs with one key the first counts; each file's triples must ascend strictly
/// by key. If the files' points ascend, as their tokens do in the log, the log is replayed once. Each file costs at most the
/// sizes of the base, the log and the file, times a logarithm. It fails only if an allocation fails.
pub fn audit(
    alloc: Global,
    base: &[(Key, Value)],
    log: &[Entry],
    files: &[CompleteFile],
) -> Result<bool, AllocError>
    ensures { All TriplesRise files.now → IfOk result (λ right. IsTrue right ↔ All (IsRight (database_of base.now) log.now) files.now) }
{
    let right = are_right(alloc, base, log, files)?;
    Ok(right)
}

/// Whether the pairs are the log replayed on the base. Of several pairs with one key the first counts. It fails only if an
/// allocation fails.
pub fn is_replay(
    alloc: Global,
    base: &[(Key, Value)],
    log: &[Entry],
    pairs: &[(Key, Value)],
) -> Result<bool, AllocError>
    ensures { IfOk result (λ right. IsTrue right ↔ (database_of pairs.now ≡ after (database_of base.now) log.now)) }
{
    let mut replayed = Tree::of_pairs(alloc, base)?;
    replayed.replay(alloc, log)?;
    let tree = Tree::of_pairs(alloc, pairs)?;
    Ok(tree.is(&replayed))
}

// Whether each file is correct, if its triples are laid in order.
fn are_right(
    alloc: Global,
    base: &[(Key, Value)],
    log: &[Entry],
    files: &[CompleteFile],
) -> Result<bool, AllocError>
    ensures { IfOk result (λ right. IsTrue right ↔ All (IsRightInTurn (database_of base.now) log.now) files.now) }
{
    let mut tree = Tree::of_pairs(alloc, base)?;
    let mut at = 0;
    for file in files {
        if !is_right(alloc, base, log, file, &mut tree, &mut at)? {
            return Ok(false);
        }
    }
    Ok(true)
}

// Whether the file is correct. The tree is the base with the log's first entries replayed on it; their number is given too.
fn is_right(
    alloc: Global,
    base: &[(Key, Value)],
    log: &[Entry],
    file: &CompleteFile,
    tree: &mut Tree,
    at: &mut usize,
) -> Result<bool, AllocError>
    requires { tree.old ≡ after (database_of base.now) (take at.old log.now) }
    ensures right { IfOk result (λ right. IsTrue right ↔ IsRightInTurn (database_of base.now) log.now file.now) }
    ensures replayed { OnOk result (tree.new ≡ after (database_of base.now) (take at.new log.now)) }
{
    let Some(to) = state_len(log, file.point) else {
        return Ok(false);
    };
    go_to(alloc, base, log, tree, *at, to)?;
    *at = to;
    let laid = laid_on(alloc, base, file.triples.as_slice())?;
    Ok(laid.is(tree))
}

// How many entries of the log make the state of the point, if the log has its token.
fn state_len(log: &[Entry], point: Point) -> Option<usize>
    ensures token { is_some result ≡ has_token point log.now }
    ensures within { IfSome result (λ n. n ≤ length log.now) }
    ensures state { (base : Database) → IfSome result (λ n. after base (take n log.now) ≡ state_at base log.now point) }
{
    let place = front_len(log, point);
    if place == log.len() {
        return None;
    }
    if point == Point(0) {
        return Some(0);
    }
    Some(place)
}

// Replays the log up to another entry: on from the tree's entry, or from the base if the other entry is an earlier one.
fn go_to(
    alloc: Global,
    base: &[(Key, Value)],
    log: &[Entry],
    tree: &mut Tree,
    at: usize,
    to: usize,
) -> Result<(), AllocError>
    requires within { to ≤ length log.now }
    requires replayed { tree.old ≡ after (database_of base.now) (take at log.now) }
    ensures { OnOk result (tree.new ≡ after (database_of base.now) (take to log.now)) }
{
    if to < at {
        *tree = Tree::of_pairs(alloc, base)?;
        tree.replay(alloc, &log[..to])
    } else {
        tree.replay(alloc, &log[at..to])
    }
}

// The triples applied to the base, in order.
fn laid_on(alloc: Global, base: &[(Key, Value)], triples: &[Triple]) -> Result<Tree, AllocError>
    ensures { IfOk result (λ tree. tree ≡ laid_in_turn (database_of base.now) 0 triples.now) }
{
    let mut tree = Tree::of_pairs(alloc, base)?;
    tree.lay(alloc, Point(0), triples)?;
    Ok(tree)
}
