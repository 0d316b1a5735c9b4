//! The fold of many files: one merge of all of them; and the join of pieces, each half by itself.
ghost use Rattle.std.specs.Prelude.{◌≡◌, ◌<◌, ◌++◌, ◌∷◌, [], length, IfOk, MatchResult, vec_len};
ghost use Rattle.pc_merge.specs.Folds.{Folds, has_other_run};
ghost use Rattle.pc_collapse.specs.Worth.{AreOfOneRun, JoinsToOne};

use crate::merging::merge_parts;
use crate::piece::{Given, Piece};
use pc_merge::MOST_INPUTS;
use pc_part::{Part, join};
use pc_types::Refusal;
use std::alloc::{AllocError, Global};

/// The join of all the parts: it covers the points of all, and has of each key the entry of the greatest point. The parts
/// stay as they are; none of them is copied, unless it is the only one. Refuses, in this order:
///
/// - `NoFile` if and only if there are no parts;
/// - `OtherRun` if and only if two are of different runs;
/// - else for one of these causes: `Conflict` if some key has in two of them the same point and different contents (and no
///   join is answered if that is a key's greatest point); `Full` if the join would have more than 4,294,967,295 entries;
///   `OutOfMemory` if an allocation failed.
pub fn fold(alloc: Global, parts: &[Part]) -> Result<Part, Refusal>
    ensures { Folds parts.now result }
{
    check_runs(parts)?;
    fold_lent(alloc, parts)
}

/// The same of parts that are handed over: they end once they are joined, so that no more memory is used than for the parts
/// and their join.
pub fn fold_owned(alloc: Global, parts: Vec<Part>) -> Result<Part, Refusal>
    ensures { Folds parts.items result }
{
    fold(alloc, &parts)
}

// Refuses no parts, and parts of two runs.
pub(crate) fn check_runs(parts: &[Part]) -> Result<(), Refusal>
    ensures { MatchResult result (λ _. AreOfOneRun parts.now) (λ why. Folds parts.now (Err why)) }
{
    match parts {
        [] => Err(Refusal::NoFile),
        [first, others @ ..] => {
            if is_other_run(first, others) {
                return Err(Refusal::OtherRun);
            }
            Ok(())
        }
    }
}

// Whether one of the parts is of another run than the first.
fn is_other_run(first: &Part, others: &[Part]) -> bool
    ensures { result ≡ has_other_run first.now others.now }
{
    others.iter().any(|part| part.run() != first.run())
}

// The join of parts of one run: if they are too many for one merge, the joins of both halves are joined.
fn fold_lent(alloc: Global, parts: &[Part]) -> Result<Part, Refusal>
    requires { AreOfOneRun parts.now }
    ensures { JoinsToOne parts.now result }
{
    if parts.len() <= MOST_INPUTS {
        return merge_parts(alloc, parts);
    }
    let (front, back) = parts.split_at(parts.len() / 2);
    let left = fold_lent(alloc, front)?;
    let right = fold_lent(alloc, back)?;
    join(alloc, &left, &right)
}

// The borrowed parts, and after them the others.
pub(crate) fn pieces_of<G: Given>(
    alloc: Global,
    lent: &[Part],
    own: Vec<Part>,
) -> Result<Vec<Piece<G>>, AllocError>
    requires { lent.now ≡ G.parts }
    ensures { IfOk result (λ pieces. pieces.items ≡ lent.now ++ own.items) }
{
    let mut pieces = lent_pieces(alloc, lent)?;
    for part in own {
        pieces.push(Piece::own(part))?;
    }
    Ok(pieces)
}

fn lent_pieces<G: Given>(alloc: Global, lent: &[Part]) -> Result<Vec<Piece<G>>, AllocError>
    requires { lent.now ≡ G.parts }
    ensures { IfOk result (λ pieces. pieces.items ≡ lent.now) }
{
    let mut pieces = Vec::with_capacity(alloc, lent.len())?;
    for number in 0..lent.len() {
        pieces.push(Piece::lent(number))?;
    }
    Ok(pieces)
}

// The join of all the pieces.
pub(crate) fn fold_pieces<G: Given>(
    alloc: Global,
    parts: &[Part],
    pieces: Vec<Piece<G>>,
) -> Result<Part, Refusal>
    requires parts { parts.now ≡ G.parts }
    requires some { 0 < vec_len pieces }
    ensures { JoinsToOne pieces.items result }
{
    let piece = fold_halves(alloc, parts, pieces)?;
    piece.into_part(alloc, parts)
}

// The join of the first half and the second one; one piece stays as it is.
fn fold_halves<G: Given>(
    alloc: Global,
    parts: &[Part],
    mut pieces: Vec<Piece<G>>,
) -> Result<Piece<G>, Refusal>
    requires parts { parts.now ≡ G.parts }
    requires some { 0 < vec_len pieces }
    ensures { JoinsToOne pieces.items result }
{
    let half = pieces.len() / 2;
    if half == 0 {
        return Ok(only(pieces));
    }
    let back = pieces.split_off(half)?;
    let left = fold_halves(alloc, parts, pieces)?;
    let right = fold_halves(alloc, parts, back)?;
    join_pieces(alloc, parts, &left, &right)
}

fn only<G: Given>(mut pieces: Vec<Piece<G>>) -> Piece<G>
    requires { vec_len pieces ≡ 1 }
    ensures { pieces.items ≡ result ∷ [] }
{
    match pieces.pop() {
        Some(piece) => piece,
        None => unreachable!(),
    }
}

// The join of two pieces.
pub(crate) fn join_pieces<G: Given>(
    alloc: Global,
    parts: &[Part],
    first: &Piece<G>,
    second: &Piece<G>,
) -> Result<Piece<G>, Refusal>
    requires { parts.now ≡ G.parts }
    ensures { JoinsToOne (first.now ∷ second.now ∷ []) result }
{
    let part = join(alloc, first.part(parts), second.part(parts))?;
    Ok(Piece::own(part))
}
