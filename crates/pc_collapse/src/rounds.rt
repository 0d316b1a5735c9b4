//! Collapsers that join neighbours in rounds.
ghost use Rattle.std.specs.Prelude.{◌≡◌, ◌<◌, ◌≤◌, List, [], ◌++◌, length, IfOk, OnOk, vec_len};
ghost use Rattle.pc_model.specs.Files.{File};
ghost use Rattle.pc_merge.specs.Folds.{Folds};
ghost use Rattle.pc_collapse.specs.Rounds.{AllBecome, Become, EachBecomes, dealt_files, neighbour_files, hand_files, together};
ghost use Rattle.pc_collapse.specs.Worth.{AreWorth, JoinsToOne};

use crate::folding::{check_runs, fold_pieces, join_pieces, pieces_of};
use crate::piece::{Given, Piece};
use pc_part::Part;
use pc_types::{Gate, GatePlace, MOST_COLLAPSERS, Refusal};
use std::alloc::{AllocError, Global};
use std::marker::Brand;
use std::sync::Wait;
use std::thread;
use std::thread::Threads;

/// The join of all the parts, as `fold` gives it, in rounds, by 1 to 64 collapsers: in each round the neighbours (1, 2),
/// (3, 4), .. are dealt to the collapsers in turn, each on a thread of its own, which joins its pairs in order and passes
/// `Pair` with its number (from 0) at the gate before each; an odd last file goes on unchanged. The files that the
/// collapsers return, those of the first one first, are the files of the next round. The work of a thread that can't be
/// started is done by the caller. The parts stay as they are; none of them is copied, unless it is the only one. The result
/// is the same for every number of collapsers. Refuses as `fold` does.
pub fn collapse_rounds<E: Gate + Sync, R: Threads + Wait + Sync>(
    rt: &R,
    alloc: Global,
    parts: &[Part],
    workers: u8,
    gate: &E,
) -> Result<Part, Refusal>
    requires workers { (1 ≤ workers) × (workers ≤ MOST_COLLAPSERS) }
    ensures { Folds parts.now result }
{
    check_runs(parts)?;
    rounds::<Brand, E, R>(rt, alloc, parts, Vec::new(alloc), workers, gate)
}

/// The same of parts that are handed over: each ends as soon as it is joined.
pub fn collapse_rounds_owned<E: Gate + Sync, R: Threads + Wait + Sync>(
    rt: &R,
    alloc: Global,
    parts: Vec<Part>,
    workers: u8,
    gate: &E,
) -> Result<Part, Refusal>
    requires workers { (1 ≤ workers) × (workers ≤ MOST_COLLAPSERS) }
    ensures { Folds parts.items result }
{
    check_runs(&parts)?;
    rounds::<Brand, E, R>(rt, alloc, &[], parts, workers, gate)
}

// The join of parts that are borrowed and others that are handed over. Each round halves them, so that there are no more
// rounds than bits in their number.
fn rounds<G: Given + Send + Sync, E: Gate + Sync, R: Threads + Wait + Sync>(
    rt: &R,
    alloc: Global,
    parts: &[Part],
    own: Vec<Part>,
    workers: u8,
    gate: &E,
) -> Result<Part, Refusal>
    requires workers { 1 ≤ workers }
    requires parts { parts.now ≡ G.parts }
    requires some { 0 < length (parts.now ++ own.items) }
    ensures { JoinsToOne (parts.now ++ own.items) result }
{
    let pieces = pieces_of::<G>(alloc, parts, own)?;
    let mut left = pieces;
    for _ in 0..usize::BITS {
        if left.len() < 2 {
            break;
        }
        left = round(rt, alloc, parts, left, workers, gate)?;
    }
    fold_pieces(alloc, parts, left)
}

fn round<G: Given + Send + Sync, E: Gate + Sync, R: Threads + Wait + Sync>(
    rt: &R,
    alloc: Global,
    parts: &[Part],
    pieces: Vec<Piece<G>>,
    workers: u8,
    gate: &E,
) -> Result<Vec<Piece<G>>, Refusal>
    requires workers { 1 ≤ workers }
    requires parts { parts.now ≡ G.parts }
    ensures { Become pieces.items result }
{
    let dealt = deal(alloc, pieces, workers)?;
    let joined = join_dealt(rt, alloc, parts, dealt, gate)?;
    gather(alloc, joined)
}

// Two neighbours, or an odd last piece.
#[derive(Drop)]
pub(crate) struct Neighbours<G: Given> {
    first: Piece<G>,
    second: Option<Piece<G>>,
}

// The pairs dealt to a collapser, and its number.
#[derive(Drop)]
pub(crate) struct Dealt<G: Given> {
    number: u8,
    pairs: Vec<Neighbours<G>>,
}

// Deals the neighbours to the collapsers in turn.
fn deal<G: Given>(
    alloc: Global,
    pieces: Vec<Piece<G>>,
    workers: u8,
) -> Result<Vec<Dealt<G>>, AllocError>
    requires { 1 ≤ workers }
    ensures { IfOk result (λ all. AreWorth pieces.items (dealt_files all.items)) }
{
    let mut all = empty_hands(alloc, workers)?;
    let mut number = 0;
    let mut rest = pieces.into_iter();
    while let Some(first) = rest.next() {
        let second = rest.next();
        give(&mut all, number, Neighbours { first, second })?;
        number = (number + 1) % workers as usize;
    }
    Ok(all)
}

// The given number of collapsers, to which nothing has been dealt.
fn empty_hands<G: Given>(alloc: Global, workers: u8) -> Result<Vec<Dealt<G>>, AllocError>
    ensures len { IfOk result (λ all. vec_len all ≡ workers) }
    ensures none { IfOk result (λ all. dealt_files all.items ≡ []) }
{
    let mut all = Vec::with_capacity(alloc, workers as usize)?;
    for number in 0..workers {
        let pairs = Vec::new(alloc);
        all.push(Dealt { number, pairs })?;
    }
    Ok(all)
}

// Deals the neighbours to the collapser of this number.
fn give<G: Given>(
    all: &mut [Dealt<G>],
    number: usize,
    pair: Neighbours<G>,
) -> Result<(), AllocError>
    requires { number < length all.old }
    ensures len { length all.new ≡ length all.old }
    ensures given { OnOk result (AreWorth (neighbour_files pair ++ dealt_files all.old) (dealt_files all.new)) }
{
    let hand = &mut all[number];
    hand.pairs.push(pair)?;
    Ok(())
}

// The work of all collapsers, each on a thread of its own.
fn join_dealt<G: Given + Send + Sync, E: Gate + Sync, R: Threads + Wait + Sync>(
    rt: &R,
    alloc: Global,
    parts: &[Part],
    dealt: Vec<Dealt<G>>,
    gate: &E,
) -> Result<Vec<Result<Vec<Piece<G>>, Refusal>>, AllocError>
    requires { parts.now ≡ G.parts }
    ensures len { IfOk result (λ joined. vec_len joined ≡ vec_len dealt) }
    ensures each { IfOk result (λ joined. EachBecomes dealt.items joined.items) }
{
    thread::map_vec(
        rt,
        dealt,
        &|hand: Dealt<G>| -> Result<Vec<Piece<G>>, Refusal>
            requires { parts.now ≡ G.parts }
            ensures { Become (hand_files hand) result }
        { join_pairs(alloc, parts, hand, gate) },
    )
}

fn join_pairs<G: Given, E: Gate>(
    alloc: Global,
    parts: &[Part],
    hand: Dealt<G>,
    gate: &E,
) -> Result<Vec<Piece<G>>, Refusal>
    requires { parts.now ≡ G.parts }
    ensures { Become (hand_files hand) result }
{
    let mut joined = Vec::with_capacity(alloc, hand.pairs.len())?;
    for pair in hand.pairs {
        let piece = join_pair(alloc, parts, pair, hand.number, gate)?;
        joined.push(piece)?;
    }
    Ok(joined)
}

// Joins two neighbours; an odd last piece stays as it is.
fn join_pair<G: Given, E: Gate>(
    alloc: Global,
    parts: &[Part],
    pair: Neighbours<G>,
    number: u8,
    gate: &E,
) -> Result<Piece<G>, Refusal>
    requires { parts.now ≡ G.parts }
    ensures { JoinsToOne (neighbour_files pair) result }
{
    let Neighbours { first, second } = pair;
    match second {
        Some(second) => {
            gate.pass(GatePlace::Pair(number));
            join_pieces(alloc, parts, &first, &second)
        }
        None => Ok(first),
    }
}

// The files that the collapsers return.
fn gather<G: Given>(
    alloc: Global,
    joined: Vec<Result<Vec<Piece<G>>, Refusal>>,
) -> Result<Vec<Piece<G>>, Refusal>
    ensures { (lists : List (List File)) → AllBecome lists joined.items → Become (together lists) result }
{
    let mut left = Vec::new(alloc);
    for pieces in joined {
        left.append(&mut pieces?)?;
    }
    Ok(left)
}
