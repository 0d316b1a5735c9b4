//! Collapsers that join files out of one bag.
ghost use Rattle.std.specs.Prelude.{◌≡◌, ◌<◌, ◌≤◌, ◌+◌, [], ◌∷◌, ◌++◌, length, Err, IfSome, IfOk, IfErr, All, vec_len, MatchResult};
ghost use Rattle.crossbeam_queue.specs.Passes.{view, IsPassOf, ruled_capacity};
ghost use Rattle.pc_collapse.specs.Bags.{hand, all_parts, first_kept, IsReady, IsBagDone};
ghost use Rattle.pc_merge.specs.Folds.{Folds};
ghost use Rattle.pc_collapse.specs.Worth.{AreWorth, IsCauseFor, JoinsToOne};

use crate::folding::{check_runs, fold_pieces, join_pieces, pieces_of};
use crate::piece::{Given, Piece};
use crate::rule::{Bag, BagPass, Drains, PutsBack, PutsFile, Shares, TakesFile};
use pc_part::Part;
use pc_types::{Gate, GatePlace, MOST_COLLAPSERS, Refusal};
use std::alloc::{AllocError, Global};
use std::marker::Brand;
use std::sync::Wait;
use std::thread;
use std::thread::Threads;

/// The join of all the parts, as `fold` gives it, by 1 to 64 collapsers, each on a thread of its own: a collapser takes two
/// files out of a bag, passes `Pair` with its number (from 0) at the gate, joins them and puts the join back, until there are
/// no two. The work of a thread that can't be started is done by the caller. The parts stay as they are; none of them is
/// copied, unless it is the only one. The result is the same for every number of collapsers. Refuses as `fold` does.
pub fn collapse_bag<E: Gate + Sync, R: Threads + Wait + Sync>(
    rt: &R,
    alloc: Global,
    parts: &[Part],
    workers: u8,
    gate: &E,
) -> Result<Part, Refusal>
    requires workers { (1 ≤ workers) × (workers ≤ MOST_COLLAPSERS) }
    ensures { Folds parts.now result }
{
    check_runs(parts)?;
    collapse::<Brand, E, R>(rt, alloc, parts, Vec::new(alloc), workers, gate)
}

/// The same of parts that are handed over: each ends as soon as it is joined.
pub fn collapse_bag_owned<E: Gate + Sync, R: Threads + Wait + Sync>(
    rt: &R,
    alloc: Global,
    parts: Vec<Part>,
    workers: u8,
    gate: &E,
) -> Result<Part, Refusal>
    requires workers { (1 ≤ workers) × (workers ≤ MOST_COLLAPSERS) }
    ensures { Folds parts.items result }
{
    check_runs(&parts)?;
    collapse::<Brand, E, R>(rt, alloc, &[], parts, workers, gate)
}

// The join of parts that are borrowed and others that are handed over.
fn collapse<G: Given + Send + Sync, E: Gate + Sync, R: Threads + Wait + Sync>(
    rt: &R,
    alloc: Global,
    parts: &[Part],
    own: Vec<Part>,
    workers: u8,
    gate: &E,
) -> Result<Part, Refusal>
    requires workers { (1 ≤ workers) × (workers ≤ MOST_COLLAPSERS) }
    requires parts { parts.now ≡ G.parts }
    requires files { (G.files ≡ parts.now ++ own.items) × (0 < length G.files) }
    ensures { JoinsToOne G.files result }
{
    let pieces = pieces_of::<G>(alloc, parts, own)?;
    let (bag, mut pass) = Bag::<G>::ruled(alloc, pieces.len())?;
    fill(rt, &bag, &mut pass, pieces);
    let mut all = hands(alloc, &bag, &mut pass, workers)?;
    work_all(rt, alloc, parts, &bag, &mut all, workers, gate);
    left_by(rt, alloc, parts, &bag, &mut pass, all)
}

// The result once all collapsers have ended: if one of them kept a refusal, the first that was kept; and otherwise the join of
// what is left in the bag.
fn left_by<G: Given, R: Wait>(
    rt: &R,
    alloc: Global,
    parts: &[Part],
    bag: &Bag<G>,
    pass: &mut BagPass<G>,
    all: Vec<BagCollapser<G>>,
) -> Result<Part, Refusal>
    requires files { (parts.now ≡ G.parts) × (0 < length G.files) }
    requires queue { IsPassOf bag.now pass.old }
    requires parts { ((view pass.old).parts + vec_len all ≡ all_parts) × ((view pass.old).held ≡ []) }
    requires done { All (IsBagDone G.files bag.now) all.items }
    ensures joined { JoinsToOne G.files result }
    ensures kept { IfSome (first_kept all.items) (λ why. result ≡ Err why) }
{
    if let Some(why) = gather(bag, pass, all) {
        return Err(why);
    }
    let left = drain(rt, alloc, bag, pass)?;
    fold_pieces(alloc, parts, left)
}

// A collapser: its number, its hand, and why it stopped, if a join was refused.
#[derive(Drop)]
pub(crate) struct BagCollapser<G: Given> {
    number: u8,
    pass: BagPass<G>,
    refused: Option<Refusal>,
}

// The pieces go into the bag.
fn fill<G: Given, R: Wait>(rt: &R, bag: &Bag<G>, pass: &mut BagPass<G>, pieces: Vec<Piece<G>>)
    requires queue { IsPassOf bag.now pass.old × (ruled_capacity bag.now ≡ length G.files) }
    requires full { view pass.old ≡ hand all_parts pieces.items }
    ensures queue { IsPassOf bag.now pass.new × (view pass.new ≡ hand all_parts []) }
{
    for piece in pieces {
        let Ok(()) = bag.push_as::<PutsBack<G>, R>(rt, pass, piece) else {
            unreachable!()
        };
    }
}

// The given number of collapsers, with a hand each.
fn hands<G: Given>(
    alloc: Global,
    bag: &Bag<G>,
    pass: &mut BagPass<G>,
    workers: u8,
) -> Result<Vec<BagCollapser<G>>, AllocError>
    requires workers { workers ≤ MOST_COLLAPSERS }
    requires queue { IsPassOf bag.now pass.old × (view pass.old ≡ hand all_parts []) }
    ensures queue { IsPassOf bag.now pass.new }
    ensures parts { IfOk result (λ all. (view pass.new).parts + vec_len all ≡ all_parts) }
    ensures none { (view pass.new).held ≡ [] }
    ensures ready { IfOk result (λ all. All (IsReady bag.now) all.items) }
{
    let mut all = Vec::with_capacity(alloc, workers as usize)?;
    for number in 0..workers {
        let pass = bag.another::<Shares>(pass);
        all.push_reserved(BagCollapser {
            number,
            pass,
            refused: None,
        });
    }
    Ok(all)
}

// The turns of all collapsers.
fn work_all<G: Given + Send + Sync, E: Gate + Sync, R: Threads + Wait + Sync>(
    rt: &R,
    alloc: Global,
    parts: &[Part],
    bag: &Bag<G>,
    all: &mut Vec<BagCollapser<G>>,
    workers: u8,
    gate: &E,
)
    requires workers { 1 ≤ workers }
    requires given { (parts.now ≡ G.parts) × (ruled_capacity bag.now ≡ length G.files) }
    requires ready { All (IsReady bag.now) all.old.items }
    ensures len { vec_len all.new ≡ vec_len all.old }
    ensures done { All (IsBagDone G.files bag.now) all.new.items }
{
    thread::for_each_mut(
        rt,
        all.as_mut_slice(),
        workers as usize,
        &|_, collapser|
            requires { (parts.now ≡ G.parts) × (ruled_capacity bag.now ≡ length G.files) × IsReady bag.now collapser.now }
            ensures { IsBagDone G.files bag.entry.now collapser.exit.now }
        { work(rt, alloc, parts, bag, collapser, gate) },
    );
}

fn work<G: Given, E: Gate, R: Wait>(
    rt: &R,
    alloc: Global,
    parts: &[Part],
    bag: &Bag<G>,
    collapser: &mut BagCollapser<G>,
    gate: &E,
)
    requires given { (parts.now ≡ G.parts) × (ruled_capacity bag.now ≡ length G.files) }
    requires hand { IsPassOf bag.now collapser.old.pass × (view collapser.old.pass ≡ hand 1 []) }
    ensures hand { IsPassOf bag.now collapser.new.pass × (view collapser.new.pass ≡ hand 1 []) }
    ensures refused { IfSome collapser.new.refused (IsCauseFor G.files) }
{
    collapser.refused = turns(
        rt,
        alloc,
        parts,
        bag,
        &mut collapser.pass,
        collapser.number,
        gate,
    );
}

// Joins two files at a time, until there are no two, or as many joins are made as there can be, one fewer than files. Answers why a join was refused, if one was.
fn turns<G: Given, E: Gate, R: Wait>(
    rt: &R,
    alloc: Global,
    parts: &[Part],
    bag: &Bag<G>,
    pass: &mut BagPass<G>,
    number: u8,
    gate: &E,
) -> Option<Refusal>
    requires given { (parts.now ≡ G.parts) × (ruled_capacity bag.now ≡ length G.files) }
    requires idle { IsPassOf bag.now pass.old × (view pass.old ≡ hand 1 []) }
    ensures idle { IsPassOf bag.now pass.new × (view pass.new ≡ hand 1 []) }
    ensures refused { IfSome result (IsCauseFor G.files) }
{
    for _ in 1..bag.capacity() {
        match turn(rt, alloc, parts, bag, pass, number, gate) {
            Ok(true) => {}
            Ok(false) => return None,
            Err(why) => return Some(why),
        }
    }
    None
}

// Two files become one. False if there are no two.
fn turn<G: Given, E: Gate, R: Wait>(
    rt: &R,
    alloc: Global,
    parts: &[Part],
    bag: &Bag<G>,
    pass: &mut BagPass<G>,
    number: u8,
    gate: &E,
) -> Result<bool, Refusal>
    requires given { (parts.now ≡ G.parts) × (ruled_capacity bag.now ≡ length G.files) }
    requires idle { IsPassOf bag.now pass.old × (view pass.old ≡ hand 1 []) }
    ensures idle { IsPassOf bag.now pass.new × (view pass.new ≡ hand 1 []) }
    ensures refused { IfErr result (IsCauseFor G.files) }
{
    let Some(first) = bag.pop_as::<TakesFile<G>, R>(rt, pass) else {
        return Ok(false);
    };
    let Some(second) = bag.pop_as::<TakesFile<G>, R>(rt, pass) else {
        put(rt, bag, pass, first);
        return Ok(false);
    };
    gate.pass(GatePlace::Pair(number));
    match joined(alloc, parts, first, second) {
        Ok(file) => {
            put(rt, bag, pass, file);
            Ok(true)
        }
        Err((one, other, why)) => {
            let Ok(()) = bag.push_as::<PutsBack<G>, R>(rt, pass, other) else {
                unreachable!()
            };
            put(rt, bag, pass, one);
            Err(why)
        }
    }
}

// The join of two pieces, or both with the reason.
fn joined<G: Given>(
    alloc: Global,
    parts: &[Part],
    first: Piece<G>,
    second: Piece<G>,
) -> Result<Piece<G>, (Piece<G>, Piece<G>, Refusal)>
    requires { parts.now ≡ G.parts }
    ensures { MatchResult result (λ file. AreWorth (second ∷ first ∷ []) (file ∷ [])) (λ r. (r.0 ≡ first) × (r.1 ≡ second) × IsCauseFor (second ∷ first ∷ []) r.2) }
{
    match join_pieces(alloc, parts, &second, &first) {
        Ok(file) => Ok(file),
        Err(why) => Err((first, second, why)),
    }
}

// Puts in what is held, as one file.
fn put<G: Given, R: Wait>(rt: &R, bag: &Bag<G>, pass: &mut BagPass<G>, file: Piece<G>)
    requires queue { IsPassOf bag.now pass.old × (ruled_capacity bag.now ≡ length G.files) }
    requires held { (0 < (view pass.old).parts) × (0 < length (view pass.old).held) × AreWorth (view pass.old).held (file ∷ []) }
    ensures { IsPassOf bag.now pass.new × (view pass.new ≡ hand (view pass.old).parts []) }
{
    let Ok(()) = bag.push_as::<PutsFile<G>, R>(rt, pass, file) else {
        unreachable!()
    };
}

// The collapsers give their hands back. Answers why a join was refused: the first cause that one of them kept, if one did.
fn gather<G: Given>(
    bag: &Bag<G>,
    pass: &mut BagPass<G>,
    all: Vec<BagCollapser<G>>,
) -> Option<Refusal>
    requires queue { IsPassOf bag.now pass.old }
    requires parts { ((view pass.old).parts + vec_len all ≡ all_parts) × ((view pass.old).held ≡ []) }
    requires done { All (IsBagDone G.files bag.now) all.items }
    ensures queue { IsPassOf bag.now pass.new × (view pass.new ≡ hand all_parts []) }
    ensures refused { IfSome result (IsCauseFor G.files) }
    ensures kept { result ≡ first_kept all.items }
{
    let mut refused = None;
    for collapser in all {
        bag.absorb::<Shares>(pass, collapser.pass);
        refused = refused.or(collapser.refused);
    }
    refused
}

// The rest of the bag.
fn drain<G: Given, R: Wait>(
    rt: &R,
    alloc: Global,
    bag: &Bag<G>,
    pass: &mut BagPass<G>,
) -> Result<Vec<Piece<G>>, AllocError>
    requires queue { IsPassOf bag.now pass.old × (view pass.old ≡ hand all_parts []) }
    ensures { IfOk result (λ left. AreWorth G.files left.items) }
{
    let mut left = Vec::new(alloc);
    for _ in rt.forever() {
        match bag.pop_as::<Drains<G>, R>(rt, pass) {
            Some(file) => left.push(file)?,
            None => return Ok(left),
        }
    }
    unreachable!()
}
