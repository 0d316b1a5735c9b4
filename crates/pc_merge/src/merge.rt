//! Several streams of entries, made one.
ghost use Rattle.std.specs.Prelude.{◌≡◌, ◌≤◌, ◌+◌, ◌++◌, ◌∷◌, [], ℕ, Bool, IsTrue, List, Some, None, MatchResult, IfErr, IfOk, OnOk, length, map, vec_len};
ghost use Rattle.std.specs.List.{All};
ghost use Rattle.pc_types.specs.declared.limits.TheConstants.{MOST_FILE_ENTRIES};
ghost use Rattle.pc_merge.specs.Coming.{Coming};
ghost use Rattle.pc_merge.specs.Given.{IsCauseOfAll, IsMerge};
ghost use Rattle.pc_merge.specs.Inputs.{all_known, all_left, left_in, unopened};
ghost use Rattle.pc_merge.specs.Merging.{MergesNext, IsCause, IsMergeRefusal, KeysGoOn, MergeRefuses};
ghost use Rattle.pc_merge.specs.Standings.{AllGiveWithin, AllStand, AreWithin};

use crate::entries::Entries;
use crate::limits::MOST_INPUTS;
use crate::newest::{advance, draw_firsts, newest_of};
use crate::spare::Spare;
use crate::tournament::Tournament;
use pc_entries::EntryText;
use pc_types::{MOST_FILE_ENTRIES, Refusal, Triple};
use std::alloc::{AllocError, Global};
use std::marker::Model;

/// The state of a merge of several inputs, which makes one stream of them: of each key the entry of the greatest point, in the order of the
/// keys. The inputs stay with the caller, who passes the same ones to each call. A contract sees the first entry that was drawn of each,
/// and the refusal that was answered.
///
/// An entry is moved a constant number of times. Each costs one comparison for each doubling of the number of inputs, most of them
/// of two numbers.
#[derive(Drop)]
pub struct Merge {
    alloc: Global,
    // The first entry of each input; `None` if it has ended.
    firsts: Tournament,
    // Memory of entries that are done with.
    spare: Spare,
    refused: Option<Refusal>,
}

impl Model for Merge {
    ghost use Rattle.pc_merge.specs.Merging.{Merging};

    ghost Value = { Merging };

    ghost view = { λ m. record { firsts = m.firsts; refused = m.refused } };
}

impl Merge {
    /// A merge of the given number of inputs, at most `MOST_INPUTS`, of which nothing was drawn. It fails only if an allocation fails.
    pub fn new(alloc: Global, inputs: usize) -> Result<Merge, AllocError>
        requires { inputs ≤ MOST_INPUTS }
        ensures { IfOk result (λ merge. merge ≡ unopened inputs) }
    {
        Ok(Merge {
            alloc,
            firsts: Tournament::new(alloc, inputs)?,
            spare: Spare::new(alloc),
            refused: None,
        })
    }

    /// Draws the first entry of each input. Refuses with what an input refuses, and then answers the same refusal from then on. It
    /// allocates no memory of its own.
    pub fn open<E: Entries>(&mut self, inputs: &mut [E]) -> Result<(), Refusal>
        requires { self.old ≡ unopened (length inputs.old) }
        ensures together { length inputs.new ≡ length self.new.firsts }
        ensures known { (was : List Coming) → all_known (map E.coming inputs.old) ≡ Some was → MatchResult result (λ _. left_in (map E.coming inputs.new) self.new ≡ Some was) (IsCause was) }
        ensures stand { AllStand (map E.standing inputs.old) (map E.standing inputs.new) result }
        ensures refused { MergeRefuses self.old.refused self.new.refused result }
        ensures within { OnOk result ((points : ℕ → Bool) → All (λ input. E.within input points) inputs.old → AreWithin E.within points inputs.new self.new.firsts) }
        ensures refusals { IfErr result E.refusals }
    {
        let answer = draw_firsts(self.alloc, inputs, &mut self.firsts);
        if let Err(why) = &answer {
            self.refused = Some(*why);
        }
        answer
    }

    /// The next entry, or None once all inputs have ended: the least key's entry, of several inputs' that of the greatest point. Refuses
    /// with the first thing that an input refuses, with `Conflict` if two inputs have a key at one point with different contents, and with
    /// `KeyOrder` if an input's keys don't ascend; it answers the same refusal from then on.
    #[inline(always)]
    pub fn next<E: Entries>(&mut self, inputs: &mut [E]) -> Result<Option<EntryText>, Refusal>
        requires { length inputs.old ≡ length self.old.firsts }
        ensures together { length inputs.new ≡ length self.new.firsts }
        ensures goes_on { MergesNext (left_in (map E.coming inputs.old) self.old) (left_in (map E.coming inputs.new) self.new) result }
        ensures rises { KeysGoOn self.old.firsts self.new.firsts result }
        ensures within { AllGiveWithin E.within inputs.old self.old.firsts inputs.new self.new.firsts result }
        ensures stand { self.old.refused ≡ None → AllStand (map E.standing inputs.old) (map E.standing inputs.new) result }
        ensures refused { MergeRefuses self.old.refused self.new.refused result }
        ensures refusals { self.old.refused ≡ None → IfErr result (IsMergeRefusal E.refusals) }
    {
        if let Some(why) = self.refused {
            return Err(why);
        }
        let answer = least_entry(inputs, &mut self.firsts, &mut self.spare);
        if let Err(why) = &answer {
            self.refused = Some(*why);
        }
        answer
    }

    /// Takes an entry back that is done with: a next one is kept in its memory. Nothing else changes.
    pub fn take_back(&mut self, entry: EntryText)
        ensures { self.new ≡ self.old }
    {
        self.spare.put(entry.into_memory());
    }
}

/// All entries that a merge of the inputs gives, of which there may be at most `MOST_INPUTS`: their join. Refuses as the merge does, and
/// with `Full` if there are more than 4,294,967,295.
pub fn merge_all<E: Entries>(alloc: Global, inputs: &mut [E]) -> Result<Vec<Triple>, Refusal>
    requires { length inputs.old ≤ MOST_INPUTS }
    ensures known { (was : List Coming) → all_known (map E.coming inputs.old) ≡ Some was → MatchResult result (λ all. IsMerge was all.items) (IsCauseOfAll was) }
    ensures limit { IfOk result (λ all. vec_len all ≤ MOST_FILE_ENTRIES) }
    ensures stand { AllStand (map E.standing inputs.old) (map E.standing inputs.new) result }
    ensures within { IfOk result (λ all. (points : ℕ → Bool) → All (λ input. E.within input points) inputs.old → All (λ entry. IsTrue (points entry.point)) all.items) }
{
    let mut merge = Merge::new(alloc, inputs.len())?;
    merge.open(inputs)?;
    let mut all = Vec::new(alloc);
    for _ in 0..MOST_FILE_ENTRIES {
        let Some(entry) = merge.next(inputs)? else {
            return Ok(all);
        };
        push_triple(alloc, &mut all, &entry)?;
        merge.take_back(entry);
    }
    match merge.next(inputs)? {
        None => Ok(all),
        Some(_) => Err(Refusal::Full),
    }
}

// Appends the entry as a triple. It fails only if an allocation fails.
fn push_triple(alloc: Global, all: &mut Vec<Triple>, entry: &EntryText) -> Result<(), AllocError>
    ensures items { OnOk result (all.new.items ≡ all.old.items ++ entry.now ∷ []) }
    ensures len { OnOk result (vec_len all.new ≡ vec_len all.old + 1) }
{
    all.push(entry.triple(alloc)?)?;
    Ok(())
}

// The entry of the least key, of several that of the greatest point; all entries of that key are drawn.
#[inline(always)]
fn least_entry<E: Entries>(
    inputs: &mut [E],
    firsts: &mut Tournament,
    spare: &mut Spare,
) -> Result<Option<EntryText>, Refusal>
    requires { length inputs.old ≡ length firsts.old }
    ensures together { length inputs.new ≡ length firsts.new }
    ensures goes_on { MergesNext (all_left (map E.coming inputs.old) firsts.old) (all_left (map E.coming inputs.new) firsts.new) result }
    ensures rises { KeysGoOn firsts.old firsts.new result }
    ensures within { AllGiveWithin E.within inputs.old firsts.old inputs.new firsts.new result }
    ensures stand { AllStand (map E.standing inputs.old) (map E.standing inputs.new) result }
    ensures refusals { IfErr result (IsMergeRefusal E.refusals) }
{
    let Some(place) = firsts.least() else {
        return Ok(None);
    };
    let first = advance(inputs, firsts, place, spare.take())?;
    let newest = newest_of(inputs, firsts, first, spare)?;
    Ok(Some(newest))
}
