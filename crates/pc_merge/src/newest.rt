//! The steps of a merge: an input is drawn on, and of the entries of one key the newest is kept.
ghost use Rattle.std.specs.Prelude.{◌≡◌, ◌≢◌, ◌<◌, ◌⊎◌, ℕ, Bool, IsTrue, true, List, Some, None, Err, MatchBool, MatchResult, IfErr, IfOk, IfSome, IfNone, OnOk, length, map, option_map};
ghost use Rattle.pc_types.specs.declared.refusal.Refusal.TheVariants.{Conflict};
ghost use Rattle.pc_model.specs.Files.{same_content};
ghost use Rattle.std.specs.List.{All};
ghost use Rattle.pc_merge.specs.Coming.{Coming, IsWithin};
ghost use Rattle.pc_merge.specs.Drawing.{DrawsOneInput, GoOnPassing, HasCause, HasPassed, Passes, Rises, has_key};
ghost use Rattle.pc_merge.specs.Inputs.{all_known, all_left};
ghost use Rattle.pc_merge.specs.Merging.{IsBelow, IsCause, IsMergeRefusal, IsNewest};
ghost use Rattle.pc_merge.specs.Standings.{AllStand, AreWithin};
ghost use Rattle.pc_merge.specs.Tournaments.{HasNoEntries, IsNoLater, first_entry_at};

use crate::entries::Entries;
use crate::order::{are_same, precedes};
use crate::spare::Spare;
use crate::tournament::Tournament;
use pc_entries::EntryText;
use pc_types::Refusal;
use std::alloc::Global;

// The next entry of the input at the place, which may be kept in this memory.
#[inline(always)]
fn draw<E: Entries>(
    inputs: &mut [E],
    place: usize,
    memory: Vec<u8>,
) -> Result<Option<EntryText>, Refusal>
    requires { place < length inputs.old }
    ensures together { length inputs.new ≡ length inputs.old }
    ensures draws { DrawsOneInput (map E.coming inputs.old) (map E.coming inputs.new) place result }
    ensures stand { AllStand (map E.standing inputs.old) (map E.standing inputs.new) result }
    ensures within { IfOk result (λ next. (points : ℕ → Bool) → All (λ input. E.within input points) inputs.old → IsWithin points next × All (λ input. E.within input points) inputs.new) }
    ensures refusals { IfErr result E.refusals }
{
    inputs[place].next(memory)
}

// Draws the first entry of each input.
pub(crate) fn draw_firsts<E: Entries>(
    alloc: Global,
    inputs: &mut [E],
    firsts: &mut Tournament,
) -> Result<(), Refusal>
    requires size { length inputs.old ≡ length firsts.old }
    requires free { HasNoEntries firsts.old }
    ensures together { length inputs.new ≡ length firsts.new }
    ensures stand { AllStand (map E.standing inputs.old) (map E.standing inputs.new) result }
    ensures within { OnOk result ((points : ℕ → Bool) → All (λ input. E.within input points) inputs.old → AreWithin E.within points inputs.new firsts.new) }
    ensures known { (was : List Coming) → all_known (map E.coming inputs.old) ≡ Some was → MatchResult result (λ _. all_left (map E.coming inputs.new) firsts.new ≡ Some was) (IsCause was) }
    ensures refusals { IfErr result E.refusals }
{
    for place in 0..inputs.len() {
        let first = draw(inputs, place, Vec::new(alloc))?;
        drop(firsts.replace(place, first));
    }
    Ok(())
}

// Takes the first entry of the input at the place, and draws the one after it, which may be kept in this memory and whose key
// must be greater.
#[inline(always)]
pub(crate) fn advance<E: Entries>(
    inputs: &mut [E],
    firsts: &mut Tournament,
    place: usize,
    memory: Vec<u8>,
) -> Result<EntryText, Refusal>
    requires together { length inputs.old ≡ length firsts.old }
    requires place { place < length firsts.old }
    requires some { first_entry_at firsts.old place ≢ None }
    ensures together { length inputs.new ≡ length firsts.new }
    ensures stand { AllStand (map E.standing inputs.old) (map E.standing inputs.new) result }
    ensures within { IfOk result (λ entry. (points : ℕ → Bool) → AreWithin E.within points inputs.old firsts.old → IsTrue (points entry.point) × AreWithin E.within points inputs.new firsts.new) }
    ensures passes { IfOk result (Passes firsts.old firsts.new place) }
    ensures passed { IfOk result (HasPassed (map E.coming inputs.old) firsts.old (map E.coming inputs.new) firsts.new place) }
    ensures cause { IfErr result (HasCause (map E.coming inputs.old) firsts.old) }
    ensures refusals { IfErr result (IsMergeRefusal E.refusals) }
{
    let next = draw(inputs, place, memory)?;
    if !rises(firsts.standing(place), &next) {
        return Err(Refusal::KeyOrder);
    }
    match firsts.replace(place, next) {
        Some(first) => Ok(first),
        None => unreachable!(),
    }
}

// Whether the next entry's key is greater than the first one's.
#[inline(always)]
fn rises(first: Option<&EntryText>, next: &Option<EntryText>) -> bool
    ensures { Rises (option_map (λ entry. entry.now) first.entry) next.now result }
{
    match (first, next) {
        (Some(first), Some(next)) => precedes(first, next),
        _ => true,
    }
}

// The newest of an entry and of all others at a place with its key. Others are kept in the spare memory, which is then that of
// one of them that is older.
#[inline(always)]
pub(crate) fn newest_of<E: Entries>(
    inputs: &mut [E],
    firsts: &mut Tournament,
    entry: EntryText,
    spare: &mut Spare,
) -> Result<EntryText, Refusal>
    requires together { length inputs.old ≡ length firsts.old }
    requires least { (place : ℕ) → IsNoLater (Some entry) (first_entry_at firsts.old place) }
    ensures together { length inputs.new ≡ length firsts.new }
    ensures stand { AllStand (map E.standing inputs.old) (map E.standing inputs.new) result }
    ensures within { IfOk result (λ newest. (points : ℕ → Bool) → IsTrue (points entry.point) → AreWithin E.within points inputs.old firsts.old → IsTrue (points newest.point) × AreWithin E.within points inputs.new firsts.new) }
    ensures key { IfOk result (λ newest. newest.key ≡ entry.key) }
    ensures above { IfOk result (λ newest. (place : ℕ) → IsBelow newest.key (first_entry_at firsts.new place)) }
    ensures goes_on { GoOnPassing (map E.coming inputs.old) firsts.old entry (map E.coming inputs.new) firsts.new result }
    ensures refusals { IfErr result (IsMergeRefusal E.refusals) }
{
    let mut newest = entry;
    while let Some(place) = least_with(firsts, &newest) {
        let other = advance(inputs, firsts, place, spare.take())?;
        newest = newer(newest, other, spare)?;
    }
    Ok(newest)
}

// The place of the least key, if that is the entry's.
#[inline(always)]
fn least_with(firsts: &Tournament, entry: &EntryText) -> Option<usize>
    requires { (place : ℕ) → IsNoLater (Some entry.now) (first_entry_at firsts.now place) }
    ensures none { IfNone result ((place : ℕ) → IsBelow entry.now.key (first_entry_at firsts.now place)) }
    ensures within { IfSome result (λ place. place < length firsts.now) }
    ensures some { IfSome result (λ place. first_entry_at firsts.now place ≢ None) }
    ensures key { IfSome result (λ place. has_key entry.now.key (first_entry_at firsts.now place) ≡ true) }
{
    let place = firsts.least()?;
    if is_of_key(firsts.standing(place), entry) {
        Some(place)
    } else {
        None
    }
}

// Whether the first entry, if there is one, is of the other one's key.
#[inline(always)]
#[tactic(auto, using(crate::proofs::OrderLaws::heads_apart))]
fn is_of_key(first: Option<&EntryText>, entry: &EntryText) -> bool
    ensures { result ≡ has_key entry.now.key (option_map (λ first. first.now) first.entry) }
{
    match first {
        Some(first) => first.head() == entry.head() && are_same(first.key(), entry.key()),
        None => false,
    }
}

// Of two entries of one key the one of the greater point, if the other's memory is spare then; if they have one point and
// different contents, `Conflict`.
fn newer(one: EntryText, other: EntryText, spare: &mut Spare) -> Result<EntryText, Refusal>
    requires { other.key ≡ one.key }
    ensures newer { IfOk result (λ newer. IsNewest newer one × IsNewest newer other × ((newer ≡ one) ⊎ (newer ≡ other))) }
    ensures conflict { IfErr result (λ why. (why ≡ Conflict) × (one.point ≡ other.point) × (one.content ≡ other.content → ⊥)) }
{
    if is_older(&one, &other)? {
        spare.put(one.into_memory());
        Ok(other)
    } else {
        spare.put(other.into_memory());
        Ok(one)
    }
}

// Whether the first of two entries of one key is the older; if they have one point and different contents, `Conflict`.
fn is_older(one: &EntryText, other: &EntryText) -> Result<bool, Refusal>
    requires { other.now.key ≡ one.now.key }
    ensures older { IfOk result (λ older. MatchBool older (IsNewest other.now one.now) (IsNewest one.now other.now)) }
    ensures conflict { IfErr result (λ why. (why ≡ Conflict) × (one.now.point ≡ other.now.point) × (one.now.content ≡ other.now.content → ⊥)) }
{
    let (point, other_point) = (one.point(), other.point());
    if point != other_point {
        return Ok(point < other_point);
    }
    if !have_same_content(one, other) {
        return Err(Refusal::Conflict);
    }
    Ok(false)
}

// Whether the keys had the same at the points.
fn have_same_content(one: &EntryText, other: &EntryText) -> bool
    ensures { result ≡ same_content one.now.content other.now.content }
{
    is_same(one.value(), other.value())
}

// Whether the contents are the same.
fn is_same(a: Option<&[u8]>, b: Option<&[u8]>) -> bool
    ensures { result ≡ same_content (option_map (λ value. value.now) a.entry) (option_map (λ value. value.now) b.entry) }
{
    match (a, b) {
        (None, None) => true,
        (Some(v), Some(w)) => are_same(v, w),
        _ => false,
    }
}
