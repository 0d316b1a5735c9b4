//! Which generation counts, and how the next one begins.
ghost use Rattle.std.specs.Prelude.{◌≡◌, ◌⊎◌, ◌≤◌, ◌<◌, ◌+◌, ℕ, List, None, Err, IsOk, IfOk, IfSome, OnOk, OnErr};
ghost use Rattle.pc_types.specs.declared.refusal.Refusal.{Refusal};
ghost use Rattle.pc_generations.specs.Names.{base_name};
ghost use Rattle.pc_generations.specs.Folders.{AreGone, IsCurrentGeneration, HasBase, IsLatest, IsLogged, IsSpared, IsUnbegun, IsUnused, IsWhole, KeepsLast, NothingComes, StayBut, next_of};
ghost use Rattle.pc_generations.specs.Searches.{IsFound, IsLaterOf};

use crate::folders::Generations;
use crate::names::{BASE_NAME, LOG_NAME, MOST_GENERATIONS};
use pc_types::Refusal;
use std::alloc::Global;

/// The number of the generation that counts: the greatest one that has a base. `None` if none has one. Its only errors are those of the
/// calls that list the generations and look for their bases.
pub fn latest_generation<G: Generations>(alloc: Global, folders: &G) -> Result<Option<u32>, Refusal>
    ensures { IfOk result (IsLatest (G.stands folders.now)) }
{
    let numbers = folders.numbers(alloc)?;
    let mut found = None;
    for number in &numbers {
        found = later_of(folders, found, *number)?;
    }
    Ok(found)
}

// Of the generation that was found and one more, the greatest one that has a base.
fn later_of<G: Generations>(
    folders: &G,
    found: Option<u32>,
    number: u32,
) -> Result<Option<u32>, Refusal>
    requires { IsFound (G.stands folders.now) found }
    ensures { IfOk result (IsLaterOf (G.stands folders.now) found number) }
{
    if let Some(latest) = found {
        if number <= latest {
            return Ok(found);
        }
    }
    match folders.has_base(number) {
        Ok(true) => Ok(Some(number)),
        Ok(false) => Ok(found),
        Err(why) => Err(why),
    }
}

/// The generation after the one that counts, if one does, begins with this base and this log, which are the texts of whole files; its
/// number. From then on it counts. All other generations are as they were, whether it begins or not; and so is one of this number that
/// has a base or a log with entries, which is refused.
///
/// If it refuses, or the process is killed at any moment in it, either the new generation counts, and has both texts whole; or the one
/// that counted still does, and of it and of all before it nothing is gone. Returns `Full` after generation 9,999,999, and then nothing
/// has changed; otherwise it fails as the calls do that make the new one.
pub fn begin_generation<G: Generations>(
    folders: &mut G,
    latest: Option<u32>,
    base: &[u8],
    log: &[u8],
) -> Result<u32, Refusal>
    ensures begun { IsLatest (G.stands folders.old) latest → OnOk result (IsCurrentGeneration (G.stands folders.new) (next_of latest) base.now log.now) }
    ensures number { IfOk result (λ number. number ≡ next_of latest) }
    ensures has_base { OnOk result (HasBase (G.stands folders.new) (next_of latest)) }
    ensures cut_off { IsLatest (G.stands folders.old) latest → OnErr result (IsCurrentGeneration (G.stands folders.new) (next_of latest) base.now log.now ⊎ IsUnbegun (G.stands folders.old) (G.stands folders.new) latest) }
    ensures others { StayBut (G.stands folders.old) (G.stands folders.new) (next_of latest) }
    ensures unused { OnOk result (IsUnused (G.stands folders.old) (next_of latest)) }
    ensures spared { IsSpared (G.stands folders.old) (G.stands folders.new) (next_of latest) }
    ensures full { MOST_GENERATIONS < next_of latest → (result ≡ Err Refusal.Full) × (folders.new ≡ folders.old) }
{
    let number = match next_number(latest) {
        Some(number) => number,
        None => return Err(Refusal::Full),
    };
    match fill(folders, number, base, log) {
        Ok(()) => Ok(number),
        Err(why) => Err(why),
    }
}

// The number after the one that counts, if there is one.
fn next_number(latest: Option<u32>) -> Option<u32>
    ensures next { IfSome result (λ number. (number ≡ next_of latest) × (number ≤ MOST_GENERATIONS)) }
    ensures none { result ≡ None → MOST_GENERATIONS < next_of latest }
{
    match latest {
        None => Some(1),
        Some(number) if number < MOST_GENERATIONS => Some(number + 1),
        Some(_) => None,
    }
}

// The generation is made anew, its log is written, and then its base.
fn fill<G: Generations>(
    folders: &mut G,
    number: u32,
    base: &[u8],
    log: &[u8],
) -> Result<(), Refusal>
    ensures others { StayBut (G.stands folders.old) (G.stands folders.new) number }
    ensures whole { OnOk result (IsWhole (G.stands folders.new) number base.now log.now) }
    ensures unused { OnOk result (IsUnused (G.stands folders.old) number) }
    ensures spared { IsSpared (G.stands folders.old) (G.stands folders.new) number }
    ensures cut_off { G.stands folders.old number base_name None → OnErr result (IsWhole (G.stands folders.new) number base.now log.now ⊎ G.stands folders.new number base_name None) }
{
    match begin_log(folders, number, log) {
        Ok(()) => folders.write(number, BASE_NAME, base),
        Err(why) => Err(why),
    }
}

// The generation is made anew, and its log is written.
fn begin_log<G: Generations>(folders: &mut G, number: u32, log: &[u8]) -> Result<(), Refusal>
    ensures others { StayBut (G.stands folders.old) (G.stands folders.new) number }
    ensures logged { OnOk result (IsLogged (G.stands folders.new) number log.now) }
    ensures unused { OnOk result (IsUnused (G.stands folders.old) number) }
    ensures spared { IsSpared (G.stands folders.old) (G.stands folders.new) number }
    ensures unbased { G.stands folders.old number base_name None → G.stands folders.new number base_name None }
{
    match folders.make(number) {
        Ok(()) => folders.write(number, LOG_NAME, log),
        Err(why) => Err(why),
    }
}

/// Removes the generations whose numbers are lower by more than `keep` than that of this one, which has a base. All others are as they
/// were, and nothing comes to any. Each is tried; if one can't be removed, or they can't be listed, it refuses as the first call did
/// that was refused.
pub fn remove_older<G: Generations>(
    alloc: Global,
    folders: &mut G,
    number: u32,
    keep: u32,
) -> Result<(), Refusal>
    requires { HasBase (G.stands folders.old) number }
    ensures kept { KeepsLast keep (G.stands folders.old) (G.stands folders.new) number }
    ensures gone { OnOk result (AreGone keep (G.stands folders.new) number) }
    ensures less { (other : ℕ) → NothingComes (G.stands folders.old) (G.stands folders.new) other }
{
    let numbers = folders.numbers(alloc)?;
    let mut removal = Ok(());
    for older in &numbers {
        let removed = remove_if_older(folders, *older, number, keep);
        removal = first_refusal(removal, removed);
    }
    removal
}

// The first generation is removed if its number is lower by more than `keep` than the second one.
fn remove_if_older<G: Generations>(
    folders: &mut G,
    older: u32,
    number: u32,
    keep: u32,
) -> Result<(), Refusal>
    ensures kept { KeepsLast keep (G.stands folders.old) (G.stands folders.new) number }
    ensures gone { older + keep < number → OnOk result ((name : List ℕ) → G.stands folders.new older name None) }
    ensures less { (other : ℕ) → NothingComes (G.stands folders.old) (G.stands folders.new) other }
{
    if number.saturating_sub(older) > keep {
        folders.remove(older)
    } else {
        Ok(())
    }
}

// The first refusal of the two, if there is one.
fn first_refusal(first: Result<(), Refusal>, second: Result<(), Refusal>) -> Result<(), Refusal>
    ensures { OnOk result (IsOk first × IsOk second) }
{
    match first {
        Ok(()) => second,
        Err(why) => Err(why),
    }
}
