//! The generations above the one that counts: those whose logs have entries, and the greatest number of all.
ghost use Rattle.std.specs.Prelude.{IfOk, MatchBool};
ghost use Rattle.pc_generations.specs.Folders.{HasLoggedEntries, HasNoLoggedEntries};
ghost use Rattle.pc_generations.specs.Searches.{IsBeyond, IsGreaterOf, IsLostAbove, IsTop};

use crate::folders::Generations;
use pc_types::Refusal;
use std::alloc::Global;

/// A generation above the one that counts whose log has entries, of which there is one unless it returns `None`: it has lost its
/// base, and what was answered from it can't be recovered without that. Its only errors are those of the calls that list the
/// generations and look into their logs.
pub fn lost_generation<G: Generations>(
    alloc: Global,
    folders: &G,
    latest: Option<u32>,
) -> Result<Option<u32>, Refusal>
    ensures { IfOk result (IsLostAbove (G.stands folders.now) latest) }
{
    let numbers = folders.numbers(alloc)?;
    for number in &numbers {
        if is_lost(folders, latest, *number)? {
            return Ok(Some(*number));
        }
    }
    Ok(None)
}

// Whether the generation is above the one that counts, and its log has entries.
fn is_lost<G: Generations>(folders: &G, latest: Option<u32>, number: u32) -> Result<bool, Refusal>
    ensures { IfOk result (λ is. MatchBool is (IsBeyond latest number × HasLoggedEntries (G.stands folders.now) number) (IsBeyond latest number → HasNoLoggedEntries (G.stands folders.now) number)) }
{
    if is_above(latest, number) {
        folders.has_entries(number)
    } else {
        Ok(false)
    }
}

// Whether the number is above that of the other generation, if there is one.
fn is_above(other: Option<u32>, number: u32) -> bool
    ensures { MatchBool result (IsBeyond other number) (¬ IsBeyond other number) }
{
    match other {
        Some(found) => found < number,
        None => true,
    }
}

/// The greatest number of a generation that has a folder, whether it counts or not; `None` if none has one. Its only errors are those
/// of the call that lists them.
pub fn greatest_generation<G: Generations>(
    alloc: Global,
    folders: &G,
) -> Result<Option<u32>, Refusal>
    ensures { IfOk result (IsTop (G.stands folders.now)) }
{
    let numbers = folders.numbers(alloc)?;
    let mut greatest = None;
    for number in &numbers {
        greatest = greater_of(greatest, *number);
    }
    Ok(greatest)
}

// The greater one of a number that was found, if one was, and one more.
fn greater_of(found: Option<u32>, number: u32) -> Option<u32>
    ensures { IsGreaterOf found number result }
{
    if is_above(found, number) {
        Some(number)
    } else {
        found
    }
}
