//! Parts joined in one pass over the entries of all of them.
ghost use Rattle.std.specs.Prelude.{◌≡◌, ◌≤◌, ◌<◌, length, map, IfOk, MatchResult};
ghost use Rattle.std.specs.Iterator.{YieldsFirst};
ghost use Rattle.std.specs.List.{All};
ghost use Rattle.pc_model.specs.Sets.{Set, number_order};
ghost use Rattle.pc_part.specs.Parts.{IsWithinLimit, AreCovered, AreRanges, points_of};
ghost use Rattle.pc_merge.specs.Given.{IsMerge};
ghost use Rattle.pc_merge.specs.declared.limits.TheConstants.{MOST_INPUTS};
ghost use Rattle.pc_collapse.specs.Merges.{AreAllPoints, IsCovered, entries_coming, entries_of_file, entries_standing, entries_within, file_coming};
ghost use Rattle.pc_collapse.specs.Worth.{AreOfOneRun, IsCauseFor, JoinsToOne};

use pc_entries::EntryText;
use pc_merge::{Entries, MOST_INPUTS, merge_all};
use pc_part::{Part, Range, union_ranges};
use pc_taken::Pass;
use pc_types::{Refusal, Triple};
use std::alloc::{AllocError, Global};

// The entries of a part, each of which is copied as it is drawn.
#[derive(Drop)]
struct PartEntries<'a> {
    pass: Pass<'a>,
    refused: Option<Refusal>,
}

impl<'a> PartEntries<'a> {
    // All entries of the part are to come.
    fn of(part: &'a Part) -> PartEntries<'a>
        ensures all { result ≡ entries_of_file part.now }
        ensures covered { IsCovered part.now }
    {
        PartEntries {
            pass: part.entries(),
            refused: None,
        }
    }
}

impl<'a> Entries for PartEntries<'a> {
    ghost coming = { entries_coming };

    ghost standing = { entries_standing };

    ghost within = { entries_within };

    fn next(&mut self, memory: Vec<u8>) -> Result<Option<EntryText>, Refusal> {
        if let Some(why) = self.refused {
            return Err(why);
        }
        match next_copy(&mut self.pass, memory) {
            Ok(next) => Ok(next),
            Err(_) => {
                self.refused = Some(Refusal::OutOfMemory);
                Err(Refusal::OutOfMemory)
            }
        }
    }
}

// A copy of the next entry in this memory, or `None` at the end. It fails only if an allocation fails.
fn next_copy(pass: &mut Pass, memory: Vec<u8>) -> Result<Option<EntryText>, AllocError>
    ensures { IfOk result (λ next. YieldsFirst (λ entries. entries) pass.old next pass.new) }
{
    match pass.next() {
        Some(entry) => Ok(Some(EntryText::of(memory, &entry)?)),
        None => Ok(None),
    }
}

// The join of parts of one run, of which there are few enough for one merge.
pub(crate) fn merge_parts(alloc: Global, parts: &[Part]) -> Result<Part, Refusal>
    requires one { AreOfOneRun parts.now }
    requires few { length parts.now ≤ MOST_INPUTS }
    ensures { JoinsToOne parts.now result }
{
    let ranges = all_ranges(alloc, parts)?;
    let entries = merged_entries(alloc, parts)?;
    Ok(Part::from_lists(parts[0].run(), ranges, entries))
}

// Of each key the entry of the greatest point in any of the parts.
fn merged_entries(alloc: Global, parts: &[Part]) -> Result<Vec<Triple>, Refusal>
    requires { length parts.now ≤ MOST_INPUTS }
    ensures merged { MatchResult result (λ all. IsMerge (map file_coming parts.now) all.items) (IsCauseFor parts.now) }
    ensures limit { IfOk result (λ all. IsWithinLimit all.items) }
    ensures covered { (points : Set number_order) → AreAllPoints parts.now points → IfOk result (λ all. AreCovered points all.items) }
{
    let mut inputs = entries_of_parts(alloc, parts)?;
    merge_all(alloc, &mut inputs)
}

// The entries of each part.
fn entries_of_parts(alloc: Global, parts: &[Part]) -> Result<Vec<PartEntries<'_>>, AllocError>
    ensures all { IfOk result (λ inputs. inputs.items ≡ map entries_of_file parts.now) }
    ensures covered { IfOk result (λ _. All IsCovered parts.now) }
{
    let mut inputs = Vec::with_capacity(alloc, parts.len())?;
    for number in 0..parts.len() {
        inputs.push(PartEntries::of(&parts[number]))?;
    }
    Ok(inputs)
}

// The ranges of the points that are in any of the parts. It fails only if an allocation fails.
fn all_ranges(alloc: Global, parts: &[Part]) -> Result<Vec<Range>, AllocError>
    requires { 0 < length parts.now }
    ensures apart { IfOk result (λ all. AreRanges all.items) }
    ensures points { IfOk result (λ all. AreAllPoints parts.now (points_of all.items)) }
{
    let half = parts.len() / 2;
    if half == 0 {
        // A part's ranges are copied, which is to unite them with themselves.
        let only = parts[0].ranges();
        return union_ranges(alloc, only, only);
    }
    let (front, back) = parts.split_at(half);
    let left = all_ranges(alloc, front)?;
    let right = all_ranges(alloc, back)?;
    union_ranges(alloc, &left, &right)
}
