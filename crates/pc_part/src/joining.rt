//! The join of two files: of each key the triple of the greatest point.
ghost use Rattle.std.specs.Prelude.{◌≡◌, ◌≤◌, length, IfOk, Some, Ok, Err, if◌then◌else◌};
ghost use Rattle.pc_model.specs.Files.{joined_file};
ghost use Rattle.pc_model.specs.TripleLists.{map_entries, triples_of};
ghost use Rattle.pc_model.specs.Database.{KeysRise};
ghost use Rattle.pc_model.specs.Points.{later, joined};
ghost use Rattle.pc_model.specs.Sets.{Set, number_order};
ghost use Rattle.pc_part.specs.Parts.{IsWithinLimit, AreCovered};
ghost use Rattle.pc_model.specs.Replies.{is_empty, join_causes};
ghost use Rattle.pc_part.specs.Joins.{clash_at, first_cause, triples_causes, IsRefusedBy};
ghost use Rattle.pc_model.specs.Merges.{merged};

use crate::part::Part;
use crate::uniting::union_ranges;
use pc_taken::{Entries, clashes, go_on, push_newest, side_of};
use pc_types::{MOST_FILE_ENTRIES, Refusal, Triple};
use std::alloc::{AllocError, Global};

/// The join of two parts of one run: it covers the points of both, and has of each key the entry of the greatest point,
/// whether a value or a tombstone. Both parts stay as they are. Of several refusals the first counts:
///
/// - `OtherRun` if and only if the parts are of two runs;
/// - `Conflict` if and only if some key has in both the same point and different contents;
/// - `Full` if and only if the join would have more than 4,294,967,295 entries;
/// - `OutOfMemory` only if an allocation failed.
pub fn join(alloc: Global, a: &Part, b: &Part) -> Result<Part, Refusal>
    ensures joined { IfOk result (λ part. part ≡ joined_file a.now b.now) }
    ensures refused { IsRefusedBy (first_cause (join_causes (Some a.now) (Some b.now))) result }
{
    if a.run() != b.run() {
        return Err(Refusal::OtherRun);
    }
    let entries = merge_entries(alloc, a.kept(), b.kept())?;
    let ranges = union_ranges(alloc, a.ranges(), b.ranges())?;
    Ok(Part::from_lists(a.run(), ranges, entries))
}

// The triples of both, of each key that of the greater point, if no two conflict and they are not too many.
fn merge_entries(alloc: Global, a: &Entries, b: &Entries) -> Result<Vec<Triple>, Refusal>
    requires left { KeysRise (map_entries a.now) }
    requires right { KeysRise (map_entries b.now) }
    requires limits { IsWithinLimit a.now × IsWithinLimit b.now }
    ensures rise { IfOk result (λ out. KeysRise (map_entries out.items)) }
    ensures limit { IfOk result (λ out. IsWithinLimit out.items) }
    ensures covered { (points : Set number_order) → AreCovered points a.now → AreCovered points b.now → IfOk result (λ out. AreCovered points out.items) }
    ensures joined { IfOk result (λ out. triples_of out.items ≡ joined (triples_of a.now) (triples_of b.now)) }
    ensures refused { IsRefusedBy (first_cause (triples_causes (triples_of a.now) (triples_of b.now))) result }
{
    let len = joined_len(a, b)?;
    if len > MOST_FILE_ENTRIES {
        return Err(Refusal::Full);
    }
    let out = merge(alloc, a, b)?;
    Ok(out)
}

// The number of keys that both have together; `Conflict` if two triples of one key clash.
fn joined_len(a: &Entries, b: &Entries) -> Result<usize, Refusal>
    requires { IsWithinLimit a.now × IsWithinLimit b.now }
    ensures { result ≡ (if is_empty (merged clash_at (map_entries a.now) (map_entries b.now)) then Ok (length (merged later (map_entries a.now) (map_entries b.now))) else Err Refusal.Conflict) }
{
    let mut len = 0usize;
    let (mut first, mut second) = (a.pass(), b.pass());
    while let Some(side) = side_of(&first, &second) {
        if clashes(side, &first, &second) {
            return Err(Refusal::Conflict);
        }
        go_on(side, &mut first, &mut second);
        len += 1;
    }
    Ok(len)
}

// The triples of both, of each key the newer one; they ascend by key, as those of both do.
fn merge(alloc: Global, a: &Entries, b: &Entries) -> Result<Vec<Triple>, AllocError>
    ensures { IfOk result (λ out. map_entries out.items ≡ merged later (map_entries a.now) (map_entries b.now)) }
{
    let mut out = Vec::new(alloc);
    let (mut first, mut second) = (a.pass(), b.pass());
    while let Some(side) = side_of(&first, &second) {
        push_newest(alloc, &mut out, side, &first, &second)?;
        go_on(side, &mut first, &mut second);
    }
    Ok(out)
}
