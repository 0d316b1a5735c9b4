//! Part files: what the keys that a run wrote in some of its points had there.
ghost use Rattle.std.specs.Prelude.{◌≡◌, ◌≤◌, ℕ, map, IfOk, IfErr, IsTrue, MatchOption};
ghost use Rattle.pc_model.specs.Database.{KeysRise};
ghost use Rattle.pc_model.specs.Files.{triples_taken};
ghost use Rattle.pc_model.specs.TripleLists.{map_entries, triple_at, triples_of};
ghost use Rattle.pc_model.specs.Ranges.{ranges_of};
ghost use Rattle.pc_model.specs.Maps as map_of;
ghost use Rattle.pc_model.specs.Sets as set;
ghost use Rattle.pc_part.specs.Parts.{IsWithinLimit, AreCovered, AreRanges, CoversTo, bounds_of, points_of};

use crate::ranges::{Range, last_covered, points_in};
use pc_taken::{Entries, Pass, Taken};
use pc_types::{Items, Key, Point, Refusal, Triple, Value};
use std::alloc::{AllocError, Global};
use std::marker::Model;

/// A part file: a run, the points of consistency that it covers, and for each key that was written in their cycles the last such
/// point, with what the key had there, a value or nothing. It has at most 4,294,967,295 entries. A contract sees it as its run, its
/// set of points and its set of triples.
#[derive(Drop)]
pub struct Part {
    run: u64,
    ranges: Vec<Range>,
    entries: Entries,
}

impl Model for Part {
    ghost use Rattle.pc_model.specs.Database.{KeysRise};
    ghost use Rattle.pc_model.specs.Files.{File};
    ghost use Rattle.pc_model.specs.TripleLists.{map_entries, triples_of};
    ghost use Rattle.pc_part.specs.Parts.{IsWithinLimit, AreCovered, AreRanges, file_code, points_of};

    ghost Value = { File };

    ghost coded = { file_code };

    ghost view = { λ p. record { run = p.run; points = points_of p.ranges.items; triples = triples_of p.entries } };

    ghost invariant = { λ p. AreRanges p.ranges.items × KeysRise (map_entries p.entries) × AreCovered (points_of p.ranges.items) p.entries × IsWithinLimit p.entries };
}

impl Part {
    /// The part of one point: each key that was taken for it, with what the key had there, a value or nothing. The keys ascend
    /// strictly, and are no more than a file may have, 4,294,967,295. Refuses with `OutOfMemory` alone.
    pub fn of_point(
        alloc: Global,
        run: u64,
        point: Point,
        entries: Vec<(Key, Option<Value>)>,
    ) -> Result<Part, Refusal>
        requires point { 1 ≤ point }
        requires rise { KeysRise entries.items }
        requires limit { IsWithinLimit entries.items }
        ensures part { IfOk result (λ part. part ≡ record { run = run; points = set.insert set.empty point; triples = triples_taken point entries.items }) }
        ensures memory { IfErr result (λ e. e ≡ Refusal.OutOfMemory) }
    {
        let (low, high) = (point, point);
        let ranges = vec![in alloc; Range { low, high }]?;
        let entries = triples_at(alloc, point, entries)?;
        Ok(Part::from_lists(run, ranges, entries))
    }

    /// The part of the point without an entry. It fails only if an allocation fails.
    pub fn empty(alloc: Global, run: u64, point: Point) -> Result<Part, AllocError>
        requires { 1 ≤ point }
        ensures { IfOk result (λ part. part ≡ record { run = run; points = set.insert set.empty point; triples = map_of.empty }) }
    {
        let (low, high) = (point, point);
        let ranges = vec![in alloc; Range { low, high }]?;
        Ok(Part::from_lists(run, ranges, Vec::new(alloc)))
    }

    /// Takes over the captured entries of the point, one of its own, in place of those that it had: keys that ascend strictly, no
    /// more than a file may have, 4,294,967,295. It stays in place, so that this takes constant time and no memory.
    pub fn take_over(&mut self, point: Point, taken: Taken)
        requires rise { KeysRise taken }
        requires covered { IsTrue (set.contains self.old.points point) }
        requires limit { IsWithinLimit taken }
        ensures { self.new ≡ record self.old { triples = triples_taken point taken } }
    {
        self.entries = Entries::taken(point, taken);
    }

    /// The part of these points with these entries: their keys ascend strictly, each is of one of the points, and they are no more
    /// than a file may have, 4,294,967,295.
    pub fn from_lists(run: u64, ranges: Vec<Range>, entries: Vec<Triple>) -> Part
        requires ranges { AreRanges ranges.items }
        requires rise { KeysRise (map_entries entries.items) }
        requires covered { AreCovered (points_of ranges.items) entries.items }
        requires limit { IsWithinLimit entries.items }
        ensures { result ≡ record { run = run; points = points_of ranges.items; triples = triples_of entries.items } }
    {
        Part {
            run,
            ranges,
            entries: Entries::listed(entries),
        }
    }

    /// A copy of the part. It fails only if an allocation fails.
    pub fn copy(&self, alloc: Global) -> Result<Part, AllocError>
        ensures { IfOk result (λ copy. copy ≡ self.now) }
    {
        let ranges = copies_of_ranges(alloc, &self.ranges)?;
        let entries = self.entries.copy(alloc)?;
        Ok(Part {
            run: self.run,
            ranges,
            entries,
        })
    }

    /// The number of the run, by which files of one run know each other.
    pub fn run(&self) -> u64
        ensures { result ≡ self.now.run }
    {
        self.run
    }

    /// The points that it covers, as ranges: at least one, ascending, with at least one point left out between two. Points are 1 to
    /// 65,535.
    pub fn ranges(&self) -> &[Range]
        ensures apart { AreRanges result.now }
        ensures points { points_of result.now ≡ self.now.points }
        ensures bounds { bounds_of result.now ≡ ranges_of (set.items self.now.points) }
    {
        self.ranges.as_slice()
    }

    /// The points, ascending strictly; there is at least one. It fails only if an allocation fails.
    pub fn points(&self, alloc: Global) -> Result<Items<Point>, AllocError>
        ensures { IfOk result (λ points. points ≡ set.items self.now.points) }
    {
        let points = points_in(alloc, &self.ranges)?;
        Ok(Items::from_vec(points))
    }

    /// The last point, if the points are all those from 1 to it.
    pub fn complete_to(&self) -> Option<Point>
        ensures { MatchOption result ((n : ℕ) → ¬ CoversTo self.now n) (CoversTo self.now) }
    {
        last_covered(&self.ranges)
    }

    /// A pass over the entries, ascending strictly by key, each of one of its points; at most 4,294,967,295.
    pub fn entries(&self) -> Pass<'_>
        ensures rise { KeysRise (map_entries result) }
        ensures covered { AreCovered self.now.points result }
        ensures limit { IsWithinLimit result }
        ensures entries { map_entries result ≡ self.now.triples.entries }
        ensures triples { triples_of result ≡ self.now.triples }
    {
        self.entries.pass()
    }

    /// The entries, over which passes go: they ascend strictly by key, each of one of its points; at most 4,294,967,295.
    pub fn kept(&self) -> &Entries
        ensures rise { KeysRise (map_entries result.now) }
        ensures covered { AreCovered self.now.points result.now }
        ensures limit { IsWithinLimit result.now }
        ensures entries { map_entries result.now ≡ self.now.triples.entries }
        ensures triples { triples_of result.now ≡ self.now.triples }
    {
        &self.entries
    }
}

// The entries as triples of the point.
fn triples_at(
    alloc: Global,
    point: Point,
    entries: Vec<(Key, Option<Value>)>,
) -> Result<Vec<Triple>, AllocError>
    ensures { IfOk result (λ triples. triples.items ≡ map (triple_at point) entries.items) }
{
    entries
        .into_iter()
        .map(|(key, content)| Triple {
            key,
            point,
            content,
        })
        .collect(alloc)
}

fn copies_of_ranges(alloc: Global, ranges: &[Range]) -> Result<Vec<Range>, AllocError>
    ensures { IfOk result (λ copies. copies.items ≡ ranges.now) }
{
    ranges.iter().copied().collect(alloc)
}
