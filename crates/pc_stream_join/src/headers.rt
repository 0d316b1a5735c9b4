//! The headers of several parts, united into one.
ghost use Rattle.std.specs.Prelude.{◌≡◌, ◌≢◌, ◌⊎◌, ℕ, List, [], Some, Ok, Err, IsOk, IfOk, IfErr, OnOk, OnErr, length, map};
ghost use Rattle.pc_model.specs.Sets as set;
ghost use Rattle.pc_types.specs.declared.Refusal.{Refusal};
ghost use Rattle.pc_part.specs.Parts.{AreRanges, points_of};
ghost use Rattle.pc_merge.specs.Standings.{AllStand};
ghost use Rattle.pc_streams.specs.Readers.{header_of, standing_of};
ghost use Rattle.pc_streams.specs.Refusals.{IsReadRefusal};
ghost use Rattle.pc_stream_join.specs.Headers.{AreApart, AreHeaded, AreReadTo, IsHeadersFault, IsHeadersRefusal, MayBeRanges, StayKnown, points_read, run_of_all, runs_fault, runs_seen, with_run};

use pc_io::Format;
use pc_part::{PartHeader, Range, union_ranges};
use pc_streams::PartReader;
use pc_types::Refusal;
use std::alloc::{AllocError, Global};
use std::io::Read;

/// The header of the join of the inputs, which is written in format 02: their run, and the points of all as ranges. The header of
/// each input, whose text is in either format, is read if it isn't yet, in their order, and nothing after it. Errors, in this
/// order: the error of the first input that has one; `NoFile` if and only if there are no inputs; `OtherRun` if and only if all
/// headers are read and two are of different runs. If the headers agree its only error is `OutOfMemory`.
pub fn read_headers<R: Read>(
    alloc: Global,
    inputs: &mut [PartReader<R>],
) -> Result<PartHeader, Refusal>
    ensures headed { IfOk result (λ header. AreHeaded R.remaining header.run header.ranges.items inputs.new) }
    ensures format { IfOk result (λ header. header.format ≡ Format.Second) }
    ensures stays { OnOk result (StayKnown R.remaining inputs.old inputs.new) }
    ensures cause { IfErr result (IsHeadersFault (map (header_of R.remaining) inputs.old)) }
    ensures none { inputs.old ≡ [] → result ≡ Err Refusal.NoFile }
    ensures two_runs { (runs : List ℕ) → AreReadTo R.remaining (length inputs.old) inputs.old inputs.new runs → runs_fault runs ≡ Some Refusal.OtherRun → result ≡ Err Refusal.OtherRun }
    ensures refusals { IfErr result (IsHeadersRefusal R.remaining inputs.old inputs.new) }
    ensures stand { AllStand (map standing_of inputs.old) (map standing_of inputs.new) result }
{
    let seen = read_runs(inputs)?;
    let run = seen.one()?;
    let ranges = unite_all(alloc, inputs)?;
    let format = Format::Second;
    Ok(PartHeader {
        format,
        run,
        ranges,
    })
}

// The runs of several parts so far: the first one, and whether another one is of another run.
#[derive(Clone, Copy)]
pub(crate) struct RunsSeen {
    first: Option<u64>,
    differ: bool,
}

impl RunsSeen {
    // One more is of this run.
    fn and(self, run: u64) -> RunsSeen
        ensures { result ≡ with_run self.first self.differ run }
    {
        match self.first {
            None => RunsSeen {
                first: Some(run),
                differ: false,
            },
            Some(first) => RunsSeen {
                first: Some(first),
                differ: self.differ || run != first,
            },
        }
    }

    // The run of all.
    fn one(self) -> Result<u64, Refusal>
        ensures one { IfOk result (λ run. run_of_all self.first self.differ ≡ Ok run) }
        ensures fault { IfErr result (λ why. run_of_all self.first self.differ ≡ Err why) }
    {
        let Some(run) = self.first else {
            return Err(Refusal::NoFile);
        };
        if self.differ {
            return Err(Refusal::OtherRun);
        }
        Ok(run)
    }
}

// Reads the run of each input; it allocates nothing itself.
fn read_runs<R: Read>(inputs: &mut [PartReader<R>]) -> Result<RunsSeen, Refusal>
    ensures read { IfOk result (λ seen. (runs : List ℕ) × AreReadTo R.remaining (length inputs.old) inputs.old inputs.new runs × (seen ≡ runs_seen runs)) }
    ensures unread { OnErr result ((runs : List ℕ) → ¬ AreReadTo R.remaining (length inputs.old) inputs.old inputs.new runs) }
    ensures cause { IfErr result (IsHeadersFault (map (header_of R.remaining) inputs.old)) }
    ensures none { inputs.old ≡ [] → IsOk result }
    ensures refusals { IfErr result IsReadRefusal }
    ensures stand { AllStand (map standing_of inputs.old) (map standing_of inputs.new) result }
{
    let mut seen = RunsSeen {
        first: None,
        differ: false,
    };
    for place in 0..inputs.len() {
        let run = inputs[place].header()?;
        seen = seen.and(run);
    }
    Ok(seen)
}

// The ranges of the points of all inputs, whose headers are read.
fn unite_all<R: Read>(alloc: Global, inputs: &[PartReader<R>]) -> Result<Vec<Range>, AllocError>
    requires { AreApart inputs.now }
    ensures apart { IfOk result (λ all. inputs.now ≢ [] → AreRanges all.items) }
    ensures points { IfOk result (λ all. points_of all.items ≡ points_read inputs.now) }
{
    let mut all = Vec::new(alloc);
    for input in inputs {
        all = united(alloc, &all, input.ranges())?;
    }
    Ok(all)
}

// The ranges with those of one more input.
fn united(alloc: Global, all: &[Range], ranges: &[Range]) -> Result<Vec<Range>, AllocError>
    requires all { MayBeRanges all.now }
    requires ranges { AreRanges ranges.now }
    ensures apart { IfOk result (λ united. AreRanges united.items) }
    ensures points { IfOk result (λ united. points_of united.items ≡ set.union (points_of all.now) (points_of ranges.now)) }
{
    if all.is_empty() {
        let first = Vec::from_slice(alloc, ranges)?;
        return Ok(first);
    }
    union_ranges(alloc, all, ranges)
}
