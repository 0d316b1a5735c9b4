//! The join of parts, written as they are read.
ghost use Rattle.std.specs.Prelude.{◌≡◌, [], Err, IfOk, IfErr, OnErr, length, map};
ghost use Rattle.pc_io.specs.Tallies.{inner_of, failures_of};
ghost use Rattle.pc_types.specs.declared.Refusal.{Refusal};
ghost use Rattle.pc_streams.specs.Readers.{standing_of};
ghost use Rattle.pc_stream_join.specs.Headers.{AreHeaded};
ghost use Rattle.pc_stream_join.specs.Joining.{IsJoinRefusal, IsJoinWritten, IsStreamCause, IsStreamJoined, IsUnjoinedFor, JoinStands, LeavesShort};
ghost use Rattle.pc_stream_join.specs.Steps.{Begun, IsJoining, JoinEnds, StepsOn};

use crate::headers::read_headers;
use crate::writer::PartWriter;
use pc_io::Tally;
use pc_merge::{MOST_INPUTS, Merge};
use pc_part::{PartHeader, points_in};
use pc_streams::PartReader;
use pc_types::{Items, MOST_FILE_ENTRIES, Point, Refusal};
use std::alloc::Global;
use std::io::{Read, Write};

/// The result of a join that was written: its points, in ascending order, and the number of its entries.
#[derive(Drop)]
pub struct Joined {
    pub points: Items<Point>,
    pub entries: u32,
}

/// Writes the text of the join of the inputs, under their header from `read_headers`: of each key that one of them has the entry of
/// the greatest point. Returns the number of entries of the join. In memory are an entry of each input, and a piece of the text.
/// Errors: the first fault that is met in an input's text; `Conflict` if two inputs have a key at one point with different contents
/// (it never writes a join if that is a key's greatest point); `Full` if there are more than 4,294,967,295 entries; `OutOfMemory`,
/// also for more than 1,073,741,824 inputs; and `Device` if a read or a write failed. The text that it wrote until then is read as
/// `Short`, since the end mark goes out once every input has ended.
pub fn join_entries<R: Read, W: Write>(
    alloc: Global,
    header: &PartHeader,
    inputs: &mut [PartReader<R>],
    out: &mut Tally<W>,
) -> Result<u32, Refusal>
    requires { AreHeaded R.remaining header.now.run header.now.ranges.items inputs.old }
    ensures written { IfOk result (IsJoinWritten R.remaining W.contents header.now.run header.now.ranges.items inputs.old out.old out.new) }
    ensures cause { IfErr result (IsUnjoinedFor R.remaining inputs.old) }
    ensures refusals { IfErr result IsJoinRefusal }
    ensures short { OnErr result (LeavesShort (W.contents (inner_of out.old)) (W.contents (inner_of out.new))) }
    ensures stand { JoinStands (map standing_of inputs.old) (map standing_of inputs.new) (failures_of out.old) (failures_of out.new) result }
{
    if inputs.len() > MOST_INPUTS {
        return Err(Refusal::OutOfMemory);
    }
    let mut merge = Merge::new(alloc, inputs.len())?;
    let writer = PartWriter::new(alloc, header)?;
    merge.open(inputs)?;
    write_entries(&mut merge, inputs, writer, out)
}

// Writes the entries in order, and the end after the last.
fn write_entries<R: Read, W: Write>(
    merge: &mut Merge,
    inputs: &mut [PartReader<R>],
    writer: PartWriter,
    out: &mut Tally<W>,
) -> Result<u32, Refusal>
    requires { length inputs.old ≡ length merge.old.firsts }
    ensures { (begun : Begun R W) → IsJoining R.remaining W.contents begun inputs.old merge.old writer out.old → JoinEnds R.remaining W.contents begun inputs.new out.new result }
{
    let mut writer = writer;
    for _ in 0..MOST_FILE_ENTRIES + 1 {
        if !write_next(merge, inputs, &mut writer, out)? {
            return writer.end(out);
        }
    }
    Err(Refusal::Full)
}

// Writes the next entry, and returns whether there was one.
fn write_next<R: Read, W: Write>(
    merge: &mut Merge,
    inputs: &mut [PartReader<R>],
    writer: &mut PartWriter,
    out: &mut Tally<W>,
) -> Result<bool, Refusal>
    requires { length inputs.old ≡ length merge.old.firsts }
    ensures together { length inputs.new ≡ length merge.new.firsts }
    ensures steps { (begun : Begun R W) → IsJoining R.remaining W.contents begun inputs.old merge.old writer.old out.old → StepsOn R.remaining W.contents begun writer.old.count inputs.new merge.new writer.new out.new result }
{
    let Some(entry) = merge.next(inputs)? else {
        return Ok(false);
    };
    if writer.is_full() {
        return Err(Refusal::Full);
    }
    writer.entry(out, &entry)?;
    merge.take_back(entry);
    Ok(true)
}

/// Reads the headers of the inputs, as `read_headers` does, and writes the text of their join, as `join_entries` does; returns its
/// points and the number of its entries. Its errors are those of `read_headers`, and then the output is unchanged; or, if the
/// headers were read and agree, those of `join_entries`.
pub fn stream_join<R: Read, W: Write>(
    alloc: Global,
    inputs: &mut [PartReader<R>],
    out: &mut Tally<W>,
) -> Result<Joined, Refusal>
    ensures joined { IfOk result (IsStreamJoined R.remaining W.contents inputs.old out.old out.new) }
    ensures cause { IfErr result (IsStreamCause R.remaining inputs.old inputs.new out.old out.new) }
    ensures none { inputs.old ≡ [] → result ≡ Err Refusal.NoFile }
    ensures short { OnErr result (LeavesShort (W.contents (inner_of out.old)) (W.contents (inner_of out.new))) }
    ensures stand { JoinStands (map standing_of inputs.old) (map standing_of inputs.new) (failures_of out.old) (failures_of out.new) result }
{
    let header = read_headers(alloc, inputs)?;
    let points = Items::from_vec(points_in(alloc, &header.ranges)?);
    let entries = join_entries(alloc, &header, inputs, out)?;
    Ok(Joined { points, entries })
}
