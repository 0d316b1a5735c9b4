//! A text that is read piece by piece from a counted reader.
ghost use Rattle.std.specs.Prelude.{◌≡◌, ◌≢◌, ◌<◌, length, Ok, Err, IfOk, IfErr, OnOk, ◌⊎◌};
ghost use Rattle.std.specs.Int.{w32};
ghost use Rattle.std.specs.Io.KnownBytes.{Keeps, IsAtEnd};
ghost use Rattle.pc_io.specs.Fields.{number_at};
ghost use Rattle.pc_io.specs.Tallies.{inner_of, failures_of};
ghost use Rattle.pc_entries.specs.Lent.{IsHead};
ghost use Rattle.pc_part.specs.Parts.{AreRanges, RangesFrom};
ghost use Rattle.pc_part.specs.Reading.{part_header_at, next_entry_at};
ghost use Rattle.pc_streams.specs.Draws.{CountsFailures, Draws};
ghost use Rattle.pc_streams.specs.Places.{IsLawfulNext};
ghost use Rattle.pc_streams.specs.Refusals.{IsReadRefusal};
ghost use Rattle.pc_streams.specs.Sources.{text_left, tally_of, buffered, is_over_at};

use crate::buffer::Buffer;
use pc_entries::{EntryText, LentEntry, lend_next_entry};
use pc_io::{Format, Tally, read_u32};
use pc_part::{PartHeader, Range, read_header};
use pc_types::Refusal;
use std::alloc::{AllocError, Global};
use std::io::Read;

/// The text of a counted reader, read from its front, piece by piece. In memory is a buffer for the longest field that was asked
/// for and two pieces of 16,384 bytes. A field that isn't whole is read anew with each piece that comes. A call that refuses uses
/// no byte, so that it may be made again.
#[derive(Drop)]
pub struct Source<R> {
    tally: Tally<R>,
    buffer: Buffer,
}

impl<R: Read> Source<R> {
    /// Nothing is read yet, and no memory is taken.
    pub fn new(alloc: Global, tally: Tally<R>) -> Source<R>
        ensures tally { tally_of result ≡ tally }
        ensures left { text_left R.remaining result ≡ R.remaining (inner_of tally) }
    {
        let buffer = Buffer::new(alloc);
        Source { tally, buffer }
    }

    /// The number of reads that failed.
    pub fn failures(&self) -> u64
        ensures { result ≡ failures_of (tally_of self.now) }
    {
        self.tally.failures()
    }

    /// The header, which comes first. Fails with `OutOfMemory` and, if and only if the count of failures has increased, with `Device`,
    /// else with `Short`, `BadMagic` or `BadRanges`, the first fault of the text that is left.
    pub fn header(&mut self, alloc: Global) -> Result<PartHeader, Refusal>
        ensures drawn { Draws (λ header. (header.format, (header.run, header.ranges.items))) (text_left R.remaining self.old) (text_left R.remaining self.new) result part_header_at }
        ensures apart { IfOk result (λ header. AreRanges header.ranges.items) }
        ensures counts { CountsFailures (tally_of self.old) (tally_of self.new) result }
        ensures refusals { IfErr result IsReadRefusal }
    {
        loop {
            match read_header(alloc, self.buffer.left()) {
                Ok((header, rest)) => {
                    let kept = rest.len();
                    self.buffer.keep_last(kept);
                    return Ok(header);
                }
                Err(why) => self.read_on(why)?,
            }
        }
    }

    /// The entry after the last key, which has this head, or `None` at the end mark, of a text in this format. It is kept in this
    /// memory. Fails with `OutOfMemory` and, if and only if the count of failures has increased, with `Device`, else with `Short`,
    /// `BadLength`, `KeyOrder`, `NotCovered` or `BadKind`, the first fault of the text that is left.
    #[inline(always)]
    pub fn entry(
        &mut self,
        memory: Vec<u8>,
        format: Format,
        ranges: &[Range],
        last: &[u8],
        last_head: u64,
    ) -> Result<Option<EntryText>, Refusal>
        requires ranges { RangesFrom 1 ranges.now }
        requires head { IsHead last.now last_head }
        ensures drawn { Draws (λ entry. entry) (text_left R.remaining self.old) (text_left R.remaining self.new) result (next_entry_at format ranges.now last.now) }
        ensures lawful { IsLawfulNext ranges.now last.now result }
        ensures counts { CountsFailures (tally_of self.old) (tally_of self.new) result }
        ensures refusals { IfErr result IsReadRefusal }
    {
        loop {
            match lend_next_entry(format, ranges, last, last_head, self.buffer.left()) {
                Ok((entry, rest)) => {
                    let left = rest.len();
                    let kept = keep(entry, memory)?;
                    self.buffer.keep_last(left);
                    return Ok(kept);
                }
                Err(why) => self.read_on(why)?,
            }
        }
    }

    /// A number of 4 bytes, the highest one first. Fails with `OutOfMemory` and, if and only if the count of failures has increased,
    /// with `Device`, else with `Short` if fewer bytes are left.
    pub fn number(&mut self) -> Result<u32, Refusal>
        ensures drawn { Draws (λ number. number) (text_left R.remaining self.old) (text_left R.remaining self.new) result (number_at Refusal.Short w32) }
        ensures counts { CountsFailures (tally_of self.old) (tally_of self.new) result }
        ensures refusals { IfErr result IsReadRefusal }
    {
        loop {
            match read_u32(self.buffer.left(), Refusal::Short) {
                Ok((number, rest)) => {
                    let kept = rest.len();
                    self.buffer.keep_last(kept);
                    return Ok(number);
                }
                Err(why) => self.read_on(why)?,
            }
        }
    }

    /// Whether no byte is left. Fails with `OutOfMemory` and, if and only if the count of failures has increased, with `Device`.
    pub fn is_over(&mut self) -> Result<bool, Refusal>
        ensures drawn { Draws (λ over. over) (text_left R.remaining self.old) (text_left R.remaining self.new) result is_over_at }
        ensures counts { CountsFailures (tally_of self.old) (tally_of self.new) result }
        ensures refusals { IfErr result IsReadRefusal }
    {
        if !self.buffer.left().is_empty() {
            return Ok(false);
        }
        let count = self.buffer.read_more(&mut self.tally)?;
        Ok(count == 0)
    }

    // Reads one more piece if the bytes that are left end too soon; any other refusal is returned, and so is this one if no more come.
    fn read_on(&mut self, why: Refusal) -> Result<(), Refusal>
        requires { why ≢ Refusal.Device }
        ensures kept { Keeps (text_left R.remaining self.old) (text_left R.remaining self.new) }
        ensures grows { OnOk result ((why ≡ Refusal.Short) × (length (buffered self.old) < length (buffered self.new))) }
        ensures counts { CountsFailures (tally_of self.old) (tally_of self.new) result }
        ensures refusals { IfErr result (λ e. (e ≡ Refusal.OutOfMemory) ⊎ (e ≡ Refusal.Device) ⊎ ((e ≡ why) × (why ≡ Refusal.Short → (buffered self.new ≡ buffered self.old) × IsAtEnd (R.remaining (inner_of (tally_of self.new)))))) }
    {
        if why != Refusal::Short {
            return Err(why);
        }
        match self.buffer.read_more(&mut self.tally) {
            Ok(0) => Err(Refusal::Short),
            Ok(_) => Ok(()),
            Err(failed) => Err(failed),
        }
    }
}

// The entry, if there is one, kept in this memory. It fails only if an allocation fails.
#[inline(always)]
fn keep(entry: Option<LentEntry>, memory: Vec<u8>) -> Result<Option<EntryText>, AllocError>
    ensures { IfOk result (λ kept. kept ≡ entry.entry) }
{
    match entry {
        Some(entry) => Ok(Some(entry.keep(memory)?)),
        None => Ok(None),
    }
}
