//! The text of a part file goes out.
ghost use Rattle.std.specs.Prelude.{OnOk};
ghost use Rattle.std.specs.List.{All, flat_map};
ghost use Rattle.pc_io.specs.Tallies.{Puts};
ghost use Rattle.pc_part.specs.Lawful.{HasLimits, IsPartFile};
ghost use Rattle.pc_part.specs.Texts.{head_text, bounds_text, triple_text, end_text, part_text};

use crate::part::Part;
use crate::ranges::Range;
use byteorder::{BigEndian, ByteOrder};
use pc_io::Tally;
use pc_taken::{LentTriple, Pass};
use pc_types::{Refusal, SPACE_BYTES};
use std::io::Write;

const MAGIC: [u8; 8] = *b"PCALCP02";

// The end mark, in place of the length of a key, which is never 0.
const END_MARK: [u8; 2] = [0; 2];

// The kind of an entry without a value.
const TOMBSTONE: u8 = 0;

// The kind of an entry with a value.
const VALUE: u8 = 1;

impl Part {
    /// Writes the text of the part in format 02, from which `decode` reads the same part. It allocates no memory, and refuses
    /// with `Device` if and only if the device failed; then a prefix of the text went out, and not all of it.
    pub fn encode<W: Write>(&self, out: &mut Tally<W>) -> Result<(), Refusal>
        ensures text { Puts W.contents out.old out.new result (part_text self.now) }
        ensures lawful { OnOk result (IsPartFile self.now) }
    {
        let run = self.run();
        let ranges = self.ranges();
        let entries = self.entries();
        let count = entries.len() as u32;
        put_head(out, run, ranges.len() as u32)?;
        put_ranges(out, ranges)?;
        put_entries(out, entries)?;
        put_end(out, count)
    }
}

/// Writes the start of the text of a part: the magic, the run, and how many ranges follow. Refuses with `Device` if and only
/// if the device failed; then a prefix went out, and not all of it.
pub fn put_head<W: Write>(out: &mut Tally<W>, run: u64, count: u32) -> Result<(), Refusal>
    ensures { Puts W.contents out.old out.new result (head_text run count) }
{
    let mut run_bytes = [0u8; 8];
    BigEndian::write_u64(&mut run_bytes, run);
    let mut count_bytes = [0u8; 4];
    BigEndian::write_u32(&mut count_bytes, count);
    out.put_all(&[&MAGIC, &run_bytes, &count_bytes])
}

/// Writes the ranges of a part, which come before its entries. Refuses as `put_head` does.
pub fn put_ranges<W: Write>(out: &mut Tally<W>, ranges: &[Range]) -> Result<(), Refusal>
    ensures { Puts W.contents out.old out.new result (flat_map bounds_text ranges.now) }
{
    for range in ranges {
        put_range(out, range)?;
    }
    Ok(())
}

fn put_range<W: Write>(out: &mut Tally<W>, range: &Range) -> Result<(), Refusal>
    ensures { Puts W.contents out.old out.new result (bounds_text range.now) }
{
    let mut numbers = [0u8; 8];
    BigEndian::write_u32(&mut numbers[..4], u32::from(range.low.0));
    BigEndian::write_u32(&mut numbers[4..], u32::from(range.high.0));
    out.put(&numbers)
}

// One entry after the other.
fn put_entries<W: Write>(out: &mut Tally<W>, entries: Pass) -> Result<(), Refusal>
    ensures text { Puts W.contents out.old out.new result (flat_map triple_text entries.entry) }
    ensures lawful { OnOk result (All HasLimits entries.entry) }
{
    for entry in entries {
        put_entry(out, &entry)?;
    }
    Ok(())
}

/// Writes one entry of a part. Refuses as `put_head` does.
pub fn put_entry<W: Write>(out: &mut Tally<W>, entry: &LentTriple) -> Result<(), Refusal>
    ensures text { Puts W.contents out.old out.new result (triple_text entry.now) }
    ensures lawful { HasLimits entry.now }
{
    let key = entry.key.as_bytes();
    let mut key_len = [0u8; 2];
    BigEndian::write_u16(&mut key_len, (key.len() - SPACE_BYTES) as u16);
    let mut point = [0u8; 4];
    BigEndian::write_u32(&mut point, u32::from(entry.point.0));
    match entry.content {
        None => out.put_all(&[&key_len, key, &point, &[TOMBSTONE]]),
        Some(value) => {
            let value = value.as_bytes();
            let mut value_len = [0u8; 4];
            BigEndian::write_u32(&mut value_len, value.len() as u32);
            out.put_all(&[&key_len, key, &point, &[VALUE], &value_len, value])
        }
    }
}

/// Writes the end of the text of a part: the end mark, and how many entries there were. Refuses as `put_head` does.
pub fn put_end<W: Write>(out: &mut Tally<W>, count: u32) -> Result<(), Refusal>
    ensures { Puts W.contents out.old out.new result (end_text count) }
{
    let mut count_bytes = [0u8; 4];
    BigEndian::write_u32(&mut count_bytes, count);
    out.put_all(&[&END_MARK, &count_bytes])
}
