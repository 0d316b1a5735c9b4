//! A part file is read from its text.
ghost use Rattle.std.specs.Prelude.{◌≡◌, ◌<◌, ◌≤◌, [], length, IfOk, Ok};
ghost use Rattle.std.specs.List.Sorted.{IsPartitionPoint};
ghost use Rattle.std.specs.Ordering.{is_lt};
ghost use Rattle.pc_io.specs.Fields.{Reads, Gives};
ghost use Rattle.pc_model.specs.Database.{key_cmp};
ghost use Rattle.pc_model.specs.Files.{File};
ghost use Rattle.pc_part.specs.Lawful.{IsPartFile, IsPartText};
ghost use Rattle.pc_part.specs.Parts.{AreRanges, RangesFrom, covers};
ghost use Rattle.pc_part.specs.Reading.{range_at, ranges_at, next_key_at, point_at, part_entry_at, last_key, next_entry_at, part_entries_at, part_header_at, part_fields_at, part_at};

use crate::part::Part;
use crate::ranges::Range;
use pc_io::{Format, read_content, read_magic, read_sized_key, read_u16, read_u32, read_u64};
use pc_types::{Key, MOST_POINTS, Point, Refusal, Triple, Value};
use std::alloc::Global;

const FIRST: [u8; 8] = *b"PCALCP01";

const SECOND: [u8; 8] = *b"PCALCP02";

impl Part {
    /// The part whose text is all of the bytes, in format 02, or in format 01, whose keys are all of space 0. It allocates memory
    /// for the ranges, the entries and long keys and values alone. Refuses with `OutOfMemory` only if an allocation failed, else
    /// with the first fault from the left:
    ///
    /// - `Short` if the bytes end inside a field;
    /// - `BadMagic` if the first 8 bytes are the magic of neither format;
    /// - `BadRanges` if there are no ranges, or one breaks their rule;
    /// - `BadLength` if the length of a key or value is not within its limits, or the entry count is wrong;
    /// - `KeyOrder` if a key does not ascend;
    /// - `NotCovered` if an entry's point is in no range;
    /// - `BadKind` if an entry's kind is neither 0 nor 1;
    /// - `Trailing` if bytes follow the entry count.
    pub fn decode(alloc: Global, bytes: &[u8]) -> Result<Part, Refusal>
        ensures found { IfOk result (λ part. IsPartFile part × IsPartText bytes.now part) }
        ensures only { (file : File) → IsPartFile file → IsPartText bytes.now file → Gives (λ part. part) result (Ok file) }
        ensures exact { Gives (λ part. part) result (part_at bytes.now) }
    {
        read_part(alloc, bytes)
    }
}

// The part whose text is all of the bytes.
fn read_part(alloc: Global, bytes: &[u8]) -> Result<Part, Refusal>
    ensures { Gives (λ part. part) result (part_at bytes.now) }
{
    let FieldsOfPart {
        run,
        ranges,
        entries,
    } = read_fields(alloc, bytes)?;
    Ok(Part::from_lists(run, ranges, entries))
}

// The fields read of a part.
#[derive(Drop)]
struct FieldsOfPart {
    run: u64,
    ranges: Vec<Range>,
    entries: Vec<Triple>,
}

// The fields of a part whose text is all of the bytes.
#[tactic(auto, unfolding(crate::specs::Reading::part_fields_at))]
fn read_fields(alloc: Global, bytes: &[u8]) -> Result<FieldsOfPart, Refusal>
    ensures { Gives (λ f. record { run = f.run; ranges = f.ranges.items; entries = f.entries.items }) result (part_fields_at bytes.now) }
{
    let (header, rest) = read_header(alloc, bytes)?;
    let PartHeader {
        format,
        run,
        ranges,
    } = header;
    let (entries, rest) = read_entries(alloc, format, &ranges, rest)?;
    let (total, rest) = read_u32(rest, Refusal::Short)?;
    if entries.len() != total as usize {
        return Err(Refusal::BadLength);
    }
    if !rest.is_empty() {
        return Err(Refusal::Trailing);
    }
    Ok(FieldsOfPart {
        run,
        ranges,
        entries,
    })
}

/// The header before the entries of a part: the format of its text, its run, and the points that it covers as ranges.
#[derive(Drop)]
pub struct PartHeader {
    pub format: Format,
    pub run: u64,
    pub ranges: Vec<Range>,
}

/// The header at the front of a part's text, and the bytes after it. It allocates memory for the ranges alone. Refuses with
/// `OutOfMemory` only if an allocation failed, else with `Short`, `BadMagic` or `BadRanges`, the first fault from the left.
#[tactic(auto, unfolding(crate::specs::Reading::part_header_at))]
pub fn read_header(alloc: Global, bytes: &[u8]) -> Result<(PartHeader, &[u8]), Refusal>
    ensures read { Gives (λ x. ((x.0.format, (x.0.run, x.0.ranges.items)), x.1.now)) result (part_header_at bytes.now) }
    ensures apart { IfOk result (λ x. AreRanges x.0.ranges.items) }
{
    let (format, start) = read_magic(bytes, &FIRST, &SECOND)?;
    let (run, rest) = read_u64(start, Refusal::Short)?;
    let (range_count, rest) = read_u32(rest, Refusal::Short)?;
    if range_count == 0 {
        return Err(Refusal::BadRanges);
    }
    let (ranges, rest) = read_ranges(alloc, range_count, rest)?;
    let header = PartHeader {
        format,
        run,
        ranges,
    };
    Ok((header, rest))
}

// The given number of ranges, in order.
fn read_ranges(alloc: Global, count: u32, bytes: &[u8]) -> Result<(Vec<Range>, &[u8]), Refusal>
    ensures read { Gives (λ x. (x.0.items, x.1.now)) result (ranges_at count 1 bytes.now) }
    ensures apart { IfOk result (λ x. RangesFrom 1 x.0.items) }
{
    let mut ranges = Vec::new(alloc);
    let mut least = 1;
    let mut rest = bytes;
    for _ in 0..count {
        let (low, high, after) = read_range(least, rest)?;
        least = u32::from(high) + 2;
        let (low, high) = (Point(low), Point(high));
        ranges.push(Range { low, high })?;
        rest = after;
    }
    Ok((ranges, rest))
}

// The first and the last point of a range that begins at this point or above.
#[tactic(auto, unfolding(crate::specs::Reading::range_at))]
fn read_range(least: u32, bytes: &[u8]) -> Result<(u16, u16, &[u8]), Refusal>
    ensures { Reads (λ x. (record { low = x.0; high = x.1 }, x.2.now)) result (range_at least bytes.now) }
{
    let (low, rest) = read_u32(bytes, Refusal::Short)?;
    let (high, rest) = read_u32(rest, Refusal::Short)?;
    if low < least || high < low || u32::from(MOST_POINTS) < high {
        return Err(Refusal::BadRanges);
    }
    Ok((low as u16, high as u16, rest))
}

// The entries up to the end mark. An entry takes more than one of the bytes, so that the turns are enough.
fn read_entries<'a>(
    alloc: Global,
    format: Format,
    ranges: &[Range],
    bytes: &'a [u8],
) -> Result<(Vec<Triple>, &'a [u8]), Refusal>
    requires { RangesFrom 1 ranges.now }
    ensures { Gives (λ x. (x.0.items, x.1.now)) result (part_entries_at format (length bytes.now) ranges.now [] bytes.now) }
{
    let mut entries = Vec::new(alloc);
    let mut rest = bytes;
    for _ in 0..bytes.len() {
        let last = last_key(&entries);
        let (next, after) = read_next_entry(alloc, format, ranges, last, rest)?;
        let Some(entry) = next else {
            return Ok((entries, after));
        };
        entries.push(entry)?;
        rest = after;
    }
    Err(Refusal::Short)
}

// The key of the last of the entries; of none it is empty, and all keys come after it.
fn last_key(entries: &[Triple]) -> &[u8]
    ensures { result.now ≡ last_key entries.now }
{
    match entries.last() {
        Some(entry) => entry.key.as_bytes(),
        None => &[],
    }
}

/// The entry at the front of the bytes of a text in this format, whose key comes after the last one, or `None` at the end mark;
/// and the bytes after it. The last key is given by its space's two bytes and its own after them; if it is empty, each key comes
/// after it. It allocates memory for long keys and values alone. Refuses with `OutOfMemory` only if an allocation failed, else
/// with `Short`, `BadLength`, `KeyOrder`, `NotCovered` or `BadKind`, the first fault from the left.
#[tactic(auto, unfolding(crate::specs::Reading::next_entry_at))]
pub fn read_next_entry<'a>(
    alloc: Global,
    format: Format,
    ranges: &[Range],
    last: &[u8],
    bytes: &'a [u8],
) -> Result<(Option<Triple>, &'a [u8]), Refusal>
    requires { RangesFrom 1 ranges.now }
    ensures { Gives (λ x. (x.0, x.1.now)) result (next_entry_at format ranges.now last.now bytes.now) }
{
    let (count, rest) = read_u16(bytes, Refusal::Short)?;
    if count == 0 {
        return Ok((None, rest));
    }
    let (key, rest) = read_next_key(alloc, format, last, count, rest)?;
    let (point, content, rest) = read_entry(alloc, ranges, rest)?;
    let point = Point(point);
    let entry = Triple {
        key,
        point,
        content,
    };
    Ok((Some(entry), rest))
}

/// The key of the given number of bytes of its own at the front of the bytes of a text in this format, which comes after the last
/// one, and the bytes after it. The last key is given as `read_next_entry` takes it. It allocates memory for a long key alone.
/// Refuses with `OutOfMemory` only if an allocation failed, else with `Short`, `BadLength` or `KeyOrder`.
#[tactic(auto, unfolding(crate::specs::Reading::next_key_at))]
pub fn read_next_key<'a>(
    alloc: Global,
    format: Format,
    last: &[u8],
    count: u16,
    bytes: &'a [u8],
) -> Result<(Key, &'a [u8]), Refusal>
    ensures { Gives (λ x. (x.0, x.1.now)) result (next_key_at format last.now count bytes.now) }
{
    let (key, rest) = read_sized_key(alloc, format, bytes, count, Refusal::Short)?;
    if !comes_after(&key, last) {
        return Err(Refusal::KeyOrder);
    }
    Ok((key, rest))
}

// Whether the key comes after the last one.
fn comes_after(key: &Key, last: &[u8]) -> bool
    ensures { result ≡ is_lt (key_cmp last.now key.now) }
{
    last.cmp(&key.as_bytes()).is_lt()
}

// The point of a key's entry, and what the key had there.
#[tactic(auto, unfolding(crate::specs::Reading::part_entry_at))]
fn read_entry<'a>(
    alloc: Global,
    ranges: &[Range],
    bytes: &'a [u8],
) -> Result<(u16, Option<Value>, &'a [u8]), Refusal>
    requires { RangesFrom 1 ranges.now }
    ensures { Gives (λ x. (record { point = x.0; content = x.1 }, x.2.now)) result (part_entry_at ranges.now bytes.now) }
{
    let (point, rest) = read_point(ranges, bytes)?;
    let (content, rest) = read_content(alloc, rest, Refusal::Short)?;
    Ok((point, content, rest))
}

/// The point at the front of the bytes, which is in one of the ranges, and the bytes after it. Refuses with `Short` or `NotCovered`.
#[tactic(auto, unfolding(crate::specs::Reading::point_at))]
pub fn read_point<'a>(ranges: &[Range], bytes: &'a [u8]) -> Result<(u16, &'a [u8]), Refusal>
    requires { RangesFrom 1 ranges.now }
    ensures { Reads (λ x. (x.0, x.1.now)) result (point_at ranges.now bytes.now) }
{
    let (point, rest) = read_u32(bytes, Refusal::Short)?;
    if !is_covered(ranges, point) {
        return Err(Refusal::NotCovered);
    }
    Ok((point as u16, rest))
}

// Whether a range has the point: only the first can that doesn't end before it.
fn is_covered(ranges: &[Range], point: u32) -> bool
    requires { RangesFrom 1 ranges.now }
    ensures { result ≡ covers ranges.now point }
{
    let ended = ended_before(ranges, point);
    if ended == ranges.len() {
        return false;
    }
    let low = ranges[ended].low;
    u32::from(low.0) <= point
}

// How many of the ranges end before the point.
fn ended_before(ranges: &[Range], point: u32) -> usize
    requires { RangesFrom 1 ranges.now }
    ensures bound { result ≤ length ranges.now }
    ensures ends { IsPartitionPoint (λ range. range.high < point) (λ range. point ≤ range.high) ranges.now result }
{
    ranges.partition_point(|range| u32::from(range.high.0) < point)
}
