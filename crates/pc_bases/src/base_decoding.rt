//! A base file is read from its text.
ghost use Rattle.std.specs.Prelude.{◌≡◌, [], IfOk, Ok};
ghost use Rattle.pc_io.specs.Fields.{Gives};
ghost use Rattle.pc_model.specs.Files.{BaseFile};
ghost use Rattle.pc_bases.specs.Lawful.{IsBaseFile, IsBaseText};
ghost use Rattle.pc_bases.specs.Reading.{pair_at, pairs_at, last_pair_key, base_fields_at, base_at};

use crate::base::Base;
use pc_io::{Format, read_magic, read_u16, read_u32, read_u64, read_value};
use pc_part::read_next_key;
use pc_types::{Key, MOST_POINTS, Point, Refusal, Value};
use std::alloc::Global;

const FIRST: [u8; 8] = *b"PCALCB01";

const SECOND: [u8; 8] = *b"PCALCB02";

impl Base {
    /// The base whose text is all of the bytes, in format 02, or in format 01, whose keys are all of space 0. It allocates
    /// memory for the pairs and for long keys and values alone. Refuses with `OutOfMemory` only if an allocation failed, else
    /// with the first fault from the left:
    ///
    /// - `Short` if the bytes end inside a field;
    /// - `BadMagic` if the first 8 bytes are the magic of neither format;
    /// - `BadRanges` if the point is above 65,535;
    /// - `BadLength` if the length of a key or value is not within its limits;
    /// - `KeyOrder` if a key does not ascend;
    /// - `Trailing` if bytes follow the last pair.
    pub fn decode(alloc: Global, bytes: &[u8]) -> Result<Base, Refusal>
        ensures found { IfOk result (λ base. IsBaseFile base × IsBaseText bytes.now base) }
        ensures only { (file : BaseFile) → IsBaseFile file → IsBaseText bytes.now file → Gives (λ base. base) result (Ok file) }
        ensures exact { Gives (λ base. base) result (base_at bytes.now) }
    {
        read_base(alloc, bytes)
    }
}

// The base whose text is all of the bytes.
fn read_base(alloc: Global, bytes: &[u8]) -> Result<Base, Refusal>
    ensures { Gives (λ base. base) result (base_at bytes.now) }
{
    let FieldsOfBase { run, point, pairs } = read_fields(alloc, bytes)?;
    Ok(Base::at_point(run, point, pairs))
}

// The fields read of a base.
#[derive(Drop)]
struct FieldsOfBase {
    run: u64,
    point: Point,
    pairs: Vec<(Key, Value)>,
}

// The fields of a base whose text is all of the bytes.
#[tactic(auto, unfolding(crate::specs::Reading::base_fields_at))]
fn read_fields(alloc: Global, bytes: &[u8]) -> Result<FieldsOfBase, Refusal>
    ensures { Gives (λ f. record { run = f.run; point = f.point; pairs = f.pairs.items }) result (base_fields_at bytes.now) }
{
    let (format, start) = read_magic(bytes, &FIRST, &SECOND)?;
    let (run, rest) = read_u64(start, Refusal::Short)?;
    let (point, rest) = read_u32(rest, Refusal::Short)?;
    if u32::from(MOST_POINTS) < point {
        return Err(Refusal::BadRanges);
    }
    let (count, rest) = read_u32(rest, Refusal::Short)?;
    let (pairs, rest) = read_pairs(alloc, format, count, rest)?;
    if !rest.is_empty() {
        return Err(Refusal::Trailing);
    }
    let point = Point(point as u16);
    Ok(FieldsOfBase { run, point, pairs })
}

// The given number of pairs, in order.
fn read_pairs(
    alloc: Global,
    format: Format,
    count: u32,
    bytes: &[u8],
) -> Result<(Vec<(Key, Value)>, &[u8]), Refusal>
    ensures { Gives (λ x. (x.0.items, x.1.now)) result (pairs_at format count [] bytes.now) }
{
    let mut pairs = Vec::new(alloc);
    let mut rest = bytes;
    for _ in 0..count {
        let (key, value, after) = read_pair(alloc, format, last_key(&pairs), rest)?;
        pairs.push((key, value))?;
        rest = after;
    }
    Ok((pairs, rest))
}

// The key of the last of the pairs; of none it is empty, and all keys come after it.
fn last_key(pairs: &[(Key, Value)]) -> &[u8]
    ensures { result.now ≡ last_pair_key pairs.now }
{
    match pairs.last() {
        Some((key, _)) => key.as_bytes(),
        None => &[],
    }
}

// A key that comes after the last one, and its value.
#[tactic(auto, unfolding(crate::specs::Reading::pair_at))]
fn read_pair<'a>(
    alloc: Global,
    format: Format,
    last: &[u8],
    bytes: &'a [u8],
) -> Result<(Key, Value, &'a [u8]), Refusal>
    ensures { Gives (λ x. ((x.0, x.1), x.2.now)) result (pair_at format last.now bytes.now) }
{
    let (count, rest) = read_u16(bytes, Refusal::Short)?;
    let (key, rest) = read_next_key(alloc, format, last, count, rest)?;
    let (value, rest) = read_value(alloc, rest, Refusal::Short)?;
    Ok((key, value, rest))
}
