//! What a store writes.
ghost use Rattle.std.specs.Prelude.{All};
ghost use Rattle.pc_model.specs.FewWrites.{HasFewWrites};

use pc_bases::Base;
use pc_capture::SharedPart;
use pc_engine::World;
use pc_io::Tally;
use pc_log::{encode_entry, encode_header};
use pc_part::Part;
use pc_types::{Entry, Refusal};
use std::alloc::Global;

/// What a store writes.
#[derive(Drop)]
pub struct Texts {
    /// The text of its base.
    pub base: Vec<u8>,
    /// The texts of its parts, in the order of their points.
    pub parts: Vec<Vec<u8>>,
    /// The text of its log.
    pub log: Vec<u8>,
    /// How long the text of the log is after each entry.
    pub ends: Vec<usize>,
}

fn base_text(alloc: Global, base: &Base) -> Result<Vec<u8>, Refusal> {
    let mut out = Tally::new(Vec::new(alloc));
    base.encode(&mut out)?;
    Ok(out.into_inner())
}

fn part_text(alloc: Global, part: &Part) -> Result<Vec<u8>, Refusal> {
    let mut out = Tally::new(Vec::new(alloc));
    part.encode(&mut out)?;
    Ok(out.into_inner())
}

fn part_texts(alloc: Global, parts: &[SharedPart]) -> Result<Vec<Vec<u8>>, Refusal> {
    let mut texts = Vec::new(alloc);
    for shared in parts {
        texts.push(part_text(alloc, shared.part())?)?;
    }
    Ok(texts)
}

fn header_text(alloc: Global, run: u64) -> Result<Vec<u8>, Refusal> {
    let mut out = Tally::new(Vec::new(alloc));
    encode_header(&mut out, run)?;
    Ok(out.into_inner())
}

// The text of an entry of at most 256 writes.
fn entry_text(alloc: Global, entry: &Entry) -> Result<Vec<u8>, Refusal>
    requires { HasFewWrites entry.now }
{
    let mut out = Tally::new(Vec::new(alloc));
    encode_entry(&mut out, entry)?;
    Ok(out.into_inner())
}

// The text of a log, and how long it is after each entry.
fn log_text(alloc: Global, run: u64, log: &[Entry]) -> Result<(Vec<u8>, Vec<usize>), Refusal>
    requires { All HasFewWrites log.now }
{
    let mut text = header_text(alloc, run)?;
    let mut ends = Vec::new(alloc);
    for entry in log {
        let bytes = entry_text(alloc, entry)?;
        text.extend_from_slice(&bytes)?;
        ends.push(text.len())?;
    }
    Ok((text, ends))
}

/// The texts of the store's files. It refuses only with `OutOfMemory`.
pub fn texts_of(alloc: Global, world: &World) -> Result<Texts, Refusal> {
    let base = base_text(alloc, world.base())?;
    let parts = part_texts(alloc, world.files())?;
    let log = world.log().entries(alloc)?;
    let (log, ends) = log_text(alloc, world.base().run(), log.as_slice())?;
    Ok(Texts {
        base,
        parts,
        log,
        ends,
    })
}
