//! The parts that can be read: those whose bytes are a part of the run.
ghost use Rattle.std.specs.Prelude.{◌≡◌, map, IfOk, IfErr};
ghost use Rattle.pc_recover.specs.Recovery.{decoded_file, decoded_files};

use pc_part::Part;
use pc_types::Refusal;
use std::alloc::Global;

/// A part that was read, or why it can't be read: the fault of its bytes, or `OtherRun`.
pub(crate) type Candidate = Result<Part, Refusal>;

/// The parts of these bytes, in their order; each is read once. Its only error is `OutOfMemory`.
pub(crate) fn candidates(
    alloc: Global,
    run: u64,
    parts: &[&[u8]],
) -> Result<Vec<Candidate>, Refusal>
    ensures files { IfOk result (λ files. files.items ≡ decoded_files run (map (λ part. part.now) parts.now)) }
    ensures memory { IfErr result (λ e. e ≡ Refusal.OutOfMemory) }
{
    let mut files = Vec::new(alloc);
    for part in parts {
        files.push(candidate(alloc, run, part)?)?;
    }
    Ok(files)
}

// The part of these bytes, if it can be read.
fn candidate(alloc: Global, run: u64, bytes: &[u8]) -> Result<Candidate, Refusal>
    ensures file { IfOk result (λ file. file ≡ decoded_file run bytes.now) }
    ensures memory { IfErr result (λ e. e ≡ Refusal.OutOfMemory) }
{
    match Part::decode(alloc, bytes) {
        Ok(part) if part.run() == run => Ok(Ok(part)),
        Ok(_) => Ok(Err(Refusal::OtherRun)),
        Err(Refusal::OutOfMemory) => Err(Refusal::OutOfMemory),
        Err(fault) => Ok(Err(fault)),
    }
}
