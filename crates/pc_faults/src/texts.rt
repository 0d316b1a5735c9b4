//! The faults of parts and bases.
ghost use Rattle.std.specs.Prelude.{◌≡◌, IfOk, MatchOption, None, false};
ghost use Rattle.pc_faults.specs.Faults.{IsFaultOf, IsSeenWith, fault_at, is_short};

use pc_bases::Base;
use pc_part::Part;
use pc_types::Refusal;
use std::alloc::{AllocError, Global};

/// The kind of file that some bytes are expected to be.
#[derive(Clone, Copy, Debug, PartialEq, Eq)]
pub enum TextKind {
    Part,
    Base,
}

/// The fault of a text.
#[derive(Clone, Copy, Debug)]
pub struct TextFault {
    /// The refusal of the bytes.
    pub why: Refusal,
    /// The number of bytes with whose last one the fault is seen: fewer are only too few. It is the number of all bytes if they are
    /// too few, and if a text has ended before the last of them it is that of the text's bytes.
    pub bytes: usize,
}

/// The fault that the bytes are refused with, read as a text of this kind, and where it is seen; `None` if they are such a text. It
/// reads the text once for each time that the number of its bytes can be halved. It is an error only if an allocation failed.
pub fn locate(alloc: Global, kind: TextKind, bytes: &[u8]) -> Result<Option<TextFault>, AllocError>
    ensures { IfOk result (λ found. MatchOption found (fault_at kind bytes.now ≡ None) (λ fault. IsFaultOf kind bytes.now fault.bytes fault.why)) }
{
    let Some(why) = fault_of(alloc, &kind, bytes)? else {
        return Ok(None);
    };
    let bytes = if has_too_few(alloc, &kind, bytes)? {
        bytes.len()
    } else {
        least(alloc, &kind, bytes)?
    };
    Ok(Some(TextFault { why, bytes }))
}

// The refusal of the bytes, if they are refused.
#[tactic(auto, unfolding(crate::specs::Faults::fault_at))]
fn fault_of(alloc: Global, kind: &TextKind, bytes: &[u8]) -> Result<Option<Refusal>, AllocError>
    ensures { IfOk result (λ found. found ≡ fault_at kind.now bytes.now) }
{
    let refused = match kind {
        TextKind::Part => Part::decode(alloc, bytes).err(),
        TextKind::Base => Base::decode(alloc, bytes).err(),
    };
    match refused {
        Some(Refusal::OutOfMemory) => Err(AllocError),
        other => Ok(other),
    }
}

// Whether the bytes are too few for a text of this kind.
fn has_too_few(alloc: Global, kind: &TextKind, bytes: &[u8]) -> Result<bool, AllocError>
    ensures { IfOk result (λ few. few ≡ is_short (fault_at kind.now bytes.now)) }
{
    Ok(is_short(fault_of(alloc, kind, bytes)?))
}

fn is_short(fault: Option<Refusal>) -> bool
    ensures { result ≡ is_short fault }
{
    match fault {
        Some(Refusal::Short) => true,
        _ => false,
    }
}

// How many of the bytes, which aren't too few, are just not too few: a binary search.
fn least(alloc: Global, kind: &TextKind, bytes: &[u8]) -> Result<usize, AllocError>
    requires { is_short (fault_at kind.now bytes.now) ≡ false }
    ensures { IfOk result (λ count. IsSeenWith kind.now bytes.now count) }
{
    let mut low = 0;
    let mut high = bytes.len();
    while high - low > 1 {
        let middle = low + (high - low) / 2;
        if has_too_few(alloc, kind, &bytes[..middle])? {
            low = middle;
        } else {
            high = middle;
        }
    }
    Ok(high)
}
