//! The base of a store that gets further pairs.
ghost use Rattle.std.specs.Prelude.{◌≡◌, ◌⊎◌, map, IfOk, IfErr};
ghost use Rattle.pc_types.specs.declared.refusal.Refusal.{Refusal};
ghost use Rattle.pc_opening.specs.Merging.{HasPairsOver, pair_write};

use pc_bases::Base;
use pc_replay::Overlay;
use pc_types::{Change, Items, Key, MOST_FILE_ENTRIES, Refusal, Value, Write};
use std::alloc::{AllocError, Global};

/// The base of the first one's run, at point 0, that has the pairs of both, of a key that both have the pair of the second one. Refuses
/// with `Full` if a base can't have the pairs, and otherwise only with `OutOfMemory`.
pub fn merged_base(alloc: Global, base: Base, over: Base) -> Result<Base, Refusal>
    ensures merged { IfOk result (λ merged. (merged.run ≡ base.run) × (merged.point ≡ 0) × HasPairsOver base.pairs over.pairs merged.pairs) }
    ensures refusals { IfErr result (λ e. (e ≡ Refusal.Full) ⊎ (e ≡ Refusal.OutOfMemory)) }
{
    let run = base.run();
    let writes = sets_of(alloc, over.into_pairs())?;
    let overlay = Overlay::new(alloc, base.into_pairs())?;
    let pairs = overlay
        .with_writes(alloc, Items::from_vec(writes))?
        .into_pairs(alloc)?;
    if pairs.len() > MOST_FILE_ENTRIES {
        return Err(Refusal::Full);
    }
    Ok(Base::start(run, pairs))
}

// The writes that set these pairs, in order.
fn sets_of(alloc: Global, pairs: Vec<(Key, Value)>) -> Result<Vec<Write>, AllocError>
    ensures { IfOk result (λ writes. writes.items ≡ map pair_write pairs.items) }
{
    let mut writes = Vec::with_capacity(alloc, pairs.len())?;
    for pair in pairs {
        writes.push(set_of(pair))?;
    }
    Ok(writes)
}

// The write that sets the pair.
fn set_of(pair: (Key, Value)) -> Write
    ensures { result ≡ pair_write pair }
{
    let (key, value) = pair;
    Write {
        key,
        change: Change::Set(value),
    }
}
