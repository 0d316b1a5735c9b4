//! The stores that the tests begin with.
ghost use Rattle.std.specs.Prelude.{◌≡◌, ◌≤◌, IfOk};

use pc_bases::Base;
use pc_engine::World;
use pc_types::{Key, MOST_KEYS, MOST_SESSIONS, Refusal, Value};
use std::alloc::Global;
use std::hash::RandomState;
use test_support::Pair;

// The base of run 7 that has this pair.
fn base_of_pair(alloc: Global, pair: Pair) -> Result<Base, Refusal>
    ensures { IfOk result (λ base. base.point ≡ 0) }
{
    let mut pairs = Vec::with_capacity(alloc, 1)?;
    let key = Key::new(alloc, pair.0)?;
    let value = Value::new(alloc, pair.1)?;
    pairs.push_reserved((key, value));
    Ok(Base::start(7, pairs))
}

// The base of run 7 that has this pair, or that of run 1 with nothing in it.
fn base_of(alloc: Global, pair: Option<Pair>) -> Result<Base, Refusal>
    ensures { IfOk result (λ base. base.point ≡ 0) }
{
    match pair {
        Some(pair) => base_of_pair(alloc, pair),
        None => Ok(Base::start(1, Vec::new(alloc))),
    }
}

/// A store that starts from this pair in run 7, or from nothing in run 1, with this many sessions and room for the given
/// number of keys.
pub(crate) fn new_world(
    alloc: Global,
    seed: RandomState,
    pair: Option<Pair>,
    sessions: u8,
    keys: u32,
) -> Result<World, Refusal>
    requires sessions { (1 ≤ sessions) × (sessions ≤ MOST_SESSIONS) }
    requires keys { (1 ≤ keys) × (keys ≤ MOST_KEYS) }
{
    let base = base_of(alloc, pair)?;
    World::new(alloc, base, sessions, keys, seed)
}

/// One that has room for two keys; if an allocation fails it is made again.
pub(crate) fn world_again(
    alloc: Global,
    seed: RandomState,
    pair: Option<Pair>,
    sessions: u8,
) -> Result<World, Refusal>
    requires { (1 ≤ sessions) × (sessions ≤ MOST_SESSIONS) }
{
    match new_world(alloc, seed, pair, sessions, 2) {
        Ok(world) => Ok(world),
        Err(_) => new_world(alloc, seed, pair, sessions, 2),
    }
}
