//! A store is opened.
ghost use Rattle.std.specs.Prelude.{◌≡◌, ◌⊎◌, ◌<◌, ◌≤◌, ◌+◌, ◌^◌, [], length, None, Some, IfOk, IfErr, IfSome, OnOk};
ghost use Rattle.pc_types.specs.declared.limits.TheConstants.{MOST_FILE_ENTRIES, MOST_KEYS, MOST_SESSIONS};
ghost use Rattle.pc_model.specs.Database.{KeysRise, database_of};
ghost use Rattle.pc_part.specs.Parts.{IsWithinLimit};
ghost use Rattle.pc_engine.specs.Stands.{Stands};
ghost use Rattle.pc_engine.specs.Store.{setting_of};
ghost use Rattle.pc_border.specs.Openings.{option_fault, IsBaseOf, IsStart, IsBaseless, IsUnopened};
ghost use Rattle.pc_border.specs.Sources.{is_given};

use crate::seed::seed_of;
use crate::sources::Sources;
use pc_bases::Base;
use pc_engine::World;
use pc_recover::Recovered;
use pc_types::{MOST_FILE_ENTRIES, MOST_KEYS, MOST_SESSIONS, Refusal};
use std::alloc::Global;

/// The options of a store.
#[repr(C)]
#[derive(Clone, Copy)]
pub struct Options {
    /// The number of the run, if nothing was given to recover; otherwise it is the one after that of the base.
    pub run: u64,
    /// A random 128-bit seed for the hashes of keys.
    pub first_word: u64,
    pub second_word: u64,
    /// How many sessions, 1 to 64.
    pub sessions: u32,
    /// For how many keys there is room, 1 to 1,048,576.
    pub capacity: u32,
}

/// A store over what was given: one without pairs, of the run of the options, if nothing was; otherwise one that has the pairs
/// recovered from what was given, of the run after that of the base. It represents the empty history. Refuses with `NoSession` and
/// `BadLength`, the first of them, if and only if the sessions or the capacity are past their limits; otherwise as
/// `Sources::recover`; with `Full` if there are more pairs than room, or no run after that of the base; and with `OutOfMemory`.
pub fn open_world(alloc: Global, sources: &Sources, options: &Options) -> Result<World, Refusal>
    ensures stands { IfOk result (λ world. Stands world []) }
    ensures start { IfOk result (λ world. IsStart sources.now options.now (setting_of world)) }
    ensures lawful { OnOk result (option_fault options.now ≡ None) }
    ensures refusals { IfErr result (λ why. (option_fault options.now ≡ Some why) ⊎ ((option_fault options.now ≡ None) × IsUnopened sources.now options.now why)) }
{
    if let Some(why) = option_fault(options) {
        return Err(why);
    }
    let base = base_of(alloc, sources, options.run)?;
    let Some(seed) = seed_of(options.first_word, options.second_word) else {
        return Err(Refusal::OutOfMemory);
    };
    World::new(alloc, base, options.sessions as u8, options.capacity, seed)
}

// Why no store has these options, if none has.
fn option_fault(options: &Options) -> Option<Refusal>
    ensures fault { result ≡ option_fault options.now }
    ensures sessions { result ≡ None → (1 ≤ options.now.sessions) × (options.now.sessions ≤ MOST_SESSIONS) }
    ensures capacity { result ≡ None → (1 ≤ options.now.capacity) × (options.now.capacity ≤ MOST_KEYS) }
{
    if options.sessions == 0 || options.sessions > u32::from(MOST_SESSIONS) {
        return Some(Refusal::NoSession);
    }
    if options.capacity == 0 || options.capacity > MOST_KEYS {
        return Some(Refusal::BadLength);
    }
    None
}

// The base that the store starts from.
fn base_of(alloc: Global, sources: &Sources, run: u64) -> Result<Base, Refusal>
    ensures base { IfOk result (IsBaseOf (is_given sources.now) sources.now run) }
    ensures point { IfOk result (λ base. base.point ≡ 0) }
    ensures refusals { IfErr result (IsBaseless sources.now) }
{
    if !sources.is_given() {
        return Ok(Base::start(run, Vec::new(alloc)));
    }
    match sources.recover(alloc) {
        Ok(recovered) => match next_run(&recovered) {
            Some(run) => Ok(start(run, recovered)),
            None => Err(Refusal::Full),
        },
        Err(why) => Err(why),
    }
}

// The number of the run after the one of which something was recovered; `None` if it has none, or a base can't have the pairs.
fn next_run(recovered: &Recovered) -> Option<u64>
    ensures next { IfSome result (λ run. (run ≡ recovered.now.run + 1) × IsWithinLimit recovered.now.pairs.items) }
    ensures none { result ≡ None → (2 ^ 64 ≤ recovered.now.run + 1) ⊎ (MOST_FILE_ENTRIES < length recovered.now.pairs.items) }
{
    if recovered.pairs.len() > MOST_FILE_ENTRIES {
        return None;
    }
    recovered.run.checked_add(1)
}

// The recovered state, as the base of a run of this number.
fn start(run: u64, recovered: Recovered) -> Base
    requires rise { KeysRise recovered.pairs.items }
    requires limit { IsWithinLimit recovered.pairs.items }
    ensures { result ≡ record { run = run; point = 0; pairs = database_of recovered.pairs.items } }
{
    let Recovered {
        run: _,
        pairs,
        point: _,
        entries: _,
        skipped: _,
        fault: _,
    } = recovered;
    Base::start(run, pairs)
}
