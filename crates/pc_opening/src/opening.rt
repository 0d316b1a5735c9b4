//! A store is opened over the base that it starts from, and the generation begins that will have its log.
ghost use Rattle.std.specs.Prelude.{◌≡◌, ◌⊎◌, ◌≤◌, ◌<◌, ◌+◌, [], Err, IfOk, IfErr, IfSome, OnOk, OnErr};
ghost use Rattle.pc_types.specs.declared.limits.TheConstants.{MOST_KEYS, MOST_SESSIONS};
ghost use Rattle.pc_types.specs.declared.refusal.Refusal.{Refusal};
ghost use Rattle.pc_model.specs.History.{History};
ghost use Rattle.pc_model.specs.Log.{after};
ghost use Rattle.pc_model.specs.Maps.{len};
ghost use Rattle.pc_log.specs.Texts.{header_text};
ghost use Rattle.pc_bases.specs.Texts.{base_text};
ghost use Rattle.pc_engine.specs.Stands.{Stands};
ghost use Rattle.pc_engine.specs.Runs.{starting};
ghost use Rattle.pc_engine.specs.Store.{setting_of};
ghost use Rattle.pc_generations.specs.Folders.{AreGone, HasBase, IsLatest, IsSpared, IsUnused, StayBut, next_of};
ghost use Rattle.pc_opening.specs.Openings.{CountsWith, IsOpeningCutOff, KeepsBefore};

use pc_bases::Base;
use pc_engine::World;
use pc_generations::{Generations, begin_generation, remove_older};
use pc_io::Tally;
use pc_log::encode_header;
use pc_types::{MOST_FILE_ENTRIES, Refusal};
use std::alloc::Global;
use std::hash::RandomState;

/// For how much a store has room: its sessions, 1 to 64, and its keys, 1 to 1,048,576.
#[derive(Clone, Copy, Debug)]
pub struct StoreSize {
    pub sessions: u8,
    pub capacity: u32,
    ghost some_sessions: { (1 ≤ sessions) × (sessions ≤ MOST_SESSIONS) },
    ghost in_range: { (1 ≤ capacity) × (capacity ≤ MOST_KEYS) },
}

/// The folders among which the next generation begins.
#[derive(Clone, Copy, Debug)]
pub struct Succession {
    /// The generation that counts, if one does.
    pub latest: Option<u32>,
    /// How many generations before the next one are kept once that counts, at least 1.
    pub keep: u32,
    ghost keeps_one: { 1 ≤ keep },
}

/// A store that was opened, and the generation that has begun with it.
#[derive(Drop)]
pub struct OpenedStore {
    pub world: World,
    /// The number of the generation.
    pub generation: u32,
    /// Whether all older generations are removed that aren't kept, or why one isn't.
    pub removal: Result<(), Refusal>,
}

/// Opens a store that starts from this base, and begins the generation after the one that counts, if one does, as `begin_generation`
/// does, with the text of the base and a log of its run without entries. Nothing was asked of the store. Once the generation counts,
/// and never before, older ones are removed as far as that succeeds, but for as many before it as are to be kept.
///
/// If it refuses, or the process is killed at any moment in it, either the new generation counts, with both texts, or the one that
/// counted still does, and of it and of all before it nothing is gone; nor of a generation of the new one's number that has a base or a
/// log with entries, which is refused. Refuses with `Full` if the base has more pairs than there is
/// room for, and then changes nothing; with `OutOfMemory`; and as `begin_generation` refuses.
pub fn open_store<G: Generations>(
    alloc: Global,
    folders: &mut G,
    succession: Succession,
    base: Base,
    size: StoreSize,
    seed: RandomState,
) -> Result<OpenedStore, Refusal>
    requires { base.point ≡ 0 }
    ensures store { IfOk result (λ opened. Stands opened.world [] × (setting_of opened.world ≡ starting base size.sessions size.capacity)) }
    ensures number { IfOk result (λ opened. opened.generation ≡ next_of succession.latest) }
    ensures begun { IsLatest (G.stands folders.old) succession.latest → OnOk result (CountsWith (G.stands folders.new) succession.latest base) }
    ensures cut_off { IsLatest (G.stands folders.old) succession.latest → OnErr result (IsOpeningCutOff (G.stands folders.old) (G.stands folders.new) succession.latest base) }
    ensures kept { KeepsBefore succession.keep (G.stands folders.old) (G.stands folders.new) (next_of succession.latest) }
    ensures unused { OnOk result (IsUnused (G.stands folders.old) (next_of succession.latest)) }
    ensures spared { IsSpared (G.stands folders.old) (G.stands folders.new) (next_of succession.latest) }
    ensures gone { IfOk result (λ opened. OnOk opened.removal (AreGone succession.keep (G.stands folders.new) (next_of succession.latest))) }
    ensures full { size.capacity < len base.pairs → (result ≡ Err Refusal.Full) × (folders.new ≡ folders.old) }
{
    if base.pairs().len() > size.capacity as usize {
        return Err(Refusal::Full);
    }
    let Begun {
        generation,
        removal,
    } = match begin_store(alloc, folders, succession, &base) {
        Ok(begun) => begun,
        Err(why) => return Err(why),
    };
    match World::new(alloc, base, size.sessions, size.capacity, seed) {
        Ok(world) => Ok(OpenedStore {
            world,
            generation,
            removal,
        }),
        Err(why) => Err(why),
    }
}

/// The base of the run after that of this store: the number of its run is one higher, and it has the pairs that are committed, which
/// are those of the log replayed on the base from which the store started. Refuses with `Full` if and only if the run has the number
/// 2^64 - 1 or a base can't have the pairs; otherwise the only error is `OutOfMemory`.
pub fn next_base(world: &World) -> Result<Base, Refusal>
    ensures start { IfOk result (λ base. (base.point ≡ 0) × (base.run ≡ world.now.base.run + 1)) }
    ensures pairs { (history : History) → Stands world.now history → IfOk result (λ base. base.pairs ≡ after world.now.base.pairs world.now.log) }
    ensures refusals { IfErr result (λ e. (e ≡ Refusal.Full) ⊎ (e ≡ Refusal.OutOfMemory)) }
{
    let pairs = world.committed()?;
    if pairs.len() > MOST_FILE_ENTRIES {
        return Err(Refusal::Full);
    }
    match world.base().run().checked_add(1) {
        Some(run) => Ok(Base::start(run, pairs)),
        None => Err(Refusal::Full),
    }
}

/// A generation that has begun.
#[derive(Clone, Copy)]
pub struct Begun {
    /// Its number.
    pub generation: u32,
    /// Whether all older generations are removed that aren't kept, or why one isn't.
    pub removal: Result<(), Refusal>,
}

/// Begins the generation after the one that counts, if one does, with the text of this base and a log of its run without entries, and
/// then removes older ones, as `open_store` does.
pub fn begin_store<G: Generations>(
    alloc: Global,
    folders: &mut G,
    succession: Succession,
    base: &Base,
) -> Result<Begun, Refusal>
    ensures number { IfOk result (λ begun. begun.generation ≡ next_of succession.latest) }
    ensures begun { IsLatest (G.stands folders.old) succession.latest → OnOk result (CountsWith (G.stands folders.new) succession.latest base.now) }
    ensures cut_off { IsLatest (G.stands folders.old) succession.latest → OnErr result (IsOpeningCutOff (G.stands folders.old) (G.stands folders.new) succession.latest base.now) }
    ensures kept { KeepsBefore succession.keep (G.stands folders.old) (G.stands folders.new) (next_of succession.latest) }
    ensures unused { OnOk result (IsUnused (G.stands folders.old) (next_of succession.latest)) }
    ensures spared { IsSpared (G.stands folders.old) (G.stands folders.new) (next_of succession.latest) }
    ensures gone { IfOk result (λ begun. OnOk begun.removal (AreGone succession.keep (G.stands folders.new) (next_of succession.latest))) }
{
    match begin_texts(alloc, folders, succession.latest, base) {
        Ok(generation) => Ok(Begun {
            generation,
            removal: remove_older(alloc, folders, generation, succession.keep),
        }),
        Err(why) => Err(why),
    }
}

// Begins the generation after the one that counts with the text of the base and a log of its run without entries.
fn begin_texts<G: Generations>(
    alloc: Global,
    folders: &mut G,
    latest: Option<u32>,
    base: &Base,
) -> Result<u32, Refusal>
    ensures number { IfOk result (λ number. number ≡ next_of latest) }
    ensures has_base { OnOk result (HasBase (G.stands folders.new) (next_of latest)) }
    ensures begun { IsLatest (G.stands folders.old) latest → OnOk result (CountsWith (G.stands folders.new) latest base.now) }
    ensures cut_off { IsLatest (G.stands folders.old) latest → OnErr result (IsOpeningCutOff (G.stands folders.old) (G.stands folders.new) latest base.now) }
    ensures others { StayBut (G.stands folders.old) (G.stands folders.new) (next_of latest) }
    ensures unused { OnOk result (IsUnused (G.stands folders.old) (next_of latest)) }
    ensures spared { IsSpared (G.stands folders.old) (G.stands folders.new) (next_of latest) }
{
    let texts = match texts_of(alloc, base) {
        Ok(texts) => texts,
        Err(why) => return Err(why),
    };
    begin_generation(folders, latest, &texts.base, &texts.log)
}

// The texts of the files with which a generation begins.
#[derive(Drop)]
struct BeginningTexts {
    base: Vec<u8>,
    log: Vec<u8>,
}

// The texts of this base, and of a log of its run without entries.
fn texts_of(alloc: Global, base: &Base) -> Result<BeginningTexts, Refusal>
    ensures texts { IfOk result (λ texts. (texts.base.items ≡ base_text base.now) × (texts.log.items ≡ header_text base.now.run)) }
    ensures refusals { IfErr result (λ e. e ≡ Refusal.OutOfMemory) }
{
    match (base_bytes(alloc, base), header_bytes(alloc, base.run())) {
        (Some(base), Some(log)) => Ok(BeginningTexts { base, log }),
        _ => Err(Refusal::OutOfMemory),
    }
}

// The text of the base; `None` if an allocation failed.
fn base_bytes(alloc: Global, base: &Base) -> Option<Vec<u8>>
    ensures { IfSome result (λ bytes. bytes.items ≡ base_text base.now) }
{
    let mut out = Tally::new(Vec::new(alloc));
    match base.encode(&mut out) {
        Ok(()) => Some(out.into_inner()),
        Err(_) => None,
    }
}

// The header of a log of the run; `None` if an allocation failed.
fn header_bytes(alloc: Global, run: u64) -> Option<Vec<u8>>
    ensures { IfSome result (λ bytes. bytes.items ≡ header_text run) }
{
    let mut out = Tally::new(Vec::new(alloc));
    match encode_header(&mut out, run) {
        Ok(()) => Some(out.into_inner()),
        Err(_) => None,
    }
}
