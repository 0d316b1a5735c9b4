//! The sources of a recovery, given piece by piece.
ghost use Rattle.std.specs.Prelude.{◌≡◌, ◌⊎◌, [], None, true, false, length, map, IfOk, IfErr, IfSome, OnOk, OnErr};
ghost use Rattle.pc_types.specs.declared.refusal.Refusal.TheVariants.{OutOfMemory, BadKind};
ghost use Rattle.pc_io.specs.Fields.{Gives};
ghost use Rattle.pc_model.specs.Database.{KeysRise};
ghost use Rattle.pc_recover.specs.Recovery.{IsOfRun, recovery_of};
ghost use Rattle.pc_border.specs.Sources.{is_given, is_some, is_source, with_source, text_of, recovery_from, summary_of_recovery, fault_number};

use pc_recover::{Recovered, recover};
use pc_types::{Items, Refusal};
use pc_wire::codes::{BASE, LOG, PART};
use pc_wire::refusal_number;
use std::alloc::{AllocError, Global};

/// The result of a recovery, in numbers.
#[repr(C)]
#[derive(Clone, Copy)]
pub struct RecoverySummary {
    /// The number of the run.
    pub run: u64,
    /// The number of pairs.
    pub pairs: u64,
    /// How many whole entries the log has.
    pub entries: u64,
    /// The number of parts not used.
    pub skipped: u64,
    /// The point up to which parts are in it.
    pub point: u32,
    /// The fault of the bytes after the log's whole entries, by the number of its refusal; 0 if there are none.
    pub fault: u32,
}

/// The texts that a store is recovered from, as far as they were given: of a base, of parts and of a log.
#[derive(Drop)]
pub struct Sources {
    pub base: Option<Items<u8>>,
    pub parts: Items<Items<u8>>,
    pub log: Option<Items<u8>>,
}

impl Sources {
    /// Nothing was given. It allocates no memory.
    pub fn new(alloc: Global) -> Sources
        ensures { result ≡ record { base = None; parts = []; log = None } }
    {
        Sources {
            base: None,
            parts: Items::new(alloc),
            log: None,
        }
    }

    /// Whether anything was given, even if it has no bytes.
    pub fn is_given(&self) -> bool
        ensures { result ≡ is_given self.now }
    {
        is_some(&self.base) || !self.parts.as_slice().is_empty() || is_some(&self.log)
    }

    /// Keeps a copy of a text: the base's or the log's in place of what was given before, or a part's after those before. Returns
    /// `BadKind` if and only if it is called none of `BASE`, `PART` and `LOG`; otherwise the only error is `OutOfMemory`.
    pub fn give(&mut self, alloc: Global, what: u32, bytes: &[u8]) -> Result<(), Refusal>
        ensures given { OnOk result ((self.new ≡ with_source what self.old bytes.now) × (is_source what ≡ true)) }
        ensures refused { OnErr result (self.new ≡ self.old) }
        ensures refusals { IfErr result (λ why. ((why ≡ BadKind) × (is_source what ≡ false)) ⊎ ((why ≡ OutOfMemory) × (is_source what ≡ true))) }
    {
        if !is_source(what) {
            return Err(Refusal::BadKind);
        }
        match copied(alloc, bytes) {
            Some(copy) => self.keep(what, copy),
            None => Err(Refusal::OutOfMemory),
        }
    }

    fn keep(&mut self, what: u32, text: Items<u8>) -> Result<(), Refusal>
        ensures given { OnOk result (self.new ≡ with_source what self.old text) }
        ensures refused { OnErr result (self.new ≡ self.old) }
        ensures refusals { IfErr result (λ why. why ≡ OutOfMemory) }
    {
        match what {
            BASE => self.base = Some(text),
            PART => self.parts.push(text)?,
            _ => self.log = Some(text),
        }
        Ok(())
    }

    /// The state recovered from what was given, by the rules of `pc_recover` `recover`, whose refusals it has.
    pub fn recover(&self, alloc: Global) -> Result<Recovered, Refusal>
        ensures rules { Gives recovery_of result (recovery_from self.now) }
        ensures rise { IfOk result (λ recovered. KeysRise recovered.pairs.items) }
        ensures run { IfOk result (λ recovered. IsOfRun (text_of self.now.base) recovered.run) }
    {
        let parts = slices_of(alloc, self.parts.as_slice())?;
        recover(alloc, bytes_of(&self.base), &parts, bytes_of(&self.log))
    }
}

// Whether the text was given.
fn is_some(text: &Option<Items<u8>>) -> bool
    ensures { result ≡ is_some text.now }
{
    match text {
        Some(_) => true,
        None => false,
    }
}

// The bytes of the text; none if it wasn't given.
fn bytes_of(text: &Option<Items<u8>>) -> &[u8]
    ensures { result.now ≡ text_of text.now }
{
    match text {
        Some(bytes) => bytes.as_slice(),
        None => &[],
    }
}

// Whether a store is recovered from texts that are called so.
fn is_source(what: u32) -> bool
    ensures { result ≡ is_source what }
{
    what == BASE || what == PART || what == LOG
}

/// The bytes once more; `None` if an allocation failed.
pub(crate) fn copied(alloc: Global, bytes: &[u8]) -> Option<Items<u8>>
    ensures { IfSome result (λ copy. copy ≡ bytes.now) }
{
    let mut copy = Vec::new(alloc);
    match copy.extend_from_slice(bytes) {
        Ok(()) => Some(Items::from_vec(copy)),
        Err(_) => None,
    }
}

/// The result of a recovery, in numbers.
pub fn summary_of_recovery(found: &Recovered) -> RecoverySummary
    ensures { result ≡ summary_of_recovery found.now.run (recovery_of found.now) (length found.now.pairs.items) }
{
    let fault = fault_number(&found.fault);
    RecoverySummary {
        run: found.run,
        pairs: found.pairs.len() as u64,
        entries: found.entries as u64,
        skipped: found.skipped.len() as u64,
        point: u32::from(found.point.0),
        fault,
    }
}

// The number of the fault of a log's rest; 0 if there is none.
fn fault_number(fault: &Option<Refusal>) -> u32
    ensures { result ≡ fault_number fault.now }
{
    match fault {
        Some(why) => refusal_number(why),
        None => 0,
    }
}

// The bytes of the parts, in their order.
fn slices_of<'a>(alloc: Global, parts: &'a [Items<u8>]) -> Result<Vec<&'a [u8]>, AllocError>
    ensures { IfOk result (λ slices. map (λ slice. slice.now) slices.items ≡ parts.now) }
{
    let mut slices = Vec::new(alloc);
    for part in parts {
        slices.push(part.as_slice())?;
    }
    Ok(slices)
}
