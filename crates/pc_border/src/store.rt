//! A store at the border: open, or what it will be recovered from.
ghost use Rattle.std.specs.Prelude.{◌≡◌, [], None};
ghost use Rattle.pc_border.specs.Handled.{IsCallAnswered, IsTextShown, IsCopied, IsGivenTo, IsOpenedBy, IsRecoverySummary};
ghost use Rattle.pc_border.specs.declared.store.Store.TheVariants.{Gathering};

use crate::open_store::OpenStore;
use crate::opening::{Options, open_world};
use crate::sources::{RecoverySummary, Sources, summary_of_recovery};
use pc_types::Refusal;
use pc_wire::codes::{CLOSED, GIVEN, OPEN, OPENED};
use pc_wire::{Answer, Call, plain, refused};
use std::alloc::Global;

/// A store.
#[derive(Drop)]
pub enum Store {
    /// It isn't open yet: what it will be recovered from.
    Gathering(Sources),
    /// It is open.
    Open(OpenStore),
}

impl Store {
    /// A store that isn't open, and for which nothing was given. It allocates no memory.
    pub fn new(alloc: Global) -> Store
        ensures { result ≡ Gathering (record { base = None; parts = []; log = None }) }
    {
        Store::Gathering(Sources::new(alloc))
    }

    /// Adds a text to the sources of the store's recovery, as `Sources::give`: `GIVEN`, or the refusal. An open store takes none, and
    /// answers `OPEN`. Unless the answer is `GIVEN`, nothing is changed.
    pub fn give(&mut self, alloc: Global, what: u32, bytes: &[u8]) -> Answer
        ensures { IsGivenTo self.old what bytes.now result self.new }
    {
        match self {
            Store::Gathering(sources) => match sources.give(alloc, what, bytes) {
                Ok(()) => plain(GIVEN),
                Err(why) => refused(&why),
            },
            Store::Open(_) => plain(OPEN),
        }
    }

    /// The state recovered from what was given, by `Sources::recover`, or its refusal. For an open store it returns `WrongPhase`.
    pub fn recover(&self, alloc: Global) -> Result<RecoverySummary, Refusal>
        ensures { IsRecoverySummary self.now result }
    {
        match self {
            Store::Gathering(sources) => Ok(summary_of_recovery(&sources.recover(alloc)?)),
            Store::Open(_) => Err(Refusal::WrongPhase),
        }
    }

    /// Opens the store over what was given, as `open_world`: `OPENED`, or the refusal, and then what was given stays. One that is open
    /// answers `OPEN`, and stays as it is.
    pub fn open(&mut self, alloc: Global, options: &Options) -> Answer
        ensures { IsOpenedBy self.old options.now result self.new }
    {
        let world = match self {
            Store::Gathering(sources) => open_world(alloc, sources, options),
            Store::Open(_) => return plain(OPEN),
        };
        match world {
            Ok(world) => {
                *self = Store::Open(OpenStore::new(alloc, world));
                plain(OPENED)
            }
            Err(cause) => refused(&cause),
        }
    }

    /// Answers a call as `OpenStore::call` does; one that isn't open answers `CLOSED`.
    pub fn call(&mut self, alloc: Global, call: &Call, key: &[u8], value: &[u8]) -> Answer
        ensures { IsCallAnswered self.old call.now key.now value.now result self.new }
    {
        match self {
            Store::Gathering(_) => plain(CLOSED),
            Store::Open(store) => store.call(alloc, call, key, value),
        }
    }

    /// Shows a text as `OpenStore::show_text` does; one that isn't open answers `CLOSED`.
    pub fn show(&mut self, alloc: Global, what: u32, number: u32) -> Answer
        ensures { IsTextShown self.old what number result self.new }
    {
        match self {
            Store::Gathering(_) => plain(CLOSED),
            Store::Open(store) => store.show_text(alloc, what, number),
        }
    }

    /// Copies what was shown last as `Shown::copy_into` does; one that isn't open has shown nothing.
    pub fn copy_shown(&self, from: usize, key_room: &mut [u8], value_room: &mut [u8])
        ensures { IsCopied self.now from key_room.old key_room.new value_room.old value_room.new }
    {
        if let Store::Open(store) = self {
            store.shown.copy_into(from, key_room, value_room);
        }
    }
}
