//! The start of a store.
ghost use Rattle.std.specs.Prelude.{◌≡◌};

use pc_bases::Base;
use std::marker::Model;
use std::snapshot::Snapshot;

/// The start of a store: its base, the number of its sessions, and its capacity. Contracts see the setting of its run.
#[derive(Drop)]
pub struct Start {
    base: Snapshot<Base>,
    sessions: u8,
    capacity: u32,
}

impl Model for Start {
    ghost use Rattle.std.specs.Coded.{codes};
    ghost use Rattle.pc_model.specs.Database.{database_code};
    ghost use Rattle.pc_model.specs.Replies.{Setting};

    ghost Value = { Setting };

    ghost coded = { Prim.hlevel (codes, database_code) };

    ghost view = { λ s. record { run = s.base.value.run; base = s.base.value.pairs; sessions = s.sessions; capacity = s.capacity } };
}

impl Start {
    /// The start from this base, with this number of sessions and this capacity. Of the base nothing is copied.
    pub fn new(base: &Base, sessions: u8, capacity: u32) -> Start
        ensures { result ≡ record { run = base.now.run; base = base.now.pairs; sessions = sessions; capacity = capacity } }
    {
        Start {
            base: Snapshot::of(base),
            sessions,
            capacity,
        }
    }
}
