//! A store that is asked one event after the other.

use pc_engine::World;
use pc_types::{Refusal, Reply};
use std::alloc::Global;
use test_support::{Ask, Sums, event_of};

/// A store, and the sums of what it replied.
#[derive(Drop)]
pub struct Asker {
    alloc: Global,
    world: World,
    sums: Sums,
}

impl Asker {
    /// Of a store that was asked nothing yet.
    pub fn new(alloc: Global, world: World) -> Asker {
        Asker {
            alloc,
            world,
            sums: Sums::new(alloc),
        }
    }

    /// Asks the event, and counts the reply.
    pub fn ask(&mut self, ask: Ask) -> Result<(), Refusal> {
        self.reply(ask)?;
        Ok(())
    }

    /// Asks the event, counts the reply, and returns it.
    pub fn reply(&mut self, ask: Ask) -> Result<Reply, Refusal> {
        let event = event_of(self.alloc, ask)?;
        let reply = self.world.step(&event);
        self.sums.note(&reply)?;
        Ok(reply)
    }

    /// Checks the store, and counts the check.
    pub fn check(&mut self) -> Result<(), Refusal> {
        let is_right = self.world.check()?;
        self.sums.note_check(is_right);
        Ok(())
    }

    /// The sums of all replies so far.
    pub fn into_sums(self) -> Sums {
        let Asker { sums, .. } = self;
        sums
    }
}
