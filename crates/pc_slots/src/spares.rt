//! Boxes in which nothing is kept, for later writes.
ghost use Rattle.std.specs.Prelude.{◌≡◌, ◌-◌, IfOk, OnErr};
ghost use Rattle.pc_slots.specs.Slots.{nothing_aside};
ghost use Rattle.pc_slots.specs.Spares.{one_more_spare};

use crate::versions::{Aside, nothing_aside};
use pc_types::MOST_WRITES;
use std::alloc::{AllocError, Global};
use std::marker::Model;

/// Boxes in which nothing is kept, at most as many as a transaction writes keys. What is seen of them is how many there are.
#[derive(Drop)]
pub struct Spares {
    pub(crate) boxes: Vec<Box<Aside>>,
}

impl Model for Spares {
    ghost use Rattle.std.specs.Prelude.{◌≡◌, ℕ, All, vec_len, vec_capacity};
    ghost use Rattle.pc_types.specs.declared.limits.TheConstants.{MOST_WRITES};
    ghost use Rattle.pc_slots.specs.Slots.{nothing_aside};

    ghost Value = { ℕ };

    ghost view = { λ a. vec_len a.boxes };

    ghost invariant = { λ a. All (λ b. b.value ≡ nothing_aside) a.boxes.items × (vec_capacity a.boxes ≡ MOST_WRITES) };
}

impl Spares {
    /// No boxes yet; an error if an allocation fails.
    pub fn new(alloc: Global) -> Result<Spares, AllocError>
        ensures { IfOk result (λ spares. spares ≡ 0) }
    {
        let boxes = Vec::with_capacity(alloc, MOST_WRITES)?;
        Ok(Spares { boxes })
    }

    /// One of the boxes, or a new one if there is none; an error if there is none and an allocation failed.
    pub fn take_out(&mut self, alloc: Global) -> Result<Box<Aside>, AllocError>
        ensures blank { IfOk result (λ room. room.value ≡ nothing_aside) }
        ensures fewer { self.new ≡ self.old - 1 }
        ensures none { OnErr result (self.old ≡ 0) }
    {
        match self.boxes.pop() {
            Some(room) => Ok(room),
            None => Ok(Box::new(alloc, nothing_aside())?),
        }
    }

    /// Keeps the box for a later write; if there are as many as there may be it is dropped. It allocates no memory.
    pub fn put_back(&mut self, room: Box<Aside>)
        requires { room.value ≡ nothing_aside }
        ensures { self.new ≡ one_more_spare self.old }
    {
        if self.boxes.len() < MOST_WRITES {
            self.boxes.push_reserved(room);
        } else {
            drop(room);
        }
    }
}
