//! A refusal that a reader answers from then on.
ghost use Rattle.std.specs.Prelude.{◌≡◌};
ghost use Rattle.pc_streams.specs.Refusals.{IsReadRefusal};

use pc_types::Refusal;
use std::marker::Model;

// A refusal of a reader: an allocation failed, its device failed, or its text has a fault. A contract sees which.
#[derive(Drop)]
pub(crate) struct KeptRefusal {
    why: Refusal,
}

impl Model for KeptRefusal {
    ghost use Rattle.pc_types.specs.declared.Refusal.{Refusal};
    ghost use Rattle.pc_streams.specs.Refusals.{IsReadRefusal};

    ghost Value = { Refusal };

    ghost view = { λ k. k.why };

    ghost invariant = { λ k. IsReadRefusal k.why };
}

impl KeptRefusal {
    pub(crate) fn new(why: Refusal) -> KeptRefusal
        requires { IsReadRefusal why }
        ensures { result ≡ why }
    {
        KeptRefusal { why }
    }

    pub(crate) fn why(&self) -> Refusal
        ensures same { result ≡ self.now }
        ensures refusal { IsReadRefusal self.now }
    {
        self.why
    }
}
