//! Milestones of a store's history.
ghost use Rattle.std.specs.Prelude.{◌≡◌, IfSome};

use crate::name::StoreName;
use crate::noted::NotedStep;
use crate::seats::Witness;
use crate::sight::Sight;
use atomic_table::{Perch, Seat};
use std::marker::{Model, PhantomData};

// The state of a milestone's word: its witness is out, or it is there.
const OUT: u64 = 0;

const THERE: u64 = 2;

/// A moment of a store's history: a witness kept where all owners of the milestone can have it compared with the history.
/// Contracts see what it has seen, which stays the same.
#[derive(Drop)]
pub struct Milestone<N: StoreName> {
    perch: Perch<NotedStep, Sight>,
    name: PhantomData<N>,
}

impl<N: StoreName> Model for Milestone<N> {
    ghost use Rattle.std.specs.Prelude.{◌≡◌};
    ghost use Rattle.pc_model.specs.History.{History};
    ghost use Rattle.pc_tie.specs.declared.sight.Sight.TheVariants.{Front};
    ghost use Rattle.pc_tie.specs.Rules.{a_witness, hist_of};

    ghost Value = { History };

    ghost view = { λ m. hist_of m.perch.view };

    ghost invariant = { λ m. (m.perch.table_id ≡ N.name.table) × (m.perch.view ≡ Front a_witness (hist_of m.perch.view)) };
}

impl<N: StoreName> Milestone<N> {
    /// A milestone of what the witness has seen.
    pub fn new(witness: Witness<N>) -> Milestone<N>
        ensures { result ≡ witness }
    {
        let Witness { badge, name: _ } = witness;
        let seat: Seat<NotedStep, Sight> = badge.into_seat();
        let perch = Perch::new(&seat, OUT);
        let _given = perch.give(seat, OUT, THERE);
        Milestone {
            perch,
            name: PhantomData,
        }
    }

    // Its witness, if that is there.
    pub(crate) fn take(&self) -> Option<Witness<N>>
        ensures { IfSome result (λ witness. witness ≡ self.now) }
    {
        let (_, seat) = self.perch.take(OUT);
        match seat {
            Some(seat) => Some(Witness {
                badge: seat.into_badge(),
                name: PhantomData,
            }),
            None => None,
        }
    }

    // Its witness is put back.
    pub(crate) fn put_back(&self, witness: Witness<N>)
        requires { witness ≡ self.now }
    {
        let Witness { badge, name: _ } = witness;
        let seat: Seat<NotedStep, Sight> = badge.into_seat();
        let _given = self.perch.give(seat, OUT, THERE);
    }
}
