//! The seats of sessions, of the checkpointer and of witnesses.
ghost use Rattle.std.specs.Prelude.{◌≡◌};
ghost use Rattle.pc_tie.specs.Rules.{a_witness, AreOfOne};
ghost use Rattle.pc_tie.specs.Seats.{IsSeatAt, IsSession, seat_of};

use crate::name::StoreName;
use crate::noted::NotedStep;
use crate::rule::Meet;
use crate::sight::Sight;
use crate::tie::Tie;
use atomic_table::{Badge, Seat};
use pc_types::SessionNo;
use std::marker::{Model, PhantomData};
use std::mem;

/// A session's seat at the word of its store. Contracts see its number and the history that it has seen, which is legal.
#[derive(Drop)]
pub struct SessionSeat<N: StoreName> {
    pub(crate) number: SessionNo,
    pub(crate) badge: Badge<Sight>,
    pub(crate) name: PhantomData<N>,
}

impl<N: StoreName> Model for SessionSeat<N> {
    ghost use Rattle.std.specs.Prelude.{◌≡◌};
    ghost use Rattle.pc_tie.specs.declared.sight.Sitting.{Sitting};
    ghost use Rattle.pc_tie.specs.Seats.{sitting_in, IsSeatAt, IsSession};

    ghost Value = { Sitting };

    ghost view = { λ s. sitting_in s.badge.views };

    ghost invariant = { λ s. IsSeatAt N.name.table s.badge × (s.number ≡ (sitting_in s.badge.views).number) × IsSession N.name.setting (sitting_in s.badge.views) };
}

impl<N: StoreName> SessionSeat<N> {
    /// The number of the session, one of the store's; and what it has seen is legal.
    pub fn number(&self) -> SessionNo
        ensures number { result ≡ self.now.number }
        ensures session { IsSession N.name.setting self.now }
    {
        self.number
    }

    /// Compares what the session has seen with what the witness has: both are prefixes of the store's one history. It needs no
    /// keeper.
    pub fn meet(&mut self, tie: &Tie<N>, witness: &mut Witness<N>)
        ensures same { (self.new ≡ self.old) × (witness.new ≡ witness.old) }
        ensures one { AreOfOne self.old.seen witness.old }
    {
        meet_at(tie, &mut self.badge, &mut witness.badge);
    }
}

// Compares what the seats of both badges have seen, of which the second is a witness's.
fn meet_at<N: StoreName>(tie: &Tie<N>, own: &mut Badge<Sight>, other: &mut Badge<Sight>)
    requires seats { IsSeatAt N.name.table own.old × IsSeatAt N.name.table other.old }
    requires witness { (seat_of other.old).number ≡ a_witness }
    ensures seats { IsSeatAt N.name.table own.new × IsSeatAt N.name.table other.new }
    ensures same { (seat_of own.new ≡ seat_of own.old) × (seat_of other.new ≡ seat_of other.old) }
    ensures one { AreOfOne (seat_of own.old).seen (seat_of other.old).seen }
{
    let mut seat: Seat<NotedStep, Sight> = mem::replace(own, Badge::blank()).into_seat();
    let witness: Seat<NotedStep, Sight> = mem::replace(other, Badge::blank()).into_seat();
    let shared = &tie.table.shared;
    shared.join_seat::<Meet>(&mut seat, witness);
    let _found = shared.load::<Meet>(&mut seat, 0);
    let parted = shared.split_seat::<Meet>(&mut seat);
    *other = parted.into_badge();
    *own = seat.into_badge();
}

/// The checkpointer's seat at the word of its store, which has one. Contracts see the history that it has seen, which is legal.
#[derive(Drop)]
pub struct CheckpointerSeat<N: StoreName> {
    pub(crate) badge: Badge<Sight>,
    pub(crate) name: PhantomData<N>,
}

impl<N: StoreName> Model for CheckpointerSeat<N> {
    ghost use Rattle.std.specs.Prelude.{◌≡◌};
    ghost use Rattle.pc_model.specs.History.{History};
    ghost use Rattle.pc_model.specs.Replies.{IsLegalHistory};
    ghost use Rattle.pc_tie.specs.Seats.{sitting_in, IsSeatAt};

    ghost Value = { History };

    ghost view = { λ c. (sitting_in c.badge.views).seen };

    ghost invariant = { λ c. IsSeatAt N.name.table c.badge × ((sitting_in c.badge.views).number ≡ 0) × IsLegalHistory N.name.setting (sitting_in c.badge.views).seen };
}

/// A seat of nobody who calls, which has seen a prefix of the history. Contracts see that.
#[derive(Drop)]
pub struct Witness<N: StoreName> {
    pub(crate) badge: Badge<Sight>,
    pub(crate) name: PhantomData<N>,
}

impl<N: StoreName> Model for Witness<N> {
    ghost use Rattle.std.specs.Prelude.{◌≡◌};
    ghost use Rattle.pc_model.specs.History.{History};
    ghost use Rattle.pc_tie.specs.Rules.{a_witness};
    ghost use Rattle.pc_tie.specs.Seats.{sitting_in, IsSeatAt};

    ghost Value = { History };

    ghost view = { λ w. (sitting_in w.badge.views).seen };

    ghost invariant = { λ w. IsSeatAt N.name.table w.badge × ((sitting_in w.badge.views).number ≡ a_witness) };
}
