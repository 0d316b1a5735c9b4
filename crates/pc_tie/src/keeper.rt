//! The dealer of a store's seats, and the keeper of its history.
ghost use Rattle.std.specs.Prelude.{◌≡◌, ◌<◌, ◌≤◌, ◌+◌, ◌∷◌, [], true, All, List, length};
ghost use Rattle.pc_types.specs.declared.limits.TheConstants.{MOST_SESSIONS};
ghost use Rattle.pc_model.specs.History.{log_of};
ghost use Rattle.pc_model.specs.Replies.{IsLegalHistory};
ghost use Rattle.pc_model.specs.Calls.{session_of, IsBeginning, HasCallsOf};
ghost use Rattle.pc_tie.specs.declared.sight.Sitting.{Sitting};
ghost use Rattle.pc_tie.specs.declared.sight.Sight.TheVariants.{Whole};
ghost use Rattle.pc_tie.specs.Rules.{a_witness, Speaks, sitting, sight_after, IsStepOfGuest, guests_after, KnewFirst, AreTold};
ghost use Rattle.pc_tie.specs.Seats.{meeting, sitting_in, seat_of, seat_number, seen_at, IsSeatAt, IsSession, MovesOn, first_number, NoTwoAlike, HasOwnCalls, IsFrontOf};

use crate::milestone::Milestone;
use crate::name::StoreName;
use crate::noted::NotedStep;
use crate::rule::{Append, Compare, Deal, Show, Visit};
use crate::seats::{CheckpointerSeat, SessionSeat, Witness};
use crate::sight::Sight;
use crate::tie::Tie;
use atomic_table::{Badge, Seat};
use pc_types::SessionNo;
use std::marker::{Model, PhantomData};
use std::mem;

/// The keeper of a store's history. Contracts see the history, how many seats were dealt, and those that it has taken in.
#[derive(Drop)]
pub struct Keeper<N: StoreName> {
    seat: Seat<NotedStep, Sight>,
    name: PhantomData<N>,
}

impl<N: StoreName> Model for Keeper<N> {
    ghost use Rattle.std.specs.Prelude.{◌≡◌, []};
    ghost use Rattle.pc_tie.specs.declared.sight.Sight.TheVariants.{Whole};
    ghost use Rattle.pc_tie.specs.Rules.{hist_of, dealt_of, guests_of};
    ghost use Rattle.pc_tie.specs.Seats.{KeeperView, meeting};

    ghost Value = { KeeperView };

    ghost view = { λ k. meeting (hist_of k.seat.me.0) (dealt_of k.seat.me.0) (guests_of k.seat.me.0) };

    ghost invariant = { λ k. (k.seat.table_id ≡ N.name.table) × (k.seat.me ≡ (Whole (hist_of k.seat.me.0) (dealt_of k.seat.me.0) (guests_of k.seat.me.0), [])) };
}

/// Deals the seats of a store in which nothing has happened. Contracts see how many sessions' seats it has dealt.
#[derive(Drop)]
pub struct Dealer<N: StoreName> {
    keeper: Keeper<N>,
    dealt: u8,
}

impl<N: StoreName> Model for Dealer<N> {
    ghost use Rattle.std.specs.Prelude.{◌≡◌, ◌+◌, ℕ, []};
    ghost use Rattle.pc_tie.specs.Seats.{meeting};

    ghost Value = { ℕ };

    ghost view = { λ d. d.dealt };

    ghost invariant = { λ d. d.keeper ≡ meeting [] (d.dealt + 1) [] };
}

// The checkpointer's seat at a new word, and who deals the others.
pub(crate) fn deal_first<N: StoreName>(
    tie: &Tie<N>,
    seat: Seat<NotedStep, Sight>,
) -> (CheckpointerSeat<N>, Dealer<N>)
    requires { (seat.table_id ≡ N.name.table) × (seat.me ≡ (Whole [] 0 [], [])) }
    ensures checkpointer { result.0 ≡ [] }
    ensures dealer { result.1 ≡ 0 }
{
    let mut keeper = Keeper {
        seat,
        name: PhantomData,
    };
    let badge = keeper.deal(tie);
    let checkpointer = CheckpointerSeat {
        badge,
        name: PhantomData,
    };
    (checkpointer, Dealer { keeper, dealt: 0 })
}

impl<N: StoreName> Dealer<N> {
    /// The seat of the next session, which has seen nothing.
    pub fn deal(&mut self, tie: &Tie<N>) -> SessionSeat<N>
        requires { (self.old < MOST_SESSIONS) × (self.old < N.name.setting.sessions) }
        ensures dealt { self.new ≡ self.old + 1 }
        ensures seat { result ≡ sitting (self.old + 1) [] }
    {
        let badge = self.keeper.deal(tie);
        self.dealt += 1;
        SessionSeat {
            number: SessionNo(u32::from(self.dealt)),
            badge,
            name: PhantomData,
        }
    }

    /// A witness that nothing has happened.
    pub fn witness(&mut self, tie: &Tie<N>) -> Witness<N>
        ensures same { self.new ≡ self.old }
        ensures witness { result ≡ [] }
    {
        self.keeper.witness(tie)
    }

    /// The keeper of the history, which is empty.
    pub fn into_keeper(self) -> Keeper<N>
        ensures { result ≡ meeting [] (self + 1) [] }
    {
        let Dealer { keeper, dealt: _ } = self;
        keeper
    }
}

impl<N: StoreName> Keeper<N> {
    // The next seat.
    fn deal(&mut self, tie: &Tie<N>) -> Badge<Sight>
        requires new { (self.old.history ≡ []) × (self.old.guests ≡ []) }
        requires speaks { Speaks self.old.dealt }
        ensures keeper { self.new ≡ meeting [] (self.old.dealt + 1) [] }
        ensures seat { IsSeatAt N.name.table result }
        ensures sitting { sitting_in result.views ≡ sitting self.old.dealt [] }
    {
        tie.table
            .shared
            .split_seat::<Deal>(&mut self.seat)
            .into_badge()
    }

    // Takes a seat in.
    fn enter(&mut self, tie: &Tie<N>, badge: Badge<Sight>)
        requires { IsSeatAt N.name.table badge }
        ensures { self.new ≡ meeting self.old.history self.old.dealt (sitting_in badge.views ∷ self.old.guests) }
    {
        tie.table
            .shared
            .join_seat::<Visit>(&mut self.seat, badge.into_seat());
    }

    // The seat leaves that came last.
    fn leave(&mut self, tie: &Tie<N>) -> Badge<Sight>
        requires { (guest : Sitting) × (others : List Sitting) × (self.old.guests ≡ guest ∷ others) }
        ensures keeper { self.new ≡ meeting self.old.history self.old.dealt self.new.guests }
        ensures guests { self.old.guests ≡ sitting_in result.views ∷ self.new.guests }
        ensures seat { IsSeatAt N.name.table result }
    {
        tie.table
            .shared
            .split_seat::<Visit>(&mut self.seat)
            .into_badge()
    }

    // A witness of the history leaves, in place of all seats that were taken in.
    fn show(&mut self, tie: &Tie<N>) -> Badge<Sight>
        ensures keeper { self.new ≡ meeting self.old.history self.old.dealt [] }
        ensures seat { IsSeatAt N.name.table result }
        ensures sitting { sitting_in result.views ≡ sitting a_witness self.old.history }
    {
        tie.table
            .shared
            .split_seat::<Show>(&mut self.seat)
            .into_badge()
    }

    // Looks at what the seats that were taken in had seen.
    fn look(&mut self, tie: &Tie<N>)
        ensures keeper { self.new ≡ self.old }
        ensures told { AreTold self.old.history self.old.guests }
    {
        let _found = tie.table.shared.load::<Compare>(&mut self.seat, 0);
    }

    // Adds a step of the one seat that was taken in to the history. `before` and `after` are the numbers of entries of the log.
    fn append(&mut self, tie: &Tie<N>, before: u64, after: u64, step: &NotedStep)
        requires asked { IsStepOfGuest step.now self.old.guests }
        requires legal { IsLegalHistory N.name.setting (step.now ∷ self.old.history) }
        requires before { before ≡ length (log_of self.old.history) }
        requires after { after ≡ length (log_of (step.now ∷ self.old.history)) }
        ensures keeper { self.new ≡ meeting (step.now ∷ self.old.history) self.old.dealt (guests_after step.now self.old.history self.old.guests) }
        ensures knew { KnewFirst self.old.history self.old.guests }
    {
        let _found = tie
            .table
            .shared
            .compare_exchange_with::<Append>(&mut self.seat, 0, before, after, step);
    }

    // Adds a step of the badge's seat to the history, and the seat moves on by it.
    fn note_at(
        &mut self,
        tie: &Tie<N>,
        badge: &mut Badge<Sight>,
        before: u64,
        after: u64,
        step: &NotedStep,
    )
        requires alone { self.old.guests ≡ [] }
        requires seat { IsSeatAt N.name.table badge.old }
        requires speaks { Speaks (seat_number badge.old) }
        requires own { session_of step.now.event ≡ seat_number badge.old }
        requires legal { IsLegalHistory N.name.setting (step.now ∷ self.old.history) }
        requires before { before ≡ length (log_of self.old.history) }
        requires after { after ≡ length (log_of (step.now ∷ self.old.history)) }
        ensures keeper { self.new ≡ meeting (step.now ∷ self.old.history) self.old.dealt [] }
        ensures seat { IsSeatAt N.name.table badge.new }
        ensures number { seat_number badge.new ≡ seat_number badge.old }
        ensures sees { seen_at badge.new ≡ sight_after step.now self.old.history (seen_at badge.old) }
        ensures moves { MovesOn N.name.setting (seen_at badge.old) step.now (seen_at badge.new) }
        ensures knew { HasOwnCalls self.old.history (seat_of badge.old) }
    {
        let own = mem::replace(badge, Badge::blank());
        self.enter(tie, own);
        self.append(tie, before, after, step);
        *badge = self.leave(tie);
    }

    /// Adds a step of the session to the history. `before` and `after` are the numbers of entries of the log.
    pub fn note(
        &mut self,
        tie: &Tie<N>,
        session: &mut SessionSeat<N>,
        before: u64,
        after: u64,
        step: &NotedStep,
    )
        requires alone { self.old.guests ≡ [] }
        requires own { session_of step.now.event ≡ session.old.number }
        requires legal { IsLegalHistory N.name.setting (step.now ∷ self.old.history) }
        requires before { before ≡ length (log_of self.old.history) }
        requires after { after ≡ length (log_of (step.now ∷ self.old.history)) }
        ensures keeper { self.new ≡ meeting (step.now ∷ self.old.history) self.old.dealt [] }
        ensures number { session.new.number ≡ session.old.number }
        ensures moves { MovesOn N.name.setting session.old.seen step.now session.new.seen }
        ensures knew { HasCallsOf self.old.history session.old.number session.old.seen }
    {
        self.note_at(tie, &mut session.badge, before, after, step);
    }

    /// Adds a step of the checkpointer to the history. `before` and `after` are the numbers of entries of the log.
    pub fn note_own(
        &mut self,
        tie: &Tie<N>,
        checkpointer: &mut CheckpointerSeat<N>,
        before: u64,
        after: u64,
        step: &NotedStep,
    )
        requires alone { self.old.guests ≡ [] }
        requires own { session_of step.now.event ≡ 0 }
        requires legal { IsLegalHistory N.name.setting (step.now ∷ self.old.history) }
        requires before { before ≡ length (log_of self.old.history) }
        requires after { after ≡ length (log_of (step.now ∷ self.old.history)) }
        ensures keeper { self.new ≡ meeting (step.now ∷ self.old.history) self.old.dealt [] }
        ensures sees { checkpointer.new ≡ sight_after step.now self.old.history checkpointer.old }
        ensures moves { MovesOn N.name.setting checkpointer.old step.now checkpointer.new }
        ensures knew { HasCallsOf self.old.history 0 checkpointer.old }
    {
        self.note_at(tie, &mut checkpointer.badge, before, after, step);
    }

    /// Compares the history with what the checkpointer has seen: a prefix of it, with all calls of the checkpointer.
    pub fn compare_own(&mut self, tie: &Tie<N>, checkpointer: &mut CheckpointerSeat<N>)
        requires alone { self.old.guests ≡ [] }
        ensures same { (self.new ≡ self.old) × (checkpointer.new ≡ checkpointer.old) }
        ensures knew { HasCallsOf self.old.history 0 checkpointer.old }
    {
        let badge = mem::replace(&mut checkpointer.badge, Badge::blank());
        self.enter(tie, badge);
        self.look(tie);
        checkpointer.badge = self.leave(tie);
    }

    /// A witness that has seen the history as it is.
    pub fn witness(&mut self, tie: &Tie<N>) -> Witness<N>
        requires alone { self.old.guests ≡ [] }
        ensures same { self.new ≡ self.old }
        ensures witness { result ≡ self.old.history }
    {
        Witness {
            badge: self.show(tie),
            name: PhantomData,
        }
    }

    /// The witness sees the history as it is, of which it had seen a prefix.
    pub fn renew(&mut self, tie: &Tie<N>, witness: &mut Witness<N>)
        requires alone { self.old.guests ≡ [] }
        ensures same { self.new ≡ self.old }
        ensures sees { witness.new ≡ self.old.history }
        ensures had_seen { IsBeginning witness.old self.old.history }
    {
        let badge = mem::replace(&mut witness.badge, Badge::blank());
        self.enter(tie, badge);
        self.look(tie);
        witness.badge = self.show(tie);
    }

    // Compares the history with what the witness has seen: a prefix of it.
    fn compare_witness(&mut self, tie: &Tie<N>, witness: &mut Witness<N>)
        requires alone { self.old.guests ≡ [] }
        ensures same { (self.new ≡ self.old) × (witness.new ≡ witness.old) }
        ensures had_seen { IsBeginning witness.old self.old.history }
    {
        let badge = mem::replace(&mut witness.badge, Badge::blank());
        self.enter(tie, badge);
        self.look(tie);
        witness.badge = self.leave(tie);
    }

    /// Compares the history with what the milestone has seen: a prefix of it. False if its witness isn't there, since another
    /// thread is comparing it; then nothing is learnt.
    pub fn compare_milestone(&mut self, tie: &Tie<N>, milestone: &Milestone<N>) -> bool
        requires alone { self.old.guests ≡ [] }
        ensures same { self.new ≡ self.old }
        ensures had_seen { result ≡ true → IsBeginning milestone.now self.old.history }
    {
        let Some(mut witness) = milestone.take() else {
            return false;
        };
        self.compare_witness(tie, &mut witness);
        milestone.put_back(witness);
        true
    }

    /// Takes a session's seat in.
    pub fn take_in(&mut self, tie: &Tie<N>, session: SessionSeat<N>)
        ensures { self.new ≡ meeting self.old.history self.old.dealt (session ∷ self.old.guests) }
    {
        let SessionSeat {
            number: _,
            badge,
            name: _,
        } = session;
        self.enter(tie, badge);
    }

    /// Returns the seat that was taken in last, which is the one of the session of this number.
    pub fn give_back(&mut self, tie: &Tie<N>, number: SessionNo) -> SessionSeat<N>
        requires first { first_number self.old.guests ≡ number }
        requires session { All (IsSession N.name.setting) self.old.guests }
        requires some { (guest : Sitting) × (others : List Sitting) × (self.old.guests ≡ guest ∷ others) }
        ensures keeper { self.new ≡ meeting self.old.history self.old.dealt self.new.guests }
        ensures guests { self.old.guests ≡ result ∷ self.new.guests }
    {
        let badge = self.leave(tie);
        SessionSeat {
            number,
            badge,
            name: PhantomData,
        }
    }

    /// Compares the history with what the seats that were taken in had seen: each a prefix of it, with all of its session's
    /// calls; and no two are of one session.
    pub fn compare(&mut self, tie: &Tie<N>)
        ensures same { self.new ≡ self.old }
        ensures fronts { All (IsFrontOf self.old.history) self.old.guests }
        ensures apart { NoTwoAlike self.old.guests }
    {
        self.look(tie);
    }
}
