//! The state under the latch: the world, and the keeper of its history.
ghost use Rattle.std.specs.Prelude.{◌≡◌, ◌≤◌, ◌↔◌, ◌∷◌, ◌++◌, [], true, Err, Some, None, IfOk, IfErr, OnErr, length, drop};
ghost use mathlib.Core.List.{IsPrefix};
ghost use Rattle.pc_types.specs.declared.Event.TheVariants.{Take};
ghost use Rattle.pc_model.specs.Files.{file_at, shelf};
ghost use Rattle.pc_model.specs.History.{log_of, phase_of};
ghost use Rattle.pc_model.specs.Replies.{IsLegalHistory};
ghost use Rattle.pc_model.specs.Calls.{step_of, session_of, IsBeginning, HasCallsOf};
ghost use Rattle.pc_model.specs.SessionLaws.{IsNoJoin};
ghost use Rattle.pc_answers.specs.Replies.{take_reply};
ghost use Rattle.pc_engine.specs.Store.{setting_of};
ghost use Rattle.pc_engine.specs.Stands.{Stands};
ghost use Rattle.pc_latch.specs.Batches.{batch, HasEntries, IsNext};
ghost use Rattle.pc_engine.specs.Waiting.{waits_after};
ghost use Rattle.pc_latch.specs.Cycles.{next_event, IsCalled, IsAdvance, IsTakeCalled};
ghost use Rattle.pc_model.specs.Sets as set;
ghost use Rattle.pc_latch.specs.Tickets.{HasNoFile, IsNoTicket};

use crate::pass::{LogPass, LogTexts, next_of};
use crate::ticket::PartTicket;
use pc_answers::TakeAnswer;
use pc_engine::World;
use pc_tie::{CheckpointerSeat, Keeper, Milestone, NotedStep, StoreName, Tie, Witness};
use pc_types::{Event, FileNo, Phase, Refusal, Reply, SessionNo};
use std::alloc::Global;
use std::marker::Model;

/// The world of a shared store, and the keeper of its history. Contracts see the history, which the world represents.
#[derive(Drop)]
pub struct Latched<N: StoreName> {
    pub(crate) world: World,
    pub(crate) keeper: Keeper<N>,
}

impl<N: StoreName> Model for Latched<N> {
    ghost use Rattle.std.specs.Prelude.{◌≡◌, []};
    ghost use Rattle.pc_model.specs.History.{History};
    ghost use Rattle.pc_model.specs.SessionLaws.{HasNoJoins};
    ghost use Rattle.pc_engine.specs.Store.{setting_of};
    ghost use Rattle.pc_engine.specs.Stands.{Stands};

    ghost Value = { History };

    ghost view = { λ l. l.keeper.history };

    ghost invariant = { λ l. (l.keeper.guests ≡ []) × Stands l.world l.keeper.history × (setting_of l.world ≡ N.name.setting) × HasNoJoins l.keeper.history };
}

// The event that ends the phase.
fn next_event(phase: Phase) -> Event
    ensures { result ≡ next_event phase }
{
    match phase {
        Phase::Rest => Event::StartPoint,
        Phase::Prepare => Event::Seal,
        Phase::Resolve => Event::OpenCapture,
        Phase::Capture => Event::Done,
        Phase::Complete => Event::Rest,
    }
}

impl<N: StoreName> Latched<N> {
    /// A world in which nothing has happened, and the keeper of its history.
    pub fn new(world: World, keeper: Keeper<N>) -> Latched<N>
        requires keeper { (keeper.history ≡ []) × (keeper.guests ≡ []) }
        requires world { Stands world [] × (setting_of world ≡ N.name.setting) }
        ensures { result ≡ [] }
    {
        Latched { world, keeper }
    }

    /// Whether a request of the session's open transaction waits for a lock; false if it has none open, and if no session has this number.
    pub fn is_waiting(&self, session: SessionNo) -> bool
        ensures { result ≡ waits_after N.name.setting session self.now }
    {
        self.world.is_waiting(session)
    }

    // The checkpointer calls with the event.
    fn call_own(
        &mut self,
        tie: &Tie<N>,
        checkpointer: &mut CheckpointerSeat<N>,
        event: Event,
    ) -> Reply
        requires own { session_of event ≡ 0 }
        requires no_join { IsNoJoin event }
        ensures history { self.new ≡ step_of event result ∷ self.old }
        ensures knew { HasCallsOf self.old 0 checkpointer.old }
        ensures called { IsCalled N.name.setting checkpointer.old event result checkpointer.new }
    {
        let before = self.world.log().len() as u64;
        let reply = self.world.step(&event);
        let after = self.world.log().len() as u64;
        let step = NotedStep::of(&event, &reply);
        self.keeper
            .note_own(tie, checkpointer, before, after, &step);
        drop(event);
        reply
    }

    /// The checkpointer calls with the event that ends the phase.
    pub fn advance(&mut self, tie: &Tie<N>, checkpointer: &mut CheckpointerSeat<N>) -> Reply
        ensures history { self.new ≡ step_of (next_event (phase_of self.old)) result ∷ self.old }
        ensures called { IsAdvance N.name.setting checkpointer.old result checkpointer.new }
    {
        let event = next_event(self.world.phase());
        self.call_own(tie, checkpointer, event)
    }

    /// The checkpointer takes one key of the point.
    pub fn take(
        &mut self,
        tie: &Tie<N>,
        checkpointer: &mut CheckpointerSeat<N>,
    ) -> Result<TakeAnswer, Refusal>
        ensures history { self.new ≡ step_of Take (take_reply result) ∷ self.old }
        ensures called { IsTakeCalled N.name.setting checkpointer.old (take_reply result) checkpointer.new }
    {
        let before = self.world.log().len() as u64;
        let answer = self.world.take();
        let after = self.world.log().len() as u64;
        let step = NotedStep::take(&answer);
        self.keeper
            .note_own(tie, checkpointer, before, after, &step);
        answer
    }

    /// The texts of the next entries of the log after those that the pass has handed out, until they have `room` bytes, which the
    /// last one may exceed; the pass then has them too. Its only error is `OutOfMemory`, and then the pass is unchanged.
    pub fn log_next(
        &mut self,
        alloc: Global,
        tie: &Tie<N>,
        pass: &mut LogPass<N>,
        room: u32,
    ) -> Result<LogTexts, Refusal>
        ensures held { self.new ≡ self.old }
        ensures list { IfOk result (λ next. pass.new ≡ pass.old ++ batch room (drop (length pass.old) (log_of self.old))) }
        ensures first { IfOk result (λ next. IsPrefix pass.new (log_of self.old)) }
        ensures next { IfOk result (λ next. IsNext room pass.old pass.new next.text.items next.count) }
        ensures same { OnErr result (pass.new ≡ pass.old) }
        ensures memory { IfErr result (λ e. e ≡ Refusal.OutOfMemory) }
    {
        self.keeper.renew(tie, &mut pass.witness);
        let next = match next_of(alloc, self.world.log(), pass.count, room) {
            Ok(next) => next,
            Err(why) => return Err(why),
        };
        pass.count += next.count;
        Ok(next)
    }

    /// Whether the pass has handed out all entries of the log: then it has each that the log had at the milestone. False too if
    /// another thread is comparing the milestone.
    pub fn has_all(&mut self, tie: &Tie<N>, pass: &mut LogPass<N>, milestone: &Milestone<N>) -> bool
        ensures held { self.new ≡ self.old }
        ensures same { pass.new ≡ pass.old }
        ensures all { result ≡ true → IsPrefix (log_of milestone.now) pass.old }
    {
        pass.renew(tie, &mut self.keeper);
        if pass.len() < self.world.log().len() {
            return false;
        }
        self.keeper.compare_milestone(tie, milestone)
    }

    /// The number of the log's entries, at most 16,777,216.
    pub fn log_len(&self) -> u32
        ensures len { result ≡ length (log_of self.now) }
        ensures legal { HasEntries N.name.setting result }
    {
        self.world.log().len() as u32
    }

    /// The number of the log's entries, for the checkpointer, which has seen a beginning of the history: no fewer than it has seen.
    pub fn log_len_since(&mut self, tie: &Tie<N>, checkpointer: &mut CheckpointerSeat<N>) -> u32
        ensures same { (self.new ≡ self.old) × (checkpointer.new ≡ checkpointer.old) }
        ensures len { result ≡ length (log_of self.old) }
        ensures had_seen { IsBeginning checkpointer.old self.old }
        ensures seen { length (log_of checkpointer.old) ≤ result }
        ensures legal { HasEntries N.name.setting result }
    {
        self.keeper.compare_own(tie, checkpointer);
        self.log_len()
    }

    /// The world, which represents the history, and the keeper of the history.
    pub fn into_parts(self) -> (World, Keeper<N>)
        ensures stands { Stands result.0 self × (setting_of result.0 ≡ N.name.setting) }
        ensures keeper { (result.1.history ≡ self) × (result.1.guests ≡ []) }
    {
        let Latched { world, keeper } = self;
        (world, keeper)
    }

    // A ticket of the shelf's file of this number.
    fn ticket(
        &mut self,
        alloc: Global,
        tie: &Tie<N>,
        number: FileNo,
    ) -> Result<PartTicket<N>, Refusal>
        ensures same { self.new ≡ self.old }
        ensures file { IfOk result (λ t. file_at (shelf N.name.setting.run self.old) number ≡ Some t) }
        ensures point { IfOk result (λ t. t.points ≡ set.insert set.empty number) }
        ensures refused { IfErr result (IsNoTicket N.name.setting self.old number) }
        ensures none { HasNoFile N.name.setting self.old number → result ≡ Err Refusal.NoFile }
    {
        let part = match self.world.hand_out(number) {
            Ok(part) => part,
            Err(why) => return Err(why),
        };
        let mut witnesses = Vec::new(alloc);
        if witnesses.reserve(1).is_err() {
            return Err(Refusal::OutOfMemory);
        }
        witnesses.push_reserved(self.keeper.witness(tie));
        Ok(PartTicket {
            alloc,
            part,
            witnesses,
        })
    }

    /// A ticket of the shelf's file of this number, for the checkpointer, which knows the shelf. Returns `NoFile` if and only if
    /// there is none; otherwise its only error is `OutOfMemory`.
    pub fn take_part(
        &mut self,
        alloc: Global,
        tie: &Tie<N>,
        checkpointer: &mut CheckpointerSeat<N>,
        number: FileNo,
    ) -> Result<PartTicket<N>, Refusal>
        ensures same { (self.new ≡ self.old) × (checkpointer.new ≡ checkpointer.old) }
        ensures file { IfOk result (λ t. file_at (shelf N.name.setting.run checkpointer.old) number ≡ Some t) }
        ensures point { IfOk result (λ t. t.points ≡ set.insert set.empty number) }
        ensures refused { IfErr result (IsNoTicket N.name.setting checkpointer.old number) }
        ensures none { HasNoFile N.name.setting checkpointer.old number → result ≡ Err Refusal.NoFile }
    {
        self.keeper.compare_own(tie, checkpointer);
        self.ticket(alloc, tie, number)
    }

    /// A ticket of the shelf's file of this number, for the owner of the witness, which then has seen the history. Returns `NoFile`
    /// if and only if there is none; otherwise its only error is `OutOfMemory`.
    pub fn take_shown(
        &mut self,
        alloc: Global,
        tie: &Tie<N>,
        witness: &mut Witness<N>,
        number: FileNo,
    ) -> Result<PartTicket<N>, Refusal>
        ensures same { self.new ≡ self.old }
        ensures sees { witness.new ≡ self.old }
        ensures had_seen { IsBeginning witness.old witness.new }
        ensures legal { IsLegalHistory N.name.setting witness.new }
        ensures file { IfOk result (λ t. file_at (shelf N.name.setting.run witness.new) number ≡ Some t) }
        ensures point { IfOk result (λ t. t.points ≡ set.insert set.empty number) }
        ensures refused { IfErr result (IsNoTicket N.name.setting witness.new number) }
        ensures none { HasNoFile N.name.setting witness.new number → result ≡ Err Refusal.NoFile }
    {
        self.renew(tie, witness);
        self.ticket(alloc, tie, number)
    }

    // The witness now sees the current history, of which it had seen a beginning.
    fn renew(&mut self, tie: &Tie<N>, witness: &mut Witness<N>)
        ensures same { self.new ≡ self.old }
        ensures sees { witness.new ≡ self.old }
        ensures had_seen { IsBeginning witness.old witness.new }
        ensures legal { IsLegalHistory N.name.setting witness.new }
    {
        self.keeper.renew(tie, witness);
    }

    /// A milestone of the current history, which the witness then has seen.
    pub fn milestone(&mut self, tie: &Tie<N>, witness: &mut Witness<N>) -> Milestone<N>
        ensures same { self.new ≡ self.old }
        ensures history { result ≡ witness.new }
        ensures sees { witness.new ≡ self.old }
        ensures had_seen { IsBeginning witness.old witness.new }
        ensures legal { IsLegalHistory N.name.setting witness.new }
    {
        self.renew(tie, witness);
        Milestone::new(self.witness(tie))
    }

    /// A witness that has seen the current history.
    pub fn witness(&mut self, tie: &Tie<N>) -> Witness<N>
        ensures same { self.new ≡ self.old }
        ensures witness { result ≡ self.old }
        ensures legal { IsLegalHistory N.name.setting result }
    {
        self.keeper.witness(tie)
    }
}
