//! Parts that were handed out.
ghost use Rattle.std.specs.Prelude.{◌≡◌, ◌++◌, [], All, IfOk, IfErr, MatchBool, Some};
ghost use Rattle.pc_model.specs.Files.{joined_file};
ghost use Rattle.pc_model.specs.History.{log_of};
ghost use Rattle.pc_model.specs.Replies.{IsLegalHistory, join_causes};
ghost use Rattle.pc_model.specs.Standing.{IsOfItsPoints};
ghost use Rattle.pc_part.specs.Joins.{first_cause, IsRefusedBy};
ghost use Rattle.pc_latch.specs.Tickets.{BeginsWith, HaveGrown, IsRefusedJoin};

use pc_capture::SharedPart;
use pc_part::{Part, join};
use pc_tie::{Keeper, StoreName, Tie, Witness};
use pc_types::Refusal;
use std::alloc::Global;
use std::marker::Model;

/// A part of a store that was handed out, or a join of such parts. Contracts see its file, which is that of its points in every
/// legal history that begins with each history that the ticket's witnesses have seen.
#[derive(Drop)]
pub struct PartTicket<N: StoreName> {
    pub(crate) alloc: Global,
    pub(crate) part: SharedPart,
    pub(crate) witnesses: Vec<Witness<N>>,
}

impl<N: StoreName> Model for PartTicket<N> {
    ghost use Rattle.pc_model.specs.Files.{File};
    ghost use Rattle.pc_part.specs.Parts.{file_code};
    ghost use Rattle.pc_latch.specs.Tickets.{IsFileWorth};

    ghost Value = { File };

    ghost coded = { file_code };

    ghost view = { λ t. t.part };

    ghost invariant = { λ t. IsFileWorth N.name.setting t.witnesses.items t.part };
}

// The join of both parts.
fn join_shared(alloc: Global, a: &SharedPart, b: &SharedPart) -> Result<SharedPart, Refusal>
    ensures joined { IfOk result (λ part. part ≡ joined_file a.now b.now) }
    ensures refused { IsRefusedBy (first_cause (join_causes (Some a.now) (Some b.now))) result }
{
    let part = join(alloc, a.part(), b.part())?;
    SharedPart::new(alloc, part)
}

// Appends the second ones to the first. False if an allocation failed.
fn take_in<T>(first: &mut Vec<T>, second: &mut Vec<T>) -> bool
    ensures { MatchBool result (first.new.items ≡ first.old.items ++ second.old.items) ((first.new.items ≡ first.old.items) × (second.new.items ≡ second.old.items)) }
{
    first.append(second).is_ok()
}

// The witnesses see the current history, of which they had seen beginnings.
fn renew_all<N: StoreName>(tie: &Tie<N>, keeper: &mut Keeper<N>, witnesses: &mut Vec<Witness<N>>)
    requires { keeper.old.guests ≡ [] }
    ensures keeper { keeper.new ≡ keeper.old }
    ensures grown { HaveGrown witnesses.old.items witnesses.new.items }
    ensures had_seen { BeginsWith keeper.old.history witnesses.old.items }
{
    for k in 0..witnesses.len() {
        let witness = &mut witnesses[k];
        keeper.renew(tie, witness);
    }
}

/// The tickets' witnesses see the current history; in it each ticket's file is that of its points.
pub fn renew_tickets<N: StoreName>(
    tie: &Tie<N>,
    keeper: &mut Keeper<N>,
    tickets: &mut Vec<PartTicket<N>>,
)
    requires { keeper.old.guests ≡ [] }
    ensures tickets { tickets.new.items ≡ tickets.old.items }
    ensures keeper { keeper.new ≡ keeper.old }
    ensures worth { IsLegalHistory N.name.setting keeper.old.history → All (IsOfItsPoints N.name.setting.run N.name.setting.base (log_of keeper.old.history)) tickets.old.items }
{
    for k in 0..tickets.len() {
        let ticket = &mut tickets[k];
        ticket.renew(tie, keeper);
    }
}

impl<N: StoreName> PartTicket<N> {
    /// The part.
    pub fn part(&self) -> &Part
        ensures { result.now ≡ self.now }
    {
        self.part.part()
    }

    /// Takes out the part; others may own it too.
    pub fn into_part(self) -> SharedPart
        ensures { result ≡ self }
    {
        let PartTicket {
            alloc: _,
            part,
            witnesses: _,
        } = self;
        part
    }

    // Its witnesses see the current history.
    pub(crate) fn renew(&mut self, tie: &Tie<N>, keeper: &mut Keeper<N>)
        requires { keeper.old.guests ≡ [] }
        ensures same { self.new ≡ self.old }
        ensures keeper { keeper.new ≡ keeper.old }
        ensures worth { IsLegalHistory N.name.setting keeper.old.history → IsOfItsPoints N.name.setting.run N.name.setting.base (log_of keeper.old.history) self.old }
    {
        renew_all(tie, keeper, &mut self.witnesses);
    }

    /// The join of both: a ticket of the points of both. It doesn't take the latch. Its errors are those of the join of their
    /// parts, and `OutOfMemory`; then both are returned unchanged.
    pub fn join(
        self,
        other: PartTicket<N>,
    ) -> Result<PartTicket<N>, (Refusal, PartTicket<N>, PartTicket<N>)>
        ensures joined { IfOk result (λ t. t ≡ joined_file self other) }
        ensures back { IfErr result (λ r. (r.1 ≡ self) × (r.2 ≡ other)) }
        ensures refused { IfErr result (λ r. IsRefusedJoin (first_cause (join_causes (Some self) (Some other))) r.0) }
    {
        let mut first = self;
        let mut second = other;
        let part = match join_shared(first.alloc, &first.part, &second.part) {
            Ok(part) => part,
            Err(why) => return Err((why, first, second)),
        };
        if !take_in(&mut first.witnesses, &mut second.witnesses) {
            return Err((Refusal::OutOfMemory, first, second));
        }
        let PartTicket {
            alloc,
            part: _,
            witnesses,
        } = first;
        Ok(PartTicket {
            alloc,
            part,
            witnesses,
        })
    }
}
