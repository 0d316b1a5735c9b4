//! The remains of a store that was closed.
ghost use Rattle.std.specs.Prelude.{◌≡◌, ◌≤◌, ◌++◌, All, MatchBool, length, map, take, vec_capacity};
ghost use Rattle.pc_model.specs.FewWrites.{HasFewWrites};
ghost use Rattle.pc_model.specs.Calls.{HasCallsOf};
ghost use Rattle.pc_model.specs.History.{log_of};
ghost use Rattle.pc_model.specs.Standing.{IsOfItsPoints};
ghost use Rattle.pc_kept_log.specs.Logs.{entries_of};
ghost use Rattle.pc_engine.specs.Stands.{Stands};
ghost use Rattle.pc_engine.specs.Store.{setting_of};
ghost use Rattle.pc_tie.specs.Seats.{IsSession, IsFrontOf, NoTwoAlike};
ghost use Rattle.pc_shared.specs.Sitters.{sitting_of, IsEndOf, IsSeated, IsSitterSettled, AreSittersApart, has_sitter, HasAll, LacksOne};
ghost use Rattle.pc_shared.specs.Lent.{receipt_at, AreLentBy};

use crate::session::{LentReceipt, Session};
use pc_bases::Base;
use pc_engine::World;
use pc_kept_log::Log;
use pc_latch::{Latched, LogPass, PartTicket, renew_tickets};
use pc_tie::{CheckpointerSeat, Keeper, StoreName, Tie, Witness};

/// The remains of a store that was closed.
#[derive(Drop)]
pub struct Closed<N: StoreName> {
    pub(crate) world: World,
    /// The number of log entries that were handed out.
    pub logged: usize,
    /// The sessions that were handed in, with their receipts.
    pub receipts: Vec<Session<N>>,
    /// The tickets that were handed in, with their parts.
    pub parts: Vec<PartTicket<N>>,
    /// Whether all sessions of the store were handed in.
    pub all: bool,
    ghost lends: { All (AreLentBy world.log) receipts.items },
}

impl<N: StoreName> Closed<N> {
    /// The base that the store started from.
    pub fn base(&self) -> &Base
        ensures { result.now ≡ self.now.world.base }
    {
        self.world.base()
    }

    /// The log.
    pub fn log(&self) -> &Log
        ensures log { entries_of result.now ≡ self.now.world.log }
        ensures few { All HasFewWrites (entries_of result.now) }
    {
        self.world.log()
    }

    /// The receipt of a commit of a session that was handed in: by the session's place among these, and the commit's place among
    /// the session's, both counted from 0; None if there is no such session or commit. It is exact: its number is that of the
    /// session's commit in the log, its writes are those of that entry, and its reads were correct right before it. It allocates
    /// nothing.
    pub fn receipt(&self, session: usize, place: usize) -> Option<LentReceipt<'_>>
        ensures { result ≡ receipt_at self.now.receipts.items session place }
    {
        match self.receipts.get(session) {
            Some(session) => session.receipt(self.log(), place),
            None => None,
        }
    }
}

// Compares the history with the history that each session has seen. Each session is taken out, and put back with its seat after
// those before it were compared too.
pub(crate) fn compare_all<N: StoreName>(
    tie: &Tie<N>,
    keeper: &mut Keeper<N>,
    sessions: &mut Vec<Session<N>>,
)
    requires { All (IsSession N.name.setting) keeper.old.guests }
    ensures sessions { sessions.new.items ≡ sessions.old.items }
    ensures capacity { vec_capacity sessions.new ≡ vec_capacity sessions.old }
    ensures keeper { keeper.new ≡ keeper.old }
    ensures seated { All IsSeated sessions.old.items }
    ensures fronts { All (IsFrontOf keeper.old.history) (map sitting_of sessions.old.items ++ keeper.old.guests) }
    ensures apart { NoTwoAlike (map sitting_of sessions.old.items ++ keeper.old.guests) }
{
    let Some(session) = sessions.pop() else {
        keeper.compare(tie);
        return;
    };
    let Session { seat, work } = session;
    let number = seat.number();
    keeper.take_in(tie, seat);
    compare_all(tie, keeper, sessions);
    let seat = keeper.give_back(tie, number);
    sessions.push_reserved(Session { seat, work });
}

// Whether a session of the number is in the list.
fn has_number<N: StoreName>(sessions: &[Session<N>], number: u32) -> bool
    ensures { result ≡ has_sitter sessions.now number }
{
    sessions.iter().any(|session| session.number().0 == number)
}

// Whether the sessions numbered 1 to count are in the list.
pub(crate) fn has_all<N: StoreName>(sessions: &[Session<N>], count: u8) -> bool
    ensures { MatchBool result (HasAll count sessions.now) (LacksOne count sessions.now) }
{
    for k in 0..count {
        let is_there = has_number(sessions, u32::from(k) + 1);
        if !is_there {
            return false;
        }
    }
    true
}

// What is handed in as a store is closed.
#[derive(Drop)]
pub(crate) struct HandedIn<N: StoreName> {
    pub(crate) sessions: Vec<Session<N>>,
    pub(crate) checkpointer: CheckpointerSeat<N>,
    pub(crate) tickets: Vec<PartTicket<N>>,
    pub(crate) pass: LogPass<N>,
}

// Compares the history with those that the sessions, the checkpointer, the tickets and the pass have seen.
pub(crate) fn close<N: StoreName>(
    tie: &Tie<N>,
    count: u8,
    latched: Latched<N>,
    handed: HandedIn<N>,
) -> Closed<N>
    ensures stands { Stands result.world latched × (setting_of result.world ≡ N.name.setting) }
    ensures receipts { result.receipts.items ≡ handed.sessions.items }
    ensures settled { All (IsSitterSettled N.name.setting latched) handed.sessions.items }
    ensures apart { AreSittersApart handed.sessions.items }
    ensures calls { HasCallsOf latched 0 handed.checkpointer }
    ensures parts { result.parts.items ≡ handed.tickets.items }
    ensures worth { All (IsOfItsPoints N.name.setting.run N.name.setting.base (log_of latched)) handed.tickets.items }
    ensures list { (handed.pass ≡ take result.logged (log_of latched)) × (result.logged ≤ length (log_of latched)) }
    ensures all { MatchBool result.all (HasAll count handed.sessions.items) (LacksOne count handed.sessions.items) }
{
    let (world, mut keeper) = latched.into_parts();
    let HandedIn {
        mut sessions,
        mut checkpointer,
        mut tickets,
        pass,
    } = handed;
    keeper.compare_own(tie, &mut checkpointer);
    compare_all(tie, &mut keeper, &mut sessions);
    renew_tickets(tie, &mut keeper, &mut tickets);
    let logged = pass.close(tie, &mut keeper);
    let all = has_all(sessions.as_slice(), count);
    Closed {
        world,
        logged,
        receipts: sessions,
        parts: tickets,
        all,
    }
}

// Compares the history with those that the sessions, the checkpointer and the witness have seen.
pub(crate) fn settle<N: StoreName>(
    tie: &Tie<N>,
    latched: Latched<N>,
    sessions: Vec<Session<N>>,
    checkpointer: CheckpointerSeat<N>,
    witness: Witness<N>,
)
    ensures { IsEndOf N.name.setting sessions.items checkpointer witness latched }
{
    let (_world, mut keeper) = latched.into_parts();
    let mut checkpointer = checkpointer;
    keeper.compare_own(tie, &mut checkpointer);
    let mut witness = witness;
    keeper.renew(tie, &mut witness);
    let mut sessions = sessions;
    compare_all(tie, &mut keeper, &mut sessions);
}
