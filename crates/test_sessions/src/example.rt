//! An example of the library: two sessions on threads of their own, a concurrent checkpointer and collapser, and then a logger,
//! over one store from its opening to its close.
ghost use Rattle.std.specs.Prelude.{◌≡◌, ℕ, List, []};
ghost use Rattle.pc_types.specs.declared.Phase.TheVariants.{Rest};
ghost use Rattle.pc_model.specs.History.{phase_of};
ghost use Rattle.pc_board.specs.Passes.{IsOfBoard};

use crate::logged::TextOfLog;
use crate::receipts::count_of;
use crate::writers::Desk;
use pc_board::{Board, BoardPass};
use pc_shared::{CheckpointerSeat, Closed, LogPass, Opened, PartTicket, Session};
use pc_tie::StoreName;
use pc_types::{OpenGate, Point, Refusal};
use pc_workers::checkpoint_loop;
use std::alloc::Global;
use std::sync::Wait;
use std::thread::{Threads, join};

// The number of points taken while the clients run.
const POINTS: u32 = 3;

/// What the threads leave.
#[derive(Drop)]
pub struct Example {
    /// The number of transactions committed.
    pub commits: u64,
    /// The number of receipts that the sessions have.
    pub receipts: usize,
    /// The number of entries that the log has.
    pub entries: usize,
    /// The number of parts.
    pub parts: usize,
    /// The last point of the first part, if that has all points from the first on; otherwise 0.
    pub complete_to: u16,
    /// Whether every session is there.
    pub all: bool,
    /// Whether what the logger wrote is the text of the log.
    pub is_logged: bool,
}

/// Two sessions commit on threads of their own, while points are taken on a third one and their files are joined on a fourth. Then
/// the log is written, and one more transaction is committed after the logger.
pub fn use_store<N: StoreName + Send + Sync, R: Threads + Wait + Sync>(
    rt: &R,
    alloc: Global,
    opened: Opened,
) -> Result<Example, Refusal>
    requires name { opened ≡ N.name }
    requires counts { (text : List ℕ) → N.out text }
{
    let (shared, mut sessions, mut seat, mut pass) = opened.named::<N>()?;
    let mut text = TextOfLog::<N>::new(alloc);
    let desk = Desk {
        rt,
        alloc,
        shared: &shared,
    };
    let done = desk.run_threads(&mut seat, &mut sessions, &mut pass, &mut text)?;
    let closed = shared.close(sessions, seat, done.tickets, pass);
    text.write_rest(&closed)?;
    let is_logged = text.is_of(alloc, &closed)?;
    Ok(left_by(done.commits, &closed, is_logged))
}

// What was done before the close.
#[derive(Drop)]
struct Done<N: StoreName> {
    commits: u64,
    tickets: Vec<PartTicket<N>>,
}

impl<'a, N: StoreName + Send + Sync, R: Threads + Wait + Sync> Desk<'a, N, R> {
    // The threads run, and then the logger; after it one more transaction is committed.
    fn run_threads(
        &self,
        seat: &mut CheckpointerSeat<N>,
        sessions: &mut Vec<Session<N>>,
        pass: &mut LogPass<N>,
        text: &mut TextOfLog<N>,
    ) -> Result<Done<N>, Refusal>
        requires pass { pass.old ≡ [] }
        requires seat { seat.old ≡ [] }
    {
        let (board, mut passes) = Board::new(self.alloc, 2)?;
        let (Some(mut theirs), Some(mut ours)) = (passes.pop(), passes.pop()) else {
            return Err(Refusal::NoSession);
        };
        let done = self.use_board(seat, &board, &mut ours, &mut theirs, sessions)?;
        text.write(self.rt, self.shared, pass, &OpenGate)?;
        let Some(first) = sessions.first_mut() else {
            return Err(Refusal::NoSession);
        };
        self.commit_one(first)?;
        Ok(done)
    }

    // A collapser joins the files of the points, until the end is marked, concurrently with the sessions and the checkpointer.
    fn use_board(
        &self,
        seat: &mut CheckpointerSeat<N>,
        board: &Board,
        ours: &mut BoardPass,
        theirs: &mut BoardPass,
        sessions: &mut [Session<N>],
    ) -> Result<Done<N>, Refusal>
        requires rest { phase_of seat.old ≡ Rest }
        requires ours { IsOfBoard ours.old board.now }
        requires theirs { IsOfBoard theirs.old board.now }
    {
        let (commits, tickets) = join(
            self.rt,
            || -> Result<u64, Refusal>
                requires { IsOfBoard ours.now board.now × (phase_of seat.now ≡ Rest) }
            {
                let committed = self.commit_beside_points(seat, board, ours, sessions);
                self.mark_end();
                committed
            },
            || -> Result<Vec<PartTicket<N>>, Refusal>
                requires { IsOfBoard theirs.now board.now }
            { self.collapse(board, theirs, POINTS, &OpenGate) },
        );
        let commits = commits?;
        let tickets = tickets?;
        Ok(Done { commits, tickets })
    }

    // Both sessions commit, each on a thread of its own, while points are taken.
    fn commit_beside_points(
        &self,
        seat: &mut CheckpointerSeat<N>,
        board: &Board,
        pass: &mut BoardPass,
        sessions: &mut [Session<N>],
    ) -> Result<u64, Refusal>
        requires board { IsOfBoard pass.old board.now }
        requires rest { phase_of seat.old ≡ Rest }
    {
        let Some((first, others)) = sessions.split_first_mut() else {
            return Err(Refusal::NoSession);
        };
        let Some(second) = others.first_mut() else {
            return Err(Refusal::NoSession);
        };
        let (committed, points) = join(
            self.rt,
            || -> Result<u64, Refusal> {
                let (ours, theirs) = join(
                    self.rt,
                    || self.commit_often(first),
                    || self.run_jobs(second),
                );
                Ok(ours?.saturating_add(theirs?))
            },
            || -> Result<u32, Refusal>
                requires { IsOfBoard pass.now board.now × (phase_of seat.now ≡ Rest) }
            {
                let desk = self.with_gate(&OpenGate);
                Ok(checkpoint_loop(self.rt, &desk, seat, board, pass, POINTS)?)
            },
        );
        points?;
        committed
    }
}

fn left_by<N: StoreName>(commits: u64, closed: &Closed<N>, is_logged: bool) -> Example {
    Example {
        commits,
        receipts: count_of(&closed.receipts),
        entries: closed.log().len(),
        parts: closed.parts.len(),
        complete_to: last_point(&closed.parts),
        all: closed.all,
        is_logged,
    }
}

fn last_point<N: StoreName>(parts: &[PartTicket<N>]) -> u16 {
    let Some(first) = parts.first() else {
        return 0;
    };
    match first.part().complete_to() {
        Some(Point(number)) => number,
        None => 0,
    }
}
