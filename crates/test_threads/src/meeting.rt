//! A store from its opening to its close, with its clients, its checkpointer, its logger and a collapser on threads of their own.
ghost use Rattle.std.specs.Prelude.{◌≡◌, ℕ, List, []};
ghost use Rattle.pc_types.specs.declared.Phase.TheVariants.{Rest};
ghost use Rattle.pc_model.specs.History.{phase_of};
ghost use Rattle.pc_board.specs.Passes.{IsOfBoard};

use crate::gate::Meeting;
use crate::plans::Plan;
use crate::signs::Sign;
use pc_board::{Board, BoardPass};
use pc_jobs::Job;
use pc_shared::{CheckpointerSeat, Closed, LogPass, Opened, PartTicket, Session};
use pc_tie::StoreName;
use pc_types::{Entry, Lsn, Refusal};
use pc_workers::{Count, checkpoint_loop, client_loop};
use std::alloc::Global;
use std::sync::Wait;
use std::sync::atomic::{AtomicU64, Ordering};
use std::thread::{self, Threads, join};
use test_sessions::{
    Desk, TextOfLog, adds_of, are_exact, count_of, reads_of, right_files, take_parts,
};

/// What the threads leave.
#[derive(Drop)]
pub struct Left {
    /// Whether all came where one waited for them.
    pub have_met: bool,
    /// The number of jobs committed, and how many were given up.
    pub commits: u64,
    pub given_up: u64,
    /// The number of receipts that the sessions have, and how many reads and adds these.
    pub receipts: usize,
    pub reads: usize,
    pub adds: usize,
    /// The number of commits that the log has, and how many tokens.
    pub entries: usize,
    pub tokens: usize,
    /// How many of the log's entries the logger was handed before the end.
    pub logged: usize,
    /// Whether every session is there.
    pub all: bool,
    /// Whether what the logger wrote is the text of the log.
    pub is_written: bool,
    /// Whether the receipts are exact.
    pub are_exact: bool,
    /// How many files of all points from the first on there are, if they are correct.
    pub right_files: Option<usize>,
}

impl Left {
    /// Whether all that waited met the others, no job was given up, and the logger has written each entry that there was.
    pub fn went_on(&self) -> bool {
        let entries = self.entries.saturating_add(self.tokens);
        self.have_met && self.given_up == 0 && self.logged == entries
    }
}

// The number of jobs that all clients committed, and how many they gave up.
#[derive(Drop)]
struct Done {
    commits: AtomicU64,
    given_up: AtomicU64,
}

// What the threads share.
#[derive(Clone, Copy)]
struct Room<'a, N: StoreName, R: Wait> {
    desk: Desk<'a, N, R>,
    plan: &'a Plan,
    jobs: &'a [Vec<Job>],
    gate: &'a Meeting,
    done: &'a Done,
}

impl Done {
    fn new() -> Done {
        Done {
            commits: AtomicU64::new(0),
            given_up: AtomicU64::new(0),
        }
    }

    fn note(&self, count: Count) {
        self.commits.fetch_add(count.commits, Ordering::SeqCst);
        self.given_up.fetch_add(count.given_up, Ordering::SeqCst);
    }
}

// As many as a store may have sessions.
const MOST_THREADS: usize = 64;

impl<'a, N: StoreName + Send + Sync, R: Threads + Wait + Sync> Room<'a, N, R> {
    // The jobs of the session at this place.
    fn run_client(&self, place: usize, session: &mut Session<N>) {
        let Some(jobs) = self.jobs.get(place) else {
            return;
        };
        let desk = self.desk.with_gate(self.gate);
        let ended = client_loop(self.desk.rt, &desk, session, jobs, self.plan.lag);
        self.done.note(ended.count);
    }

    // All clients, each on a thread of its own.
    fn run_clients(&self, sessions: &mut [Session<N>]) {
        thread::for_each_mut(
            self.desk.rt,
            sessions,
            MOST_THREADS,
            &|place, session| { self.run_client(place, session) },
        );
    }

    // The end is marked, by which a collapser that waits for more points than there are is to be woken. If he sleeps on, a change
    // of the phase wakes him, so that the program comes to its end.
    fn end(&self, seat: &mut CheckpointerSeat<N>) {
        self.desk.mark_end();
        self.gate.come(Sign::EndIsMarked);
        if self.gate.have_met() || self.plan.joins <= self.plan.points {
            return;
        }
        let reply = self.desk.shared.advance(self.desk.rt, seat);
        drop(reply);
    }

    // The collapser, if the plan has one, and the tickets that it is left with.
    fn collapse(&self, board: &Board, pass: &mut BoardPass) -> Result<Vec<PartTicket<N>>, Refusal>
        requires { IsOfBoard pass.old board.now }
    {
        if self.plan.joins == 0 {
            return Ok(Vec::new(self.desk.alloc));
        }
        let held = self.desk.collapse(board, pass, self.plan.joins, self.gate);
        self.gate.come(Sign::CollapserEnds);
        held
    }

    // The logger, and concurrently the collapser.
    fn log_beside_collapser(
        &self,
        board: &Board,
        theirs: &mut BoardPass,
        text: &mut TextOfLog<N>,
        pass: &mut LogPass<N>,
    ) -> Result<Vec<PartTicket<N>>, Refusal>
        requires theirs { IsOfBoard theirs.old board.now }
        requires pass { pass.old ≡ [] }
    {
        let Desk { rt, shared, .. } = self.desk;
        let (logged, held) = join(
            rt,
            || -> Result<Lsn, Refusal>
                requires { pass.now ≡ [] }
            { text.write(rt, shared, pass, self.gate) },
            || -> Result<Vec<PartTicket<N>>, Refusal>
                requires { IsOfBoard theirs.now board.now }
            { self.collapse(board, theirs) },
        );
        logged?;
        held
    }

    // The clients, and concurrently the checkpointer, which takes the points. Once all are through, the end is marked.
    fn run_to_end(
        &self,
        board: &Board,
        pass: &mut BoardPass,
        seat: &mut CheckpointerSeat<N>,
        sessions: &mut [Session<N>],
    ) -> Result<u32, Refusal>
        requires board { IsOfBoard pass.old board.now }
        requires rest { phase_of seat.old ≡ Rest }
    {
        let rt = self.desk.rt;
        let (points, ()) = join(
            rt,
            || -> Result<u32, Refusal>
                requires { IsOfBoard pass.now board.now × (phase_of seat.now ≡ Rest) }
            {
                let desk = self.desk.with_gate(self.gate);
                Ok(checkpoint_loop(rt, &desk, seat, board, pass, self.plan.points)?)
            },
            || self.run_clients(sessions),
        );
        self.end(seat);
        points
    }

    // All of them: the clients and the checkpointer, and concurrently the logger and the collapser. Then the tickets that the
    // collapser isn't left with are taken.
    fn run_all(
        &self,
        text: &mut TextOfLog<N>,
        pass: &mut LogPass<N>,
        seat: &mut CheckpointerSeat<N>,
        sessions: &mut [Session<N>],
    ) -> Result<Vec<PartTicket<N>>, Refusal>
        requires pass { pass.old ≡ [] }
        requires seat { seat.old ≡ [] }
    {
        let (board, mut passes) = Board::new(self.desk.alloc, 2)?;
        let (Some(mut theirs), Some(mut ours)) = (passes.pop(), passes.pop()) else {
            return Err(Refusal::NoSession);
        };
        let (points, held) = join(
            self.desk.rt,
            || -> Result<u32, Refusal>
                requires { IsOfBoard ours board × (phase_of seat.now ≡ Rest) }
            { self.run_to_end(&board, &mut ours, seat, sessions) },
            || -> Result<Vec<PartTicket<N>>, Refusal>
                requires { IsOfBoard theirs board × (pass.now ≡ []) }
            { self.log_beside_collapser(&board, &mut theirs, text, pass) },
        );
        points?;
        let mut held = held?;
        let mut tickets = take_parts(&self.desk, seat, self.plan.points)?;
        tickets.append(&mut held)?;
        Ok(tickets)
    }
}

/// Opens no store, but runs this one to its close by the plan, and returns what it leaves.
pub fn meet<N: StoreName + Send + Sync, R: Threads + Wait + Sync>(
    rt: &R,
    alloc: Global,
    opened: Opened,
    plan: &Plan,
) -> Result<Left, Refusal>
    requires name { opened ≡ N.name }
    requires counts { (text : List ℕ) → N.out text }
{
    let jobs = plan.work.jobs(alloc, plan.idle)?;
    let gate = Meeting::new(plan.stops, plan.alone, plan.idle);
    let done = Done::new();
    let mut text = TextOfLog::<N>::new(alloc);
    let (shared, mut sessions, mut seat, mut pass) = opened.named::<N>()?;
    let desk = Desk {
        rt,
        alloc,
        shared: &shared,
    };
    let room = Room {
        desk,
        plan,
        jobs: &jobs,
        gate: &gate,
        done: &done,
    };
    let tickets = room.run_all(&mut text, &mut pass, &mut seat, &mut sessions)?;
    let closed = shared.close(sessions, seat, tickets, pass);
    text.write_rest(&closed)?;
    left_by(alloc, &closed, &gate, &done, text)
}

fn left_by<N: StoreName>(
    alloc: Global,
    closed: &Closed<N>,
    gate: &Meeting,
    done: &Done,
    text: TextOfLog<N>,
) -> Result<Left, Refusal> {
    let log = closed.log().entries(alloc)?;
    let tokens = tokens_in(&log);
    Ok(Left {
        have_met: gate.have_met(),
        commits: done.commits.load(Ordering::SeqCst),
        given_up: done.given_up.load(Ordering::SeqCst),
        receipts: count_of(&closed.receipts),
        reads: reads_of(closed),
        adds: adds_of(closed),
        entries: log.len().saturating_sub(tokens),
        tokens,
        logged: closed.logged,
        all: closed.all,
        is_written: text.is_of(alloc, closed)?,
        are_exact: are_exact(alloc, closed)?,
        right_files: right_files(alloc, closed)?,
    })
}

fn tokens_in(log: &[Entry]) -> usize {
    log.iter()
        .filter(|entry| matches!(entry, Entry::Token(_, _)))
        .count()
}
