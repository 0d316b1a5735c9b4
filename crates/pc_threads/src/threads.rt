//! The threads of a run: workers and the checkpointer, and concurrently with all of them collapsers and the logger.
ghost use Rattle.std.specs.Prelude.{◌≡◌, ◌||◌, ℕ, Bool, [], All, IfErr, IfOk, is_some, map};
ghost use Rattle.pc_board.specs.Passes.{IsOfBoard};
ghost use Rattle.pc_types.specs.declared.Phase.TheVariants.{Rest};
ghost use Rattle.pc_model.specs.History.{phase_of};
ghost use Rattle.pc_shared.specs.Written.{CountsAsOut};
ghost use Rattle.pc_workers.specs.Covering.{HaveOnlyTo};
ghost use Rattle.pc_threads.specs.Clients.{HaveWorked, clients_in, transactions_in};
ghost use Rattle.pc_threads.specs.Faults.{IsWorkersStop, LogHasStopped, ThreadsHaveStopped};
ghost use Rattle.pc_threads.specs.Files.{RefusedBy, RefusesNoMore};
ghost use Rattle.pc_threads.specs.Logs.{HasLogged};
ghost use Rattle.pc_threads.specs.Rested.{IsLeftByHands, IsLeftByWorkers};

use crate::clients::{Ran, Worker};
use crate::fault::ThreadsFault;
use crate::files::NewFiles;
use crate::hands::{Collapser, Hands, Seat};
use crate::points::{Checkpointer, take_points};
use crate::room::Room;
use crate::stop::{ThreadsStop, WorkersStop};
use pc_io::Tally;
use pc_shared::{CheckpointerSeat, LogPass, PartTicket, Shared};
use pc_tie::StoreName;
use pc_types::{Gate, Refusal};
use pc_workers::{ClientGate, CollapserShare, Desk, collapse_loop, log_loop};
use std::alloc::Global;
use std::io::Write;
use std::snapshot::Snapshot;
use std::sync::Wait;
use std::thread::{self, Promise, PromisedHandle, Threads};

/// The result of workers and checkpointer: all clients have run; the checkpointer's seat at the store; the folder, if there is one,
/// and a ticket of each point whose file was written to it.
#[derive(Drop)]
pub struct Worked<N: StoreName, D> {
    pub ran: Ran<N>,
    pub seat: CheckpointerSeat<N>,
    pub folder: Option<D>,
    pub written: Vec<PartTicket<N>>,
}

/// Their result, and the tickets that the collapsers hold.
#[derive(Drop)]
pub struct Rested<N: StoreName, D> {
    pub worked: Worked<N, D>,
    pub held: Vec<PartTicket<N>>,
}

/// A logger that has written nothing; without a file it writes nothing.
#[derive(Drop)]
pub struct Logger<N: StoreName, F: Write> {
    pub pass: LogPass<N>,
    pub out: Option<Tally<F>>,
    ghost fresh: { pass ≡ [] },
}

/// The result of a logger.
#[derive(Drop)]
pub struct Written<N: StoreName, F: Write> {
    pub pass: LogPass<N>,
    pub out: Option<Tally<F>>,
}

/// Why a logger stopped before the end, and its file.
#[derive(Drop)]
pub(crate) struct LogFault<F: Write> {
    pub(crate) why: Refusal,
    pub(crate) out: Tally<F>,
}

impl<N: StoreName, F: Write + Drop> From<LogFault<F>> for ThreadsStop<N, F> {
    ghost use Rattle.std.specs.Prelude.{◌≡◌};
    ghost use Rattle.pc_threads.specs.Faults.{lost_log_fault};
    ghost use Rattle.pc_threads.specs.declared.stop.ThreadsStop.TheVariants.{Other};

    ghost from_gives = { λ fault stop. stop ≡ Other (lost_log_fault fault.why fault.out) };

    fn from(fault: LogFault<F>) -> ThreadsStop<N, F> {
        let LogFault { why, out } = fault;
        match why {
            Refusal::Device => ThreadsStop::Other(ThreadsFault::Failed(out)),
            why => ThreadsStop::Other(ThreadsFault::Refused(why)),
        }
    }
}

impl<N: StoreName, F: Write + Drop> Logger<N, F> {
    // Writes the log until the end is marked, or its file is lost, and then marks that no more is written.
    fn run<R: Wait, G: Gate>(
        self,
        rt: &R,
        room: &Room<'_, N, G>,
    ) -> Result<Written<N, F>, LogFault<F>>
        requires { CountsAsOut F.contents N.out }
        ensures logged { IfOk result (λ written. HasLogged F.contents N.name.setting.run self.out written.out written.pass) }
        ensures stopped { IfErr result (LogHasStopped self.out) }
    {
        let Logger { mut pass, out } = self;
        let Some(mut out) = out else {
            return Ok(Written { pass, out: None });
        };
        let ended = log_loop(rt, room.desk.shared, &mut pass, &mut out, room.desk.gate);
        room.desk.shared.mark_log_end(rt);
        match ended {
            Ok(_) => Ok(Written {
                pass,
                out: Some(out),
            }),
            Err(why) => Err(LogFault { why, out }),
        }
    }
}

// The promise of a logger: the entries that its pass has handed out were written to its file, or an allocation failed, or the
// device failed in a call of the file, which is returned.
#[derive(Drop)]
struct LogOf<N: StoreName, F: Write>(Snapshot<Logger<N, F>>);

impl<N: StoreName, F: Write> Promise<Result<Written<N, F>, LogFault<F>>> for LogOf<N, F> {
    ghost use Rattle.std.specs.Prelude.{IfErr, IfOk};
    ghost use Rattle.pc_threads.specs.Faults.{LogHasStopped};
    ghost use Rattle.pc_threads.specs.Logs.{HasLogged};

    ghost kept_by = { λ given written. IfOk written (λ w. HasLogged F.contents N.name.setting.run given.0.value.out w.out w.pass) × IfErr written (LogHasStopped given.0.value.out) };
}

// Joins the files of points as they are published. Gives the tickets that the collapser holds in the end; none if its witness has
// seen a history without a file: the checkpointer then takes those of all points that no collapser holds. What it works with is
// passed part by part, and not in a room: otherwise nothing is known of the thread that runs it.
fn collapse<N: StoreName, R: Wait, G: Gate>(
    rt: &R,
    alloc: Global,
    shared: &Shared<N>,
    seat: Seat<'_>,
    share: CollapserShare,
    gate: &G,
) -> Result<Vec<PartTicket<N>>, Refusal>
    ensures only { IfOk result (λ tickets. HaveOnlyTo share.points tickets.items) }
    ensures memory { IfErr result (λ why. why ≡ Refusal.OutOfMemory) }
{
    let mut seen = shared.witness(rt);
    let desk = Desk {
        alloc,
        shared,
        gate,
    };
    let Seat { board, mut pass } = seat;
    match collapse_loop(rt, &desk, &mut seen, board, &mut pass, share) {
        Ok(held) => Ok(held),
        Err(Refusal::NoFile) => Ok(Vec::new(alloc)),
        Err(_) => Err(Refusal::OutOfMemory),
    }
}

// The promise of tickets whose files have no points but those from 1 to this, or of a failed allocation.
#[derive(Clone, Copy)]
struct UpTo(u32);

impl<N: StoreName> Promise<Result<Vec<PartTicket<N>>, Refusal>> for UpTo {
    ghost use Rattle.std.specs.Prelude.{◌≡◌, IfErr, IfOk};
    ghost use Rattle.pc_types.specs.declared.refusal.Refusal.TheVariants.{OutOfMemory};
    ghost use Rattle.pc_workers.specs.Covering.{HaveOnlyTo};

    ghost kept_by = { λ most held. IfOk held (λ tickets. HaveOnlyTo most.0 tickets.items) × IfErr held (λ why. why ≡ OutOfMemory) };
}

// The tickets of all collapsers, once their threads have ended.
fn join_collapsers<N: StoreName, R: Threads>(
    rt: &R,
    alloc: Global,
    handles: Vec<PromisedHandle<Result<Vec<PartTicket<N>>, Refusal>, UpTo>>,
) -> Result<Vec<PartTicket<N>>, Refusal>
    ensures only { (points : ℕ) → All (λ handle. handle.promise.0 ≡ points) handles.items → IfOk result (λ held. HaveOnlyTo points held.items) }
    ensures ended { IfErr result (λ why. why ≡ Refusal.OutOfMemory) }
{
    let mut held = Vec::new(alloc);
    for handle in handles {
        let mut tickets = handle.join(rt)?;
        held.append(&mut tickets)?;
    }
    Ok(held)
}

// The promise of a worker: its clients have run, or have stopped; the log is written to a file, or it isn't.
#[derive(Drop)]
struct ClientsOf<N: StoreName>(Snapshot<Worker<N>>, bool);

impl<N: StoreName> Promise<Result<Ran<N>, Refusal>> for ClientsOf<N> {
    ghost use Rattle.std.specs.Prelude.{IfErr, IfOk};
    ghost use Rattle.pc_threads.specs.Clients.{HaveStopped, HaveWorked};

    ghost kept_by = { λ given ended. IfOk ended (λ ran. HaveWorked N.name.setting given.0.value ran.given_up ran.sessions.items) × IfErr ended (HaveStopped given.1 given.0.value) };
}

// The clients of all workers, once their threads have ended.
fn join_workers<N: StoreName, R: Threads>(
    rt: &R,
    alloc: Global,
    handles: Vec<PromisedHandle<Result<Ran<N>, Refusal>, ClientsOf<N>>>,
) -> Result<Ran<N>, WorkersStop>
    ensures clients { IfOk result (λ ran. HaveWorked N.name.setting (clients_in (map (λ handle. handle.promise.0.value) handles.items)) ran.given_up ran.sessions.items) }
    ensures ended { (has_log : Bool) → All (λ handle. handle.promise.1 ≡ has_log) handles.items → IfErr result (λ stop. IsWorkersStop has_log (transactions_in (clients_in (map (λ handle. handle.promise.0.value) handles.items))) stop.why) }
{
    let mut all = Ran {
        sessions: Vec::new(alloc),
        given_up: 0,
    };
    for handle in handles {
        let ran = handle.join(rt)?;
        all = all.and(ran)?;
    }
    Ok(all)
}

// Marks the end, for threads that wait for it; if it is marked already, it stays so.
fn mark_end<N: StoreName, R: Wait>(rt: &R, shared: &Shared<N>) {
    let mut witness = shared.witness(rt);
    let _marked = shared.mark_end(rt, &mut witness);
}

// The result of clients that have run, and of the checkpointer that has taken all points.
fn with_points<N: StoreName, D: Drop>(
    checkpointer: Checkpointer<'_, N, D>,
    ran: Ran<N>,
) -> Worked<N, D>
    ensures ran { result.ran ≡ ran }
    ensures seat { result.seat ≡ checkpointer.entry.at_store }
    ensures folder { result.folder ≡ checkpointer.entry.folder }
    ensures written { result.written ≡ checkpointer.entry.written }
{
    let Checkpointer {
        at_store: seat,
        at_board: _,
        every: _,
        counted_from: _,
        folder,
        written,
    } = checkpointer;
    Worked {
        ran,
        seat,
        folder,
        written,
    }
}

// Runs the workers, concurrently with all points but the last one, and the last one once they have ended.
fn run_workers<
    'x,
    N: StoreName + Send + Sync,
    F: Write + Drop,
    D: NewFiles<F> + Drop,
    G: ClientGate + Sync,
    R: Threads + Wait + Sync,
>(
    rt: &'x R,
    room: &'x Room<'x, N, G>,
    checkpointer: Checkpointer<'x, N, D>,
    workers: Vec<Worker<N>>,
) -> Result<Worked<N, D>, ThreadsStop<N, F>>
    requires rest { phase_of checkpointer.at_store ≡ Rest }
    ensures left { IfOk result (IsLeftByWorkers D.holds N.name.setting room.now.points workers.items checkpointer.entry) }
    ensures refusals { IfOk result (λ left. RefusesNoMore (RefusedBy D.refuses checkpointer.entry.folder) (RefusedBy D.refuses left.folder)) }
    ensures ended { checkpointer.entry.at_store ≡ [] → IfErr result (ThreadsHaveStopped (RefusedBy D.refuses checkpointer.entry.folder) N.name.setting (is_some room.now.lag || is_some checkpointer.entry.folder) (clients_in workers.items) room.now.points) }
{
    let handles = Vec::with_capacity(room.desk.alloc, workers.len())?;
    let (points, has_log) = (room.points, room.lag.is_some());
    thread::scope(
        thread::scope_env(),
        rt,
        |scope| -> Result<Worked<N, D>, ThreadsStop<N, F>>
            requires handles { handles.items ≡ [] }
            requires has_log { has_log ≡ is_some room.now.lag }
            requires rest { phase_of checkpointer.at_store ≡ Rest }
            ensures left { IfOk result (IsLeftByWorkers D.holds N.name.setting points workers.items checkpointer.entry) }
            ensures refusals { IfOk result (λ left. RefusesNoMore (RefusedBy D.refuses checkpointer.entry.folder) (RefusedBy D.refuses left.folder)) }
            ensures ended { checkpointer.entry.at_store ≡ [] → IfErr result (ThreadsHaveStopped (RefusedBy D.refuses checkpointer.entry.folder) N.name.setting (has_log || is_some checkpointer.entry.folder) (clients_in workers.items) points) }
        {
            let mut handles = handles;
            for worker in workers {
                let given = Snapshot::of(&worker);
                match scope.spawn_with(ClientsOf(given, has_log), move || worker.run(rt, room)) {
                    Ok(handle) => handles.push(handle)?,
                    Err(_) => return Err(ThreadsStop::Other(ThreadsFault::NoThread)),
                }
            }
            let beside = points.saturating_sub(1);
            let most = take_points(rt, room, checkpointer, 0, beside);
            let ran = join_workers(rt, room.desk.alloc, handles)?;
            let checkpointer = match most {
                Ok(checkpointer) => checkpointer,
                Err(fault) => return Err(ThreadsStop::with_clients(fault, ran)),
            };
            match take_points(rt, room, checkpointer, beside, points) {
                Ok(checkpointer) => Ok(with_points(checkpointer, ran)),
                Err(fault) => Err(ThreadsStop::with_clients(fault, ran)),
            }
        },
    )
}

// Runs the workers and the points, concurrently with the collapsers, for which the end is marked then.
fn run_hands<
    'x,
    N: StoreName + Send + Sync,
    F: Write + Drop,
    D: NewFiles<F> + Drop,
    G: ClientGate + Sync,
    R: Threads + Wait + Sync,
>(
    rt: &'x R,
    room: &'x Room<'x, N, G>,
    hands: Hands<'x, N, D>,
) -> Result<Rested<N, D>, ThreadsStop<N, F>>
    requires rest { phase_of hands.checkpointer.at_store ≡ Rest }
    ensures left { IfOk result (IsLeftByHands D.holds N.name.setting room.now.points hands.entry.workers.items hands.entry.checkpointer) }
    ensures refusals { IfOk result (λ left. RefusesNoMore (RefusedBy D.refuses hands.entry.checkpointer.folder) (RefusedBy D.refuses left.worked.folder)) }
    ensures ended { hands.entry.checkpointer.at_store ≡ [] → IfErr result (ThreadsHaveStopped (RefusedBy D.refuses hands.entry.checkpointer.folder) N.name.setting (is_some room.now.lag || is_some hands.entry.checkpointer.folder) (clients_in hands.entry.workers.items) room.now.points) }
{
    let Hands {
        checkpointer,
        workers,
        collapsers,
    } = hands;
    let handles = Vec::with_capacity(room.desk.alloc, collapsers.len())?;
    let desk = &room.desk;
    let (alloc, shared, gate, points) = (desk.alloc, desk.shared, desk.gate, room.points);
    thread::scope(
        thread::scope_env(),
        rt,
        |scope| -> Result<Rested<N, D>, ThreadsStop<N, F>>
            requires handles { handles.items ≡ [] }
            requires points { points ≡ room.now.points }
            requires rest { phase_of checkpointer.at_store ≡ Rest }
            ensures left { IfOk result (IsLeftByHands D.holds N.name.setting room.entry.now.points workers.items checkpointer.entry) }
            ensures refusals { IfOk result (λ left. RefusesNoMore (RefusedBy D.refuses checkpointer.entry.folder) (RefusedBy D.refuses left.worked.folder)) }
            ensures ended { checkpointer.entry.at_store ≡ [] → IfErr result (ThreadsHaveStopped (RefusedBy D.refuses checkpointer.entry.folder) N.name.setting (is_some room.entry.now.lag || is_some checkpointer.entry.folder) (clients_in workers.items) room.entry.now.points) }
        {
            let mut handles = handles;
            for collapser in collapsers {
                let Collapser { number, seat } = collapser;
                let Seat { board, pass } = seat;
                match scope.spawn_with(
                    UpTo(points),
                    move || -> Result<Vec<PartTicket<N>>, Refusal>
                        requires { IsOfBoard pass board.now }
                        ensures only { IfOk result (λ tickets. HaveOnlyTo points tickets.items) }
                        ensures memory { IfErr result (λ why. why ≡ Refusal.OutOfMemory) }
                    {
                        let seat = Seat { board, pass };
                        let share = CollapserShare { number, points };
                        collapse(rt, alloc, shared, seat, share, gate)
                    },
                ) {
                    Ok(handle) => {
                        let Ok(()) = handles.push(handle) else {
                            mark_end(rt, room.desk.shared);
                            return Err(ThreadsStop::Other(ThreadsFault::Refused(
                                Refusal::OutOfMemory,
                            )));
                        };
                    }
                    Err(_) => {
                        mark_end(rt, room.desk.shared);
                        return Err(ThreadsStop::Other(ThreadsFault::NoThread));
                    }
                }
            }
            let ended = run_workers(rt, room, checkpointer, workers);
            mark_end(rt, room.desk.shared);
            let worked = ended?;
            let held = join_collapsers(rt, room.desk.alloc, handles)?;
            Ok(Rested { worked, held })
        },
    )
}

/// Runs them all, and marks the end once the workers have ended and the points are taken, or once they fail: a thread can't be
/// started, a point can't be taken, or an allocation failed. It returns once all threads have ended. If the log's file is lost it
/// returns that file, whatever else failed. Text that goes out to such a file must count as gone out by the store's name.
pub fn run_threads<
    'x,
    N: StoreName + Send + Sync,
    F: Write + Drop + Send,
    D: NewFiles<F> + Drop,
    G: ClientGate + Sync,
    R: Threads + Wait + Sync,
>(
    rt: &'x R,
    room: &'x Room<'x, N, G>,
    hands: Hands<'x, N, D>,
    logger: Logger<N, F>,
) -> Result<(Rested<N, D>, Written<N, F>), ThreadsStop<N, F>>
    requires rest { phase_of hands.checkpointer.at_store ≡ Rest }
    requires counts { CountsAsOut F.contents N.out }
    ensures left { IfOk result (λ r. IsLeftByHands D.holds N.name.setting room.now.points hands.entry.workers.items hands.entry.checkpointer r.0) }
    ensures logged { IfOk result (λ r. HasLogged F.contents N.name.setting.run logger.out r.1.out r.1.pass) }
    ensures refusals { IfOk result (λ r. RefusesNoMore (RefusedBy D.refuses hands.entry.checkpointer.folder) (RefusedBy D.refuses r.0.worked.folder)) }
    ensures ended { hands.entry.checkpointer.at_store ≡ [] → IfErr result (ThreadsHaveStopped (RefusedBy D.refuses hands.entry.checkpointer.folder) N.name.setting (is_some room.now.lag || is_some hands.entry.checkpointer.folder || is_some logger.out) (clients_in hands.entry.workers.items) room.now.points) }
{
    if logger.out.is_none() {
        let rested = run_hands(rt, room, hands)?;
        return Ok((rested, logger.run(rt, room)?));
    }
    thread::scope(
        thread::scope_env(),
        rt,
        |scope| -> Result<(Rested<N, D>, Written<N, F>), ThreadsStop<N, F>>
            requires rest { phase_of hands.checkpointer.at_store ≡ Rest }
            requires counts { CountsAsOut F.contents N.out }
            ensures left { IfOk result (λ r. IsLeftByHands D.holds N.name.setting room.entry.now.points hands.entry.workers.items hands.entry.checkpointer r.0) }
            ensures logged { IfOk result (λ r. HasLogged F.contents N.name.setting.run logger.out r.1.out r.1.pass) }
            ensures refusals { IfOk result (λ r. RefusesNoMore (RefusedBy D.refuses hands.entry.checkpointer.folder) (RefusedBy D.refuses r.0.worked.folder)) }
            ensures ended { hands.entry.checkpointer.at_store ≡ [] → IfErr result (ThreadsHaveStopped (RefusedBy D.refuses hands.entry.checkpointer.folder) N.name.setting (is_some room.entry.now.lag || is_some hands.entry.checkpointer.folder || is_some logger.out) (clients_in hands.entry.workers.items) room.entry.now.points) }
        {
            let given = Snapshot::of(&logger);
            let Ok(logging) = scope.spawn_with(LogOf(given), move || logger.run(rt, room)) else {
                return Err(ThreadsStop::Other(ThreadsFault::NoThread));
            };
            let ended = run_hands(rt, room, hands);
            mark_end(rt, room.desk.shared);
            let written = logging.join(rt)?;
            match ended {
                Ok(rested) => Ok((rested, written)),
                Err(fault) => Err(fault),
            }
        },
    )
}
