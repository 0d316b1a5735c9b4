//! A store of a workload, from its opening to its result.
ghost use Rattle.std.specs.Prelude.{◌≡◌, ◌≤◌, ◌<◌, ◌||◌, ◌++◌, [], All, List, length, drop, is_some, IfErr, IfOk};
ghost use Rattle.pc_types.specs.declared.limits.TheConstants.{MOST_KEYS, MOST_PASSES};
ghost use Rattle.pc_types.specs.declared.refusal.Refusal.TheVariants.{OutOfMemory};
ghost use Rattle.pc_model.specs.History.{History};
ghost use Rattle.pc_board.specs.Passes.{IsOfBoard};
ghost use Rattle.pc_outcomes.specs.Leaving.{AreLeftAfter, IsLegacy, IsUntoldAfter, commits_in};
ghost use Rattle.pc_shared.specs.Sitters.{Sitter, new_sitters};
ghost use Rattle.pc_shared.specs.Written.{CountsAsOut};
ghost use Rattle.pc_threads.specs.Clients.{HaveSeats, HaveWorked, clients_in};
ghost use Rattle.pc_threads.specs.Files.{RefusedBy, RefusesNoMore};
ghost use Rattle.pc_workers.specs.Checkpointing.{HasCycled};
ghost use Rattle.pc_workers.specs.Covering.{HaveOnlyTo, HaveJustTo};
ghost use Rattle.pc_workers.specs.Logging.{rest_text};
ghost use Rattle.pc_threads.specs.Files.{HasWritten};
ghost use Rattle.pc_threads.specs.Logs.{HasLogged};
ghost use Rattle.pc_runs.specs.Faults.{EndsRun, IsFaultOfStop, IsStopWithIdle, StoreHasStopped};
ghost use Rattle.pc_runs.specs.Folders.{HasBegunFiles, HasFinished, IsLogLost, base_of};
ghost use Rattle.pc_runs.specs.Runs.{IsWorkloadRun};

use crate::crew::RunContext;
use crate::pace::every_of;
use pc_board::{Board, BoardPass};
use pc_capture::SharedPart;
use pc_io::Tally;
use pc_jobs::{Workload, deal};
use pc_outcomes::{Reporter, RunReport, StoreReport, commits_in, left_by};
use pc_shared::{CheckpointerSeat, Closed, Opened, PartTicket, Session, Shared};
use pc_texts::FileName;
use pc_threads::{
    FileFault, FullLog, Logger, NewCheckpointer, NewFiles, Ran, Rested, Room, Seating,
    ThreadsFault, ThreadsStop, Worked, Written, finish_file, hands_of, run_threads, seat_workers,
};
use pc_tie::StoreName;
use pc_types::{Gate, Refusal};
use pc_workers::{ClientGate, Desk, log_rest, with_missing_points};
use std::alloc::{AllocError, Global};
use std::io::Write;
use std::mem;
use std::sync::Wait;
use std::sync::atomic::AtomicU64;
use std::thread::Threads;

// The remains of a store after the threads: its sessions, tickets of its files, and the folder, if there is one.
#[derive(Drop)]
struct EndedStore<N: StoreName, D> {
    sessions: Vec<Session<N>>,
    given_up: u64,
    seat: CheckpointerSeat<N>,
    // A ticket of each point whose file was written.
    written: Vec<PartTicket<N>>,
    // Tickets to join.
    joined: Vec<PartTicket<N>>,
    folder: Option<D>,
}

// Collects the threads' results: the sessions of all clients, and the tickets of the collapsers with those of the points that they left.
fn take_back<N: StoreName, D: Drop, R: Wait>(
    rt: &R,
    shared: &Shared<N>,
    points: u32,
    idle: Vec<Session<N>>,
    rested: Rested<N, D>,
) -> Result<EndedStore<N, D>, Refusal>
    requires only { HaveOnlyTo points rested.held.items }
    requires cycles { HasCycled N.name.setting points [] rested.worked.seat }
    ensures sessions { IfOk result (λ ended. ended.sessions.items ≡ idle.items ++ rested.worked.ran.sessions.items) }
    ensures given_up { IfOk result (λ ended. ended.given_up ≡ rested.worked.ran.given_up) }
    ensures cover { IfOk result (λ ended. HaveJustTo points ended.joined.items) }
    ensures written { IfOk result (λ ended. ended.written.items ≡ rested.worked.written.items) }
    ensures folder { IfOk result (λ ended. ended.folder ≡ rested.worked.folder) }
    ensures memory { IfErr result (λ why. why ≡ OutOfMemory) }
{
    let Rested { worked, held } = rested;
    let Worked {
        ran,
        mut seat,
        folder,
        written,
    } = worked;
    let Ran {
        sessions: mut busy,
        given_up,
    } = ran;
    let mut sessions = idle;
    sessions.append(&mut busy)?;
    let joined = with_missing_points(rt, shared, &mut seat, held, points)?;
    Ok(EndedStore {
        sessions,
        given_up,
        seat,
        written,
        joined,
        folder,
    })
}

// Why the threads have stopped, with the idle sessions beside those of the clients, if the log has no place left.
fn with_idle<N: StoreName, F>(stop: ThreadsStop<N, F>, idle: Vec<Session<N>>) -> ThreadsStop<N, F>
    ensures { IsStopWithIdle stop idle.items result }
{
    match stop {
        ThreadsStop::LogFull(full, ran) => {
            let Ran {
                sessions: mut busy,
                given_up,
            } = ran;
            let mut all = idle;
            match all.append(&mut busy) {
                Ok(()) => {
                    let sessions = all;
                    ThreadsStop::LogFull(full, Ran { sessions, given_up })
                }
                Err(_) => ThreadsStop::Other(ThreadsFault::Refused(Refusal::OutOfMemory)),
            }
        }
        ThreadsStop::LogEnded => ThreadsStop::LogEnded,
        ThreadsStop::Other(why) => ThreadsStop::Other(why),
    }
}

// The fault of the run: if the log has no place left, after a comparison of what all sessions and the checkpointer have seen with
// the store's history. A client finds the log's end before its own only if the file is lost, which is then the stop; no clause has that
// order in time.
fn fault_of<N: StoreName, F>(shared: Shared<N>, stop: ThreadsStop<N, F>) -> ThreadsFault<F>
    ensures { IsFaultOfStop N.name.setting stop result }
{
    match stop {
        ThreadsStop::LogFull(full, ran) => {
            let FullLog { seat, seen } = full;
            shared.settle(ran.sessions, seat, seen);
            ThreadsFault::Refused(Refusal::LogFull)
        }
        ThreadsStop::LogEnded => ThreadsFault::Refused(Refusal::OutOfMemory),
        ThreadsStop::Other(why) => why,
    }
}

// Runs the threads over the store, with a board and all of its passes.
fn use_store<
    N: StoreName + Send + Sync,
    F: Write + Drop + Send,
    D: NewFiles<F> + Drop,
    G: ClientGate + Sync,
    R: Threads + Wait + Sync,
>(
    rt: &R,
    room: &Room<'_, N, G>,
    seating: Seating<N>,
    checkpointer: NewCheckpointer<N, D>,
    board: (&Board, Vec<BoardPass>),
    logger: Logger<N, F>,
) -> Result<(EndedStore<N, D>, Written<N, F>), ThreadsStop<N, F>>
    requires fresh { checkpointer.at_store ≡ [] }
    requires some { 0 < length board.1.items }
    requires few { length board.1.items ≤ MOST_PASSES }
    requires ours { All (λ pass. IsOfBoard pass board.0.now) board.1.items }
    requires counts { CountsAsOut F.contents N.out }
    ensures clients { IfOk result (λ r. (more : List Sitter) × (r.0.sessions.items ≡ seating.idle.items ++ more) × HaveWorked N.name.setting (clients_in seating.workers.items) r.0.given_up more) }
    ensures cover { IfOk result (λ r. HaveJustTo room.now.points r.0.joined.items) }
    ensures written { IfOk result (λ r. HasWritten D.holds room.now.points checkpointer.folder r.0.folder r.0.written.items) }
    ensures refusals { IfOk result (λ r. RefusesNoMore (RefusedBy D.refuses checkpointer.folder) (RefusedBy D.refuses r.0.folder)) }
    ensures logged { IfOk result (λ r. HasLogged F.contents N.name.setting.run logger.out r.1.out r.1.pass) }
    ensures ended { IfErr result (StoreHasStopped (RefusedBy D.refuses checkpointer.folder) N.name.setting (is_some room.now.lag || is_some checkpointer.folder || is_some logger.out) seating.idle.items (clients_in seating.workers.items) room.now.points) }
{
    let Seating { workers, idle } = seating;
    let (board, passes) = board;
    let hands = hands_of(room.desk.alloc, board, passes, workers, checkpointer)?;
    let (rested, written) = match run_threads(rt, room, hands, logger) {
        Ok(done) => done,
        Err(stop) => return Err(with_idle(stop, idle)),
    };
    let ended = take_back(rt, room.desk.shared, room.points, idle, rested)?;
    Ok((ended, written))
}

// The tickets of a run, those of points whose files were written first, and the number of these.
fn all_tickets<N: StoreName>(
    written: Vec<PartTicket<N>>,
    joined: Vec<PartTicket<N>>,
) -> Result<(Vec<PartTicket<N>>, usize), AllocError>
    ensures { IfOk result (λ r. (r.0.items ≡ written.items ++ joined.items) × (r.1 ≡ length written.items)) }
{
    let mut tickets = written;
    let mut joined = joined;
    let singles = tickets.len();
    tickets.append(&mut joined)?;
    Ok((tickets, singles))
}

/// Runs the workload over the store, which has a session for each of its clients, to its close, and returns the result. If there is
/// a folder, which has the base's file and that of the log, which is blank, the log is written to it concurrently with the threads,
/// and its rest once the store is closed; the file of each point too, once the point was taken. Text that goes out to such a file
/// must count as gone out by the store's name. Its faults are those that `specs/Faults` names.
pub fn run_store<
    N: StoreName + Send + Sync,
    F: Write + Drop + Send,
    D: NewFiles<F> + Drop,
    G: ClientGate + Sync,
    R: Threads + Wait + Sync,
>(
    rt: &R,
    context: &RunContext<'_, G>,
    opened: Opened,
    workload: Workload,
    folder: Option<D>,
    log: Option<Tally<F>>,
) -> Result<(RunReport, Option<D>), ThreadsFault<F>>
    requires name { opened ≡ N.name }
    requires room { N.name.setting.capacity ≤ MOST_KEYS }
    requires seats { HaveSeats (new_sitters N.name.setting.sessions) workload.clients }
    requires begun { HasBegunFiles D.holds F.contents D.blank (base_of N.name.setting) folder log }
    requires counts { CountsAsOut F.contents N.out }
    ensures run { IfOk result (λ r. IsWorkloadRun D.holds N.name.setting workload (is_some folder) r.1 r.0) }
    ensures ended { IfErr result (EndsRun (RefusedBy D.refuses folder) N.name.setting workload (is_some folder)) }
{
    let (alloc, crew) = (context.alloc, &context.crew);
    let Workload { points, clients } = workload;
    let (shared, sessions, seat, pass) = opened.named::<N>()?;
    let checkpointer = NewCheckpointer {
        at_store: seat,
        every: every_of(crew.every, points, &clients),
        folder,
    };
    let dealt = deal(alloc, crew.workers, clients)?;
    let seating = seat_workers(alloc, dealt, sessions)?;
    let (board, passes) = Board::new(alloc, crew.collapsers + 1)?;
    let working = AtomicU64::new(u64::from(crew.workers));
    let room = Room {
        desk: Desk {
            alloc,
            shared: &shared,
            gate: crew.gate,
        },
        points,
        lag: log.as_ref().map(|_| crew.lag),
        working: &working,
    };
    let logger = Logger { pass, out: log };
    let used = use_store(rt, &room, seating, checkpointer, (&board, passes), logger);
    let (ended, logged) = match used {
        Ok(used) => used,
        Err(stop) => return Err(fault_of(shared, stop)),
    };
    let (tickets, singles) = all_tickets(ended.written, ended.joined)?;
    let closed = shared.close(ended.sessions, ended.seat, tickets, logged.pass);
    let folder = finish_log(&closed, ended.folder, logged.out)?;
    let left = leave(rt, context, closed, singles)?;
    let outcome = RunReport {
        commits: left.commits,
        given_up: ended.given_up,
        points,
        left: left.files,
    };
    Ok((outcome, folder))
}

// The result of a closed store.
#[derive(Drop)]
struct Legacy {
    commits: u64,
    files: StoreReport,
}

// The result of the closed store. The first `singles` tickets are each of a point whose file was written.
fn leave<N: StoreName, G: Gate + Sync, R: Threads + Wait + Sync>(
    rt: &R,
    context: &RunContext<'_, G>,
    closed: Closed<N>,
    singles: usize,
) -> Result<Legacy, Refusal>
    requires singles { singles ≤ length closed.parts.items }
    requires after { (history : History) × AreLeftAfter N.name.setting history closed.world.base closed.world.log closed.parts.items }
    ensures commits { IfOk result (λ legacy. legacy.commits ≡ commits_in closed.world.log) }
    ensures files { IfOk result (λ legacy. IsLegacy closed.world.base closed.world.log (drop singles closed.parts.items) legacy.files) }
    ensures untold { IfErr result (IsUntoldAfter N.name.setting (drop singles closed.parts.items)) }
{
    let (alloc, crew) = (context.alloc, &context.crew);
    let mut closed = closed;
    let files = files_of(alloc, &mut closed)?;
    let reporter = Reporter {
        rt,
        alloc,
        seed: context.seed,
        collapsers: crew.collapsers,
        gate: crew.gate,
    };
    let files = left_by(&reporter, closed.base(), closed.log(), files, singles)?;
    Ok(Legacy {
        commits: commits_in(closed.log()) as u64,
        files,
    })
}

// The files of the tickets.
fn files_of<N: StoreName>(
    alloc: Global,
    closed: &mut Closed<N>,
) -> Result<Vec<SharedPart>, AllocError>
    ensures files { IfOk result (λ files. files.items ≡ closed.old.parts.items) }
    ensures world { closed.new.world ≡ closed.old.world }
{
    let mut files = Vec::new(alloc);
    for ticket in mem::replace(&mut closed.parts, Vec::new(alloc)) {
        files.push(ticket.into_part())?;
    }
    Ok(files)
}

// Writes the rest of the log, of which the given number of entries were handed out and written, and makes the file whole, if there
// is one. If a call of it failed it is returned.
fn finish_log<N: StoreName, F: Write + Drop, D: NewFiles<F> + Drop>(
    closed: &Closed<N>,
    folder: Option<D>,
    log: Option<Tally<F>>,
) -> Result<Option<D>, FileFault<F>>
    requires { closed.now.logged ≤ length closed.now.world.log }
    ensures finished { IfOk result (λ later. HasFinished D.holds F.contents D.blank (rest_text closed.now.logged closed.now.world.log) folder log later) }
    ensures lost { IfErr result (IsLogLost D.refuses folder log) }
{
    match (folder, log) {
        (Some(mut folder), Some(mut log)) => {
            if log_rest(closed, &mut log).is_err() {
                return Err(FileFault::Failed(log));
            }
            finish_file(&mut folder, FileName::Log, log)?;
            Ok(Some(folder))
        }
        (folder, _) => Ok(folder),
    }
}
