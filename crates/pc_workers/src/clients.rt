//! A client's loop: a session runs jobs, each as a transaction.
ghost use Rattle.std.specs.Prelude.{◌≡◌, ◌≢◌, ◌<◌, ◌-◌, ◌^◌, ◌+◌, true, false, [], length, IfOk, IfErr, IfSome, OnErr, MatchBool, is_some};
ghost use Rattle.pc_model.specs.Calls.{IsBeginning};
ghost use Rattle.pc_model.specs.History.{is_open};
ghost use Rattle.pc_workers.specs.Attempts.{WasAborted, AreMade, OneDies, IsRefusedOp, IsStuck, IsAttempt, IsTried};
ghost use Rattle.pc_workers.specs.Clients.{HasCommitted, HasRun, HasTried, done_by, session_writes, wrote, wrote_all, job_writes};
ghost use Rattle.pc_workers.specs.Waits.{AreHeld, HasWaited, IsSeatedOut, KeepsMark};
ghost use Rattle.pc_workers.specs.Courses.{IsInRange, IsOpAnswered, IsCourse, IsRepeated, mark_of};

use crate::client_gate::ClientGate;
use crate::desk::Desk;
use pc_jobs::{Job, Op};
use pc_shared::{CallAnswer, LogEndMark, Session, Shared, pause};
use pc_tie::StoreName;
use pc_types::{GatePlace, Lsn, Refusal, number_fits};
use std::sync::Wait;

/// The numbers of jobs that were committed, and that were given up.
#[derive(Clone, Copy, Debug, PartialEq, Eq)]
pub struct Count {
    pub commits: u64,
    pub given_up: u64,
}

/// The result of a client's loop.
#[derive(Drop)]
pub struct ClientEnd<'a> {
    pub count: Count,
    /// The mark of the log's end, if the client went on from a commit for that; once it has one, it keeps one.
    pub log_end: Option<LogEndMark<'a>>,
}

impl Count {
    // Counts a job that ended in this way.
    fn note(&mut self, ended: EndedTransaction)
        requires { self.old.commits + self.old.given_up < 2 ^ 64 - 1 }
        ensures commits { self.new.commits ≡ self.old.commits + length (done_by ended []) }
        ensures all { self.new.commits + self.new.given_up ≡ self.old.commits + self.old.given_up + 1 }
    {
        match ended {
            EndedTransaction::Committed => self.commits += 1,
            EndedTransaction::Died | EndedTransaction::Refused => self.given_up += 1,
        }
    }
}

/// A job is begun again at most this many times.
pub const MOST_REPEATS: u32 = 10_000;

// How often a client lets others run, at most, before it begins a job again: once after the first death, and after each further
// one twice as often as after the one before.
const LONGEST_PAUSE: u32 = 512;

// How a client waits for the log: the number of its entries, up to that of a commit, that may be unwritten when the client goes on,
// if it waits at all; and the mark of the log's end, if it went on for that.
struct Patience<'a> {
    lag: Option<u32>,
    log_end: Option<LogEndMark<'a>>,
}

// How a transaction ended.
#[derive(Clone, Copy)]
pub enum EndedTransaction {
    // It was committed.
    Committed,
    // One of its requests died.
    Died,
    // A call was refused, or an allocation failed.
    Refused,
}

// Performs the operation.
fn make<N: StoreName, R: Wait, G: ClientGate>(
    rt: &R,
    desk: &Desk<'_, N, G>,
    session: &mut Session<N>,
    op: &Op,
) -> Result<CallAnswer, Refusal>
    ensures receipts { HasCommitted [] session.old session.new }
    ensures wrote { IfOk result (λ answer. answer ≢ CallAnswer.Died → session_writes session.new ≡ wrote (session_writes session.old) op.now) }
    ensures asked { IfOk result (λ answer. IsOpAnswered N.name.setting session.old.number op.now answer session.old.seen session.new.seen) }
    ensures refused { IfErr result (λ cause. IsRefusedOp N.name.setting session.old.number op.now cause session.old.seen) }
    ensures same { OnErr result (session.new ≡ session.old) }
{
    in_range(op);
    match op {
        Op::Get(key) => {
            let key = key.copy(desk.alloc)?;
            desk.shared.get(rt, session, key)
        }
        Op::Put(key, value) => {
            let key = key.copy(desk.alloc)?;
            let value = value.copy(desk.alloc)?;
            desk.shared.put(rt, session, key, value)
        }
        Op::Del(key) => {
            let key = key.copy(desk.alloc)?;
            desk.shared.del(rt, session, key)
        }
        Op::Add(key, delta) => {
            let key = key.copy(desk.alloc)?;
            desk.shared.add(rt, session, key, *delta)
        }
    }
}

// The number that the operation adds is in the range of 64 bits with a sign: its type says so.
fn in_range(op: &Op)
    ensures { IsInRange op.now }
{
    match op {
        Op::Add(_, delta) => number_fits(*delta),
        _ => {}
    }
}

// Performs the operations, until one dies: then false.
fn make_all<N: StoreName, R: Wait, G: ClientGate>(
    rt: &R,
    desk: &Desk<'_, N, G>,
    session: &mut Session<N>,
    ops: &[Op],
) -> Result<bool, Refusal>
    ensures receipts { HasCommitted [] session.old session.new }
    ensures wrote { IfOk result (λ all. all ≡ true → session_writes session.new ≡ wrote_all (session_writes session.old) ops.now) }
    ensures made { IfOk result (λ all. MatchBool all (AreMade N.name.setting session.old.number ops.now session.old.seen session.new.seen) (OneDies N.name.setting session.old.number ops.now session.old.seen session.new.seen)) }
    ensures stuck { OnErr result (IsStuck N.name.setting session.old.number ops.now session.old.seen session.new.seen) }
{
    let number = session.number();
    let mut step = 0u32;
    for op in ops {
        let answer = make(rt, desk, session, op)?;
        step = step.saturating_add(1);
        desk.gate.pass(GatePlace::Step(number, step));
        if let CallAnswer::Died = answer {
            return Ok(false);
        }
    }
    Ok(true)
}

// The session has committed this entry: it waits until no more entries up to it than the lag are unwritten, as long as more will be
// written.
fn hold<'a, N: StoreName, R: Wait, G: ClientGate>(
    rt: &R,
    desk: &Desk<'a, N, G>,
    session: &mut Session<N>,
    entry: Lsn,
    patience: &mut Patience<'a>,
)
    ensures same { session.new ≡ session.old }
    ensures lag { patience.new.lag ≡ patience.old.lag }
    ensures mark { KeepsMark (λ mark. mark.token.of ≡ desk.now.shared.now.logged.ended.id) patience.old.log_end patience.new.log_end }
    ensures out { IfSome patience.old.lag (λ most. is_some patience.new.log_end ≡ false → IsSeatedOut N.out N.name.setting.run session.old (entry - most)) }
{
    let Some(most) = patience.lag else {
        return;
    };
    let due = Lsn(entry.0.saturating_sub(most));
    if !desk.shared.is_logged(due) {
        desk.gate.pass(GatePlace::Behind(session.number()));
    }
    if let Err(mark) = desk.shared.until_logged(rt, session, due) {
        patience.log_end = Some(mark);
    }
}

// Begins, performs the operations and commits; if it doesn't commit, the transaction stays open, if it was begun.
fn transact<'a, N: StoreName, R: Wait, G: ClientGate>(
    rt: &R,
    desk: &Desk<'a, N, G>,
    session: &mut Session<N>,
    ops: &[Op],
    patience: &mut Patience<'a>,
) -> EndedTransaction
    ensures receipts { HasCommitted (done_by result (wrote_all [] ops.now)) session.old session.new }
    ensures course { IsCourse N.name.setting session.old.number ops.now result session.old.seen session.new.seen }
    ensures lag { patience.new.lag ≡ patience.old.lag }
    ensures mark { KeepsMark (λ mark. mark.token.of ≡ desk.now.shared.now.logged.ended.id) patience.old.log_end patience.new.log_end }
    ensures held { result ≡ EndedTransaction.Committed → HasWaited N.out N.name.setting patience.old.lag (is_some patience.new.log_end) session.new }
{
    let number = session.number();
    desk.gate.pass(GatePlace::Start(number));
    if let Err(why) = desk.shared.begin(rt, session) {
        desk.gate.refused(number, why);
        return EndedTransaction::Refused;
    }
    match make_all(rt, desk, session, ops) {
        Ok(true) => {}
        Ok(false) => return EndedTransaction::Died,
        Err(why) => {
            desk.gate.refused(number, why);
            return EndedTransaction::Refused;
        }
    }
    let entry = match desk.shared.commit(rt, session) {
        Ok(entry) => entry,
        Err(why) => {
            desk.gate.refused(number, why);
            return EndedTransaction::Refused;
        }
    };
    hold(rt, desk, session, entry, patience);
    desk.gate.pass(GatePlace::Committed(number));
    EndedTransaction::Committed
}

// Aborts the session's transaction, if one is open.
fn abort_open<N: StoreName, R: Wait>(rt: &R, shared: &Shared<N>, session: &mut Session<N>)
    ensures receipts { HasCommitted [] session.old session.new }
    ensures open { is_open session.old.number session.old.seen ≡ true → WasAborted N.name.setting session.old.number session.old.seen session.new.seen }
    ensures idle { is_open session.old.number session.old.seen ≡ false → session.new.seen ≡ session.old.seen }
{
    let _ = shared.abort(rt, session);
}

// Runs a transaction to its end: it commits, or is aborted.
fn attempt<'a, N: StoreName, R: Wait, G: ClientGate>(
    rt: &R,
    desk: &Desk<'a, N, G>,
    session: &mut Session<N>,
    ops: &[Op],
    patience: &mut Patience<'a>,
) -> EndedTransaction
    ensures receipts { HasCommitted (done_by result (wrote_all [] ops.now)) session.old session.new }
    ensures begins { IsBeginning session.old.seen session.new.seen }
    ensures attempt { is_open session.old.number session.old.seen ≡ false → IsAttempt N.name.setting session.old.number ops.now result session.old.seen session.new.seen }
    ensures lag { patience.new.lag ≡ patience.old.lag }
    ensures mark { KeepsMark (λ mark. mark.token.of ≡ desk.now.shared.now.logged.ended.id) patience.old.log_end patience.new.log_end }
    ensures held { result ≡ EndedTransaction.Committed → HasWaited N.out N.name.setting patience.old.lag (is_some patience.new.log_end) session.new }
{
    let ended = transact(rt, desk, session, ops, patience);
    match ended {
        EndedTransaction::Committed => {}
        EndedTransaction::Died => {
            abort_open(rt, desk.shared, session);
            desk.gate.pass(GatePlace::Died(session.number()));
        }
        EndedTransaction::Refused => abort_open(rt, desk.shared, session),
    }
    ended
}

// Runs the job again, until it doesn't die, and returns how it ended the last time. Before each time it lets others run, so that
// the one that it lost to may end.
fn repeat<'a, N: StoreName, R: Wait, G: ClientGate>(
    rt: &R,
    desk: &Desk<'a, N, G>,
    session: &mut Session<N>,
    ops: &[Op],
    patience: &mut Patience<'a>,
) -> EndedTransaction
    ensures receipts { HasCommitted (done_by result (wrote_all [] ops.now)) session.old session.new }
    ensures begins { IsBeginning session.old.seen session.new.seen }
    ensures repeated { is_open session.old.number session.old.seen ≡ false → IsRepeated N.name.setting session.old.number ops.now result session.old.seen session.new.seen }
    ensures lag { patience.new.lag ≡ patience.old.lag }
    ensures mark { KeepsMark (λ mark. mark.token.of ≡ desk.now.shared.now.logged.ended.id) patience.old.log_end patience.new.log_end }
    ensures held { result ≡ EndedTransaction.Committed → HasWaited N.out N.name.setting patience.old.lag (is_some patience.new.log_end) session.new }
{
    let mut times = 1u32;
    for _ in 0..MOST_REPEATS {
        pause(times);
        match attempt(rt, desk, session, ops, patience) {
            EndedTransaction::Died => {}
            ended => return ended,
        }
        times = times.saturating_mul(2).min(LONGEST_PAUSE);
    }
    EndedTransaction::Died
}

// Tries the job, and again if it died, and returns how it ended the last time. Of the clients whose job has died one at a time
// begins again, and the others sleep, so that they don't die of one another over and over.
fn try_job<'a, N: StoreName, R: Wait, G: ClientGate>(
    rt: &R,
    desk: &Desk<'a, N, G>,
    session: &mut Session<N>,
    job: &Job,
    patience: &mut Patience<'a>,
) -> EndedTransaction
    ensures receipts { HasCommitted (done_by result (job_writes job.now)) session.old session.new }
    ensures begins { IsBeginning session.old.seen session.new.seen }
    ensures tried { is_open session.old.number session.old.seen ≡ false → IsTried N.name.setting session.old.number job.now (mark_of result) session.old.seen session.new.seen }
    ensures lag { patience.new.lag ≡ patience.old.lag }
    ensures mark { KeepsMark (λ mark. mark.token.of ≡ desk.now.shared.now.logged.ended.id) patience.old.log_end patience.new.log_end }
    ensures held { result ≡ EndedTransaction.Committed → HasWaited N.out N.name.setting patience.old.lag (is_some patience.new.log_end) session.new }
{
    let ops = job.ops.as_slice();
    match attempt(rt, desk, session, ops, patience) {
        EndedTransaction::Died => {
            let _turn = desk.shared.turn_to_repeat(rt);
            repeat(rt, desk, session, ops, patience)
        }
        ended => ended,
    }
}

// Runs the job, and reports to the gate if it is given up.
fn run<'a, N: StoreName, R: Wait, G: ClientGate>(
    rt: &R,
    desk: &Desk<'a, N, G>,
    session: &mut Session<N>,
    job: &Job,
    patience: &mut Patience<'a>,
) -> EndedTransaction
    ensures receipts { HasCommitted (done_by result (job_writes job.now)) session.old session.new }
    ensures begins { IsBeginning session.old.seen session.new.seen }
    ensures tried { is_open session.old.number session.old.seen ≡ false → IsTried N.name.setting session.old.number job.now (mark_of result) session.old.seen session.new.seen }
    ensures lag { patience.new.lag ≡ patience.old.lag }
    ensures mark { KeepsMark (λ mark. mark.token.of ≡ desk.now.shared.now.logged.ended.id) patience.old.log_end patience.new.log_end }
    ensures held { result ≡ EndedTransaction.Committed → HasWaited N.out N.name.setting patience.old.lag (is_some patience.new.log_end) session.new }
{
    let ended = try_job(rt, desk, session, job, patience);
    if !matches!(ended, EndedTransaction::Committed) {
        desk.gate.pass(GatePlace::GaveUp(session.number()));
    }
    ended
}

/// The session runs the jobs in order, each as a transaction. If a request died the transaction is aborted and the job is begun
/// again, at most 10,000 times, by one client of the store at a time; after that, and after any refusal, its open transaction is
/// aborted and the job is given up. A failed allocation for the copy of a key or a value counts as a refusal. If there is a lag,
/// the client goes on from a commit once no more entries than the lag, up to that of the commit, aren't marked as written, or no
/// more will be: with 0 once its own is. It passes the gate at each of the places that `GatePlace` has of a client, and reports
/// each refusal to it. Returns the number of jobs that were committed, each of which has added a receipt with the job's writes, in
/// their order, and the number that were given up. If the session had no transaction open, each job was tried by just these calls,
/// and none is open afterwards: each attempt but the last one died, and a job that is given up has died 10,001 times in this way,
/// or was refused as the store may after some legal history with all that the session had seen, or named a key of more than 16
/// bytes of its own or a value of more than 16, whose copy allocates memory. If there is a lag and a job was committed, all entries
/// but the last ones, as many as the lag, of the log that the session had seen after its last commit are the first of those whose
/// text has gone out, with 0 each of its commits; or it has the mark of the log's end, for which it went on.
pub fn client_loop<'a, N: StoreName, R: Wait, G: ClientGate>(
    rt: &R,
    desk: &Desk<'a, N, G>,
    session: &mut Session<N>,
    jobs: &[Job],
    lag: Option<u32>,
) -> ClientEnd<'a>
    ensures run { HasRun jobs.now result.count.commits session.old session.new }
    ensures tried { HasTried N.name.setting jobs.now result.count.commits session.old session.new }
    ensures receipts { length session.new.receipts ≡ length session.old.receipts + result.count.commits }
    ensures all { result.count.commits + result.count.given_up ≡ length jobs.now }
    ensures held { IfSome lag (λ most. 0 < result.count.commits → is_some result.log_end ≡ false → AreHeld N.out N.name.setting most session.new) }
    ensures ended { IfSome result.log_end (λ mark. mark.token.of ≡ desk.now.shared.now.logged.ended.id) }
{
    let mut patience = Patience { lag, log_end: None };
    let mut count = Count {
        commits: 0,
        given_up: 0,
    };
    for job in jobs {
        let ended = run(rt, desk, session, job, &mut patience);
        count.note(ended);
    }
    let Patience { lag: _, log_end } = patience;
    ClientEnd { count, log_end }
}
