//! The clients of a workload: each has a session, and each worker runs its own clients, in order.
ghost use Rattle.std.specs.Prelude.{◌≡◌, ◌⊎◌, ◌≤◌, ◌+◌, ◌^◌, ◌==◌, ◌||◌, ◌++◌, [], ◌∷◌, ℕ, true, All, IfOk, IfErr, List, is_some, map};
ghost use Rattle.std.specs.List.{flat_map};
ghost use Rattle.pc_types.specs.declared.refusal.Refusal.TheVariants.{Full, OutOfMemory};
ghost use Rattle.pc_jobs.specs.Jobs.{job_of};
ghost use Rattle.pc_jobs.specs.declared.works.Client.{Client};
ghost use Rattle.pc_shared.specs.Sitters.{has_sitter, sitter};
ghost use Rattle.pc_threads.specs.Clients.{AreDone, AreFillsTried, AreSeated, HasDone, ClientHasStopped, HasWorked, HaveSeats, HaveStopped, HaveWorked, IsTaskDone, IsFresh, clients_in, first_jobs, jobs_in, jobs_of};

use crate::room::Room;
use pc_jobs::{Client, ClientTask, Fill, FillJob, Job};
use pc_shared::Session;
use pc_tie::StoreName;
use pc_types::{GatePlace, Items, Refusal, SessionNo};
use pc_workers::{ClientGate, client_loop};
use std::alloc::Global;
use std::marker::Model;
use std::slice;
use std::sync::Wait;

/// A client with the session that it is to work as, through which no call was made yet.
#[derive(Drop)]
pub struct Seated<N: StoreName> {
    pub session: Session<N>,
    pub client: Client,
    ghost fresh: { session ≡ sitter client.session [] [] },
}

/// The result of clients that have run: their sessions, in the clients' order, and the number of their transactions that were given up.
#[derive(Drop)]
pub struct Ran<N: StoreName> {
    pub sessions: Vec<Session<N>>,
    pub given_up: u64,
}

/// A worker: the clients that were dealt to it. Contracts see them.
#[derive(Drop)]
pub struct Worker<N: StoreName> {
    pub seats: Vec<Seated<N>>,
}

impl<N: StoreName> Model for Worker<N> {
    ghost use Rattle.std.specs.Prelude.{List, map};
    ghost use Rattle.pc_jobs.specs.Jobs.{job_of};
    ghost use Rattle.pc_jobs.specs.declared.works.Client.{Client};

    ghost Value = { List Client };

    ghost view = { λ w. map (λ seated. seated.client) w.seats.items };
}

/// The workers with their clients, and the sessions that no client has.
#[derive(Drop)]
pub struct Seating<N: StoreName> {
    pub workers: Vec<Worker<N>>,
    pub idle: Vec<Session<N>>,
}

// Takes out the session of the number, which is in the list.
fn take_session<N: StoreName>(sessions: &mut Vec<Session<N>>, number: SessionNo) -> Session<N>
    requires fresh { All IsFresh sessions.old.items }
    requires there { has_sitter sessions.old.items number ≡ true }
    ensures own { result ≡ sitter number [] [] }
    ensures fresh { All IsFresh sessions.new.items }
    ensures others { (n : ℕ) → has_sitter sessions.old.items n ≡ true → (has_sitter sessions.new.items n || (number == n)) ≡ true }
{
    for place in 0..sessions.len() {
        if sessions[place].number() == number {
            return sessions.remove(place);
        }
    }
    unreachable!()
}

// A worker with these clients; for each of them the session of its number is taken out.
fn seat_worker<N: StoreName>(
    alloc: Global,
    clients: Items<Client>,
    sessions: &mut Vec<Session<N>>,
) -> Result<Worker<N>, Refusal>
    requires fresh { All IsFresh sessions.old.items }
    requires seats { HaveSeats sessions.old.items clients }
    ensures clients { IfOk result (λ worker. worker ≡ clients) }
    ensures fresh { All IsFresh sessions.new.items }
    ensures seated { IfOk result (λ worker. AreSeated clients sessions.old.items sessions.new.items) }
    ensures refused { IfErr result (λ why. why ≡ OutOfMemory) }
{
    let mut seats = Vec::new(alloc);
    for client in clients.into_vec() {
        let session = take_session(sessions, client.session);
        seats.push(Seated { session, client })?;
    }
    Ok(Worker { seats })
}

/// Gives each client the session of its number, which is in the list; no call was made yet through any of the sessions. Its only
/// error is `OutOfMemory`.
pub fn seat_workers<N: StoreName>(
    alloc: Global,
    dealt: Vec<Items<Client>>,
    sessions: Vec<Session<N>>,
) -> Result<Seating<N>, Refusal>
    requires fresh { All IsFresh sessions.items }
    requires seats { HaveSeats sessions.items (clients_in dealt.items) }
    ensures clients { IfOk result (λ seating. seating.workers.items ≡ dealt.items) }
    ensures idle { IfOk result (λ seating. All IsFresh seating.idle.items) }
    ensures seated { IfOk result (λ seating. AreSeated (clients_in dealt.items) sessions.items seating.idle.items) }
    ensures refused { IfErr result (λ why. why ≡ OutOfMemory) }
{
    let mut idle = sessions;
    let mut workers = Vec::new(alloc);
    for clients in dealt {
        workers.push(seat_worker(alloc, clients, &mut idle)?)?;
    }
    Ok(Seating { workers, idle })
}

// The sum of both. Returns `Full` if it is more than can be counted.
fn sum(a: u64, b: u64) -> Result<u64, Refusal>
    ensures sum { IfOk result (λ sum. sum ≡ a + b) }
    ensures full { IfErr result (λ why. (why ≡ Full) × (2 ^ 64 ≤ a + b)) }
{
    match a.checked_add(b) {
        Some(sum) => Ok(sum),
        None => Err(Refusal::Full),
    }
}

// Tries the transaction; the number that was given up. Returns `Device` if the log's file was lost before.
fn run_job<N: StoreName, R: Wait, G: ClientGate>(
    rt: &R,
    room: &Room<'_, N, G>,
    session: &mut Session<N>,
    job: &Job,
) -> Result<u64, Refusal>
    ensures done { IfOk result (λ given_up. HasDone (IsTaskDone N.name.setting (ClientTask.Once job.now)) (job.now ∷ []) given_up session.old session.new) }
    ensures stopped { IfErr result (ClientHasStopped (is_some room.now.lag) (job.now ∷ [])) }
{
    if room.lag.is_some() && room.desk.shared.log_end_mark().is_some() {
        return Err(Refusal::Device);
    }
    let ended = client_loop(rt, &room.desk, session, slice::from_ref(job), room.lag);
    Ok(ended.count.given_up)
}

// Tries the transaction of a fill of this number, made now; if an allocation failed for its key or its value, of more than 16
// bytes, it is given up without a call.
fn run_made<N: StoreName, R: Wait, G: ClientGate>(
    rt: &R,
    room: &Room<'_, N, G>,
    session: &mut Session<N>,
    made: &mut FillJob,
    fill: &Fill,
    number: u32,
) -> Result<u64, Refusal>
    ensures done { IfOk result (λ given_up. HasDone (AreFillsTried N.name.setting (job_of fill.now number ∷ [])) (job_of fill.now number ∷ []) given_up session.old session.new) }
    ensures stopped { IfErr result (ClientHasStopped (is_some room.now.lag) (job_of fill.now number ∷ [])) }
{
    match made.set(room.desk.alloc, fill, number) {
        Ok(()) => run_job(rt, room, session, made.as_job()),
        Err(_) => {
            let own = session.number();
            room.desk.gate.refused(own, Refusal::OutOfMemory);
            room.desk.gate.pass(GatePlace::GaveUp(own));
            Ok(1)
        }
    }
}

// Tries the transactions of a fill, each made when it is its turn.
fn run_fill<N: StoreName, R: Wait, G: ClientGate>(
    rt: &R,
    room: &Room<'_, N, G>,
    session: &mut Session<N>,
    made: &mut FillJob,
    fill: &Fill,
) -> Result<u64, Refusal>
    ensures done { IfOk result (λ given_up. HasDone (AreFillsTried N.name.setting (first_jobs fill.now fill.now.count)) (first_jobs fill.now fill.now.count) given_up session.old session.new) }
    ensures stopped { IfErr result (ClientHasStopped (is_some room.now.lag) (first_jobs fill.now fill.now.count)) }
{
    let mut given_up = 0u64;
    for number in 0..fill.count {
        let more = run_made(rt, room, session, made, fill, number)?;
        given_up = sum(given_up, more)?;
    }
    Ok(given_up)
}

// Does a piece of work.
fn run_work<N: StoreName, R: Wait, G: ClientGate>(
    rt: &R,
    room: &Room<'_, N, G>,
    session: &mut Session<N>,
    made: &mut FillJob,
    work: &ClientTask,
) -> Result<u64, Refusal>
    ensures done { IfOk result (λ given_up. HasDone (IsTaskDone N.name.setting work.now) (jobs_in work.now) given_up session.old session.new) }
    ensures stopped { IfErr result (ClientHasStopped (is_some room.now.lag) (jobs_in work.now)) }
{
    match work {
        ClientTask::Once(job) => run_job(rt, room, session, job),
        ClientTask::Fill(fill) => run_fill(rt, room, session, made, fill),
    }
}

// Does the works, in order.
fn run_works<N: StoreName, R: Wait, G: ClientGate>(
    rt: &R,
    room: &Room<'_, N, G>,
    session: &mut Session<N>,
    made: &mut FillJob,
    works: &[ClientTask],
) -> Result<u64, Refusal>
    ensures done { IfOk result (λ given_up. HasDone (AreDone N.name.setting works.now) (flat_map jobs_in works.now) given_up session.old session.new) }
    ensures stopped { IfErr result (ClientHasStopped (is_some room.now.lag) (flat_map jobs_in works.now)) }
{
    let mut given_up = 0u64;
    for work in works {
        let more = run_work(rt, room, session, made, work)?;
        given_up = sum(given_up, more)?;
    }
    Ok(given_up)
}

impl<N: StoreName> Seated<N> {
    // Tries the transactions of the client, in order, those of its fills made in one place. Gives its session, and the number that
    // was given up.
    fn run<R: Wait, G: ClientGate>(
        self,
        rt: &R,
        room: &Room<'_, N, G>,
        made: &mut FillJob,
    ) -> Result<(Session<N>, u64), Refusal>
        ensures worked { IfOk result (λ r. HasWorked N.name.setting self.client r.1 r.0) }
        ensures stopped { IfErr result (ClientHasStopped (is_some room.now.lag) (jobs_of self.client)) }
    {
        let Seated {
            mut session,
            client,
        } = self;
        let given_up = run_works(rt, room, &mut session, made, client.works.as_slice())?;
        Ok((session, given_up))
    }
}

// Runs the clients, in order.
fn run_clients<N: StoreName, R: Wait, G: ClientGate>(
    rt: &R,
    room: &Room<'_, N, G>,
    seats: Vec<Seated<N>>,
) -> Result<Ran<N>, Refusal>
    ensures worked { IfOk result (λ ran. HaveWorked N.name.setting (map (λ seated. seated.client) seats.items) ran.given_up ran.sessions.items) }
    ensures stopped { IfErr result (HaveStopped (is_some room.now.lag) (map (λ seated. seated.client) seats.items)) }
{
    let mut made = FillJob::new(room.desk.alloc)?;
    let mut sessions = Vec::with_capacity(room.desk.alloc, seats.len())?;
    let mut given_up = 0u64;
    for seated in seats {
        let (session, more) = seated.run(rt, room, &mut made)?;
        sessions.push(session)?;
        given_up = sum(given_up, more)?;
    }
    Ok(Ran { sessions, given_up })
}

impl<N: StoreName> Worker<N> {
    /// Runs its clients, in order, and leaves the room. Returns `Device` if the log's file was lost before one of their
    /// transactions, `OutOfMemory` only before the first of them, and `Full` if more of them were given up than can be counted.
    pub fn run<R: Wait, G: ClientGate>(
        self,
        rt: &R,
        room: &Room<'_, N, G>,
    ) -> Result<Ran<N>, Refusal>
        ensures worked { IfOk result (λ ran. HaveWorked N.name.setting self ran.given_up ran.sessions.items) }
        ensures stopped { IfErr result (HaveStopped (is_some room.now.lag) self) }
    {
        let Worker { seats } = self;
        let ended = run_clients(rt, room, seats);
        room.leave(rt);
        ended
    }
}

impl<N: StoreName> Ran<N> {
    // The clients of another worker have run too. Returns `OutOfMemory`, or `Full` if more of them were given up than can be counted.
    pub(crate) fn and(self, other: Ran<N>) -> Result<Ran<N>, Refusal>
        ensures worked { (clients others : List Client) → HaveWorked N.name.setting clients self.given_up self.sessions.items → HaveWorked N.name.setting others other.given_up other.sessions.items → IfOk result (λ all. HaveWorked N.name.setting (clients ++ others) all.given_up all.sessions.items) }
        ensures stopped { IfErr result (λ why. (why ≡ OutOfMemory) ⊎ ((why ≡ Full) × (2 ^ 64 ≤ self.given_up + other.given_up))) }
    {
        let Ran {
            mut sessions,
            given_up,
        } = self;
        let Ran {
            sessions: mut others,
            given_up: more,
        } = other;
        sessions.append(&mut others)?;
        let given_up = sum(given_up, more)?;
        Ok(Ran { sessions, given_up })
    }
}
