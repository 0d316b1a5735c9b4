//! The calls of a store that one thread uses, each by itself.
ghost use Rattle.std.specs.Prelude.{◌≡◌};

use crate::options::Crowd;
use bench_steps::{BenchFailure, pair_of, scattered};
use pc_shared::{CheckpointerSeat, LogPass, Opened, Session, Shared};
use pc_tie::StoreName;
use pc_types::{FileNo, Refusal, Reply};
use std::alloc::Global;
use std::sync::Wait;
use std::time::Instant;

/// How often a call was made, how long all of them took, and the longest one.
#[derive(Clone, Copy)]
pub struct Timed {
    pub count: u64,
    /// In nanoseconds, as is the longest.
    pub whole: u128,
    pub longest: u128,
}

/// The calls by their names.
#[derive(Clone, Copy)]
pub struct Calls {
    pub begin: Timed,
    pub put: Timed,
    pub commit: Timed,
    pub advance: Timed,
    pub take: Timed,
    pub take_part: Timed,
    pub log_next: Timed,
}

// Room for the text of the entries that are asked for in one call, in bytes.
const ROOM: u32 = 262_144;

const NONE: Timed = Timed {
    count: 0,
    whole: 0,
    longest: 0,
};

impl Calls {
    /// No calls.
    pub fn new() -> Calls {
        Calls {
            begin: NONE,
            put: NONE,
            commit: NONE,
            advance: NONE,
            take: NONE,
            take_part: NONE,
            log_next: NONE,
        }
    }
}

impl Timed {
    // Counts a call that began then.
    fn note(&mut self, host: &HostRuntime, start: Instant) -> Result<(), BenchFailure> {
        let took = start.elapsed(host)?.as_nanos();
        self.count = self.count.saturating_add(1);
        self.whole = self.whole.saturating_add(took);
        self.longest = self.longest.max(took);
        Ok(())
    }
}

fn time_begin<N: StoreName, R: Wait>(
    rt: &R,
    host: &HostRuntime,
    shared: &Shared<N>,
    session: &mut Session<N>,
    timed: &mut Timed,
) -> Result<(), BenchFailure> {
    let start = Instant::now(host)?;
    shared.begin(rt, session)?;
    timed.note(host, start)
}

fn time_put<N: StoreName, R: Wait>(
    rt: &R,
    host: &HostRuntime,
    shared: &Shared<N>,
    session: &mut Session<N>,
    number: u32,
    timed: &mut Timed,
) -> Result<(), BenchFailure> {
    let (key, value) = pair_of(host.alloc(), scattered(number))?;
    let start = Instant::now(host)?;
    shared.put(rt, session, key, value)?;
    timed.note(host, start)
}

fn time_commit<N: StoreName, R: Wait>(
    rt: &R,
    host: &HostRuntime,
    shared: &Shared<N>,
    session: &mut Session<N>,
    timed: &mut Timed,
) -> Result<(), BenchFailure> {
    let start = Instant::now(host)?;
    shared.commit(rt, session)?;
    timed.note(host, start)
}

// A transaction, call by call.
fn time_transaction<N: StoreName, R: Wait>(
    rt: &R,
    host: &HostRuntime,
    shared: &Shared<N>,
    session: &mut Session<N>,
    number: u32,
    calls: &mut Calls,
) -> Result<(), BenchFailure> {
    time_begin(rt, host, shared, session, &mut calls.begin)?;
    time_put(rt, host, shared, session, number, &mut calls.put)?;
    time_commit(rt, host, shared, session, &mut calls.commit)
}

// A change of the phase, to which nobody is in the way.
fn time_advance<N: StoreName, R: Wait>(
    rt: &R,
    host: &HostRuntime,
    shared: &Shared<N>,
    seat: &mut CheckpointerSeat<N>,
    timed: &mut Timed,
) -> Result<(), BenchFailure> {
    let start = Instant::now(host)?;
    let reply = shared.advance(rt, seat);
    let noted = timed.note(host, start);
    has_more(&reply)?;
    noted
}

// Whether more is left to take, if the call wasn't refused.
fn has_more(reply: &Reply) -> Result<bool, BenchFailure> {
    match reply {
        Reply::NoneLeft => Ok(false),
        Reply::Refused(why) => Err(BenchFailure::Refused(*why)),
        _ => Ok(true),
    }
}

// All takes of a point.
fn time_takes<N: StoreName, R: Wait>(
    rt: &R,
    host: &HostRuntime,
    shared: &Shared<N>,
    seat: &mut CheckpointerSeat<N>,
    timed: &mut Timed,
) -> Result<(), BenchFailure> {
    for _ in rt.forever() {
        let start = Instant::now(host)?;
        let reply = shared.take(rt, seat);
        let noted = timed.note(host, start);
        let has_more = has_more(&reply)?;
        drop(reply);
        noted?;
        if !has_more {
            return Ok(());
        }
    }
    unreachable!()
}

// A ticket of a point's file, which is dropped immediately.
fn time_ticket<N: StoreName, R: Wait>(
    rt: &R,
    host: &HostRuntime,
    shared: &Shared<N>,
    seat: &mut CheckpointerSeat<N>,
    number: u32,
    timed: &mut Timed,
) -> Result<(), BenchFailure> {
    let start = Instant::now(host)?;
    let ticket = shared.take_part(rt, seat, FileNo(number))?;
    let noted = timed.note(host, start);
    drop(ticket);
    noted
}

// A whole point, and a ticket of its file.
fn time_point<N: StoreName, R: Wait>(
    rt: &R,
    host: &HostRuntime,
    shared: &Shared<N>,
    seat: &mut CheckpointerSeat<N>,
    number: u32,
    calls: &mut Calls,
) -> Result<(), BenchFailure> {
    for _ in 0..3 {
        time_advance(rt, host, shared, seat, &mut calls.advance)?;
    }
    time_takes(rt, host, shared, seat, &mut calls.take)?;
    for _ in 0..2 {
        time_advance(rt, host, shared, seat, &mut calls.advance)?;
    }
    time_ticket(rt, host, shared, seat, number, &mut calls.take_part)
}

// The entries logged since, in the batches of a logger.
fn time_logging<N: StoreName, R: Wait>(
    rt: &R,
    host: &HostRuntime,
    shared: &Shared<N>,
    pass: &mut LogPass<N>,
    timed: &mut Timed,
) -> Result<(), BenchFailure> {
    for _ in rt.forever() {
        let start = Instant::now(host)?;
        let next = shared.log_next(rt, pass, ROOM)?;
        let noted = timed.note(host, start);
        if next.count == 0 {
            return noted;
        }
        drop(next);
        noted?;
    }
    unreachable!()
}

/// The calls of the store from its opening on, by one thread: the given number of transactions over the given number of keys,
/// and a point each time that all keys have had one.
pub fn call_by_one<N: StoreName, R: Wait>(
    rt: &R,
    host: &HostRuntime,
    opened: Opened,
    crowd: &Crowd,
) -> Result<Calls, BenchFailure>
    requires { opened ≡ N.name }
{
    let (shared, mut sessions, mut seat, mut pass) = opened.named::<N>()?;
    let Some(session) = sessions.first_mut() else {
        return Err(BenchFailure::Refused(Refusal::NoSession));
    };
    let mut calls = Calls::new();
    let mut points = 0u32;
    for count in 0..crowd.commits {
        let number = count % crowd.keys;
        time_transaction(rt, host, &shared, session, number, &mut calls)?;
        if number == crowd.keys - 1 {
            points = points.saturating_add(1);
            time_point(rt, host, &shared, &mut seat, points, &mut calls)?;
            time_logging(rt, host, &shared, &mut pass, &mut calls.log_next)?;
        }
    }
    Ok(calls)
}
