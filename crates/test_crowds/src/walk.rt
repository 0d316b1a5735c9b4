//! A long random walk of eight sessions and the checkpointer over fifty keys, with joins now and then.

use crate::asker::Asker;
use pc_bases::Base;
use pc_engine::World;
use pc_types::{Phase, Refusal, Reply};
use std::alloc::Global;
use std::hash::RandomState;
use test_support::{Ask, Sums, drawn, drawn_value, following};

const LETTERS: [u8; 50] = *b"ABCDEFGHIJKLMNOPQRSTUVWXYZabcdefghijklmnopqrstuvwx";

// The number of steps.
const STEPS: u32 = 100_000;

fn key_of(seed: u64) -> &'static [u8] {
    let i = drawn(seed, 29, 50) as usize;
    &LETTERS[i.min(49)..i.min(49) + 1]
}

// The state of the cycle, as far as the replies have told, how many files there are, and the file of the points from 1 on
// that has the most of them.
#[derive(Clone, Copy)]
struct WalkCycle {
    phase: Phase,
    has_more: bool,
    files: u32,
    whole: u32,
}

// What the checkpointer asks next.
fn next_of(cycle: &WalkCycle) -> Ask<'static> {
    match cycle.phase {
        Phase::Rest => Ask::StartPoint,
        Phase::Prepare => Ask::Seal,
        Phase::Resolve => Ask::OpenCapture,
        Phase::Capture if cycle.has_more => Ask::Take,
        Phase::Capture => Ask::Done,
        Phase::Complete => Ask::Rest,
    }
}

// What the checkpointer asks: most often what is next, and otherwise any event of its own.
fn checkpointer(seed: u64, cycle: &WalkCycle) -> Ask<'static> {
    match drawn(seed, 41, 30) {
        0 => Ask::StartPoint,
        1 => Ask::Seal,
        2 => Ask::OpenCapture,
        3 => Ask::Take,
        4 => Ask::Done,
        5 => Ask::Rest,
        _ => next_of(cycle),
    }
}

// A number from -14 to 13.
fn delta_of(seed: u64) -> i64 {
    i64::from(drawn(seed, 35, 28)).wrapping_sub(14)
}

// What a session asks. One that was answered `MustAbort` does so.
fn session(seed: u64, dead: u32) -> Ask<'static> {
    if dead != 0 {
        return Ask::Abort(dead);
    }
    let session = drawn(seed, 24, 8).wrapping_add(1);
    match drawn(seed, 45, 20) {
        0..=3 => Ask::Begin(session),
        4..=7 => Ask::Get(session, key_of(seed)),
        8..=10 => Ask::Put(session, key_of(seed), drawn_value(seed)),
        11 | 12 => Ask::Add(session, key_of(seed), delta_of(seed)),
        13 | 14 => Ask::Del(session, key_of(seed)),
        15 => Ask::Abort(session),
        _ => Ask::Commit(session),
    }
}

// The session that asks, or 0.
fn session_of(ask: Ask) -> u32 {
    match ask {
        Ask::Begin(session) | Ask::Commit(session) | Ask::Abort(session) => session,
        Ask::Get(session, _) | Ask::Del(session, _) => session,
        Ask::Put(session, _, _) | Ask::Add(session, _, _) => session,
        _ => 0,
    }
}

// The cycle after a reply. The first join after a part is that with all the points before it.
fn moved(cycle: &WalkCycle, has_part: bool, reply: &Reply) -> WalkCycle {
    let mut now = *cycle;
    match reply {
        Reply::Phase(phase, _) => {
            now.phase = *phase;
            now.has_more = true;
        }
        Reply::NoneLeft => now.has_more = false,
        Reply::PartDone(_, number, _) => {
            now.phase = Phase::Complete;
            now.files = number.0;
            if number.0 == 1 {
                now.whole = 1;
            }
        }
        Reply::File(number, _, _) => {
            now.files = number.0;
            if has_part {
                now.whole = number.0;
            }
        }
        _ => {}
    }
    now
}

// The walk: its seed, the phase of the cycle, and the part of the last step and the session of that step that must abort,
// or 0.
#[derive(Clone, Copy)]
struct Walk {
    seed: u64,
    cycle: WalkCycle,
    part: u32,
    dead: u32,
}

// The next step of the walk: after each part it is joined with the file of all the points before it, so that there are
// files of the points 1 to n for every n; now and then any two files are joined; otherwise a session or the checkpointer
// asks.
fn next_ask(walk: &Walk) -> Ask<'static> {
    if walk.part > 1 {
        return Ask::Join(walk.cycle.whole, walk.part);
    }
    if drawn(walk.seed, 50, 4) == 0 {
        return checkpointer(walk.seed, &walk.cycle);
    }
    if drawn(walk.seed, 37, 1000) == 0 {
        let files = walk.cycle.files.wrapping_add(1);
        return Ask::Join(drawn(walk.seed, 20, files), drawn(walk.seed, 26, files));
    }
    session(walk.seed, walk.dead)
}

// The part's number, or 0.
fn part_of(reply: &Reply) -> u32 {
    match reply {
        Reply::PartDone(_, number, _) => number.0,
        _ => 0,
    }
}

// The session, if it must abort, or 0.
fn dead_of(session: u32, reply: &Reply) -> u32 {
    match reply {
        Reply::Refused(Refusal::MustAbort) => session,
        _ => 0,
    }
}

// The walk after the reply to what was asked.
fn gone_on(walk: &Walk, ask: Ask, reply: &Reply) -> Walk {
    Walk {
        seed: following(walk.seed),
        cycle: moved(&walk.cycle, walk.part > 1, reply),
        part: part_of(reply),
        dead: dead_of(session_of(ask), reply),
    }
}

fn step(asker: &mut Asker, walk: &Walk) -> Result<Walk, Refusal> {
    let ask = next_ask(walk);
    let reply = asker.reply(ask)?;
    Ok(gone_on(walk, ask, &reply))
}

const START: Walk = Walk {
    seed: 20_261_123,
    cycle: WalkCycle {
        phase: Phase::Rest,
        has_more: true,
        files: 0,
        whole: 0,
    },
    part: 0,
    dead: 0,
};

// Walks the given number of steps, and checks the store at each tenth of them and at the end.
fn go(asker: &mut Asker) -> Result<(), Refusal> {
    let mut walk = START;
    for n in 0..STEPS {
        walk = step(asker, &walk)?;
        if n % 10_000 == 9_999 {
            asker.check()?;
        }
    }
    asker.check()
}

/// Walks 100,000 steps. The store is checked at each tenth of them, and at the end. It fails only if an allocation fails.
/// The seed is that of the hashes of the store's keys, and not of the walk.
pub fn sums_of_walk(alloc: Global, seed: RandomState) -> Result<Sums, Refusal> {
    let world = World::new(alloc, Base::start(1, Vec::new(alloc)), 8, 50, seed)?;
    let mut asker = Asker::new(alloc, world);
    go(&mut asker)?;
    Ok(asker.into_sums())
}
