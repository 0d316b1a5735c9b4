//! Random walks of three sessions and the checkpointer.
ghost use Rattle.std.specs.Prelude.{◌≡◌, IfOk};

use pc_bases::Base;
use pc_engine::World;
use pc_types::{Event, Key, Phase, Refusal, Reply, SessionNo, Value};
use std::alloc::Global;
use std::hash::RandomState;
use test_support::{drawn, drawn_value, following};

// The number of steps that a walk has.
const STEPS: u32 = 250;

const LETTERS: [u8; 5] = *b"abcde";

fn key_of(seed: u64) -> &'static [u8] {
    let i = drawn(seed, 29, 5) as usize;
    &LETTERS[i.min(4)..i.min(4) + 1]
}

// The state of the cycle, whether a key may be left to take, how many parts there are, and the session that must abort, or
// 0.
#[derive(Clone, Copy)]
struct Walk {
    seed: u64,
    phase: Phase,
    has_more: bool,
    parts: u32,
    dead: u32,
}

// What the checkpointer asks next. After three parts it asks for no more.
fn next_of(walk: &Walk) -> Event {
    match walk.phase {
        Phase::Rest if walk.parts >= 3 => Event::Rest,
        Phase::Rest => Event::StartPoint,
        Phase::Prepare => Event::Seal,
        Phase::Resolve => Event::OpenCapture,
        Phase::Capture if walk.has_more => Event::Take,
        Phase::Capture => Event::Done,
        Phase::Complete => Event::Rest,
    }
}

fn put_of(alloc: Global, session: SessionNo, seed: u64) -> Result<Event, Refusal> {
    let key = Key::new(alloc, key_of(seed))?;
    let value = Value::new(alloc, drawn_value(seed))?;
    Ok(Event::Put(session, key, value))
}

// A number from -14 to 13.
fn delta_of(seed: u64) -> i64 {
    i64::from(drawn(seed, 35, 28)).wrapping_sub(14)
}

// What a session asks.
fn session_asks(alloc: Global, session: SessionNo, seed: u64) -> Result<Event, Refusal> {
    match drawn(seed, 45, 20) {
        0..=4 => Ok(Event::Begin(session)),
        5 | 6 => Ok(Event::Get(session, Key::new(alloc, key_of(seed))?)),
        7..=10 => put_of(alloc, session, seed),
        11 | 12 => Ok(Event::Add(session, Key::new(alloc, key_of(seed))?, delta_of(seed))),
        13 | 14 => Ok(Event::Del(session, Key::new(alloc, key_of(seed))?)),
        15 => Ok(Event::Abort(session)),
        _ => Ok(Event::Commit(session)),
    }
}

// The session that asks at this step.
fn session_of(walk: &Walk) -> u32 {
    if walk.dead != 0 {
        return walk.dead;
    }
    drawn(walk.seed, 24, 3).wrapping_add(1)
}

fn next_event(alloc: Global, walk: &Walk) -> Result<Event, Refusal> {
    if walk.dead != 0 {
        return Ok(Event::Abort(SessionNo(walk.dead)));
    }
    if drawn(walk.seed, 50, 4) == 0 {
        return Ok(next_of(walk));
    }
    session_asks(alloc, SessionNo(session_of(walk)), walk.seed)
}

// The walk after a reply.
fn moved(walk: &Walk, reply: &Reply) -> Walk {
    let mut now = *walk;
    now.seed = following(walk.seed);
    now.dead = 0;
    match reply {
        Reply::Phase(phase, _) => {
            now.phase = *phase;
            now.has_more = true;
        }
        Reply::NoneLeft => now.has_more = false,
        Reply::PartDone(_, _, _) => {
            now.phase = Phase::Complete;
            now.parts = walk.parts.wrapping_add(1);
        }
        Reply::Died => now.dead = session_of(walk),
        _ => {}
    }
    now
}

// A base of run 9, in which `b` is `0`.
fn base_of(alloc: Global) -> Result<Base, Refusal>
    ensures { IfOk result (λ base. base.point ≡ 0) }
{
    let mut pairs = Vec::with_capacity(alloc, 1)?;
    let key = Key::new(alloc, b"b")?;
    let value = Value::new(alloc, b"0")?;
    pairs.push_reserved((key, value));
    Ok(Base::start(9, pairs))
}

// One step after the other.
fn walk_on(alloc: Global, world: &mut World, seed: u64) -> Result<(), Refusal> {
    let mut walk = Walk {
        seed,
        phase: Phase::Rest,
        has_more: true,
        parts: 0,
        dead: 0,
    };
    for _ in 0..STEPS {
        let event = next_event(alloc, &walk)?;
        let reply = world.step(&event);
        walk = moved(&walk, &reply);
    }
    Ok(())
}

/// The store after the walk of this seed: 250 steps of run 9. It refuses only with `OutOfMemory`. The store hashes its keys
/// under a seed of its own.
pub fn walked(alloc: Global, hash_seed: RandomState, seed: u64) -> Result<World, Refusal> {
    let mut world = World::new(alloc, base_of(alloc)?, 3, 16, hash_seed)?;
    match walk_on(alloc, &mut world, seed) {
        Ok(()) => Ok(world),
        Err(why) => Err(why),
    }
}
