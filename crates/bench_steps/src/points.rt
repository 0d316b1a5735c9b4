//! Cycles over keys that are all written before each point.
ghost use Rattle.std.specs.Prelude.{◌≡◌, ◌≤◌, length, All, IfOk};

use crate::amounts::Cycles;
use crate::failure::BenchFailure;
use crate::stepped::{SESSION, ask, put, step};
use pc_bases::Base;
use pc_engine::World;
use pc_types::{Event, Refusal, Reply};
use std::alloc::Global;
use std::hash::RandomState;
use std::rt::Clock;
use std::time::{Duration, Instant};

// The number of keys that a transaction writes.
const WRITES: u32 = 250;

/// The outcome of a cycle.
#[derive(Clone, Copy)]
pub struct TimedCycle {
    /// The number of captured keys.
    pub taken: u32,
    /// The time of the seal, which closes the set of the keys that were written.
    pub sealing: Duration,
    /// The time to take the keys.
    pub taking: Duration,
    /// The time to make a part of the captured entries.
    pub finishing: Duration,
}

/// Goes through the given number of cycles: writes all keys, and takes them at the point, in each cycle no more than
/// there are.
pub fn measure_points(
    alloc: Global,
    clock: &impl Clock,
    seed: RandomState,
    cycles: Cycles,
) -> Result<Vec<TimedCycle>, BenchFailure>
    ensures cycles { IfOk result (λ done. length done.items ≡ cycles.points) }
    ensures taken { IfOk result (λ done. All (λ cycle. cycle.taken ≤ cycles.keys) done.items) }
{
    let mut world = World::new(alloc, Base::start(1, Vec::new(alloc)), 1, cycles.keys, seed)?;
    take_points(alloc, clock, &mut world, cycles)
}

// The same in a store that is there.
fn take_points(
    alloc: Global,
    clock: &impl Clock,
    world: &mut World,
    cycles: Cycles,
) -> Result<Vec<TimedCycle>, BenchFailure>
    ensures cycles { IfOk result (λ done. length done.items ≡ cycles.points) }
    ensures taken { IfOk result (λ done. All (λ cycle. cycle.taken ≤ cycles.keys) done.items) }
{
    let mut done = Vec::new(alloc);
    for _ in 0..cycles.points {
        write_all(alloc, world, cycles.keys)?;
        done.push(take_point(clock, world, cycles.keys)?)?;
    }
    Ok(done)
}

// Writes the keys of the numbers below this one, in transactions of the given number of writes.
fn write_all(alloc: Global, world: &mut World, keys: u32) -> Result<(), Refusal> {
    for number in 0..keys {
        if number % WRITES == 0 {
            step(world, &Event::Begin(SESSION))?;
        }
        put(alloc, world, number)?;
        if number % WRITES == WRITES - 1 || number == keys - 1 {
            step(world, &Event::Commit(SESSION))?;
        }
    }
    Ok(())
}

// A cycle, from its start to rest.
fn take_point(clock: &impl Clock, world: &mut World, keys: u32) -> Result<TimedCycle, BenchFailure>
    ensures { IfOk result (λ cycle. cycle.taken ≤ keys) }
{
    step(world, &Event::StartPoint)?;
    let sealing = time_of(clock, world, &Event::Seal)?;
    step(world, &Event::OpenCapture)?;
    let start = Instant::now(clock)?;
    let taken = take_all(world, keys)?;
    let taking = start.elapsed(clock)?;
    let finishing = time_of(clock, world, &Event::Done)?;
    step(world, &Event::Rest)?;
    Ok(TimedCycle {
        taken,
        sealing,
        taking,
        finishing,
    })
}

// The time that the store takes to answer the event, which isn't refused.
fn time_of(clock: &impl Clock, world: &mut World, event: &Event) -> Result<Duration, BenchFailure> {
    let start = Instant::now(clock)?;
    step(world, event)?;
    Ok(start.elapsed(clock)?)
}

// Takes keys until none is left, at most the given number.
fn take_all(world: &mut World, keys: u32) -> Result<u32, Refusal>
    ensures { IfOk result (λ taken. taken ≤ keys) }
{
    for taken in 0..keys {
        match ask(world, &Event::Take)? {
            Reply::Took(_, _) => {}
            _ => return Ok(taken),
        }
    }
    Ok(keys)
}
