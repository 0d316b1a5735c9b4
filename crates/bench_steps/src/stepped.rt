//! One session's calls of a store that one thread steps.
use crate::pairs::{key_of, pair_of};
use pc_engine::World;
use pc_types::{Event, Refusal, Reply, SessionNo};
use std::alloc::Global;

/// The session of the store.
pub const SESSION: SessionNo = SessionNo(1);

/// The store's answer to the event, if it isn't refused.
pub fn ask(world: &mut World, event: &Event) -> Result<Reply, Refusal> {
    match world.step(event) {
        Reply::Refused(why) => Err(why),
        reply => Ok(reply),
    }
}

/// Asks the event, whose answer is of no use, if it isn't refused.
pub fn step(world: &mut World, event: &Event) -> Result<(), Refusal> {
    let reply = world.step(event);
    match &reply {
        Reply::Refused(why) => Err(*why),
        _ => Ok(()),
    }
}

/// Puts the pair of this number.
pub fn put(alloc: Global, world: &mut World, number: u32) -> Result<(), Refusal> {
    let put = put_of(alloc, number)?;
    step(world, &put)
}

/// Writes the key of this number: adds 1 to it, or puts its pair.
pub fn write(
    alloc: Global,
    world: &mut World,
    number: u32,
    is_adding: bool,
) -> Result<(), Refusal> {
    if is_adding {
        step(world, &Event::Add(SESSION, key_of(alloc, number)?, 1))
    } else {
        put(alloc, world, number)
    }
}

fn put_of(alloc: Global, number: u32) -> Result<Event, Refusal> {
    let (key, value) = pair_of(alloc, number)?;
    Ok(Event::Put(SESSION, key, value))
}
