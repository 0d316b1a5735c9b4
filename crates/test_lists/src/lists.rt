//! Every list of a family, depth first.

use crate::families::{Family, Rule, new_world};
use pc_engine::World;
use pc_types::{Event, Refusal};
use std::alloc::{AllocError, Global};
use std::hash::RandomState;
use test_support::{Sums, events_of};

// The way through a family: the list, by the places of its letters, and the store that it is asked of.
#[derive(Drop)]
struct Way {
    start: Vec<Event>,
    letters: Vec<Event>,
    // All but the last letter of the list, and that one.
    before: Vec<usize>,
    last: usize,
    world: World,
    // The seed of the hashes of each store's keys.
    seed: RandomState,
    // Whether the store is valid after all but the last.
    is_ready: bool,
    sums: Sums,
}

/// Goes through every list of the family: the replies to the events of its start, and then of each list the reply to its
/// last event, a list before the longer ones that begin with it, and by the order of the letters. It fails only if an
/// allocation fails. All its stores hash their keys under the seed.
pub fn sums_of(alloc: Global, seed: RandomState, family: &Family) -> Result<Sums, Refusal> {
    let mut way = way_into(alloc, seed, family)?;
    go_through(alloc, family, &mut way)?;
    let Way { sums, .. } = way;
    Ok(sums)
}

fn way_into(alloc: Global, seed: RandomState, family: &Family) -> Result<Way, Refusal> {
    let start = events_of(alloc, family.start)?;
    let letters = events_of(alloc, family.letters)?;
    let world = new_world(alloc, seed, family.store)?;
    Ok(Way {
        start,
        letters,
        before: Vec::new(alloc),
        last: 0,
        world,
        seed,
        is_ready: true,
        sums: Sums::new(alloc),
    })
}

fn go_through(alloc: Global, family: &Family, way: &mut Way) -> Result<(), Refusal> {
    begin(&mut way.world, &mut way.sums, &way.start)?;
    for _ in 0..u32::MAX {
        if !visit(alloc, family, way)? {
            return Ok(());
        }
    }
    Ok(())
}

// Asks the events of the start.
fn begin(world: &mut World, sums: &mut Sums, start: &[Event]) -> Result<(), AllocError> {
    for event in start {
        ask(world, sums, event, Rule::CheckEach)?;
    }
    Ok(())
}

// Asks the event. Whether a list that ends with it is gone on with.
fn ask(world: &mut World, sums: &mut Sums, event: &Event, rule: Rule) -> Result<bool, AllocError> {
    let reply = world.step(event);
    sums.note(&reply)?;
    Ok(rule.goes_on(&reply))
}

// Asks the list's last event, and goes on to the next list, if there is one.
fn visit(alloc: Global, family: &Family, way: &mut Way) -> Result<bool, Refusal> {
    if !way.is_ready {
        way.world = new_world(alloc, way.seed, family.store)?;
        replay(way);
    }
    let goes_on = ask_last(family.rule, way)?;
    let depth = way.before.len();
    let is_longest = depth.wrapping_add(1) == family.most;
    if family.rule.is_checked(is_longest, goes_on) {
        way.sums.note_check(way.world.check()?);
    }
    if goes_on && !is_longest {
        way.before.push(way.last)?;
        way.last = 0;
        way.is_ready = true;
        return Ok(true);
    }
    let has_next = turn(way);
    way.is_ready = !goes_on && way.before.len() == depth;
    Ok(has_next)
}

// Asks the new store the start's events, and all but the last of the list's.
fn replay(way: &mut Way) {
    replay_all(&mut way.world, &way.start);
    replay_letters(&mut way.world, &way.letters, &way.before);
}

fn replay_all(world: &mut World, events: &[Event]) {
    for event in events {
        let _ = world.step(event);
    }
}

fn replay_letters(world: &mut World, letters: &[Event], places: &[usize]) {
    for place in places {
        if let Some(event) = letters.get(*place) {
            let _ = world.step(event);
        }
    }
}

// Asks the list's last event. Whether the list is gone on with.
fn ask_last(rule: Rule, way: &mut Way) -> Result<bool, AllocError> {
    match way.letters.get(way.last) {
        Some(event) => ask(&mut way.world, &mut way.sums, event, rule),
        None => Ok(false),
    }
}

// The next list that isn't longer: with the next letter in the last place that has another, if there is one.
fn turn(way: &mut Way) -> bool {
    for _ in 0..=way.before.len() {
        way.last = way.last.wrapping_add(1);
        if way.last < way.letters.len() {
            return true;
        }
        match way.before.pop() {
            Some(place) => way.last = place,
            None => return false,
        }
    }
    false
}
