//! What a store answers, in plain words, asked again if an allocation failed.

use pc_engine::World;
use pc_types::{Event, Phase, Point, Refusal, Reply, Value};
use std::alloc::Global;
use test_support::{Ask, event_of};

/// The store's answer. Of a value that was found it has the length; of a key that was taken the first byte, and that of
/// what it had, or 0; of a joined file's points the digits.
#[derive(Clone, Copy, Debug, PartialEq)]
pub(crate) enum Told {
    Begun(u64),
    Found(usize),
    Absent,
    Ok,
    Sum(i64),
    Wait,
    Died,
    Committed(u32),
    Aborted,
    Phase(Phase, u16),
    NotYet(u32),
    Took(u8, u8),
    NoneLeft,
    PartDone(u16, u32, u32),
    File(u32, u32, u32),
    Refused(Refusal),
    Unasked,
}

/// The reply in the words of the tests.
pub(crate) fn tell(reply: &Reply) -> Told {
    match reply {
        Reply::Begun(number) => Told::Begun(number.0),
        Reply::Found(value) => Told::Found(value.as_bytes().len()),
        Reply::Absent => Told::Absent,
        Reply::Ok => Told::Ok,
        Reply::Sum(number) => Told::Sum(*number),
        Reply::Wait => Told::Wait,
        Reply::Died => Told::Died,
        Reply::Committed(number) => Told::Committed(number.0),
        Reply::Aborted => Told::Aborted,
        Reply::Phase(phase, point) => Told::Phase(*phase, point.0),
        Reply::NotYet(count) => Told::NotYet(*count),
        Reply::Took(key, content) => Told::Took(first(key.own_bytes()), content_told(content)),
        Reply::NoneLeft => Told::NoneLeft,
        Reply::PartDone(point, number, entries) => Told::PartDone(point.0, number.0, *entries),
        Reply::File(number, points, entries) => {
            Told::File(number.0, digits(points.as_slice()), *entries)
        }
        Reply::Refused(refusal) => Told::Refused(*refusal),
    }
}

/// The first byte, or 0.
pub(crate) fn first(bytes: &[u8]) -> u8 {
    match bytes.first() {
        Some(byte) => *byte,
        None => 0,
    }
}

fn content_told(content: &Option<Value>) -> u8 {
    match content {
        Some(value) => first(value.as_bytes()),
        None => 0,
    }
}

// The points, one digit each.
fn digits(points: &[Point]) -> u32 {
    let mut digits = 0u32;
    for point in points {
        digits = digits.wrapping_mul(10).wrapping_add(u32::from(point.0));
    }
    digits
}

// What the world answers to the event; if an allocation fails it is asked again, but an abort, which needs none.
fn ask_again(world: &mut World, event: &Event) -> Told {
    let answer = tell(&world.step(event));
    match (answer, event) {
        (_, Event::Abort(_)) => answer,
        (Told::Refused(Refusal::OutOfMemory), _) => tell(&world.step(event)),
        _ => answer,
    }
}

/// What the world answers; the event is made again if an allocation failed for it.
pub(crate) fn answer(alloc: Global, world: &mut World, ask: Ask) -> Told {
    if let Ok(event) = event_of(alloc, ask) {
        return ask_again(world, &event);
    }
    match event_of(alloc, ask) {
        Ok(event) => ask_again(world, &event),
        Err(_) => Told::Unasked,
    }
}

/// The first row at which the world answers something else than the row has, and what it answers there.
pub(crate) fn first_wrong(
    alloc: Global,
    world: &mut World,
    rows: &[(Ask, Told)],
) -> Option<(usize, Told)> {
    for (i, row) in rows.iter().enumerate() {
        let told = answer(alloc, world, row.0);
        if told != row.1 {
            return Some((i, told));
        }
    }
    None
}

/// Whether the store is correct; if an allocation fails it is asked again.
pub(crate) fn is_right(world: &World) -> Result<bool, Refusal> {
    match world.check() {
        Ok(is_right) => Ok(is_right),
        Err(_) => world.check(),
    }
}
