//! What is asked of a store, as plain data.

use pc_types::{Event, FileNo, Key, Refusal, SessionNo, Value};
use std::alloc::Global;

/// What is asked of a store: sessions and files by their numbers, keys and values by their bytes.
#[derive(Clone, Copy)]
pub enum Ask<'a> {
    Begin(u32),
    Get(u32, &'a [u8]),
    Put(u32, &'a [u8], &'a [u8]),
    Del(u32, &'a [u8]),
    Add(u32, &'a [u8], i64),
    Commit(u32),
    Abort(u32),
    StartPoint,
    Seal,
    OpenCapture,
    Take,
    Done,
    Rest,
    Join(u32, u32),
}

/// The event. Refuses a key or a value of another length than the store allows, and with `OutOfMemory`.
pub fn event_of(alloc: Global, ask: Ask) -> Result<Event, Refusal> {
    Ok(match ask {
        Ask::Begin(session) => Event::Begin(SessionNo(session)),
        Ask::Get(session, key) => Event::Get(SessionNo(session), Key::new(alloc, key)?),
        Ask::Put(session, key, value) => return put_of(alloc, session, key, value),
        Ask::Del(session, key) => Event::Del(SessionNo(session), Key::new(alloc, key)?),
        Ask::Add(session, key, delta) => {
            Event::Add(SessionNo(session), Key::new(alloc, key)?, delta)
        }
        Ask::Commit(session) => Event::Commit(SessionNo(session)),
        Ask::Abort(session) => Event::Abort(SessionNo(session)),
        Ask::StartPoint => Event::StartPoint,
        Ask::Seal => Event::Seal,
        Ask::OpenCapture => Event::OpenCapture,
        Ask::Take => Event::Take,
        Ask::Done => Event::Done,
        Ask::Rest => Event::Rest,
        Ask::Join(first, second) => Event::Join(FileNo(first), FileNo(second)),
    })
}

fn put_of(alloc: Global, session: u32, key: &[u8], value: &[u8]) -> Result<Event, Refusal> {
    let key = Key::new(alloc, key)?;
    let value = Value::new(alloc, value)?;
    Ok(Event::Put(SessionNo(session), key, value))
}

/// The events, in the same order.
pub fn events_of(alloc: Global, asks: &[Ask]) -> Result<Vec<Event>, Refusal> {
    let mut events = Vec::new(alloc);
    for ask in asks {
        let event = event_of(alloc, *ask)?;
        events.push(event)?;
    }
    Ok(events)
}
