//! The request to a store, as numbers and bytes.
ghost use Rattle.std.specs.Prelude.{◌≡◌, ◌⊎◌, Ok, Err, IsOk, IfOk, IfErr, IfSome};
ghost use Rattle.pc_types.specs.declared.Event.TheVariants as asked;
ghost use Rattle.pc_types.specs.declared.refusal.Refusal.TheVariants.{OutOfMemory};
ghost use Rattle.pc_types.specs.Keys.{key_of};
ghost use Rattle.pc_wire.specs.Calls.{kind_has_key, key_fault, value_fault, call_fault, event_at, event_asked};

use crate::codes::{
    ABORT, ADD, BEGIN, CAPTURE, COMMIT, DEL, DONE, GET, JOIN, POINT, PUT, REST, SEAL, TAKE,
};
use pc_types::{Event, FileNo, Key, MOST_KEY_BYTES, MOST_VALUE_BYTES, Refusal, SessionNo, Value};
use std::alloc::Global;

const MOST_SPACE: u32 = 65_535;

/// The request, without the bytes of its key and of its value. A field that its kind doesn't use is ignored.
#[repr(C)]
#[derive(Clone, Copy)]
pub struct Call {
    /// The kind of the event, by `codes`.
    pub kind: u32,
    /// The session, from 1.
    pub session: u32,
    /// The space of the key, from 0 to 65,535.
    pub space: u32,
    /// The first file of a join, from 1.
    pub first: u32,
    /// The second file of a join, from 1.
    pub second: u32,
    /// The number to add.
    pub delta: i64,
}

/// The event that the call asks with these bytes of a key and of a value, or why it asks none: `BadKind` if its kind is that of no
/// event; if its event has a key, `BadLength` for a space past 65,535 and `KeyLength` for bytes that are no key's; and `ValueLength`
/// for bytes of a put that are no value's. If none of these applies, checked in this order, it refuses only with `OutOfMemory`.
pub fn event_of(alloc: Global, call: &Call, key: &[u8], value: &[u8]) -> Result<Event, Refusal>
    ensures asked { IfOk result (λ event. event_asked call.now key.now value.now ≡ Ok event) }
    ensures refused { IfErr result (λ why. (event_asked call.now key.now value.now ≡ Err why) ⊎ ((why ≡ OutOfMemory) × IsOk (event_asked call.now key.now value.now))) }
{
    if let Some(why) = fault_of(call, key, value) {
        return Err(why);
    }
    match made(alloc, call, key, value) {
        Some(event) => Ok(event),
        None => Err(Refusal::OutOfMemory),
    }
}

// Why the call asks no event with these bytes, if it doesn't.
fn fault_of(call: &Call, key: &[u8], value: &[u8]) -> Option<Refusal>
    ensures { result ≡ call_fault call.now key.now value.now }
{
    if call.kind == 0 || call.kind > JOIN {
        return Some(Refusal::BadKind);
    }
    if !has_key(call.kind) {
        return None;
    }
    match key_fault(call.space, key) {
        Some(why) => Some(why),
        None => value_fault(call.kind, value),
    }
}

// Whether events of this kind have a key.
fn has_key(kind: u32) -> bool
    ensures { result ≡ kind_has_key kind }
{
    GET <= kind && kind <= ADD
}

// Why the space and the bytes are no key, if they aren't.
fn key_fault(space: u32, own: &[u8]) -> Option<Refusal>
    ensures { result ≡ key_fault space own.now }
{
    if space > MOST_SPACE {
        return Some(Refusal::BadLength);
    }
    if own.is_empty() || own.len() > MOST_KEY_BYTES {
        return Some(Refusal::KeyLength);
    }
    None
}

// Why the bytes are no value of an event of this kind, if they aren't.
fn value_fault(kind: u32, bytes: &[u8]) -> Option<Refusal>
    ensures { result ≡ value_fault kind bytes.now }
{
    if kind == PUT && bytes.len() > MOST_VALUE_BYTES {
        Some(Refusal::ValueLength)
    } else {
        None
    }
}

// The event of a call without a fault; `None` if an allocation failed.
fn made(alloc: Global, call: &Call, key: &[u8], value: &[u8]) -> Option<Event>
    ensures { IfSome result (λ event. event ≡ event_at call.now key.now value.now) }
{
    let session = SessionNo(call.session);
    match call.kind {
        BEGIN => Some(Event::Begin(session)),
        GET => Some(Event::Get(session, key_of(alloc, call.space, key)?)),
        PUT => put_of(alloc, call, key, value),
        DEL => Some(Event::Del(session, key_of(alloc, call.space, key)?)),
        ADD => Some(Event::Add(session, key_of(alloc, call.space, key)?, call.delta)),
        COMMIT => Some(Event::Commit(session)),
        ABORT => Some(Event::Abort(session)),
        POINT => Some(Event::StartPoint),
        SEAL => Some(Event::Seal),
        CAPTURE => Some(Event::OpenCapture),
        TAKE => Some(Event::Take),
        DONE => Some(Event::Done),
        REST => Some(Event::Rest),
        _ => Some(Event::Join(FileNo(call.first), FileNo(call.second))),
    }
}

// A put of these bytes; `None` if an allocation failed.
fn put_of(alloc: Global, call: &Call, own: &[u8], bytes: &[u8]) -> Option<Event>
    ensures { IfSome result (λ event. event ≡ asked.Put call.now.session (key_of call.now.space own.now) bytes.now) }
{
    let key = key_of(alloc, call.space, own)?;
    let value = Value::new(alloc, bytes).ok()?;
    Some(Event::Put(SessionNo(call.session), key, value))
}

// The key of these bytes in the space; `None` if an allocation failed.
fn key_of(alloc: Global, space: u32, own: &[u8]) -> Option<Key>
    ensures { IfSome result (λ key. key ≡ key_of space own.now) }
{
    let space = u16::try_from(space).ok()?;
    Key::in_space(alloc, space, own).ok()
}
