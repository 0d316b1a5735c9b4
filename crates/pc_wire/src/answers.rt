//! The answer, as numbers.
ghost use Rattle.std.specs.Prelude.{◌≡◌, length};
ghost use Rattle.pc_types.specs.declared.Reply.TheVariants as told;
ghost use Rattle.pc_wire.specs.Answers.{plain, phase_code, refusal_number, gap_point, refusal_told, text_told, answer_of_reply, key_of_reply, content_bytes, value_of_reply};

use crate::codes::{
    ABORTED, ABSENT, BEGUN, COMMITTED, DIED, FOUND, JOINED, MADE, NONE_LEFT, NOT_YET, PART_DONE,
    PHASE, REFUSED, SUM, TEXT, TOOK, TOOK_ABSENT, WAIT,
};
use pc_types::{Key, Phase, Refusal, Reply, Value};

/// The answer, without the bytes of a key and of a value. A field that its kind doesn't use is 0.
#[repr(C)]
#[derive(Clone, Copy)]
pub struct Answer {
    /// The kind of the answer, by `codes`.
    pub kind: u32,
    /// Why a call was refused; 0 if it wasn't.
    pub refusal: u32,
    /// The number of a transaction, of an entry of the log or of a point, or how many are waited for.
    pub number: u64,
    /// The number of entries that a file has, or a shown text is of.
    pub entries: u64,
    /// The number of a file on the shelf, from 1.
    pub file: u32,
    /// The phase, from 0 for rest to 4 for complete.
    pub phase: u32,
    /// The sum.
    pub sum: i64,
    /// The space of a taken key.
    pub space: u32,
    /// The number of bytes that a taken key has of its own.
    pub key_bytes: u32,
    /// The number of bytes that the value, or the text, has.
    pub value_bytes: u64,
}

/// An answer of this kind with nothing else in it.
pub fn plain(kind: u32) -> Answer
    ensures { result ≡ plain kind }
{
    Answer {
        kind,
        refusal: 0,
        number: 0,
        entries: 0,
        file: 0,
        phase: 0,
        sum: 0,
        space: 0,
        key_bytes: 0,
        value_bytes: 0,
    }
}

/// The answer of a refusal.
pub fn refused(why: &Refusal) -> Answer
    ensures { result ≡ refusal_told why.now }
{
    let refusal = refusal_number(why);
    let number = gap_point(why);
    Answer {
        refusal,
        number,
        ..plain(REFUSED)
    }
}

/// The answer that shows a text of the given number of bytes and of entries.
pub fn text_told(bytes: u64, entries: u64) -> Answer
    ensures { result ≡ text_told bytes entries }
{
    Answer {
        entries,
        value_bytes: bytes,
        ..plain(TEXT)
    }
}

// The point of a gap.
fn gap_point(why: &Refusal) -> u64
    ensures { result ≡ gap_point why.now }
{
    match *why {
        Refusal::Gap(point) => u64::from(point.0),
        _ => 0,
    }
}

/// The answer for a reply of the store.
pub fn told_of(reply: &Reply) -> Answer
    ensures { result ≡ answer_of_reply reply.now }
{
    match reply {
        Reply::Begun(txn) => numbered(BEGUN, txn.0),
        Reply::Found(value) => told_found(value),
        Reply::Absent => plain(ABSENT),
        Reply::Ok => plain(MADE),
        Reply::Sum(sum) => Answer {
            sum: *sum,
            ..plain(SUM)
        },
        Reply::Wait => plain(WAIT),
        Reply::Died => plain(DIED),
        Reply::Committed(lsn) => numbered(COMMITTED, u64::from(lsn.0)),
        Reply::Aborted => plain(ABORTED),
        Reply::Phase(phase, point) => told_phase(*phase, u64::from(point.0)),
        Reply::NotYet(count) => numbered(NOT_YET, u64::from(*count)),
        Reply::Took(key, content) => told_taken(key, content),
        Reply::NoneLeft => plain(NONE_LEFT),
        Reply::PartDone(point, file, entries) => Answer {
            number: u64::from(point.0),
            entries: u64::from(*entries),
            file: file.0,
            ..plain(PART_DONE)
        },
        Reply::File(file, points, entries) => Answer {
            number: points.len() as u64,
            entries: u64::from(*entries),
            file: file.0,
            ..plain(JOINED)
        },
        Reply::Refused(why) => refused(why),
    }
}

fn numbered(kind: u32, number: u64) -> Answer
    ensures { result ≡ record (plain kind) { number = number } }
{
    Answer {
        number,
        ..plain(kind)
    }
}

fn told_found(value: &Value) -> Answer
    ensures { result ≡ record (plain FOUND) { value_bytes = length value.now } }
{
    let value_bytes = value.as_bytes().len() as u64;
    Answer {
        value_bytes,
        ..plain(FOUND)
    }
}

fn told_phase(phase: Phase, point: u64) -> Answer
    ensures { result ≡ record (plain PHASE) { number = point; phase = phase_code phase } }
{
    Answer {
        number: point,
        phase: phase_number(phase),
        ..plain(PHASE)
    }
}

fn told_taken(key: &Key, content: &Option<Value>) -> Answer
    ensures { result ≡ answer_of_reply (told.Took key.now content.now) }
{
    let space = u32::from(key.space());
    let key_bytes = key.own_bytes().len() as u32;
    match content {
        Some(value) => {
            let value_bytes = value.as_bytes().len() as u64;
            Answer {
                space,
                key_bytes,
                value_bytes,
                ..plain(TOOK)
            }
        }
        None => Answer {
            space,
            key_bytes,
            ..plain(TOOK_ABSENT)
        },
    }
}

fn phase_number(phase: Phase) -> u32
    ensures { result ≡ phase_code phase }
{
    match phase {
        Phase::Rest => 0,
        Phase::Prepare => 1,
        Phase::Resolve => 2,
        Phase::Capture => 3,
        Phase::Complete => 4,
    }
}

/// The own bytes of the key that a reply has; no bytes if it has no key.
pub fn key_of_reply(reply: &Reply) -> &[u8]
    ensures { result.now ≡ key_of_reply reply.now }
{
    match reply {
        Reply::Took(key, _) => key.own_bytes(),
        _ => &[],
    }
}

/// The bytes of the value that a reply has; no bytes if it has no value.
pub fn value_of_reply(reply: &Reply) -> &[u8]
    ensures { result.now ≡ value_of_reply reply.now }
{
    match reply {
        Reply::Found(value) => value.as_bytes(),
        Reply::Took(_, content) => content_bytes(content),
        _ => &[],
    }
}

fn content_bytes(content: &Option<Value>) -> &[u8]
    ensures { result.now ≡ content_bytes content.now }
{
    match content {
        Some(value) => value.as_bytes(),
        None => &[],
    }
}

/// The number of a refusal, from 1.
pub fn refusal_number(why: &Refusal) -> u32
    ensures { result ≡ refusal_number why.now }
{
    match *why {
        Refusal::OutOfMemory => 1,
        Refusal::Full => 2,
        Refusal::KeyLength => 3,
        Refusal::ValueLength => 4,
        Refusal::NoTransaction => 5,
        Refusal::AlreadyBegun => 6,
        Refusal::MustAbort => 7,
        Refusal::WrongPhase => 8,
        Refusal::TooManyWrites => 9,
        Refusal::LogFull => 10,
        Refusal::PointsFull => 11,
        Refusal::NoSession => 12,
        Refusal::NoFile => 13,
        Refusal::OtherRun => 14,
        Refusal::Conflict => 15,
        Refusal::Gap(_) => 16,
        Refusal::ShelfFull => 17,
        Refusal::StillWaiting => 18,
        Refusal::NotNumber => 19,
        Refusal::Short => 20,
        Refusal::BadMagic => 21,
        Refusal::BadRanges => 22,
        Refusal::KeyOrder => 23,
        Refusal::BadKind => 24,
        Refusal::BadLength => 25,
        Refusal::Trailing => 26,
        Refusal::NotCovered => 27,
        Refusal::TokenOrder => 28,
        Refusal::Device => 30,
        Refusal::OutOfRange => 31,
    }
}
