//! The texts of pairs, writes, logs and files.

use pc_replay::{CompleteFile, Pairs};
use pc_types::{Change, Entry, Items, Key, Phase, Point, Refusal, SessionNo, Triple, Value, Write};
use std::alloc::Global;

fn key_of(alloc: Global, byte: u8) -> Result<Key, Refusal> {
    Key::new(alloc, &[byte])
}

/// The value of a byte; `-` represents its absence: a capital letter for the number of its place.
pub fn content_of(alloc: Global, byte: u8) -> Result<Option<Value>, Refusal> {
    match byte {
        b'-' => Ok(None),
        b'A'..=b'Z' => Ok(Some(Value::of_number(alloc, i64::from(byte - b'A')))),
        _ => Ok(Some(Value::new(alloc, &[byte])?)),
    }
}

// The change of a byte: an add, or what the key has then.
fn change_of(alloc: Global, byte: u8) -> Result<Change, Refusal> {
    match byte {
        b'+' => Ok(Change::Add(1)),
        b'<' => Ok(Change::Add(-1)),
        b'>' => Ok(Change::Add(i64::MAX)),
        _ => match content_of(alloc, byte)? {
            Some(value) => Ok(Change::Set(value)),
            None => Ok(Change::Remove),
        },
    }
}

/// The keys and their contents, in their order.
pub fn entries_of(alloc: Global, text: &[u8]) -> Result<Vec<(Key, Option<Value>)>, Refusal> {
    let mut entries = Vec::new(alloc);
    for i in 0..text.len() / 2 {
        entries.push((
            key_of(alloc, text[2 * i])?,
            content_of(alloc, text[2 * i + 1])?,
        ))?;
    }
    Ok(entries)
}

/// The pairs, of which the last one of a key counts.
pub fn pairs_of(alloc: Global, text: &[u8]) -> Result<Pairs, Refusal> {
    let mut pairs = Pairs::new(alloc);
    for (key, content) in entries_of(alloc, text)? {
        if let Some(value) = content {
            pairs.insert(key, value)?;
        }
    }
    Ok(pairs)
}

pub fn writes_of(alloc: Global, text: &[u8]) -> Result<Items<Write>, Refusal> {
    let mut writes = Items::new(alloc);
    for i in 0..text.len() / 2 {
        let key = key_of(alloc, text[2 * i])?;
        let change = change_of(alloc, text[2 * i + 1])?;
        writes.push(Write { key, change })?;
    }
    Ok(writes)
}

/// The point of a digit.
pub fn point_of(byte: u8) -> Point {
    Point(u16::from(byte.saturating_sub(b'0')))
}

fn log_entry_of(alloc: Global, piece: &[u8]) -> Result<Entry, Refusal> {
    match piece {
        [b'^', digit] => Ok(Entry::Token(Phase::Prepare, point_of(*digit))),
        [b'|', digit] => Ok(Entry::Token(Phase::Resolve, point_of(*digit))),
        _ => Ok(Entry::Commit(SessionNo(1), writes_of(alloc, piece)?)),
    }
}

pub fn log_of(alloc: Global, text: &[u8]) -> Result<Vec<Entry>, Refusal> {
    let mut log = Vec::new(alloc);
    for piece in text.split(|byte| *byte == b',') {
        log.push(log_entry_of(alloc, piece)?)?;
    }
    Ok(log)
}

/// The triples, each of three bytes.
pub fn triples_of(alloc: Global, text: &[u8]) -> Result<Vec<Triple>, Refusal> {
    let mut triples = Vec::new(alloc);
    for i in 0..text.len() / 3 {
        triples.push(Triple {
            key: key_of(alloc, text[3 * i])?,
            point: point_of(text[3 * i + 1]),
            content: content_of(alloc, text[3 * i + 2])?,
        })?;
    }
    Ok(triples)
}

/// The files of these words, each a point, `:` and triples.
pub fn files_of(alloc: Global, words: &[&[u8]]) -> Result<Vec<CompleteFile>, Refusal> {
    let mut files = Vec::new(alloc);
    for word in words {
        if let [digit, b':', rest @ ..] = *word {
            files.push(CompleteFile {
                point: point_of(*digit),
                triples: triples_of(alloc, rest)?,
            })?;
        }
    }
    Ok(files)
}

// A value as it is written: a number by the letter of its place.
fn shown(value: &[u8]) -> &[u8] {
    let letters = b"ABCDEFGHIJKLMNOPQRSTUVWXYZ";
    match value {
        [0, 0, 0, 0, 0, 0, 0, place] => {
            let place = usize::from(*place);
            letters.get(place..place + 1).unwrap_or(b"?")
        }
        [_, _, _, _, _, _, _, _] => b"?",
        _ => value,
    }
}

/// The pairs as they are written; `.` if there is none.
pub fn text_of(alloc: Global, pairs: &[(Key, Value)]) -> Result<Vec<u8>, Refusal> {
    let mut text = Vec::new(alloc);
    for (key, value) in pairs {
        text.extend_from_slice(key.own_bytes())?;
        text.extend_from_slice(shown(value.as_bytes()))?;
    }
    if text.is_empty() {
        text.push(b'.')?;
    }
    Ok(text)
}
