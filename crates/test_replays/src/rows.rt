//! What a row comes to.

use crate::texts::{
    entries_of, files_of, log_of, pairs_of, point_of, text_of, triples_of, writes_of,
};
use pc_replay::{
    Overlay, Pairs, after, apply, audit, first_of_each, front_len, is_replay, lay_plain, state_at,
};
use pc_types::{Point, Refusal, copy_content};
use std::alloc::Global;

/// What the words ask for.
pub fn answer(alloc: Global, words: &[&[u8]]) -> Result<Vec<u8>, Refusal> {
    match words {
        [b"overlay", base, writes] => overlaid(alloc, base, writes),
        [b"replay", base, log] => replayed(alloc, base, log),
        [b"lay", base, [digit], triples] => laid(alloc, base, point_of(*digit), triples),
        [b"first", entries] => firsts(alloc, entries),
        [b"audit", log, files @ ..] => audited(alloc, log, files),
        [b"holds", log, pairs] => held(alloc, log, pairs),
        _ => Ok(Vec::from_slice(alloc, b"bad row")?),
    }
}

// What the writes leave of the pairs that are written over in place.
fn left_in_place(alloc: Global, base: Pairs, writes: &[u8]) -> Result<Vec<u8>, Refusal> {
    let overlay = Overlay::new(alloc, base.into_vec())?;
    let overlay = overlay.with_writes(alloc, writes_of(alloc, writes)?)?;
    let pairs = overlay.into_pairs(alloc)?;
    text_of(alloc, &pairs)
}

fn overlaid(alloc: Global, base: &[u8], writes: &[u8]) -> Result<Vec<u8>, Refusal> {
    let mut pairs = pairs_of(alloc, base)?;
    let mut text = left_in_place(alloc, pairs.copy(alloc)?, writes)?;
    for write in writes_of(alloc, writes)?.as_slice() {
        apply(alloc, &mut pairs, write)?;
    }
    text.push(b' ')?;
    text.extend_from_slice(&text_of(alloc, pairs.as_slice())?)?;
    Ok(text)
}

fn replayed(alloc: Global, base: &[u8], log: &[u8]) -> Result<Vec<u8>, Refusal> {
    let base = pairs_of(alloc, base)?;
    let log = log_of(alloc, log)?;
    let mut text = text_of(alloc, after(alloc, &base, &log)?.as_slice())?;
    for point in [Point(1), Point(2)] {
        let state = state_at(alloc, &base, &log, point)?;
        let state = text_of(alloc, state.as_slice())?;
        let place = format!(in alloc; " {}:", front_len(&log, point))?;
        text.extend_from_slice(place.as_bytes())?;
        text.extend_from_slice(&state)?;
    }
    Ok(text)
}

fn laid(alloc: Global, base: &[u8], point: Point, triples: &[u8]) -> Result<Vec<u8>, Refusal> {
    let base = pairs_of(alloc, base)?;
    let triples = triples_of(alloc, triples)?;
    let pairs = lay_plain(alloc, &base, point, &triples)?;
    text_of(alloc, pairs.as_slice())
}

fn firsts(alloc: Global, entries: &[u8]) -> Result<Vec<u8>, Refusal> {
    let entries = entries_of(alloc, entries)?;
    let mut text = Vec::new(alloc);
    for (key, content) in &first_of_each(alloc, &entries)? {
        text.extend_from_slice(key.own_bytes())?;
        match copy_content(alloc, content)? {
            Some(value) => text.extend_from_slice(value.as_bytes())?,
            None => text.push(b'-')?,
        }
    }
    Ok(text)
}

fn audited(alloc: Global, log: &[u8], files: &[&[u8]]) -> Result<Vec<u8>, Refusal> {
    let log = log_of(alloc, log)?;
    let files = files_of(alloc, files)?;
    told(alloc, audit(alloc, &[], &log, &files)?)
}

fn held(alloc: Global, log: &[u8], pairs: &[u8]) -> Result<Vec<u8>, Refusal> {
    let log = log_of(alloc, log)?;
    let pairs = pairs_of(alloc, pairs)?;
    told(alloc, is_replay(alloc, &[], &log, pairs.as_slice())?)
}

fn told(alloc: Global, is_right: bool) -> Result<Vec<u8>, Refusal> {
    let word: &[u8] = if is_right { b"right" } else { b"wrong" };
    Ok(Vec::from_slice(alloc, word)?)
}
