//! Each cut of a log, with each choice of the parts, is recovered.
use crate::texts::Texts;
use pc_engine::World;
use pc_recover::{Recovered, recover};
use pc_replay::{Pairs, after, front_len};
use pc_types::{Key, Point, Refusal, Value};
use std::alloc::{AllocError, Global};

/// What was recovered of the cuts of logs.
#[derive(Clone, Copy)]
pub struct Found {
    /// How many lengths of logs there were.
    pub cuts: u64,
    /// How many choices of parts there were with them.
    pub choices: u64,
    /// How many of the choices were recovered correctly.
    pub right: u64,
    /// The length of the log and the number of the choice that were first not recovered correctly.
    pub wrong: Option<(usize, usize)>,
}

// Which of the first three parts are there.
type Choice = [bool; 3];

const CHOICES: [Choice; 8] = [
    [false, false, false],
    [true, false, false],
    [false, true, false],
    [true, true, false],
    [false, false, true],
    [true, false, true],
    [false, true, true],
    [true, true, true],
];

// The parts of the choice.
fn chosen<'a>(
    alloc: Global,
    parts: &'a [Vec<u8>],
    choice: Choice,
) -> Result<Vec<&'a [u8]>, AllocError> {
    let mut chosen = Vec::new(alloc);
    for (i, part) in parts.iter().enumerate() {
        if i < 3 && choice[i] {
            chosen.push(part.as_slice())?;
        }
    }
    Ok(chosen)
}

// How many of the parts from the first on are there without a gap.
fn reached(choice: Choice, parts: usize) -> usize {
    let [first, second, third] = choice;
    let length = if !first {
        0
    } else if !second {
        1
    } else if !third {
        2
    } else {
        3
    };
    parts.min(length)
}

// How many entries are whole in the given number of bytes.
fn whole_in(ends: &[usize], length: usize) -> usize {
    let mut count = 0usize;
    for end in ends {
        if *end <= length {
            count = count.wrapping_add(1);
        }
    }
    count
}

// What a store's log says.
#[derive(Drop)]
struct Said {
    // The database after each number of entries, from none to all, by the slow form.
    states: Vec<Pairs>,
    // How many entries are before the token of each of the points 0 to 3: none before that of 0, which is the start.
    fronts: [usize; 4],
}

// The base's database.
fn base_of(alloc: Global, world: &World) -> Result<Pairs, Refusal> {
    let mut base = Pairs::new(alloc);
    for (key, value) in world.base().pairs() {
        base.insert(key.copy(alloc)?, value.copy(alloc)?)?;
    }
    Ok(base)
}

// What the store's log says.
fn said_by(alloc: Global, world: &World) -> Result<Said, Refusal> {
    let base = base_of(alloc, world)?;
    let entries = world.log().entries(alloc)?;
    let log = entries.as_slice();
    let mut states = Vec::new(alloc);
    for count in 0..log.len() {
        states.push(after(alloc, &base, &log[..count])?)?;
    }
    states.push(after(alloc, &base, log)?)?;
    Ok(Said {
        states,
        fronts: [
            0,
            front_len(log, Point(1)),
            front_len(log, Point(2)),
            front_len(log, Point(3)),
        ],
    })
}

// Whether the pairs are the database after the given number of entries.
fn are_after(pairs: &[(Key, Value)], said: &Said, count: usize) -> bool {
    match said.states.get(count) {
        Some(wanted) => are_same(pairs, wanted.as_slice()),
        None => false,
    }
}

// Whether these are the same pairs.
fn are_same(one: &[(Key, Value)], other: &[(Key, Value)]) -> bool {
    if one.len() != other.len() {
        return false;
    }
    for (i, (key, value)) in one.iter().enumerate() {
        let Some(pair) = other.get(i) else {
            return false;
        };
        if key.as_bytes() != pair.0.as_bytes() || value.as_bytes() != pair.1.as_bytes() {
            return false;
        }
    }
    true
}

// Whether the given number of parts were skipped, each for the lack of the point after the recovered one.
fn are_skipped(recovered: &Recovered, count: usize) -> bool {
    for skipped in &recovered.skipped {
        if skipped.reason != Refusal::Gap(Point(recovered.point.0.wrapping_add(1))) {
            return false;
        }
    }
    recovered.skipped.len() == count
}

// What is wrong with the bytes after the whole entries.
fn fault_in(ends: &[usize], length: usize) -> Option<Refusal> {
    if length <= 20 || ends.contains(&length) {
        return None;
    }
    Some(Refusal::Short)
}

// Whether the state recovered from the texts with the log cut to the length, and from these parts, is that of the
// store's log.
fn is_right(
    alloc: Global,
    said: &Said,
    texts: &Texts,
    length: usize,
    choice: Choice,
) -> Result<bool, Refusal> {
    let parts = chosen(alloc, &texts.parts, choice)?;
    let log = &texts.log[..length.min(texts.log.len())];
    let recovered = recover(alloc, &texts.base, &parts, log)?;
    let point = reached(choice, texts.parts.len());
    let whole = whole_in(&texts.ends, length);
    let count = whole.max(said.fronts[point.min(3)]);
    Ok(
        are_after(&recovered.pairs, said, count)
            && usize::from(recovered.point.0) == point
            && recovered.entries == whole
            && recovered.fault == fault_in(&texts.ends, length)
            && are_skipped(&recovered, parts.len().saturating_sub(point)),
    )
}

// Whether there are as many parts as the choice asks for.
fn is_of(choice: Choice, parts: usize) -> bool {
    match choice {
        [_, _, true] => parts > 2,
        [_, true, _] => parts > 1,
        [true, _, _] => parts > 0,
        _ => true,
    }
}

// Recovers the log cut to the length, with each choice of the parts.
fn recover_cut(
    alloc: Global,
    said: &Said,
    texts: &Texts,
    length: usize,
    found: &mut Found,
) -> Result<(), Refusal> {
    found.cuts = found.cuts.saturating_add(1);
    for (i, choice) in CHOICES.iter().enumerate() {
        if is_of(*choice, texts.parts.len()) {
            let is_right = is_right(alloc, said, texts, length, *choice)?;
            note_choice(found, is_right, length, i);
        }
    }
    Ok(())
}

fn note_choice(found: &mut Found, is_right: bool, length: usize, choice: usize) {
    found.choices = found.choices.saturating_add(1);
    if is_right {
        found.right = found.right.saturating_add(1);
    } else if found.wrong.is_none() {
        found.wrong = Some((length, choice));
    }
}

/// Recovers each cut of the store's log, from the empty one to the whole, with each choice of its parts. It refuses only
/// with `OutOfMemory`.
pub fn recover_cuts(alloc: Global, world: &World, texts: &Texts) -> Result<Found, Refusal> {
    let mut found = Found {
        cuts: 0,
        choices: 0,
        right: 0,
        wrong: None,
    };
    let said = said_by(alloc, world)?;
    for length in 0..texts.log.len() {
        recover_cut(alloc, &said, texts, length, &mut found)?;
    }
    recover_cut(alloc, &said, texts, texts.log.len(), &mut found)?;
    Ok(found)
}
