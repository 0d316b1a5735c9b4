//! Every short list of events.

use crate::counts::{LockCounts, NO_COUNTS};
use crate::table::{Answer, LockTable, TableEvent};
use pc_types::{Mode, Refusal};
use std::alloc::{AllocError, Global};

/// Which lists are gone through: those of the first 10 or 15 letters, and at most the given number of events long.
#[derive(Clone, Copy)]
pub struct ListBounds {
    pub letters: usize,
    pub most: usize,
}

// The event of a letter: five of each transaction, which reads or writes slot 0 or 1, or releases.
fn event_of(letter: usize) -> TableEvent {
    let transaction = if letter < 5 {
        1
    } else if letter < 10 {
        2
    } else {
        3
    };
    let (slot, mode) = match letter % 5 {
        0 => (0, Some(Mode::Shared)),
        1 => (0, Some(Mode::Exclusive)),
        2 => (1, Some(Mode::Shared)),
        3 => (1, Some(Mode::Exclusive)),
        _ => (0, None),
    };
    TableEvent {
        transaction,
        slot,
        mode,
    }
}

// The answer to the last event of the list.
fn last_answer(table: &mut LockTable, list: &[usize]) -> Result<Answer, Refusal> {
    let mut last = Answer::Nothing;
    for letter in list {
        last = table.answer(event_of(*letter))?;
    }
    Ok(last)
}

// The same, and the requests then.
fn outcome(alloc: Global, list: &[usize]) -> Result<(Answer, u8), Refusal> {
    let mut table = LockTable::new(alloc)?;
    let last = last_answer(&mut table, list)?;
    Ok((last, table.standing()))
}

// The next list, depth first: a longer one if that is wanted, else one with the next letter in the last place that has
// another. It is empty if none is left.
fn go_on(list: &mut Vec<usize>, lists: ListBounds, is_longer: bool) -> Result<(), AllocError> {
    if is_longer && list.len() < lists.most {
        list.push(0)?;
        return Ok(());
    }
    for _ in 0..list.len() {
        if let Some(letter) = list.pop() {
            if letter < lists.letters.saturating_sub(1) {
                list.push(letter + 1)?;
                return Ok(());
            }
        }
    }
    Ok(())
}

/// What all the lists came to. Refuses only with `OutOfMemory`.
pub fn counts_of(alloc: Global, lists: ListBounds) -> Result<LockCounts, Refusal> {
    let mut counts = NO_COUNTS;
    let mut list = vec![in alloc; 0usize]?;
    for _ in 0..u32::MAX {
        if list.is_empty() {
            return Ok(counts);
        }
        let (answer, standing) = outcome(alloc, &list)?;
        counts.count(answer, standing);
        go_on(&mut list, lists, answer != Answer::NotAsked)?;
    }
    Ok(counts)
}
