//! Keys that get rows, are found, and lose them.
ghost use Rattle.std.specs.Prelude.{◌≡◌, ℕ, IfOk, OnErr};
ghost use Rattle.pc_table.specs.Rows.{with_record, with_row, HasRow};

use pc_chain::Blank;
use pc_table::Table;
use pc_types::{Key, Refusal, SlotId};
use std::alloc::Global;
use std::hash::RandomState;
use std::test::Fail;

// How often a key was made since it has a row.
#[derive(Drop)]
struct CountOfTimes {
    count: u64,
}

impl Blank for CountOfTimes {
    ghost blank = { record { count = 0 } };

    fn blank() -> CountOfTimes {
        CountOfTimes { count: 0 }
    }
}

#[derive(Clone, Copy)]
enum Ask {
    Make,
    Find,
    Remove,
    // The counts of all keys together, and how many keys have a row, times 100.
    Sum,
}

// The slot of the key, which gets a row if it has none.
fn slot_made(alloc: Global, table: &mut Table<CountOfTimes>, key: &Key) -> Result<SlotId, Refusal>
    ensures row { IfOk result (HasRow table.new.rows) }
    ensures changed { IfOk result (λ id. (x : CountOfTimes) → with_record table.new id x ≡ with_row table.old key.now id x) }
    ensures err { OnErr result (table.new ≡ table.old) }
{
    match table.find(key) {
        Some(id) => Ok(id),
        None => table.make(alloc, key),
    }
}

// Counts the key once more; no other row changes.
fn count(alloc: Global, table: &mut Table<CountOfTimes>, key: &Key) -> Result<u64, Refusal>
    ensures row { IfOk result (λ n. (id : ℕ) × (table.new ≡ with_row table.old key.now id (record { count = n }))) }
    ensures err { OnErr result (table.new ≡ table.old) }
{
    let id = slot_made(alloc, table, key)?;
    let times = table.get_mut(id);
    times.count = times.count.saturating_add(1);
    Ok(times.count)
}

// How often the key was made since it has a row; 0 if it has none.
fn answer(
    alloc: Global,
    table: &mut Table<CountOfTimes>,
    ask: Ask,
    key: &Key,
) -> Result<u64, Refusal> {
    match ask {
        Ask::Make => count(alloc, table, key),
        Ask::Find => Ok(found(&*table, key)),
        Ask::Remove => Ok(removed(table, key)),
        Ask::Sum => Ok(sum(&*table)),
    }
}

fn found(table: &Table<CountOfTimes>, key: &Key) -> u64 {
    match table.find(key) {
        Some(id) => {
            if table.key(id).is(key) {
                table.get(id).count
            } else {
                u64::MAX
            }
        }
        None => 0,
    }
}

fn removed(table: &mut Table<CountOfTimes>, key: &Key) -> u64 {
    match table.find(key) {
        Some(id) => table.remove(id).count,
        None => 0,
    }
}

fn sum(table: &Table<CountOfTimes>) -> u64 {
    let mut sum: u64 = 0;
    for id in 0..table.capacity() {
        if let Some((_key, times)) = table.get_if_taken(SlotId(id)) {
            sum = sum.saturating_add(times.count).saturating_add(100);
        }
    }
    sum
}

// How many lines, from the first on, a table of two slots answers as they say.
fn right(
    alloc: Global,
    seed: RandomState,
    lines: &[(Ask, &[u8], Result<u64, Refusal>, bool)],
) -> Option<usize> {
    let mut table = Table::new(alloc, 2, seed).ok()?;
    for number in 0..lines.len() {
        let (ask, bytes, expected, is_full) = lines[number];
        let key = Key::new(alloc, bytes).ok()?;
        if answer(alloc, &mut table, ask, &key) != expected || table.is_full() != is_full {
            return Some(number);
        }
    }
    Some(lines.len())
}

#[test]
fn keys_get_rows_until_the_table_is_full(rt: HostRuntime) -> Result<(), Fail> {
    let lines: [(Ask, &[u8], Result<u64, Refusal>, bool); 12] = [
        (Ask::Find, b"fig", Ok(0), false),
        (Ask::Make, b"fig", Ok(1), false),
        (Ask::Make, b"pear", Ok(1), true),
        (Ask::Make, b"fig", Ok(2), true),
        (Ask::Make, b"plum", Err(Refusal::Full), true),
        (Ask::Sum, b"fig", Ok(203), true),
        (Ask::Remove, b"fig", Ok(2), false),
        (Ask::Find, b"fig", Ok(0), false),
        (Ask::Make, b"a plum of seventeen bytes", Ok(1), true),
        (Ask::Make, b"fig", Err(Refusal::Full), true),
        (Ask::Find, b"pear", Ok(1), true),
        (Ask::Sum, b"fig", Ok(202), true),
    ];
    let seed = RandomState::new(&rt)?;
    assert_eq!(rt; right(rt.alloc(), seed, &lines), Some(12));
    Ok(())
}
