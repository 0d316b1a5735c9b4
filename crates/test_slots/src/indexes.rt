//! Keys that get slots, are found, and lose them.
ghost use Rattle.pc_chain.specs.Slots.{IsTaken};
ghost use Rattle.pc_index.specs.Indexes.{IsIndex};

use pc_arena::Arena;
use pc_chain::Keyed;
use pc_index::Index;
use pc_types::{Key, Refusal, SlotId};
use std::alloc::{AllocError, Global};
use std::hash::RandomState;
use std::test::Fail;

// A key, and how often it was made.
#[derive(Drop)]
struct CountRow {
    key: Key,
    count: u64,
}

impl Keyed for CountRow {
    ghost use Rattle.std.specs.Prelude.{refl};

    ghost key_of = { λ row. row.key };

    ghost blank_of = { λ key. record { key = key; count = 0 } };

    fn key(&self) -> &Key {
        &self.key
    }

    fn blank(alloc: Global, key: &Key) -> Result<CountRow, AllocError> {
        let key = key.copy(alloc)?;
        Ok(CountRow { key, count: 0 })
    }

    ghost blank_key = { λ key. refl };
}

#[derive(Clone, Copy)]
enum Ask {
    Make,
    Find,
    Remove,
}

// Counts once more, and leaves the index as it is.
fn count(arena: &mut Arena<CountRow>, _index: &Index, id: SlotId) -> u64
    requires taken { IsTaken arena.old.items id }
    requires index { IsIndex (λ row. row.key) arena.old _index.now }
    ensures { IsIndex (λ row. row.key) arena.new _index.now }
{
    let row = arena.get_mut(id);
    row.count = row.count.saturating_add(1);
    row.count
}

// How often the key was made since it has a record; 0 if it has none.
fn answer(
    alloc: Global,
    arena: &mut Arena<CountRow>,
    index: &mut Index,
    ask: Ask,
    key: &Key,
) -> Result<u64, Refusal>
    requires { IsIndex (λ row. row.key) arena.old index.old }
    ensures { IsIndex (λ row. row.key) arena.new index.new }
{
    match (ask, index.find(&*arena, key)) {
        (Ask::Make, _) => {
            let id = index.find_or_make(arena, alloc, key)?;
            Ok(count(arena, &*index, id))
        }
        (Ask::Find, Some(id)) => Ok(arena.get(id).count),
        (Ask::Remove, Some(id)) => Ok(index.remove(arena, id).count),
        (_, None) => Ok(0),
    }
}

// How many lines, from the first on, an index of two slots answers as they say.
fn right(
    alloc: Global,
    seed: RandomState,
    lines: &[(Ask, &[u8], Result<u64, Refusal>)],
) -> Option<usize> {
    let Ok(mut arena) = Arena::with_capacity(alloc, 2) else {
        return None;
    };
    let Ok(mut index) = Index::new(alloc, &arena, seed) else {
        return None;
    };
    for number in 0..lines.len() {
        let (ask, bytes, expected) = lines[number];
        let key = Key::new(alloc, bytes).ok()?;
        if answer(alloc, &mut arena, &mut index, ask, &key) != expected {
            return Some(number);
        }
    }
    Some(lines.len())
}

// Under sixteen seeds, so that keys share a chain and don't.
#[test]
fn keys_get_slots_until_none_is_free(rt: HostRuntime) -> Result<(), Fail> {
    let lines: [(Ask, &[u8], Result<u64, Refusal>); 10] = [
        (Ask::Make, b"fig", Ok(1)),
        (Ask::Make, b"pear", Ok(1)),
        (Ask::Make, b"fig", Ok(2)),
        (Ask::Make, b"plum", Err(Refusal::Full)),
        (Ask::Remove, b"fig", Ok(2)),
        (Ask::Find, b"fig", Ok(0)),
        (Ask::Make, b"plum", Ok(1)),
        (Ask::Make, b"fig", Err(Refusal::Full)),
        (Ask::Find, b"pear", Ok(1)),
        (Ask::Remove, b"fig", Ok(0)),
    ];
    for _ in 0..16 {
        let seed = RandomState::new(&rt)?;
        assert_eq!(rt; right(rt.alloc(), seed, &lines), Some(10));
    }
    Ok(())
}
