//! Slots that are taken, changed and freed.
use pc_arena::Arena;
use pc_types::{Refusal, SlotId};
use std::test::Fail;

// Takes a slot for the first number, puts the second in its place, and frees it: the records before and in the end.
fn changed(arena: &mut Arena<u32>, first: u32, second: u32) -> Result<(u32, u32), Refusal> {
    let id = arena.take_slot(first)?;
    let before = *arena.get(id);
    *arena.get_mut(id) = second;
    Ok((before, arena.free_slot(id)))
}

// How many of the numbers got a slot, and the answer to the next one.
fn taken(arena: &mut Arena<u32>, numbers: &[u32]) -> (u32, Option<Refusal>) {
    let mut count: u32 = 0;
    for number in numbers {
        match arena.take_slot(*number) {
            Ok(_) => count = count.saturating_add(1),
            Err(why) => return (count, Some(why)),
        }
    }
    (count, None)
}

// What is done: a slot is taken for the number, or the slot is freed if it has one.
#[derive(Clone, Copy)]
enum ArenaStep {
    Take(u32),
    Free(u32),
}

// The slot that was taken, or the number that was in the one that was freed; `None` if nothing was done.
fn done(arena: &mut Arena<u32>, step: ArenaStep) -> Option<u32> {
    match step {
        ArenaStep::Take(number) => match arena.take_slot(number) {
            Ok(SlotId(slot)) => Some(slot),
            Err(_) => None,
        },
        ArenaStep::Free(slot) => {
            if arena.get_if_taken(SlotId(slot)).is_none() {
                return None;
            }
            Some(arena.free_slot(SlotId(slot)))
        }
    }
}

// The number of the first step that gave something else than the row says.
fn first_wrong(arena: &mut Arena<u32>, rows: &[(ArenaStep, Option<u32>)]) -> Option<usize> {
    for (at, (step, wanted)) in rows.iter().enumerate() {
        if done(arena, *step) != *wanted {
            return Some(at);
        }
    }
    None
}

// A freed slot is taken before one that was never written; an arena that was full once has all its slots written.
#[test]
fn freed_slots_are_taken_again(rt: HostRuntime) -> Result<(), Fail> {
    let never_full = [
        (ArenaStep::Take(7), Some(0)),
        (ArenaStep::Take(8), Some(1)),
        (ArenaStep::Free(0), Some(7)),
        (ArenaStep::Free(0), None),
        (ArenaStep::Free(2), None),
        (ArenaStep::Take(9), Some(0)),
        (ArenaStep::Take(5), Some(2)),
    ];
    let mut arena = Arena::with_capacity(rt.alloc(), 4)?;
    assert_eq!(rt; first_wrong(&mut arena, &never_full), None);
    assert_eq!(rt; arena.is_full(), false);
    let full_with_one_freed = [
        (ArenaStep::Take(7), Some(0)),
        (ArenaStep::Free(0), Some(7)),
        (ArenaStep::Take(8), Some(0)),
        (ArenaStep::Take(9), Some(1)),
        (ArenaStep::Take(1), None),
        (ArenaStep::Free(1), Some(9)),
        (ArenaStep::Free(0), Some(8)),
        (ArenaStep::Take(2), Some(1)),
        (ArenaStep::Take(3), Some(0)),
        (ArenaStep::Take(4), None),
    ];
    let mut arena = Arena::with_capacity(rt.alloc(), 2)?;
    assert_eq!(rt; first_wrong(&mut arena, &full_with_one_freed), None);
    assert_eq!(rt; arena.is_full(), true);
    Ok(())
}

#[test]
fn slots_are_taken_until_none_is_free(rt: HostRuntime) -> Result<(), Fail> {
    for (slots, numbers, count, why) in [
        (2, 2, 2, None),
        (2, 3, 2, Some(Refusal::Full)),
        (0, 1, 0, Some(Refusal::Full)),
    ] {
        let mut arena = Arena::with_capacity(rt.alloc(), slots)?;
        assert_eq!(rt; arena.capacity(), slots);
        if slots > 0 {
            assert_eq!(rt; changed(&mut arena, 7, 8), Ok((7, 8)));
        }
        assert_eq!(rt; taken(&mut arena, &[1, 2, 3][..numbers]), (count, why));
        assert_eq!(rt; arena.is_full(), count == slots);
    }
    Ok(())
}
