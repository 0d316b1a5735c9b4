//! Tests: puts in any order, and what a pass over them gives.
use pc_taken::{Entries, LentTriple, Taken};
use pc_types::{Key, Point, Refusal, Value};
use std::alloc::Global;
use std::test::Fail;

// Keys of one byte that are put, and what each has, if it isn't 0; with the keys then and what they have, by key.
const CASES: [(&[(u8, u8)], &[(u8, u8)]); 6] = [
    (&[], &[]),
    (&[(1, 11), (2, 0), (7, 17)], &[(1, 11), (2, 0), (7, 17)]),
    (&[(7, 17), (2, 0), (1, 11)], &[(1, 11), (2, 0), (7, 17)]),
    (
        &[(3, 1), (5, 2), (4, 3), (9, 4), (1, 5), (10, 6)],
        &[(1, 5), (3, 1), (4, 3), (5, 2), (9, 4), (10, 6)],
    ),
    (&[(3, 1), (5, 2), (3, 0), (5, 4)], &[(3, 0), (5, 4)]),
    (
        &[(5, 1), (2, 2), (8, 3), (2, 4), (5, 5), (8, 0), (9, 7)],
        &[(2, 4), (5, 5), (8, 0), (9, 7)],
    ),
];

// The meaning of a number: a value of that byte, or nothing.
fn content_of(alloc: Global, number: u8) -> Result<Option<Value>, Refusal> {
    if number == 0 {
        return Ok(None);
    }
    Ok(Some(Value::new(alloc, &[number])?))
}

// The keys and what they have, put in this order.
fn taken_of(alloc: Global, puts: &[(u8, u8)]) -> Result<Taken, Refusal> {
    let mut taken = Taken::new(alloc);
    for (byte, number) in puts {
        let key = Key::new(alloc, &[*byte])?;
        let content = content_of(alloc, *number)?;
        taken.put(key, content)?;
    }
    Ok(taken)
}

// The byte of the triple's key, and the number of what it has.
fn told(triple: &LentTriple) -> Option<(u8, u8)> {
    let byte = triple.key.own_bytes().first().copied()?;
    let number = match triple.content {
        Some(value) => value.as_bytes().first().copied()?,
        None => 0,
    };
    Some((byte, number))
}

// Whether a pass over the entries gives these, each of point 3.
fn are_told(entries: &Entries, rows: &[(u8, u8)]) -> bool {
    let pass = entries.pass();
    pass.len() == rows.len()
        && pass.zip(rows).all(|(triple, row)| triple.point == Point(3)
            && told(&triple) == Some(*row))
}

// Whether what is put so is gone over so, in place and in a copy, and nothing is left where it was.
fn is_moved(alloc: Global, puts: &[(u8, u8)], rows: &[(u8, u8)]) -> Result<bool, Refusal> {
    let mut taken = taken_of(alloc, puts)?;
    let is_counted = taken.len() == rows.len();
    let entries = Entries::taken(Point(3), taken.move_out());
    let copy = entries.copy(alloc)?;
    Ok(is_counted && taken.len() == 0 && are_told(&entries, rows) && are_told(&copy, rows))
}

// Each key once, by key, with what was put last.
#[test]
fn puts_in_any_order(rt: HostRuntime) -> Result<(), Fail> {
    for (puts, rows) in CASES {
        assert!(rt; is_moved(rt.alloc(), puts, rows)?);
    }
    Ok(())
}
