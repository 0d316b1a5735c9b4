//! Tests: writes of one key as one change, and sums at the ends of their range.

use pc_txn::WriteSet;
use pc_types::{Change, Key, Refusal, Value, Write, is_number, sum};
use std::alloc::Global;
use std::test::Fail;

// A change, as plain data.
#[derive(Clone, Copy)]
enum Made<'a> {
    Put(&'a [u8]),
    Removed,
    Added(i64),
}

use Made::{Added, Put, Removed};

fn key_of(alloc: Global) -> Result<Key, Refusal> {
    Key::new(alloc, b"a key that does not lie inline")
}

fn put(alloc: Global, set: &mut WriteSet, bytes: &[u8]) -> Result<(), Refusal> {
    let key = key_of(alloc)?;
    let change = Change::Set(Value::new(alloc, bytes)?);
    set.reserve()?;
    set.note(alloc, Write { key, change });
    Ok(())
}

fn remove(alloc: Global, set: &mut WriteSet) -> Result<(), Refusal> {
    let key = key_of(alloc)?;
    set.reserve()?;
    let change = Change::Remove;
    set.note(alloc, Write { key, change });
    Ok(())
}

// Adds to the key if that can be kept; whether it can.
fn add(alloc: Global, set: &mut WriteSet, delta: i64) -> Result<bool, Refusal> {
    let key = key_of(alloc)?;
    set.reserve()?;
    if !set.can_add(&key, delta) {
        return Ok(false);
    }
    let change = Change::Add(delta);
    set.note(alloc, Write { key, change });
    Ok(true)
}

// Notes the change of the key; whether it can be kept as one with what is noted.
fn note(alloc: Global, set: &mut WriteSet, made: Made) -> Result<bool, Refusal> {
    match made {
        Put(bytes) => put(alloc, set, bytes)?,
        Removed => remove(alloc, set)?,
        Added(delta) => return add(alloc, set, delta),
    }
    Ok(true)
}

fn is_made(change: &Change, made: Made) -> bool {
    match (change, made) {
        (Change::Set(value), Put(bytes)) => value.as_bytes() == bytes,
        (Change::Remove, Removed) => true,
        (Change::Add(delta), Added(wanted)) => *delta == wanted,
        _ => false,
    }
}

// Whether the set has one write, and that is this change of the key.
fn is_one(alloc: Global, set: &WriteSet, made: Made) -> Result<bool, Refusal> {
    let key = key_of(alloc)?;
    let Some(write) = set.as_slice().first() else {
        return Ok(false);
    };
    Ok(set.len() == 1 && write.key.as_bytes() == key.as_bytes() && is_made(&write.change, made))
}

// Two changes of the key, whether the second one can be kept as one with the first, and the one change that is noted then.
type Row = (Made<'static>, Made<'static>, bool, Made<'static>);

// Whether both changes are noted as the row has it.
fn is_merged(alloc: Global, row: Row) -> Result<bool, Refusal> {
    let (first, second, is_kept, wanted) = row;
    let mut set = WriteSet::new(alloc);
    if !note(alloc, &mut set, first)? || note(alloc, &mut set, second)? != is_kept {
        return Ok(false);
    }
    is_one(alloc, &set, wanted)
}

const SEVEN: &[u8] = b"\0\0\0\0\0\0\x05";

const NINE: &[u8] = b"\0\0\0\0\0\0\0\0\x05";

const FIVE: &[u8] = b"\0\0\0\0\0\0\0\x05";

const TWO: &[u8] = b"\0\0\0\0\0\0\0\x02";

const MINUS_ONE: &[u8] = b"\xff\xff\xff\xff\xff\xff\xff\xff";

const GREATEST: &[u8] = b"\x7f\xff\xff\xff\xff\xff\xff\xff";

const LEAST: &[u8] = b"\x80\0\0\0\0\0\0\0";

const ROWS: [Row; 26] = [
    // An add after a set number sets the sum, and after a removal what it adds.
    (Put(FIVE), Added(-3), true, Put(TWO)),
    (Put(FIVE), Added(-6), true, Put(MINUS_ONE)),
    (Put(LEAST), Added(i64::MAX), true, Put(MINUS_ONE)),
    (Removed, Added(5), true, Put(FIVE)),
    (Removed, Added(0), true, Put(b"\0\0\0\0\0\0\0\0")),
    (Removed, Added(i64::MIN), true, Put(LEAST)),
    // After what is no number, and if the sum leaves 64 bits, the value stays.
    (Put(SEVEN), Added(1), true, Put(SEVEN)),
    (Put(NINE), Added(1), true, Put(NINE)),
    (Put(b""), Added(1), true, Put(b"")),
    (Put(GREATEST), Added(1), true, Put(GREATEST)),
    (Put(LEAST), Added(-1), true, Put(LEAST)),
    // Two adds are one of their sum, if that has 64 bits; otherwise the first one stays.
    (Added(2), Added(3), true, Added(5)),
    (Added(2), Added(-2), true, Added(0)),
    (Added(i64::MAX), Added(0), true, Added(i64::MAX)),
    (Added(i64::MAX), Added(i64::MIN), true, Added(-1)),
    (Added(i64::MAX), Added(1), false, Added(i64::MAX)),
    (Added(1), Added(i64::MAX), false, Added(1)),
    (Added(i64::MIN), Added(-1), false, Added(i64::MIN)),
    (Added(-1), Added(i64::MIN), false, Added(-1)),
    // A set value or a removal takes the place of all before it.
    (Added(2), Put(SEVEN), true, Put(SEVEN)),
    (Added(2), Put(FIVE), true, Put(FIVE)),
    (Added(2), Removed, true, Removed),
    (Put(FIVE), Put(TWO), true, Put(TWO)),
    (Put(FIVE), Removed, true, Removed),
    (Removed, Put(SEVEN), true, Put(SEVEN)),
    (Removed, Removed, true, Removed),
];

// The number of the first row whose changes are noted otherwise.
fn first_wrong(alloc: Global) -> Result<Option<usize>, Refusal> {
    for (at, row) in ROWS.iter().enumerate() {
        if !is_merged(alloc, *row)? {
            return Ok(Some(at));
        }
    }
    Ok(None)
}

#[test]
fn changes_of_one_key_are_one(rt: HostRuntime) -> Result<(), Fail> {
    assert_eq!(rt; first_wrong(rt.alloc())?, None);
    Ok(())
}

// What a key has, what is added to it, whether it has a number, and the sum.
type SumRow = (Option<&'static [u8]>, i64, bool, Option<i64>);

const SUMS: [SumRow; 20] = [
    // Nothing counts as 0.
    (None, 0, true, Some(0)),
    (None, i64::MIN, true, Some(i64::MIN)),
    (None, i64::MAX, true, Some(i64::MAX)),
    // Eight bytes are a number, the highest first.
    (Some(FIVE), -6, true, Some(-1)),
    (Some(MINUS_ONE), 0, true, Some(-1)),
    (Some(MINUS_ONE), 1, true, Some(0)),
    (Some(MINUS_ONE), i64::MIN, true, None),
    (
        Some(b"\x01\x02\x03\x04\x05\x06\x07\x08"),
        0,
        true,
        Some(72_623_859_790_382_856),
    ),
    // At both ends.
    (Some(GREATEST), 0, true, Some(i64::MAX)),
    (Some(GREATEST), 1, true, None),
    (Some(GREATEST), i64::MAX, true, None),
    (Some(GREATEST), i64::MIN, true, Some(-1)),
    (Some(LEAST), 0, true, Some(i64::MIN)),
    (Some(LEAST), -1, true, None),
    (Some(LEAST), i64::MIN, true, None),
    (Some(LEAST), i64::MAX, true, Some(-1)),
    // Values of other lengths are none.
    (Some(SEVEN), 0, false, None),
    (Some(NINE), 0, false, None),
    (Some(b""), 0, false, None),
    (Some(b"more than 16 bytes"), 1, false, None),
];

fn value_of(alloc: Global, bytes: Option<&[u8]>) -> Result<Option<Value>, Refusal> {
    match bytes {
        Some(bytes) => Ok(Some(Value::new(alloc, bytes)?)),
        None => Ok(None),
    }
}

// The number of the first row that is added otherwise.
fn first_other_sum(alloc: Global) -> Result<Option<usize>, Refusal> {
    for (at, row) in SUMS.iter().enumerate() {
        let there = value_of(alloc, row.0)?;
        if is_number(there.as_ref()) != row.2 || sum(there.as_ref(), row.1) != row.3 {
            return Ok(Some(at));
        }
    }
    Ok(None)
}

#[test]
fn sums_at_the_ends(rt: HostRuntime) -> Result<(), Fail> {
    assert_eq!(rt; first_other_sum(rt.alloc())?, None);
    Ok(())
}

// Whether the number's value has these bytes, and is that number once more.
fn is_written(alloc: Global, number: i64, bytes: &[u8]) -> bool {
    let value = Value::of_number(alloc, number);
    value.as_bytes() == bytes && sum(Some(&value), 0) == Some(number)
}

#[test]
fn numbers_as_values(rt: HostRuntime) -> Result<(), Fail> {
    let alloc = rt.alloc();
    assert!(rt; is_written(alloc, 0, b"\0\0\0\0\0\0\0\0"));
    assert!(rt; is_written(alloc, 5, FIVE));
    assert!(rt; is_written(alloc, -1, MINUS_ONE));
    assert!(rt; is_written(alloc, i64::MAX, GREATEST));
    assert!(rt; is_written(alloc, i64::MIN, LEAST));
    assert!(rt; is_written(alloc, 256, b"\0\0\0\0\0\0\x01\0"));
    Ok(())
}
