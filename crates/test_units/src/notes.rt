//! Tests: the order of writes, 256 keys in falling order, and which reads are noted.
ghost use Rattle.std.specs.Prelude.{◌<◌};

use pc_txn::{ReadSet, WriteSet};
use pc_types::{Change, Key, Refusal, Value, Write};
use std::alloc::Global;
use std::test::Fail;

// The key of a number: 20 bytes, which lie in memory. Keys ascend with their numbers.
fn key_of(alloc: Global, number: u16) -> Result<Key, Refusal> {
    let mut bytes = Vec::new(alloc);
    bytes.extend_from_slice(b"a key in memory..:")?;
    bytes.extend_from_slice(&number.to_be_bytes())?;
    Key::new(alloc, &bytes)
}

// Writes the byte at the number's key.
fn write_at(alloc: Global, set: &mut WriteSet, number: u16, byte: u8) -> Result<(), Refusal> {
    let key = key_of(alloc, number)?;
    let change = Change::Set(Value::new(alloc, &[byte; 20])?);
    set.note_write(alloc, Write { key, change })
}

// The last byte of the key in the row, and the first of its value.
fn told(writes: &[Write], row: usize) -> Option<(u8, u8)> {
    let write = writes.get(row)?;
    let Change::Set(value) = &write.change else {
        return None;
    };
    let key = write.key.as_bytes().last().copied()?;
    Some((key, value.as_bytes().first().copied()?))
}

// Each key has its final write, at the place of its first one.
#[test]
fn writes_in_the_order_of_first_writes(rt: HostRuntime) -> Result<(), Fail> {
    let alloc = rt.alloc();
    let mut set = WriteSet::new(alloc);
    for (number, byte) in [(7, 1), (3, 2), (5, 3), (3, 4), (7, 5)] {
        write_at(alloc, &mut set, number, byte)?;
    }
    let writes = set.as_slice();
    assert_eq!(rt; told(writes, 0), Some((7, 5)));
    assert_eq!(rt; told(writes, 1), Some((3, 4)));
    assert_eq!(rt; told(writes, 2), Some((5, 3)));
    assert_eq!(rt; told(writes, 3), None);
    Ok(())
}

// A set that was cleared has no write, and notes others.
#[test]
fn a_cleared_set_is_written_again(rt: HostRuntime) -> Result<(), Fail> {
    let alloc = rt.alloc();
    let mut set = WriteSet::new(alloc);
    for (number, byte) in [(7, 1), (3, 2)] {
        write_at(alloc, &mut set, number, byte)?;
    }
    set.clear();
    assert_eq!(rt; set.len(), 0);
    write_at(alloc, &mut set, 3, 4)?;
    assert_eq!(rt; told(set.as_slice(), 0), Some((3, 4)));
    assert_eq!(rt; told(set.as_slice(), 1), None);
    Ok(())
}

// Each of 256 keys is found, and a 257th would be one too many.
#[test]
fn finds_256_keys(rt: HostRuntime) -> Result<(), Fail> {
    let alloc = rt.alloc();
    let mut set = WriteSet::new(alloc);
    for number in (0..256).rev() {
        write_at(alloc, &mut set, number, 1)?;
    }
    assert_eq!(rt; set.len(), 256);
    for number in 0..256 {
        let key = key_of(alloc, number)?;
        assert!(rt; set.has(&key) && !set.is_full_for(&key));
    }
    let key = key_of(alloc, 256)?;
    assert!(rt; !set.has(&key) && set.is_full_for(&key));
    assert_eq!(rt;
        write_at(alloc, &mut set, 256, 1),
        Err(Refusal::TooManyWrites)
    );
    assert_eq!(rt; set.len(), 256);
    write_at(alloc, &mut set, 255, 2)?;
    assert_eq!(rt; told(set.as_slice(), 0), Some((255, 2)));
    Ok(())
}

// The place at which a read of the number's key is noted, if it is.
fn read_at(
    alloc: Global,
    reads: &mut ReadSet,
    writes: &WriteSet,
    number: u16,
) -> Result<Option<usize>, Refusal> {
    reads.reserve()?;
    let key = key_of(alloc, number)?;
    let own = writes.has(&key);
    Ok(noted(reads, own, key))
}

// The place at which the read of the key is noted, if it is.
fn noted(reads: &mut ReadSet, own: bool, key: Key) -> Option<usize>
    requires { 0 < reads.old.room }
{
    match reads.note(own, key, None) {
        Ok(place) => Some(place),
        Err(_) => None,
    }
}

// A read is noted if it is not of an own write, and the key was not read.
#[test]
fn notes_first_reads(rt: HostRuntime) -> Result<(), Fail> {
    let alloc = rt.alloc();
    let mut writes = WriteSet::new(alloc);
    let mut reads = ReadSet::new(alloc);
    write_at(alloc, &mut writes, 4, 1)?;
    assert_eq!(rt; read_at(alloc, &mut reads, &writes, 9)?, Some(0));
    assert_eq!(rt; read_at(alloc, &mut reads, &writes, 4)?, None);
    assert_eq!(rt; read_at(alloc, &mut reads, &writes, 2)?, Some(1));
    assert_eq!(rt; read_at(alloc, &mut reads, &writes, 9)?, None);
    let mut noted = Vec::new(alloc);
    noted.reserve(reads.len())?;
    reads.move_into(&mut noted);
    assert_eq!(rt; (noted.len(), reads.len()), (2, 0));
    reads.note_read(true, key_of(alloc, 4)?, None)?;
    reads.note_read(false, key_of(alloc, 2)?, None)?;
    assert_eq!(rt; (reads.len(), reads.has(&key_of(alloc, 4)?)), (1, false));
    Ok(())
}
