//! Tests of requests, releases and what keeps a slot.
ghost use Rattle.std.specs.Prelude.{◌≡◌, ◌≤◌, [], IfOk, IsErr};

use pc_records::{Reading, Records};
use pc_types::{Class, Key, Outcome, Refusal, TxnNo, Value};
use std::alloc::Global;
use std::hash::RandomState;
use std::test::Fail;

// What is asked of records that no open transaction has written: keys of one byte, and transactions by number.
#[derive(Clone, Copy)]
enum Ask {
    Read(u64, u8),
    // How it would be answered if it wrote.
    Look(u64, u8),
    Release(u64),
    IsFullFor(u8),
    IsWaiting(u64),
    // The number of keys that have a value.
    Values,
}

use Ask::{IsFullFor, IsWaiting, Look, Read, Release, Values};

#[derive(Clone, Copy, Debug, PartialEq)]
enum Told {
    Granted,
    // It waits, or has to abort.
    Refused,
    // There is no room for the key.
    NoRoom,
    // A request of the transaction waits.
    NotAsked,
    Done,
    Is(bool),
    // What a read found.
    Found(Option<u8>),
    // The answer of a look, and the content found.
    Seen(Outcome, Option<u8>),
    Count(usize),
}

use Told::{Count, Done, Found, Granted, Is, NoRoom, NotAsked, Refused, Seen};

// What an answer or a refusal says.
fn told_of(answer: Result<Outcome, Refusal>) -> Result<Told, Refusal>
    ensures { IfOk result (λ told. told ≡ Told.NoRoom → IsErr answer) }
{
    match answer {
        Ok(Outcome::Granted) => Ok(Granted),
        Ok(_) => Ok(Refused),
        Err(Refusal::Full) => Ok(NoRoom),
        Err(why) => Err(why),
    }
}

fn content_of(value: Option<&Value>) -> Option<u8> {
    match value {
        Some(value) => value.as_bytes().first().copied(),
        None => None,
    }
}

// What a request to read found, if it is granted.
fn found_by(reading: &Reading) -> Told {
    match reading.outcome {
        Outcome::Granted => Found(content_of(reading.found.as_ref())),
        _ => Refused,
    }
}

fn read(alloc: Global, records: &mut Records, transaction: u64, key: u8) -> Result<Told, Refusal>
    requires { records.old.pending ≡ [] }
    ensures { records.new.pending ≡ [] }
{
    let key = Key::new(alloc, &[key])?;
    let transaction = TxnNo(transaction);
    if records.is_waiting(transaction) {
        return Ok(NotAsked);
    }
    match records.read(alloc, transaction, &key) {
        Ok(reading) => Ok(found_by(&reading)),
        Err(why) => told_of(Err(why)),
    }
}

fn look(alloc: Global, records: &Records, transaction: u64, key: u8) -> Result<Told, Refusal> {
    let key = Key::new(alloc, &[key])?;
    let look = records.look(TxnNo(transaction), &key);
    Ok(Seen(look.outcome, content_of(look.found)))
}

fn release(records: &mut Records, transaction: u64) -> Told
    requires { records.old.pending ≡ [] }
    ensures { records.new.pending ≡ [] }
{
    records.release(TxnNo(transaction));
    Done
}

// What the records say, which changes nothing.
fn said(alloc: Global, records: &Records, ask: Ask) -> Result<Told, Refusal> {
    match ask {
        Look(transaction, key) => look(alloc, records, transaction, key),
        IsFullFor(key) => Ok(Is(records.is_full_for(&Key::new(alloc, &[key])?))),
        IsWaiting(transaction) => Ok(Is(records.is_waiting(TxnNo(transaction)))),
        _ => Ok(Count(records.committed(alloc)?.len())),
    }
}

fn tell(alloc: Global, records: &mut Records, ask: Ask) -> Result<Told, Refusal>
    requires { records.old.pending ≡ [] }
    ensures { records.new.pending ≡ [] }
{
    match ask {
        Read(transaction, key) => read(alloc, records, transaction, key),
        Release(transaction) => Ok(release(records, transaction)),
        _ => said(alloc, records, ask),
    }
}

// The first of the rows that came out otherwise.
fn first_other(
    alloc: Global,
    records: &mut Records,
    rows: &[(Ask, Told)],
) -> Result<Option<usize>, Refusal>
    requires { records.old.pending ≡ [] }
{
    for (i, row) in rows.iter().enumerate() {
        if tell(alloc, records, row.0)? != row.1 {
            return Ok(Some(i));
        }
    }
    Ok(None)
}

const SLOTS: [(Ask, Told); 20] = [
    // A key with a value, and one slot of two readers in turn: it is free once both have released. A look tells what a write
    // would come to.
    (Look(3, 5), Seen(Outcome::Granted, Some(50))),
    (Read(3, 5), Found(Some(50))),
    (Look(3, 5), Seen(Outcome::Granted, Some(50))),
    (Look(1, 5), Seen(Outcome::Queued, Some(50))),
    (Look(4, 5), Seen(Outcome::Died, Some(50))),
    (Look(1, 7), Seen(Outcome::Granted, None)),
    (Values, Count(1)),
    (Read(1, 7), Found(None)),
    (Look(2, 7), Seen(Outcome::Died, None)),
    (Read(2, 7), Found(None)),
    (Look(1, 7), Seen(Outcome::Died, None)),
    (Read(2, 8), NoRoom),
    (Release(1), Done),
    (IsFullFor(8), Is(true)),
    (Release(2), Done),
    (IsFullFor(8), Is(false)),
    (Read(3, 8), Found(None)),
    (IsFullFor(7), Is(true)),
    (IsFullFor(8), Is(false)),
    (IsWaiting(3), Is(false)),
];

// Records of one pair, with room for the given number.
fn records_of_one(alloc: Global, capacity: u32, seed: RandomState) -> Result<Records, Refusal>
    requires { (1 ≤ capacity) × (capacity ≤ 2) }
    ensures { IfOk result (λ records. records.pending ≡ []) }
{
    let mut pairs = Vec::new(alloc);
    pairs.push((Key::new(alloc, &[5])?, Value::new(alloc, &[50])?))?;
    Ok(Records::of_pairs(alloc, capacity, &pairs, seed)?)
}

#[test]
fn slots_kept(rt: HostRuntime) -> Result<(), Fail> {
    let alloc = rt.alloc();
    let mut records = records_of_one(alloc, 2, RandomState::new(&rt)?)?;
    assert_eq!(rt; first_other(alloc, &mut records, &SLOTS)?, None);
    Ok(())
}

// Removes the key; the first transaction does.
fn remove(alloc: Global, records: &mut Records, key: u8) -> Result<Told, Refusal>
    requires { records.old.pending ≡ [] }
    ensures { IfOk result (λ told. told ≡ Told.NoRoom → records.new.pending ≡ []) }
{
    let key = Key::new(alloc, &[key])?;
    if records.is_waiting(TxnNo(1)) {
        return Ok(NotAsked);
    }
    match records.write(alloc, TxnNo(1), Class::During, &key, None, None) {
        Ok(answer) => told_of(Ok(answer.outcome)),
        Err(why) => told_of(Err(why)),
    }
}

// A key without a record is removed, and if there is no room for it one with a record.
fn remove_both(alloc: Global, records: &mut Records) -> Result<(Told, Told), Refusal>
    requires { records.old.pending ≡ [] }
{
    match remove(alloc, records, 7)? {
        NoRoom => Ok((NoRoom, remove(alloc, records, 5)?)),
        told => Ok((told, NotAsked)),
    }
}

#[test]
fn writes_in_full_records(rt: HostRuntime) -> Result<(), Fail> {
    let alloc = rt.alloc();
    let mut records = records_of_one(alloc, 1, RandomState::new(&rt)?)?;
    assert_eq!(rt; remove_both(alloc, &mut records)?, (NoRoom, Granted));
    Ok(())
}
