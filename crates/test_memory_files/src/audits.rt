//! An audit of a file against a log.

use pc_replay::{CompleteFile, audit};
use pc_types::{Change, Entry, Items, Key, Phase, Point, Refusal, SessionNo, Triple, Value, Write};
use std::alloc::{AllocError, Global};
use std::test::Fail;

// Takes memory of its own.
const LONG: &[u8] = b"more than 16 bytes";

// A commit that sets the key to the value.
fn commit(alloc: Global, key: &[u8], value: &[u8]) -> Result<Entry, Refusal> {
    let key = Key::new(alloc, key)?;
    let change = Change::Set(Value::new(alloc, value)?);
    let mut writes = Items::new(alloc);
    writes.push(Write { key, change })?;
    Ok(Entry::Commit(SessionNo(1), writes))
}

// At point 1 that key has that value, and "b" has "2".
fn push_log(alloc: Global, log: &mut Vec<Entry>) -> Result<(), Refusal> {
    let first = commit(alloc, LONG, LONG)?;
    log.push(first)?;
    let second = commit(alloc, b"b", b"2")?;
    log.push(second)?;
    log.push(Entry::Token(Phase::Resolve, Point(1)))?;
    Ok(())
}

fn log_once(alloc: Global) -> Result<Vec<Entry>, Refusal> {
    let mut log = Vec::new(alloc);
    push_log(alloc, &mut log)?;
    Ok(log)
}

fn log_again(alloc: Global) -> Result<Vec<Entry>, Refusal> {
    match log_once(alloc) {
        Ok(log) => Ok(log),
        Err(_) => log_once(alloc),
    }
}

// What the key had at point 1.
fn triple(alloc: Global, key: &[u8], value: &[u8]) -> Result<Triple, Refusal> {
    let key = Key::new(alloc, key)?;
    let content = Some(Value::new(alloc, value)?);
    Ok(Triple {
        key,
        point: Point(1),
        content,
    })
}

// At that point "b" had "2" and the long key had this.
fn push_triples(alloc: Global, triples: &mut Vec<Triple>, value: &[u8]) -> Result<(), Refusal> {
    let first = triple(alloc, b"b", b"2")?;
    triples.push(first)?;
    let second = triple(alloc, LONG, value)?;
    triples.push(second)?;
    Ok(())
}

fn file_once(alloc: Global, value: &[u8]) -> Result<Vec<CompleteFile>, Refusal> {
    let mut triples = Vec::new(alloc);
    push_triples(alloc, &mut triples, value)?;
    let point = Point(1);
    Ok(vec![in alloc; CompleteFile { point, triples }]?)
}

fn file_again(alloc: Global, value: &[u8]) -> Result<Vec<CompleteFile>, Refusal> {
    match file_once(alloc, value) {
        Ok(file) => Ok(file),
        Err(_) => file_once(alloc, value),
    }
}

fn says_again(alloc: Global, log: &[Entry], files: &[CompleteFile]) -> Result<bool, AllocError> {
    match audit(alloc, &[], log, files) {
        Ok(right) => Ok(right),
        Err(_) => audit(alloc, &[], log, files),
    }
}

// What the audit says of that log and a file with this value; then how many entries and files there are.
fn said(alloc: Global, value: &[u8]) -> Result<(bool, usize, usize), Refusal> {
    let log = log_again(alloc)?;
    let files = file_again(alloc, value)?;
    let is_right = says_again(alloc, &log, &files)?;
    Ok((is_right, log.len(), files.len()))
}

// The answer is the same whichever growth is refused.
#[test]
fn an_audit_says_the_same_at_each_refused_growth(rt: HostRuntime) -> Result<(), Fail> {
    assert_eq!(rt; said(rt.alloc(), LONG)?, (true, 3, 1));
    assert_eq!(rt; said(rt.alloc(), b"less than 17")?, (false, 3, 1));
    Ok(())
}
