//! Receipts compared with the log.
use pc_kept_log::{LentChange, LentWrite, LentWrites};
use pc_replay::{Pairs, apply};
use pc_shared::{Closed, LentReceipt, Session};
use pc_tie::StoreName;
use pc_types::{Change, Entry, Key, Lsn, Refusal, SessionNo, Value, Write};
use std::alloc::Global;

/// Whether each commit of the log has one receipt of its session, with the entry's writes, whose reads are what the keys had
/// before it, and there is no other receipt.
pub fn are_exact<N: StoreName>(alloc: Global, closed: &Closed<N>) -> Result<bool, Refusal> {
    let mut contents = Pairs::new(alloc);
    let mut number = 0u32;
    let mut commits = 0usize;
    let log = closed.log().entries(alloc)?;
    for entry in &log {
        number = number.saturating_add(1);
        if let Entry::Commit(session, writes) = entry {
            commits = commits.saturating_add(1);
            let receipt = receipt_of(closed, *session, Lsn(number));
            if !is_exact(&contents, receipt, *session, writes.as_slice()) {
                return Ok(false);
            }
            apply_all(alloc, &mut contents, writes.as_slice())?;
        }
    }
    Ok(commits == count_of(&closed.receipts))
}

/// The number of receipts that the sessions have.
pub fn count_of<N: StoreName>(sessions: &[Session<N>]) -> usize {
    let mut count = 0usize;
    for session in sessions {
        count = count.saturating_add(session.commits().len());
    }
    count
}

/// The number of reads that the sessions' receipts have.
pub fn reads_of<N: StoreName>(closed: &Closed<N>) -> usize {
    let mut count = 0usize;
    for session in 0..closed.receipts.len() {
        count = count.saturating_add(reads_in(closed, session));
    }
    count
}

/// How many of the writes of the sessions' receipts are adds.
pub fn adds_of<N: StoreName>(closed: &Closed<N>) -> usize {
    let mut count = 0usize;
    for session in 0..closed.receipts.len() {
        count = count.saturating_add(adds_in(closed, session));
    }
    count
}

// How many writes of the receipts of the session at the place are adds.
fn adds_in<N: StoreName>(closed: &Closed<N>, session: usize) -> usize {
    let mut count = 0usize;
    for place in 0..commits_of(closed, session) {
        if let Some(receipt) = closed.receipt(session, place) {
            count = count.saturating_add(adds_among(receipt.writes()));
        }
    }
    count
}

fn adds_among(writes: LentWrites<'_>) -> usize {
    writes
        .filter(|write| matches!(write.change, LentChange::Add(_)))
        .count()
}

// The number of reads that the receipts of the session at the place have.
fn reads_in<N: StoreName>(closed: &Closed<N>, session: usize) -> usize {
    let mut count = 0usize;
    for place in 0..commits_of(closed, session) {
        if let Some(receipt) = closed.receipt(session, place) {
            count = count.saturating_add(receipt.reads.len());
        }
    }
    count
}

// The number of commits that the session at the place has.
fn commits_of<N: StoreName>(closed: &Closed<N>, session: usize) -> usize {
    match closed.receipts.get(session) {
        Some(session) => session.commits().len(),
        None => 0,
    }
}

// The receipt of the session for the entry of this number.
fn receipt_of<N: StoreName>(
    closed: &Closed<N>,
    number: SessionNo,
    entry: Lsn,
) -> Option<LentReceipt<'_>> {
    let session = closed
        .receipts
        .iter()
        .position(|session| session.number() == number)?;
    for place in 0..commits_of(closed, session) {
        if let Some(receipt) = closed.receipt(session, place) {
            if receipt.number == entry {
                return Some(receipt);
            }
        }
    }
    None
}

fn is_exact(
    contents: &Pairs,
    receipt: Option<LentReceipt<'_>>,
    session: SessionNo,
    writes: &[Write],
) -> bool {
    let Some(receipt) = receipt else {
        return false;
    };
    receipt.session == session
        && are_same(receipt.writes(), writes)
        && have_read(contents, receipt.reads)
}

fn are_same(ones: LentWrites<'_>, others: &[Write]) -> bool {
    ones.len() == others.len() && ones.zip(others).all(|(a, b)| is_same(&a, b))
}

fn is_same(a: &LentWrite<'_>, b: &Write) -> bool {
    a.key == b.key.as_bytes() && is_change(&a.change, &b.change)
}

fn is_change(a: &LentChange<'_>, b: &Change) -> bool {
    match (a, b) {
        (LentChange::Set(a), Change::Set(b)) => *a == b.as_bytes(),
        (LentChange::Remove, Change::Remove) => true,
        (LentChange::Add(a), Change::Add(b)) => a == b,
        _ => false,
    }
}

fn have_read(contents: &Pairs, reads: &[(Key, Option<Value>)]) -> bool {
    reads
        .iter()
        .all(|read| has_same(contents.get(&read.0), read.1.as_ref()))
}

fn has_same(a: Option<&Value>, b: Option<&Value>) -> bool {
    match (a, b) {
        (Some(a), Some(b)) => a.is(b),
        (None, None) => true,
        _ => false,
    }
}

fn apply_all(alloc: Global, contents: &mut Pairs, writes: &[Write]) -> Result<(), Refusal> {
    for write in writes {
        apply(alloc, contents, write)?;
    }
    Ok(())
}
