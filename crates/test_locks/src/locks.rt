//! Locks next to a twin: one growth of memory is refused, so at most one of the two is ever asked again for an event.

use pc_types::{Mode, Outcome, SlotId, TxnNo};
use std::alloc::{AllocError, Global};
use std::test::Fail;
use test_lock_slots::{LockSlots, SLOTS};

// A transaction, a slot, and what it asks for, or else a release.
type LockEvent = (u64, u32, Option<Mode>);

const READ: Option<Mode> = Some(Mode::Shared);

const WRITE: Option<Mode> = Some(Mode::Exclusive);

// An event, and what comes of it.
const ROWS: [(LockEvent, &str); 29] = [
    // The older one waits, and is granted once the younger one has released.
    ((2, 0, WRITE), "granted"),
    ((1, 0, READ), "queued"),
    ((1, 0, READ), "waits"),
    ((2, 0, None), "released 0"),
    ((1, 0, READ), "granted"),
    // The younger one dies, and leaves no request.
    ((3, 0, WRITE), "died"),
    ((3, 0, None), "nothing"),
    // An upgrade alone, and what is covered.
    ((1, 0, WRITE), "granted"),
    ((1, 0, READ), "granted"),
    ((4, 0, READ), "died"),
    ((1, 1, READ), "granted"),
    ((1, 0, None), "released 0"),
    ((1, 0, None), "released 1"),
    ((1, 0, None), "nothing"),
    // An upgrade while there is another reader dies, and the shared lock stays.
    ((1, 1, READ), "granted"),
    ((2, 1, READ), "granted"),
    ((1, 1, WRITE), "died"),
    ((2, 1, WRITE), "died"),
    ((1, 1, None), "released 1"),
    ((2, 1, WRITE), "granted"),
    ((2, 1, None), "released 1"),
    // Two that wait are granted in order; a reader after a writer that waits stays where it is.
    ((9, 0, WRITE), "granted"),
    ((8, 0, READ), "queued"),
    ((7, 0, WRITE), "queued"),
    ((6, 0, READ), "queued"),
    ((9, 0, None), "released 0"),
    ((8, 0, READ), "granted"),
    ((6, 0, READ), "waits"),
    ((8, 0, None), "released 0"),
];

// What comes of an event, if no allocation fails.
fn done(locks: &mut LockSlots, event: LockEvent) -> Result<&'static str, AllocError> {
    let (number, slot, mode) = event;
    let transaction = TxnNo(number);
    let Some(mode) = mode else {
        return Ok(released(locks, transaction));
    };
    match locks.request(transaction, slot, mode)? {
        None => Ok("waits"),
        Some(Outcome::Granted) => Ok("granted"),
        Some(Outcome::Queued) => Ok("queued"),
        Some(Outcome::Died) => Ok("died"),
    }
}

fn released(locks: &mut LockSlots, transaction: TxnNo) -> &'static str {
    match locks.release_one(transaction) {
        Some(SlotId(0)) => "released 0",
        Some(_) => "released 1",
        None => "nothing",
    }
}

// Whether both look the same: at each of the two slots, and for the transactions 1 to 64.
fn look_alike(one: &LockSlots, other: &LockSlots) -> bool {
    for number in 1..=64u64 {
        if one.is_waiting(TxnNo(number)) != other.is_waiting(TxnNo(number)) {
            return false;
        }
    }
    one.has_request(0) == other.has_request(0) && one.has_request(1) == other.has_request(1)
}

// The outcome of an event. If an allocation failed they are asked again, and have to look as the twin, which wasn't asked
// for this event yet.
fn done_again(
    locks: &mut LockSlots,
    twin: &LockSlots,
    event: LockEvent,
) -> Result<&'static str, AllocError> {
    if let Ok(word) = done(locks, event) {
        return Ok(word);
    }
    if !look_alike(locks, twin) {
        return Ok("other locks than before");
    }
    done(locks, event)
}

fn twin_done(twin: &mut LockSlots, event: LockEvent) -> Result<&'static str, AllocError> {
    if let Ok(word) = done(twin, event) {
        return Ok(word);
    }
    done(twin, event)
}

// Whether the event comes to this in both, and they look alike then.
fn is_right(
    locks: &mut LockSlots,
    twin: &mut LockSlots,
    event: LockEvent,
    wanted: &str,
) -> Result<bool, AllocError> {
    let word = done_again(locks, twin, event)?;
    let other = twin_done(twin, event)?;
    Ok(word == wanted && other == wanted && look_alike(locks, twin))
}

// Locks; if an allocation fails they are made again.
fn new_locks(alloc: Global) -> Result<LockSlots, AllocError> {
    match LockSlots::new(alloc) {
        Ok(locks) => Ok(locks),
        Err(_) => LockSlots::new(alloc),
    }
}

// The first of the rows at which the locks or their twin say something else, or look otherwise.
fn wrong_row(locks: &mut LockSlots, twin: &mut LockSlots) -> Result<Option<usize>, AllocError> {
    for (i, row) in ROWS.iter().enumerate() {
        if !is_right(locks, twin, row.0, row.1)? {
            return Ok(Some(i));
        }
    }
    Ok(None)
}

fn first_wrong_row(alloc: Global) -> Result<Option<usize>, AllocError> {
    let mut locks = new_locks(alloc)?;
    let mut twin = new_locks(alloc)?;
    wrong_row(&mut locks, &mut twin)
}

// The nth of 64 transactions to come to slot 0, and what comes of it. The transactions 63, 61, .. 1 each come before the
// next younger one: the first is granted, the others are older than all before them and wait, and all of even numbers die.
fn comer(n: u64) -> (LockEvent, &'static str) {
    let transaction = (63u64.wrapping_sub(n) ^ 1).wrapping_add(1);
    let mode = if n % 3 == 0 { WRITE } else { READ };
    let word = match n {
        0 => "granted",
        _ if n % 2 == 0 => "queued",
        _ => "died",
    };
    ((transaction, 0, mode), word)
}

// The nth of them to release, in steps of 27, and what it releases.
fn leaver(n: u64) -> (LockEvent, &'static str) {
    let transaction = (n.wrapping_mul(27) % 64).wrapping_add(1);
    let word = if transaction % 2 == 0 {
        "nothing"
    } else {
        "released 0"
    };
    ((transaction, 0, None), word)
}

// The nth event of the crowd: each comes, each releases, and then releases again, if nothing is left.
fn crowd_row(n: u64) -> (LockEvent, &'static str) {
    if n < 64 {
        return comer(n);
    }
    let (event, word) = leaver(n);
    (event, if n < 128 { word } else { "nothing" })
}

// The first of the crowd's 192 events at which the locks or their twin say something else, or look otherwise.
fn first_wrong_of_crowd(alloc: Global) -> Result<Option<u64>, AllocError> {
    let mut locks = new_locks(alloc)?;
    let mut twin = new_locks(alloc)?;
    for n in 0..192u64 {
        let (event, word) = crowd_row(n);
        if !is_right(&mut locks, &mut twin, event, word)? {
            return Ok(Some(n));
        }
    }
    Ok(None)
}

// Whether the transaction 1 is granted to read the slot; it asks again if an allocation failed.
fn reads(locks: &mut LockSlots, slot: u32) -> Result<bool, AllocError> {
    if let Ok(is_granted) = reads_once(locks, slot) {
        return Ok(is_granted);
    }
    reads_once(locks, slot)
}

fn reads_once(locks: &mut LockSlots, slot: u32) -> Result<bool, AllocError> {
    let answer = locks.request(TxnNo(1), slot, Mode::Shared)?;
    Ok(answer == Some(Outcome::Granted))
}

// Whether it is granted to read each of 16 slots.
fn reads_all(locks: &mut LockSlots) -> Result<bool, AllocError> {
    for slot in 0..SLOTS {
        if !reads(locks, slot)? {
            return Ok(false);
        }
    }
    Ok(true)
}

// Whether it then releases them in that order, and nothing more.
fn releases_all(locks: &mut LockSlots) -> bool {
    for slot in 0..SLOTS {
        if locks.release_one(TxnNo(1)) != Some(SlotId(slot)) {
            return false;
        }
    }
    locks.release_one(TxnNo(1)).is_none()
}

// Whether one transaction's long list of slots is correct.
fn is_long_list_right(alloc: Global) -> Result<bool, AllocError> {
    let mut locks = new_locks(alloc)?;
    Ok(reads_all(&mut locks)? && releases_all(&mut locks))
}

// Whether the transaction 1 gives each of 16 slots back and is granted to read it once more, the first time.
fn gives_back_and_reads(locks: &mut LockSlots) -> Result<bool, AllocError> {
    for slot in 0..SLOTS {
        if locks.release_one(TxnNo(1)) != Some(SlotId(slot)) || !reads_once(locks, slot)? {
            return Ok(false);
        }
    }
    Ok(true)
}

// Whether requests with room are granted the first time: a transaction reads each of 16 slots, asking again if an
// allocation failed, and then gives each back and reads it once more. Its list never becomes empty, and the place that it
// gave back has its links, so that no growth is asked for and none can be refused.
fn reads_again_at_once(alloc: Global) -> Result<bool, AllocError> {
    let mut locks = new_locks(alloc)?;
    Ok(reads_all(&mut locks)? && gives_back_and_reads(&mut locks)?)
}

// Whichever growth is refused, the locks are as before, and asked again they answer as with ample memory, then and later.
#[test]
fn locks_answer_the_same_at_each_refused_growth(rt: HostRuntime) -> Result<(), Fail> {
    assert_eq!(rt; first_wrong_row(rt.alloc())?, None);
    assert_eq!(rt; first_wrong_of_crowd(rt.alloc())?, None);
    assert!(rt; is_long_list_right(rt.alloc())?);
    Ok(())
}

// A request for which there is room asks for no growth: whichever is refused, it is granted the first time.
#[test]
fn requests_with_room_ask_for_no_memory_at_each_refused_growth(
    rt: HostRuntime,
) -> Result<(), Fail> {
    assert!(rt; reads_again_at_once(rt.alloc())?);
    Ok(())
}
