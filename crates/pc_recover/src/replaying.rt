//! The log's entries after the state of the recovered point, read and applied entry by entry.
ghost use Rattle.std.specs.Prelude.{◌≡◌, ◌∷◌, [], ◌||◌, ◌-◌, drop, length, IfOk, OnOk, Ok, Err, Some};
ghost use Rattle.pc_io.specs.Fields.{Gives};
ghost use Rattle.pc_model.specs.Log.{after};
ghost use Rattle.pc_log.specs.Orders.{no_token};
ghost use Rattle.pc_log.specs.Reading.{entries_at};
ghost use Rattle.pc_recover.specs.Recovery.{are_zeros, fault_after_crash};
ghost use Rattle.pc_recover.specs.Replaying.{counting, found_replay, is_point_token, log_replay, replay_by};

use pc_io::Format;
use pc_log::{LastToken, read_entry, read_header};
use pc_replay::Overlay;
use pc_types::{Entry, Phase, Point, Refusal};
use std::alloc::{AllocError, Global};

// A log's text begins with this many bytes, which were written before the first entry.
const HEADER: usize = 20;

/// The replay of a log: the database after it, the number of its whole entries, and the fault of its rest, if there is one.
#[derive(Drop)]
pub(crate) struct Replayed {
    pub(crate) database: Overlay,
    pub(crate) entries: usize,
    /// How many bytes are left after the whole entries.
    pub(crate) rest: usize,
    pub(crate) fault: Option<Refusal>,
}

/// Applies the commits of the run's log after the point's token to the database, all of them if the point is 0. Fewer bytes than a
/// log's header has count as a log without entries: a crash came before the first entry; and so does a rest of zeros as a truncated
/// entry. Returns the fault of the header,
/// `OtherRun`, or `OutOfMemory` if an allocation failed; then the database is dropped. Of the log one entry at a time is kept.
#[tactic(auto, unfolding(pc_log::specs::Reading::log_at))]
pub(crate) fn replay_log(
    alloc: Global,
    run: u64,
    point: Point,
    database: Overlay,
    bytes: &[u8],
) -> Result<Replayed, Refusal>
    ensures { Gives replay_by result (log_replay run point database bytes.now) }
{
    if bytes.len() < HEADER {
        return Ok(Replayed {
            database,
            entries: 0,
            rest: bytes.len(),
            fault: None,
        });
    }
    let (format, of_run, entries) = read_header(bytes)?;
    if of_run != run {
        return Err(Refusal::OtherRun);
    }
    match replay_entries(alloc, format, point, database, entries) {
        Ok(replayed) => Ok(after_crash(bytes, replayed)),
        Err(why) => Err(why),
    }
}

// The replay of these bytes of a log, with the fault that its rest has after a crash.
fn after_crash(bytes: &[u8], replayed: Replayed) -> Replayed
    ensures { replay_by result ≡ record (replay_by replayed) { fault = fault_after_crash (drop (length bytes.now - replayed.rest) bytes.now) replayed.fault } }
{
    let whole = bytes.len().saturating_sub(replayed.rest);
    let fault = fault_after_crash(&bytes[whole..], replayed.fault);
    Replayed { fault, ..replayed }
}

// The fault of a rest after a crash: zeros, which a file system leaves where bytes have not reached its disk, count as truncated.
fn fault_after_crash(rest: &[u8], fault: Option<Refusal>) -> Option<Refusal>
    ensures { result ≡ fault_after_crash rest.now fault }
{
    match fault {
        Some(_) if are_zeros(rest) => Some(Refusal::Short),
        other => other,
    }
}

// Whether all of the bytes are 0.
fn are_zeros(bytes: &[u8]) -> bool
    ensures { result ≡ are_zeros bytes.now }
{
    bytes.iter().all(|byte| *byte == 0)
}

// Reads the entries in order in the log's format, as many as can be read, and applies those that count.
fn replay_entries(
    alloc: Global,
    format: Format,
    point: Point,
    database: Overlay,
    bytes: &[u8],
) -> Result<Replayed, Refusal>
    ensures read { Gives replay_by result (Ok (found_replay point database (entries_at format (length bytes.now) no_token bytes.now))) }
    ensures rest { IfOk result (λ replayed. replayed.rest ≡ (entries_at format (length bytes.now) no_token bytes.now).rest) }
{
    let mut database = database;
    let mut last = LastToken::none();
    let mut rest = bytes;
    let mut entries = 0usize;
    let mut is_behind = point == Point(0);
    while !rest.is_empty() {
        match read_entry(alloc, format, last, rest) {
            Ok((entry, after)) => {
                last = last.after(&entry);
                rest = after;
                entries += 1;
                let (next, is_next_behind) = replay_entry(
                    alloc, database, point, is_behind, entry,
                )?;
                database = next;
                is_behind = is_next_behind;
            }
            Err(fault) => return stopped(database, entries, rest.len(), fault),
        }
    }
    Ok(Replayed {
        database,
        entries,
        rest: 0,
        fault: None,
    })
}

// The replay so far if the rest of this length has this fault; an error if an allocation failed.
fn stopped(
    database: Overlay,
    entries: usize,
    rest: usize,
    fault: Refusal,
) -> Result<Replayed, Refusal>
    ensures rest { IfOk result (λ replayed. replayed.rest ≡ rest) }
    ensures read { Gives replay_by result (Ok (record { pairs = database; entries = entries; fault = Some fault })) }
    ensures memory { fault ≡ Refusal.OutOfMemory → result ≡ Err Refusal.OutOfMemory }
{
    if fault == Refusal::OutOfMemory {
        return Err(Refusal::OutOfMemory);
    }
    Ok(Replayed {
        database,
        entries,
        rest,
        fault: Some(fault),
    })
}

// The database once the entry is applied, if it is a commit after the point's token, and whether the next entry comes after that token.
fn replay_entry(
    alloc: Global,
    database: Overlay,
    point: Point,
    is_behind: bool,
    entry: Entry,
) -> Result<(Overlay, bool), AllocError>
    ensures applied { IfOk result (λ next. next.0 ≡ after database (counting is_behind point (entry ∷ []))) }
    ensures token { IfOk result (λ next. next.1 ≡ (is_behind || is_point_token point entry)) }
{
    if is_behind {
        let database = with_entry(alloc, database, entry)?;
        return Ok((database, true));
    }
    Ok((database, is_token_of(point, &entry)))
}

/// The database once the entry is applied, if it is a commit. Fails only if an allocation fails.
pub fn with_entry(alloc: Global, database: Overlay, entry: Entry) -> Result<Overlay, AllocError>
    ensures { IfOk result (λ after_it. after_it ≡ after database (entry ∷ [])) }
{
    match entry {
        Entry::Commit(_, writes) => database.with_writes(alloc, writes),
        Entry::Token(_, _) => Ok(database),
    }
}

/// Whether the entry is the token of the point: the one that its cycle appends at its point of consistency.
pub fn is_token_of(point: Point, entry: &Entry) -> bool
    ensures { result ≡ is_point_token point entry.now }
{
    match entry {
        Entry::Token(Phase::Resolve, n) => *n == point,
        _ => false,
    }
}
