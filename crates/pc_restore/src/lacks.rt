//! The gaps of a recovery, and whether its folder is whole or damaged.
ghost use Rattle.std.specs.Prelude.{◌≡◌, false, length, slice_get, IfOk, IsErr};
ghost use Rattle.pc_model.specs.Log.{has_token};
ghost use Rattle.pc_log.specs.Orders.{no_token};
ghost use Rattle.pc_log.specs.Reading.{all_at, log_at};
ghost use Rattle.pc_recover.specs.Recovery.{recovery_of};
ghost use Rattle.pc_recover.specs.Replaying.{is_point_token};
ghost use Rattle.pc_restore.specs.Lacks.{entries_read, log_header_state, is_rest_faulty, is_damaged, is_header_whole, is_whole, lacks_of, lacks_parts, unused_of, are_empty, is_empty_text};
ghost use Rattle.pc_restore.specs.Recoveries.{bytes_of};

use crate::reading::PartBytes;
use crate::reports::is_cut;
use pc_io::Format;
use pc_log::{LastToken, read_entry, read_header};
use pc_recover::{Recovered, Skipped};
use pc_types::{Entry, Phase, Point, Refusal};
use std::alloc::{AllocError, Global};

/// The state of the header with which a log begins.
#[derive(Clone, Copy)]
pub enum LogHeader {
    /// The log isn't there.
    Missing,
    /// The log ends inside its header, or is empty.
    Cut,
    /// The header is whole.
    Whole,
}

/// The gaps of a recovery.
#[derive(Clone, Copy)]
pub struct Lacks {
    /// The state of the log's header.
    pub header: LogHeader,
    /// The fault of the bytes after the log's whole entries, if there are any: `Short` if the last entry is truncated. A log
    /// without a whole header has none.
    pub fault: Option<Refusal>,
    /// If the log ends before the token of the recovered point, and so none of its entries was used: the number of its whole
    /// entries. `None` if the token is in the log, or the point is 0.
    pub unused: Option<usize>,
    /// The number of parts that were skipped.
    pub skipped: usize,
    /// Whether each of these has no bytes.
    pub are_empty: bool,
}

impl Lacks {
    /// Whether nothing is lacking: the log has its header, its rest has no fault, it reaches the token of the recovered point, and
    /// no part was skipped.
    pub fn is_whole(&self) -> bool
        ensures { result ≡ is_whole self.now }
    {
        is_there(self.header) && self.fault.is_none() && self.unused.is_none() && self.skipped == 0
    }

    /// Whether more is lacking than a process leaves out that was killed, or whose machine has stopped: the log isn't there or has no
    /// whole header, its rest has a fault other than `Short`, or a part was skipped that the log doesn't make up for. It does so for
    /// parts without bytes, if it reaches back to the token of the recovered point.
    pub fn is_damaged(&self) -> bool
        ensures { result ≡ is_damaged self.now }
    {
        !is_there(self.header) || is_bad(self.fault) || self.lacks_parts()
    }

    // Whether a part was skipped that the log doesn't make up for.
    fn lacks_parts(&self) -> bool
        ensures { result ≡ lacks_parts self.now }
    {
        self.skipped != 0 && !(self.are_empty && self.unused.is_none())
    }
}

fn is_there(header: LogHeader) -> bool
    ensures { result ≡ is_header_whole header }
{
    match header {
        LogHeader::Whole => true,
        _ => false,
    }
}

// Whether a log's rest has a fault, and was not only truncated.
fn is_bad(fault: Option<Refusal>) -> bool
    ensures { result ≡ is_rest_faulty fault }
{
    match fault {
        Some(why) => !is_cut(why),
        None => false,
    }
}

/// The gaps of a recovery, if the log is there or not, and the parts and the log have these bytes. Memory is allocated for one entry of
/// the log at a time.
pub(crate) fn lacks_of(
    alloc: Global,
    is_there: bool,
    parts: &[PartBytes],
    log: &[u8],
    recovered: &Recovered,
) -> Result<Lacks, AllocError>
    ensures { IfOk result (λ lacks. lacks ≡ lacks_of is_there (bytes_of parts.now) log.now (recovery_of recovered.now)) }
{
    Ok(Lacks {
        header: header_of(is_there, log),
        fault: recovered.fault,
        unused: unused_of(alloc, recovered.point, recovered.entries, log)?,
        skipped: recovered.skipped.len(),
        are_empty: are_empty(parts, &recovered.skipped),
    })
}

// Whether each of the parts that were skipped has no bytes.
fn are_empty(parts: &[PartBytes], skipped: &[Skipped]) -> bool
    ensures { result ≡ are_empty (bytes_of parts.now) skipped.now }
{
    skipped.iter().all(|one| is_empty_at(parts, one.place))
}

// Whether the part of this place has no bytes.
fn is_empty_at(parts: &[PartBytes], place: usize) -> bool
    ensures { result ≡ is_empty_text (slice_get (bytes_of parts.now) place) }
{
    match parts.get(place) {
        Some(part) => part.bytes.is_empty(),
        None => false,
    }
}

#[tactic(auto, unfolding(pc_log::specs::Reading::log_at))]
fn header_of(is_there: bool, log: &[u8]) -> LogHeader
    ensures { result ≡ log_header_state is_there (log_at log.now) }
{
    if !is_there {
        return LogHeader::Missing;
    }
    match read_header(log) {
        Ok(_) => LogHeader::Whole,
        Err(_) => LogHeader::Cut,
    }
}

// The count of the log's whole entries, if it ends before the token of the point.
fn unused_of(
    alloc: Global,
    point: Point,
    count: usize,
    log: &[u8],
) -> Result<Option<usize>, AllocError>
    ensures { IfOk result (λ unused. unused ≡ unused_of point count (entries_read (log_at log.now))) }
{
    if point == Point(0) {
        return Ok(None);
    }
    if has_token(alloc, point, log)? {
        return Ok(None);
    }
    Ok(Some(count))
}

// Whether one of the log's whole entries is the token of the point.
#[tactic(auto, unfolding(pc_log::specs::Reading::log_at))]
fn has_token(alloc: Global, point: Point, log: &[u8]) -> Result<bool, AllocError>
    ensures { IfOk result (λ has. has ≡ has_token point (entries_read (log_at log.now))) }
{
    match read_header(log) {
        Ok((format, _, entries)) => has_token_in(alloc, format, point, entries),
        Err(_) => Ok(false),
    }
}

// Whether one of the whole entries that come first after the header is the token of the point.
fn has_token_in(
    alloc: Global,
    format: Format,
    point: Point,
    bytes: &[u8],
) -> Result<bool, AllocError>
    ensures { IfOk result (λ has. has ≡ has_token point (all_at format no_token bytes.now).entries) }
{
    let mut last = LastToken::none();
    let mut rest = bytes;
    while !rest.is_empty() {
        match read_entry(alloc, format, last, rest) {
            Ok((entry, after)) => {
                if is_token_of(point, &entry) {
                    return Ok(true);
                }
                last = last.after(&entry);
                rest = after;
            }
            Err(fault) => return stopped(fault),
        }
    }
    Ok(false)
}

// No more entries can be read because of this fault, or an allocation failed.
fn stopped(fault: Refusal) -> Result<bool, AllocError>
    ensures read { IfOk result (λ has. has ≡ false) }
    ensures memory { fault ≡ Refusal.OutOfMemory → IsErr result }
{
    if fault == Refusal::OutOfMemory {
        return Err(AllocError);
    }
    Ok(false)
}

// Whether the entry is the token of the point.
fn is_token_of(point: Point, entry: &Entry) -> bool
    ensures { result ≡ is_point_token point entry.now }
{
    match entry {
        Entry::Token(Phase::Resolve, n) => *n == point,
        _ => false,
    }
}
