//! A log's entries are read in order, and the line of each goes out before the next one is read.
ghost use Rattle.std.specs.Prelude.{◌≡◌, ◌⊎◌, length, ◌-◌, Some, Ok, Err, IfOk, IfErr, IsErr, OnOk};
ghost use Rattle.pc_io.specs.Tallies.{Puts};
ghost use Rattle.pc_log.specs.Orders.{no_token};
ghost use Rattle.pc_log.specs.Reading.{all_at, log_at};
ghost use Rattle.pc_log_lines.specs.Lines.{entry_lines, rest_line, line_within, lines_behind, log_lines, log_status, rest_found, rest_of_log, rest_status};
ghost use Rattle.pc_log_lines.specs.Runs.{IsTextCutOff, PutsAll};

use crate::lines::{put_entry_line, put_fault_line};
use pc_io::{Format, Tally};
use pc_log::{LastToken, read_entry, read_header};
use pc_types::{Entry, Refusal};
use std::alloc::Global;
use std::io::Write;

/// Of which entries the lines are wanted: by their numbers, which begin with 1, from the lowest to the highest, both of them included.
#[derive(Clone, Copy)]
pub struct EntryRange {
    pub low: u64,
    pub high: u64,
}

// The rest of a log after its whole entries: the number of bytes, and the fault with which they begin, if there are any. If the header
// has a fault, it is all of the log.
#[derive(Clone, Copy)]
pub(crate) struct Rest {
    pub(crate) bytes: usize,
    pub(crate) fault: Option<Refusal>,
}

/// The status of a log that is whole, and of one whose bytes have a fault.
const WHOLE: u8 = 0;

const FAULTY: u8 = 4;

/// Writes the lines of a log of these bytes; the status. It allocates memory for one entry at a time. It is refused with `OutOfMemory`
/// if an allocation failed, and with `Device` if and only if the device failed; then a prefix of the lines went out.
pub(crate) fn put_log<W: Write>(
    alloc: Global,
    range: EntryRange,
    bytes: &[u8],
    out: &mut Tally<W>,
) -> Result<u8, Refusal>
    ensures status { IfOk result (λ status. status ≡ log_status bytes.now) }
    ensures statuses { IfOk result (λ status. (status ≡ WHOLE) ⊎ (status ≡ FAULTY)) }
    ensures all { OnOk result (PutsAll W.contents out.old out.new (log_lines range bytes.now)) }
    ensures part { IfErr result (λ why. IsTextCutOff W.contents out.old out.new why (log_lines range bytes.now)) }
{
    let rest = put_entries(alloc, range, bytes, out)?;
    put_rest(out, bytes.len(), rest)
}

// The lines of the whole entries; what is left after them.
#[tactic(auto, unfolding(pc_log::specs::Reading::log_at))]
fn put_entries<W: Write>(
    alloc: Global,
    range: EntryRange,
    bytes: &[u8],
    out: &mut Tally<W>,
) -> Result<Rest, Refusal>
    ensures rest { IfOk result (λ rest. rest ≡ rest_of_log (length bytes.now) (log_at bytes.now)) }
    ensures all { OnOk result (PutsAll W.contents out.old out.new (entry_lines range (log_at bytes.now))) }
    ensures part { IfErr result (λ why. IsTextCutOff W.contents out.old out.new why (entry_lines range (log_at bytes.now))) }
{
    match read_header(bytes) {
        Ok((format, _, behind)) => put_behind(alloc, format, range, behind, out),
        Err(why) => Ok(Rest {
            bytes: bytes.len(),
            fault: Some(why),
        }),
    }
}

// The lines of as many entries as can be read in order.
fn put_behind<W: Write>(
    alloc: Global,
    format: Format,
    range: EntryRange,
    bytes: &[u8],
    out: &mut Tally<W>,
) -> Result<Rest, Refusal>
    ensures rest { IfOk result (λ rest. rest ≡ rest_found (all_at format no_token bytes.now)) }
    ensures all { OnOk result (PutsAll W.contents out.old out.new (lines_behind range 0 (all_at format no_token bytes.now).entries)) }
    ensures part { IfErr result (λ why. IsTextCutOff W.contents out.old out.new why (lines_behind range 0 (all_at format no_token bytes.now).entries)) }
{
    let mut last = LastToken::none();
    let mut rest = bytes;
    let mut count: u64 = 0;
    while !rest.is_empty() {
        match read_entry(alloc, format, last, rest) {
            Ok((entry, after)) => {
                count += 1;
                put_within(out, range, count, &entry)?;
                last = last.after(&entry);
                rest = after;
            }
            Err(fault) => return stopped(rest.len(), fault),
        }
    }
    Ok(Rest {
        bytes: 0,
        fault: None,
    })
}

// The line of the entry of this number, where it lies in the range.
fn put_within<W: Write>(
    out: &mut Tally<W>,
    range: EntryRange,
    number: u64,
    entry: &Entry,
) -> Result<(), Refusal>
    ensures { Puts W.contents out.old out.new result (line_within range number entry.now) }
{
    if range.low <= number && number <= range.high {
        return put_entry_line(out, number, entry);
    }
    Ok(())
}

// No more entries can be read for this fault, or an allocation failed.
fn stopped(bytes: usize, fault: Refusal) -> Result<Rest, Refusal>
    ensures rest { IfOk result (λ rest. rest ≡ record { bytes = bytes; fault = Some fault }) }
    ensures memory { fault ≡ Refusal.OutOfMemory → IsErr result }
    ensures cause { IfErr result (λ why. why ≡ Refusal.OutOfMemory) }
{
    if fault == Refusal::OutOfMemory {
        return Err(Refusal::OutOfMemory);
    }
    Ok(Rest {
        bytes,
        fault: Some(fault),
    })
}

// The line of the fault of what is left of a log of this many bytes, if there is one; the status.
fn put_rest<W: Write>(out: &mut Tally<W>, size: usize, rest: Rest) -> Result<u8, Refusal>
    ensures status { IfOk result (λ status. status ≡ rest_status rest.fault) }
    ensures statuses { IfOk result (λ status. (status ≡ WHOLE) ⊎ (status ≡ FAULTY)) }
    ensures all { OnOk result (Puts W.contents out.old out.new (Ok tt) (rest_line size rest.bytes rest.fault)) }
    ensures part { IfErr result (λ why. Puts W.contents out.old out.new (Err why) (rest_line size rest.bytes rest.fault)) }
{
    let Rest { bytes: left, fault } = rest;
    match fault {
        Some(why) => {
            put_fault_line(out, why, first_of(size, left))?;
            Ok(FAULTY)
        }
        None => Ok(WHOLE),
    }
}

// With which byte the last ones begin, as many as are left of this many, counted from 1; 0 if there is none.
fn first_of(size: usize, left: usize) -> u64
    ensures { result ≡ size - (left - 1) }
{
    size.saturating_sub(left.saturating_sub(1)) as u64
}
