//! Why a line of a workload is bad, by itself or by its place.
ghost use Rattle.std.specs.Prelude.{◌≡◌, ◌<◌, ◌++◌, length, codes, IfOk, map};
ghost use Rattle.std.specs.List.{list_any};
ghost use Rattle.pc_io.specs.Tallies.{Puts};
ghost use Rattle.pc_lines.specs.Lines.{lines_in};
ghost use Rattle.pc_jobs.specs.declared.workloads.WorkloadReading.TheVariants.{BadLine};
ghost use Rattle.pc_jobs.specs.Workloads.{reading_of, phrases_in};
ghost use Rattle.pc_reasons.specs.Workloads.{role_with, verb_role, words_role, inner_role, told_role, role_of, is_client_line, role_fault, fault_behind, line_fault_at, workload_sentence};
ghost use Rattle.pc_reasons.specs.Causes.{IsExplained};
ghost use Rattle.pc_reasons.specs.Told.{place_text};

use crate::faults::{LineFault, WordKind};
use crate::kinds::{no_word, one_word, three_words, two_words};
use crate::line_lists::{ends_with_cr, lines_in};
use crate::told_lines::put_place;
use pc_io::Tally;
use pc_lines::{first_words, is_comment};
use pc_types::Refusal;
use std::alloc::{AllocError, Global};
use std::io::Write;

/// Why a line of a workload is bad.
#[derive(Clone, Copy, Debug, PartialEq, Eq)]
pub enum WorkloadFault {
    /// By itself, wherever it is.
    Line(LineFault),
    /// The number of points was given before.
    PointsAgain,
    /// The number of points comes after a client.
    PointsBehindClient,
    /// The session has a client already.
    ClientAgain,
    /// A `txn` or a `fill` comes before the first client.
    BeforeClients,
    /// The transaction that it begins has no `end`.
    NoEnd,
    /// An operation or an `end` if no transaction is open.
    OutsideTransaction,
}

// The role of a line of a workload, by itself.
#[derive(Clone, Copy, Debug, PartialEq, Eq)]
enum LineRole {
    Silent,
    Points,
    Client,
    Begin,
    // An operation or an `end`.
    Inside,
    Fill,
    Wrong(LineFault),
}

/// Why the line of this number, from 1, is bad in a workload of which it is the first bad one; no reason of a line that says nothing, or
/// that isn't there. It fails only if an allocation fails.
pub fn workload_fault(
    alloc: Global,
    text: &[u8],
    number: usize,
) -> Result<Option<WorkloadFault>, AllocError>
    ensures fault { IfOk result (λ fault. fault ≡ line_fault_at (lines_in text.now) number) }
    ensures cause { reading_of text.now ≡ BadLine number → IfOk result (IsExplained (phrases_in text.now) number) }
{
    fault_in(alloc, text, number)
}

fn fault_in(alloc: Global, text: &[u8], number: usize) -> Result<Option<WorkloadFault>, AllocError>
    ensures { IfOk result (λ fault. fault ≡ line_fault_at (lines_in text.now) number) }
{
    let lines = lines_in(alloc, text)?;
    fault_at(alloc, &lines, number)
}

fn fault_at(
    alloc: Global,
    lines: &[&[u8]],
    number: usize,
) -> Result<Option<WorkloadFault>, AllocError>
    ensures { IfOk result (λ fault. fault ≡ line_fault_at (map (λ w. w.now) lines.now) number) }
{
    if number == 0 || number > lines.len() {
        return Ok(None);
    }
    fault_behind(alloc, lines, number - 1)
}

// The same after the given number of lines.
fn fault_behind(
    alloc: Global,
    lines: &[&[u8]],
    count: usize,
) -> Result<Option<WorkloadFault>, AllocError>
    requires { count < length lines.now }
    ensures { IfOk result (λ fault. fault ≡ fault_behind (map (λ w. w.now) lines.now) count) }
{
    let has_client = has_client(alloc, &lines[..count])?;
    let role = role_of(alloc, lines[count])?;
    Ok(fault_of(has_client, role))
}

// Whether some line is that of a client.
fn has_client(alloc: Global, lines: &[&[u8]]) -> Result<bool, AllocError>
    ensures { IfOk result (λ has. has ≡ list_any is_client_line (map (λ w. w.now) lines.now)) }
{
    for line in lines {
        if is_client_line(alloc, line)? {
            return Ok(true);
        }
    }
    Ok(false)
}

fn is_client_line(alloc: Global, line: &[u8]) -> Result<bool, AllocError>
    ensures { IfOk result (λ is. is ≡ is_client_line line.now) }
{
    match role_of(alloc, line)? {
        LineRole::Client => Ok(true),
        _ => Ok(false),
    }
}

// Why a line of this role is bad if it is the first bad one, given whether a client comes before it.
fn fault_of(has_client: bool, role: LineRole) -> Option<WorkloadFault>
    ensures { result ≡ role_fault has_client role }
{
    match role {
        LineRole::Silent => None,
        LineRole::Points => {
            if has_client {
                Some(WorkloadFault::PointsBehindClient)
            } else {
                Some(WorkloadFault::PointsAgain)
            }
        }
        LineRole::Client => Some(WorkloadFault::ClientAgain),
        LineRole::Begin => {
            if has_client {
                Some(WorkloadFault::NoEnd)
            } else {
                Some(WorkloadFault::BeforeClients)
            }
        }
        LineRole::Inside => Some(WorkloadFault::OutsideTransaction),
        LineRole::Fill => Some(WorkloadFault::BeforeClients),
        LineRole::Wrong(fault) => Some(WorkloadFault::Line(fault)),
    }
}

// The role of the line, without its end, by itself.
fn role_of(alloc: Global, line: &[u8]) -> Result<LineRole, AllocError>
    ensures { IfOk result (λ role. role ≡ role_of line.now) }
{
    if is_comment(line) {
        return Ok(LineRole::Silent);
    }
    let role = words_role(alloc, &first_words(line))?;
    Ok(told_role(line, role))
}

// The reason for a line of this role: for a wrong one that ends with a CR, that.
fn told_role(line: &[u8], role: LineRole) -> LineRole
    ensures { result ≡ told_role line.now role }
{
    match role {
        LineRole::Wrong(fault) => {
            if ends_with_cr(line) {
                LineRole::Wrong(LineFault::CarriageReturn)
            } else {
                LineRole::Wrong(fault)
            }
        }
        _ => role,
    }
}

fn words_role(alloc: Global, words: &[&[u8]]) -> Result<LineRole, AllocError>
    ensures { IfOk result (λ role. role ≡ words_role (map (λ w. w.now) words.now)) }
{
    match words {
        [] => Ok(LineRole::Silent),
        [verb, words @ ..] => verb_role(alloc, verb, words),
    }
}

// The role, or that something is wrong.
fn role_with(role: LineRole, fault: Option<LineFault>) -> LineRole
    ensures { result ≡ role_with role fault }
{
    match fault {
        Some(fault) => LineRole::Wrong(fault),
        None => role,
    }
}

fn verb_role(alloc: Global, verb: &[u8], words: &[&[u8]]) -> Result<LineRole, AllocError>
    ensures { IfOk result (λ role. role ≡ verb_role verb.now (map (λ w. w.now) words.now)) }
{
    if verb == b"points".as_slice() {
        let fault = one_word(alloc, WordKind::PointCount, words)?;
        Ok(role_with(LineRole::Points, fault))
    } else if verb == b"client".as_slice() {
        let fault = one_word(alloc, WordKind::ClientNumber, words)?;
        Ok(role_with(LineRole::Client, fault))
    } else if verb == b"txn".as_slice() {
        Ok(role_with(LineRole::Begin, no_word(words)))
    } else if verb == b"fill".as_slice() {
        let fault = three_words(
            alloc,
            WordKind::KeyPrefix,
            WordKind::FillCount,
            WordKind::WholeValue,
            words,
        )?;
        Ok(role_with(LineRole::Fill, fault))
    } else {
        inner_role(alloc, verb, words)
    }
}

// The same of a line within a transaction.
fn inner_role(alloc: Global, verb: &[u8], words: &[&[u8]]) -> Result<LineRole, AllocError>
    ensures { IfOk result (λ role. role ≡ inner_role verb.now (map (λ w. w.now) words.now)) }
{
    let fault = if verb == b"end".as_slice() {
        no_word(words)
    } else if verb == b"get".as_slice() || verb == b"del".as_slice() {
        one_word(alloc, WordKind::WholeKey, words)?
    } else if verb == b"put".as_slice() {
        two_words(alloc, WordKind::WholeKey, WordKind::WholeValue, words)?
    } else if verb == b"add".as_slice() {
        two_words(alloc, WordKind::WholeKey, WordKind::Addend, words)?
    } else {
        Some(LineFault::NoCommand)
    };
    Ok(role_with(LineRole::Inside, fault))
}

impl WorkloadFault {
    /// Writes it in words. Returns `Device` if and only if the writer failed in this call.
    pub fn put<W: Write>(&self, out: &mut Tally<W>) -> Result<(), Refusal>
        ensures { Puts W.contents out.old out.new result (workload_sentence self.now) }
    {
        match self {
            WorkloadFault::Line(fault) => fault.put(out),
            WorkloadFault::PointsAgain => out.put(b"the number of points was given before"),
            WorkloadFault::PointsBehindClient => {
                out.put(b"the number of points stands behind a client")
            }
            WorkloadFault::ClientAgain => out.put(b"the session has a client already"),
            WorkloadFault::BeforeClients => out.put(b"no client stands before it"),
            WorkloadFault::NoEnd => out.put(b"its transaction has no end"),
            WorkloadFault::OutsideTransaction => out.put(b"no transaction is open"),
        }
    }
}

/// Writes the line `NAME:LINE: REASON`. Returns `Device` if and only if the writer failed in this call.
pub fn put_workload_fault<W: Write>(
    name: &[u8],
    number: usize,
    fault: WorkloadFault,
    out: &mut Tally<W>,
) -> Result<(), Refusal>
    ensures { Puts W.contents out.old out.new result (place_text name.now number ++ (workload_sentence fault ++ codes "\n")) }
{
    put_place(name, number, out)?;
    put_reason_line(fault, out)
}

fn put_reason_line<W: Write>(fault: WorkloadFault, out: &mut Tally<W>) -> Result<(), Refusal>
    ensures { Puts W.contents out.old out.new result (workload_sentence fault ++ codes "\n") }
{
    fault.put(out)?;
    out.put(b"\n")
}
