//! A workload's text is read: its lines are spelled, the first bad one is looked for, and the work is gathered.
ghost use Rattle.std.specs.Prelude.{◌≡◌, [], ◌∷◌, List, Option, Some, IfOk, IfErr, MatchOption, reverse};
ghost use Rattle.std.specs.List.{list_any};
ghost use Rattle.pc_jobs.specs.declared.phrases.Phrase.{Phrase};
ghost use Rattle.pc_jobs.specs.declared.works.Workload.{Workload};
ghost use Rattle.pc_jobs.specs.Workloads.{is_points, is_client, is_client_of, is_open_behind, closes, is_bad_line, first_bad, workload_of, phrases_in, reading_of};
ghost use Rattle.pc_jobs.specs.Written.{IsWorkloadWritten};
ghost use Rattle.pc_jobs.specs.Seeing.{seen_in_lines, seen_behind};
ghost use Rattle.pc_jobs.specs.Gathering.{gathered_of, closing};

use crate::phrases::{Phrase, spelled};
use crate::works::{Client, ClientTask, Job, Op, Workload};
use bstr::ByteSlice;
use pc_types::{Items, Refusal, SessionNo};
use std::alloc::{AllocError, Global};

/// The meaning of the text of a workload.
#[derive(Drop)]
pub enum WorkloadReading {
    /// No line is bad: the workload to run.
    Runs(Workload),
    /// The number of the first bad line, from 1. There is nothing to run.
    BadLine(usize),
}

/// Reads the text of a workload. Refuses only with `OutOfMemory`.
pub fn read_workload(alloc: Global, text: &[u8]) -> Result<WorkloadReading, Refusal>
    ensures reading { IfOk result (λ reading. reading ≡ reading_of text.now) }
    ensures written { IfOk result (λ reading. (workload : Workload) → reading ≡ WorkloadReading.Runs workload → IsWorkloadWritten (phrases_in text.now) workload) }
    ensures refusals { IfErr result (λ e. e ≡ Refusal.OutOfMemory) }
{
    let phrases = phrases_in(alloc, text)?;
    match first_bad(&phrases) {
        Some(line) => Ok(WorkloadReading::BadLine(line)),
        None => Ok(WorkloadReading::Runs(workload_of(alloc, phrases)?)),
    }
}

// The meaning of the lines of the text.
fn phrases_in(alloc: Global, text: &[u8]) -> Result<Vec<Phrase>, Refusal>
    ensures phrases { IfOk result (λ v. v.items ≡ phrases_in text.now) }
    ensures refusals { IfErr result (λ e. e ≡ Refusal.OutOfMemory) }
{
    let mut phrases = Vec::new(alloc);
    for line in text.lines() {
        let phrase = spelled(alloc, line)?;
        phrases.push(phrase)?;
    }
    Ok(phrases)
}

// The summary of the lines before one.
#[derive(Clone, Copy)]
struct Seen {
    // The number of points was given.
    points: bool,
    // Some client's work has begun.
    client: bool,
    // A transaction is open.
    inside: bool,
}

impl Seen {
    fn and(self, line: &Phrase) -> Seen
        ensures { result ≡ seen_behind self line.now }
    {
        match line {
            Phrase::Silent | Phrase::Does(_) => self,
            Phrase::Points(_) => Seen {
                points: true,
                inside: false,
                ..self
            },
            Phrase::Client(_) => Seen {
                client: true,
                inside: false,
                ..self
            },
            Phrase::Begin => Seen {
                inside: true,
                ..self
            },
            Phrase::End | Phrase::Fill(_) | Phrase::Malformed => Seen {
                inside: false,
                ..self
            },
        }
    }
}

// The number of the first bad line.
fn first_bad(lines: &[Phrase]) -> Option<usize>
    ensures { result ≡ first_bad [] lines.now }
{
    let mut seen = Seen {
        points: false,
        client: false,
        inside: false,
    };
    for (index, line) in lines.iter().enumerate() {
        if is_bad(seen, &lines[..index], line, &lines[index + 1..]) {
            return Some(index + 1);
        }
        seen = seen.and(line);
    }
    None
}

// Whether a line is bad, by the lines before it and after it.
fn is_bad(seen: Seen, before: &[Phrase], line: &Phrase, behind: &[Phrase]) -> bool
    requires { seen ≡ seen_in_lines before.now }
    ensures { result ≡ is_bad_line before.now line.now behind.now }
{
    match line {
        Phrase::Silent => false,
        Phrase::Points(_) => seen.points || seen.client,
        Phrase::Client(session) => has_client_of(before, *session),
        Phrase::Begin => !seen.client || !closes(behind),
        Phrase::Does(_) | Phrase::End => !seen.inside,
        Phrase::Fill(_) => !seen.client,
        Phrase::Malformed => true,
    }
}

fn has_client_of(lines: &[Phrase], session: SessionNo) -> bool
    ensures { result ≡ list_any (is_client_of session) lines.now }
{
    lines.iter().any(|line| is_client_of(session, line))
}

fn is_client_of(session: SessionNo, line: &Phrase) -> bool
    ensures { result ≡ is_client_of session line.now }
{
    match line {
        Phrase::Client(s) => s.0 == session.0,
        _ => false,
    }
}

// Whether a transaction is ended by the lines after its begin, or comes to a line that is bad by itself.
fn closes(lines: &[Phrase]) -> bool
    ensures { result ≡ closes lines.now }
{
    for line in lines {
        if let Some(closed) = closing(line) {
            return closed;
        }
    }
    false
}

// The item of a line: none within a transaction.
fn closing(line: &Phrase) -> Option<bool>
    ensures { result ≡ closing line.now }
{
    match line {
        Phrase::Silent | Phrase::Does(_) => None,
        Phrase::End | Phrase::Malformed => Some(true),
        Phrase::Points(_) | Phrase::Client(_) | Phrase::Begin | Phrase::Fill(_) => Some(false),
    }
}

// The summary of the lines after one, the last first.
#[derive(Drop)]
struct Gathered {
    points: u32,
    clients: Items<Client>,
    // Of the client whose line comes next.
    works: Items<ClientTask>,
    // Of the transaction whose begin comes next.
    ops: Items<Op>,
}

// The workload of the lines, gathered from the last line to the first.
fn workload_of(alloc: Global, mut lines: Vec<Phrase>) -> Result<Workload, AllocError>
    ensures { IfOk result (λ workload. workload ≡ workload_of lines.items) }
{
    let mut gathered = Gathered {
        points: 0,
        clients: Items::new(alloc),
        works: Items::new(alloc),
        ops: Items::new(alloc),
    };
    while let Some(line) = lines.pop() {
        gathered = with_line(alloc, line, gathered)?;
    }
    let Gathered {
        points,
        clients,
        works: _,
        ops: _,
    } = gathered;
    Ok(Workload {
        points,
        clients: in_order(clients),
    })
}

// The summary once the line before is added.
fn with_line(alloc: Global, line: Phrase, behind: Gathered) -> Result<Gathered, AllocError>
    ensures { (lines : List Phrase) → behind ≡ gathered_of lines → IfOk result (λ gathered. gathered ≡ gathered_of (line ∷ lines)) }
{
    let Gathered {
        mut points,
        mut clients,
        mut works,
        mut ops,
    } = behind;
    match line {
        Phrase::Silent => {}
        Phrase::Does(op) => ops.push(op)?,
        Phrase::Points(number) => {
            points = number;
            ops = Items::new(alloc);
        }
        Phrase::Client(session) => {
            clients.push(Client {
                session,
                works: in_order(works),
            })?;
            works = Items::new(alloc);
            ops = Items::new(alloc);
        }
        Phrase::Begin => {
            works.push(ClientTask::Once(Job { ops: in_order(ops) }))?;
            ops = Items::new(alloc);
        }
        Phrase::Fill(fill) => {
            works.push(ClientTask::Fill(fill))?;
            ops = Items::new(alloc);
        }
        Phrase::End | Phrase::Malformed => ops = Items::new(alloc),
    }
    Ok(Gathered {
        points,
        clients,
        works,
        ops,
    })
}

// The items, the last first.
fn in_order<T>(items: Items<T>) -> Items<T>
    ensures { result ≡ reverse items }
{
    let mut vec = items.into_vec();
    vec.reverse();
    Items::from_vec(vec)
}
