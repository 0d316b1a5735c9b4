//! The finding about a text.
ghost use Rattle.std.specs.Prelude.{◌≡◌, ◌-◌, ℕ, Ok, IfOk};
ghost use Rattle.pc_types.specs.declared.refusal.Refusal.{Refusal};
ghost use Rattle.pc_faults.specs.Faults.{IsFaultOf};
ghost use Rattle.pc_log.specs.Reading.{log_at, log_read};
ghost use Rattle.pc_verify.specs.declared.findings.Finding.TheVariants as found;
ghost use Rattle.pc_verify.specs.Findings.{IsFinding, format_of, head_of, is_sound, kind_of};

use pc_bases::Base;
use pc_faults::{TextKind, locate};
use pc_io::Format;
use pc_log::{LogText, read_log};
use pc_part::Part;
use pc_types::{Items, Point, Refusal};
use std::alloc::{AllocError, Global};

/// The kind of a store's file that a text is expected to be.
#[derive(Clone, Copy, Debug, PartialEq, Eq)]
pub enum FileKind {
    Base,
    Part,
    Log,
}

impl FileKind {
    /// The kind of a file of this name: a base if the name ends in `.pcb`, a log if it ends in `.pcl`, and otherwise a part.
    pub fn of_name(name: &[u8]) -> FileKind
        ensures { result ≡ kind_of name.now }
    {
        if name.ends_with(b".pcb") {
            FileKind::Base
        } else if name.ends_with(b".pcl") {
            FileKind::Log
        } else {
            FileKind::Part
        }
    }
}

// The format of a text, and the number of its run.
#[derive(Clone, Copy)]
pub(crate) struct Head {
    pub(crate) format: Format,
    pub(crate) run: u64,
}

// The finding about a file.
#[derive(Drop)]
pub(crate) enum Finding {
    // A base, of this point and with this many pairs.
    Base(Head, Point, u64),
    // A part of these points, with this many entries.
    Part(Head, Items<Point>, u64),
    // A log, with this many entries.
    Log(Head, u64),
    // A fault, and with which byte it is seen: of a log the one with which begins what has it.
    Fault(Refusal, u64),
    // It can't be opened or read.
    Unread(Refusal),
}

impl Finding {
    /// Whether it is a whole text.
    pub(crate) fn is_sound(&self) -> bool
        ensures { result ≡ is_sound self.now }
    {
        match self {
            Finding::Fault(_, _) => false,
            Finding::Unread(_) => false,
            _ => true,
        }
    }
}

/// The finding about the bytes, read as a text of this kind. It is an error only if an allocation failed.
pub(crate) fn finding_of(alloc: Global, kind: FileKind, bytes: &[u8]) -> Result<Finding, AllocError>
    ensures { IfOk result (IsFinding kind bytes.now) }
{
    match kind {
        FileKind::Base => base_finding(alloc, bytes),
        FileKind::Part => part_finding(alloc, bytes),
        FileKind::Log => log_finding(alloc, bytes),
    }
}

fn base_finding(alloc: Global, bytes: &[u8]) -> Result<Finding, AllocError>
    ensures { IfOk result (IsFinding FileKind.Base bytes.now) }
{
    match Base::decode(alloc, bytes) {
        Ok(base) => Ok(Finding::Base(
            head_of(bytes, base.run()),
            base.point(),
            base.pairs().len() as u64,
        )),
        Err(_) => fault_in(alloc, TextKind::Base, bytes),
    }
}

fn part_finding(alloc: Global, bytes: &[u8]) -> Result<Finding, AllocError>
    ensures { IfOk result (IsFinding FileKind.Part bytes.now) }
{
    match Part::decode(alloc, bytes) {
        Ok(part) => {
            let points = part.points(alloc)?;
            Ok(Finding::Part(
                head_of(bytes, part.run()),
                points,
                part.entries().len() as u64,
            ))
        }
        Err(_) => fault_in(alloc, TextKind::Part, bytes),
    }
}

// The fault of bytes that are no text of this kind, unless an allocation failed.
fn fault_in(alloc: Global, kind: TextKind, bytes: &[u8]) -> Result<Finding, AllocError>
    ensures { IfOk result (λ finding. (why : Refusal) × (byte : ℕ) × (finding ≡ found.Fault why byte) × IsFaultOf kind bytes.now byte why) }
{
    match locate(alloc, kind, bytes)? {
        Some(fault) => Ok(Finding::Fault(fault.why, fault.bytes as u64)),
        None => Err(AllocError),
    }
}

fn log_finding(alloc: Global, bytes: &[u8]) -> Result<Finding, AllocError>
    ensures { IfOk result (IsFinding FileKind.Log bytes.now) }
{
    match read_log(alloc, bytes) {
        Ok(text) => Ok(text_finding(bytes, &text)),
        Err(Refusal::OutOfMemory) => Err(AllocError),
        Err(why) => Ok(log_fault(why, bytes.len(), bytes.len())),
    }
}

fn text_finding(bytes: &[u8], text: &LogText) -> Finding
    requires { log_at bytes.now ≡ Ok (log_read text.now) }
    ensures { IsFinding FileKind.Log bytes.now result }
{
    match text.fault {
        None => Finding::Log(head_of(bytes, text.run), text.entries.len() as u64),
        Some(why) => log_fault(why, bytes.len(), text.rest),
    }
}

// A fault of the last bytes of a log, as many as are left of this many.
fn log_fault(why: Refusal, size: usize, left: usize) -> Finding
    ensures { result ≡ found.Fault why (size - (left - 1)) }
{
    Finding::Fault(why, size.saturating_sub(left.saturating_sub(1)) as u64)
}

fn head_of(bytes: &[u8], run: u64) -> Head
    ensures { result ≡ head_of bytes.now run }
{
    Head {
        format: format_of(bytes),
        run,
    }
}

// The format of the last byte of a magic.
fn format_of(bytes: &[u8]) -> Format
    ensures { result ≡ format_of bytes.now }
{
    match bytes.get(7) {
        Some(byte) if *byte == b'1' => Format::First,
        _ => Format::Second,
    }
}
