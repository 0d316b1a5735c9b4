//! What is printed of a run: how many replies there were, a line for each kind of reply, and the checks.

use crate::sums::{Kind, SumLine, Sums};
use pc_types::Phase;
use std::io;

/// Prints `== NAME`, `replies N`, for each kind of reply `KIND COUNT SUM` with the sum in 16 hexadecimal digits, and
/// `checks N right M`.
pub fn tell(rt: &impl Print, name: &str, sums: &Sums) -> io::Result<()> {
    println!(rt; "== {name}")?;
    println!(rt; "replies {}", sums.replies())?;
    for line in sums.lines() {
        tell_line(rt, line)?;
    }
    let (checks, right) = sums.checks();
    println!(rt; "checks {checks} right {right}")
}

fn tell_line(rt: &impl Print, line: &SumLine) -> io::Result<()> {
    match line.kind {
        Kind::Phase(phase) => print!(rt; "phase {}", phase_name(phase))?,
        Kind::Refused(refusal) => print!(rt; "refused {}", refusal.name())?,
        kind => print!(rt; "{}", kind_name(kind))?,
    }
    println!(rt; " {} {:016x}", line.count, line.sum)
}

fn phase_name(phase: Phase) -> &'static str {
    match phase {
        Phase::Rest => "rest",
        Phase::Prepare => "prepare",
        Phase::Resolve => "resolve",
        Phase::Capture => "capture",
        Phase::Complete => "complete",
    }
}

// The first words of such a reply, as `pcalc step` prints it.
fn kind_name(kind: Kind) -> &'static str {
    match kind {
        Kind::Begun => "begun",
        Kind::Found => "found",
        Kind::Absent => "absent",
        Kind::Ok => "ok",
        Kind::Sum => "sum",
        Kind::Wait => "wait",
        Kind::Died => "died",
        Kind::Committed => "committed",
        Kind::Aborted => "aborted",
        Kind::Phase(_) => "phase",
        Kind::NotYet => "not yet",
        Kind::Took => "took",
        Kind::NoneLeft => "none left",
        Kind::PartDone => "part",
        Kind::File => "file",
        Kind::Refused(_) => "refused",
    }
}
