//! The lines of a text, and the words of one.
ghost use Rattle.std.specs.Prelude.{◌≡◌, IfOk, map};
ghost use Rattle.pc_lines.specs.Lines.{lines_in};
ghost use Rattle.pc_reasons.specs.LineFaults.{ends_with_cr, reported_fault};

use crate::faults::LineFault;
use bstr::ByteSlice;
use std::alloc::{AllocError, Global};

/// The lines of a text, without their ends.
pub(crate) fn lines_in<'a>(alloc: Global, text: &'a [u8]) -> Result<Vec<&'a [u8]>, AllocError>
    ensures { IfOk result (λ v. map (λ w. w.now) v.items ≡ lines_in text.now) }
{
    let mut lines = Vec::new(alloc);
    for line in text.lines() {
        lines.push(line)?;
    }
    Ok(lines)
}

/// Whether the last byte of a line is a CR.
pub(crate) fn ends_with_cr(line: &[u8]) -> bool
    ensures { result ≡ ends_with_cr line.now }
{
    !line.is_empty() && line[line.len() - 1] == b'\r'
}

/// The reason for a line with this fault of its words: for one that ends with a CR, that.
pub(crate) fn told_of(line: &[u8], fault: Option<LineFault>) -> Option<LineFault>
    ensures { result ≡ reported_fault line.now fault }
{
    match fault {
        None => None,
        Some(fault) => {
            if ends_with_cr(line) {
                Some(LineFault::CarriageReturn)
            } else {
                Some(fault)
            }
        }
    }
}
