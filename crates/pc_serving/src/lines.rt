//! The lines of an input, in order.
ghost use Rattle.std.specs.Prelude.{◌≡◌, ◌==◌, ◌≤◌, ◌+◌, ◌++◌, List, ℕ, Option, length, take, IfOk, OnOk, IfSome};
ghost use Rattle.std.specs.Io.KnownBytes.{Consumes, IsAtEnd};
ghost use Rattle.std.specs.List.{position};
ghost use Rattle.bstr.specs.Text.{without_terminator, no_cr};
ghost use Rattle.pc_lines.specs.declared.lines.Line.TheVariants.{Malformed};
ghost use Rattle.pc_serving.specs.Inputs.{IsNextLine, IsLinePiece, line_of, long_line};
ghost use Rattle.pc_serving.specs.Requests.{request_of};
ghost use Rattle.pc_serving.specs.declared.request.Request.TheVariants as request;

use std::alloc::AllocError;
use std::io;
use std::io::{BufRead, Error, ErrorKind};

/// The most bytes of a line, with its end.
pub const MOST_LINE_BYTES: usize = 4_194_304;

/// Reads the next line of the input into the vector, without its end: a line feed, before which one carriage return is dropped. False
/// if the input has no line feed any more: the bytes after its last one are a truncated line, and are ignored. A line of more than
/// `MOST_LINE_BYTES` with its end is read as a question mark, which is a bad line. What the vector had is dropped.
pub fn next_line<R: BufRead>(input: &mut R, line: &mut Vec<u8>) -> io::Result<bool>
    ensures next { IfOk result (λ some. IfSome (R.remaining input.old) (λ text. IsNextLine text some line.new.items (R.remaining input.new))) }
    ensures bound { length line.new.items ≤ MOST_LINE_BYTES + 1 }
    ensures long_is_bad { request_of long_line ≡ request.Line Malformed }
{
    line.clear();
    for _ in 0..u64::MAX {
        let end = read_piece(input, line)?;
        match end {
            Some(is_whole) => {
                end_line(line);
                return Ok(is_whole);
            }
            None => {}
        }
    }
    Err(Error::from(ErrorKind::Other))
}

// Reads what the input has at once, up to a line feed, and keeps of it as many bytes as tell whether the line is too long. True once
// the line feed was read, false at the end of the input.
fn read_piece<R: BufRead>(input: &mut R, line: &mut Vec<u8>) -> io::Result<Option<bool>>
    requires { length line.old.items ≤ MOST_LINE_BYTES + 1 }
    ensures piece { IfOk result (λ end. (bytes : List ℕ) × Consumes (R.remaining input.old) (R.remaining input.new) bytes × IsLinePiece end bytes (R.remaining input.old)
        × (line.new.items ≡ take (MOST_LINE_BYTES + 1) (line.old.items ++ bytes))) }
    ensures bound { length line.new.items ≤ MOST_LINE_BYTES + 1 }
{
    let available = input.fill_buf()?;
    let (count, end) = piece_of(available);
    keep(line, &available[..count])?;
    input.consume(count);
    Ok(end)
}

// How many of the bytes are of a line, with its line feed, and whether they end it: true if it has its line feed among them, false if
// there are none.
fn piece_of(bytes: &[u8]) -> (usize, Option<bool>)
    ensures within { result.0 ≤ length bytes.now }
    ensures piece { (input : Option (List ℕ)) → (length bytes.now ≡ 0 → IsAtEnd input) → IsLinePiece result.1 (take result.0 bytes.now) input }
{
    match feed_in(bytes) {
        Some(at) => (at + 1, Some(true)),
        None if bytes.is_empty() => (0, Some(false)),
        None => (bytes.len(), None),
    }
}

// The place of the first line feed.
fn feed_in(bytes: &[u8]) -> Option<usize>
    ensures { result ≡ position (λ b. b == 10) bytes.now }
{
    bytes.iter().position(|byte| *byte == b'\n')
}

// Keeps the bytes behind those of the line, as far as there is room for them.
fn keep(line: &mut Vec<u8>, bytes: &[u8]) -> Result<(), AllocError>
    requires { length line.old.items ≤ MOST_LINE_BYTES + 1 }
    ensures kept { OnOk result (line.new.items ≡ take (MOST_LINE_BYTES + 1) (line.old.items ++ bytes.now)) }
    ensures bound { length line.new.items ≤ MOST_LINE_BYTES + 1 }
{
    let room = MOST_LINE_BYTES + 1 - line.len();
    let count = bytes.len().min(room);
    line.extend_from_slice(&bytes[..count])?;
    Ok(())
}

// Drops the end of the line, or all of it if it is too long.
fn end_line(line: &mut Vec<u8>)
    ensures line { line.new.items ≡ line_of line.old.items }
    ensures bound { length line.new.items ≤ length line.old.items }
{
    if line.len() > MOST_LINE_BYTES {
        line.truncate(1);
        line[0] = b'?';
    } else {
        drop_end(line);
    }
}

// Drops the end of the line, if it is there.
fn drop_end(line: &mut Vec<u8>)
    ensures ended { line.new.items ≡ without_terminator line.old.items }
    ensures bound { length line.new.items ≤ length line.old.items }
{
    if line.last() == Some(&b'\n') {
        line.truncate(line.len() - 1);
        drop_return(line);
    }
}

// Drops a carriage return at the end.
fn drop_return(line: &mut Vec<u8>)
    ensures ended { line.new.items ≡ no_cr line.old.items }
    ensures bound { length line.new.items ≤ length line.old.items }
{
    if line.last() == Some(&b'\r') {
        line.truncate(line.len() - 1);
    }
}
