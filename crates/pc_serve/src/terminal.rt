//! Lines that a user types at a terminal.
ghost use Rattle.std.specs.Prelude.{◌≡◌, ◌↔◌, Some, IfOk, IfSome, IsSome, IsTrue};
ghost use Rattle.pc_lines.specs.declared.lines.Line.TheVariants.{Malformed};
ghost use Rattle.pc_reasons.specs.Scripts.{script_fault};
ghost use Rattle.pc_serving.specs.Requests.{request_of};
ghost use Rattle.pc_serving.specs.declared.request.Request.TheVariants as request;

use pc_io::Tally;
use pc_lines::Line;
use pc_reasons::{LineFault, script_fault};
use pc_serving::{Request, read_request};
use pc_types::Refusal;
use std::alloc::Global;
use std::io;
use std::io::{IsTerminal, Read, Write};

/// The prompt on standard error before each line that is typed.
const PROMPT: &[u8] = b"> ";

/// Standard input. Only if it is a terminal, a prompt is printed before each line, and the reason after a bad line, on standard error.
#[derive(Drop)]
pub struct Typed<'a, R> {
    inner: R,
    rt: &'a HostRuntime,
    is_terminal: bool,
    // The bytes read since the last prompt.
    line: Vec<u8>,
}

impl<'a, R> Typed<'a, R> {
    /// The reader is that of standard input.
    pub fn new(inner: R, rt: &'a HostRuntime) -> Typed<'a, R> {
        Typed {
            inner,
            rt,
            is_terminal: rt.stdin().is_terminal(),
            line: Vec::new(rt.alloc()),
        }
    }

    // Shows the prompt, when a line begins, and before it why the last one is bad, if it is. All of its answers were sent before.
    fn prompt(&mut self) {
        if !self.line.is_empty() && self.line.last() != Some(&b'\n') {
            return;
        }
        let stderr = self.rt.stderr();
        let mut out = Tally::new(io::writer(&stderr));
        let _ = explain_lines(self.rt.alloc(), &self.line, &mut out);
        let _ = out.put(PROMPT);
        let _ = out.flush();
        self.line.clear();
    }

    // Keeps what was read until the next prompt. At the end of the input a line that was begun ends on the terminal.
    fn note(&mut self, read: &[u8]) {
        if read.is_empty() {
            let stderr = self.rt.stderr();
            let _ = io::writer(&stderr).write_all(b"\n");
        }
        let _ = self.line.extend_from_slice(read);
    }
}

impl<'a, R: Read> Read for Typed<'a, R> {
    fn read(&mut self, buf: &mut [u8]) -> io::Result<usize> {
        if !self.is_terminal {
            return self.inner.read(buf);
        }
        self.prompt();
        let count = self.inner.read(buf)?;
        self.note(&buf[..count]);
        Ok(count)
    }
}

// Reports why a line is bad.
fn explain_lines<W: Write>(alloc: Global, lines: &[u8], out: &mut Tally<W>) -> Result<(), Refusal> {
    for line in lines.split(|byte| *byte == b'\n') {
        if let Some(fault) = line_fault(alloc, line)? {
            out.put(b"  ")?;
            fault.put(out)?;
            out.put(b"\n")?;
        }
    }
    Ok(())
}

// Why the line, without its end, is answered as a bad one: there is a fault if and only if it is. Refuses only with `OutOfMemory`.
fn line_fault(alloc: Global, line: &[u8]) -> Result<Option<LineFault>, Refusal>
    ensures bad { IfOk result (λ fault. IsSome fault ↔ (request_of line.now ≡ request.Line Malformed)) }
    ensures fault { IfOk result (λ fault. IfSome fault (λ it. script_fault line.now ≡ Some it)) }
{
    if is_bad(&read_request(alloc, line)?) {
        Ok(script_fault(alloc, line)?)
    } else {
        Ok(None)
    }
}

// Whether the line of this request is a bad one.
fn is_bad(asked: &Request) -> bool
    ensures { IsTrue result ↔ (asked.now ≡ request.Line Malformed) }
{
    matches!(asked, Request::Line(Line::Malformed))
}
