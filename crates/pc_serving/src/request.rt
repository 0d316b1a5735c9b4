//! The requests of the lines of a served store.
ghost use Rattle.std.specs.Prelude.{◌≡◌, IfOk, IfErr};
ghost use Rattle.pc_serving.specs.Requests.{request_of};

use pc_lines::{Line, read_line};
use pc_types::Refusal;
use std::alloc::Global;

/// The request of a line to a served store.
#[derive(Drop)]
pub enum Request {
    /// The end: `quit`.
    Quit,
    /// The number of the run: `run`.
    Run,
    /// The counts so far: `stats`.
    Stats,
    /// The meaning of the same line in a script.
    Line(Line),
}

/// The request of the line, without its end; the words of serving are alone in theirs. Refuses only with `OutOfMemory`.
pub fn read_request(alloc: Global, text: &[u8]) -> Result<Request, Refusal>
    ensures request { IfOk result (λ request. request ≡ request_of text.now) }
    ensures refusals { IfErr result (λ e. e ≡ Refusal.OutOfMemory) }
{
    if text == b"quit".as_slice() {
        return Ok(Request::Quit);
    }
    if text == b"run".as_slice() {
        return Ok(Request::Run);
    }
    if text == b"stats".as_slice() {
        return Ok(Request::Stats);
    }
    Ok(Request::Line(read_line(alloc, text)?))
}
