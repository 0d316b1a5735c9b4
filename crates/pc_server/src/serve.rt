//! The lines of an input are answered until it ends.
ghost use Rattle.std.specs.Prelude.{◌≡◌, ◌≤◌, ◌++◌, ◌∷◌, [], not, true, length, ℕ, List, Option, Some, MatchResult, MatchBool, IfOk, OnOk};
ghost use Rattle.std.specs.Io.Buffered.{reader_remaining};
ghost use Rattle.pc_io.specs.Tallies.{inner_of};
ghost use Rattle.pc_model.specs.Files.{File, file_at};
ghost use Rattle.pc_model.specs.Replies.{Setting};
ghost use Rattle.pc_serving.specs.Requests.{request_of};
ghost use Rattle.pc_server.specs.Acts.{is_quit};
ghost use Rattle.pc_server.specs.Files.{AreOfPoints, HasAllFiles, HasFile, HasNoMore, HasOnlyFiles, KeepsOthers, ExtendsShelf, WithFiles, WithSomeFiles};
ghost use Rattle.pc_server.specs.Generations.{is_filled};
ghost use Rattle.pc_server.specs.Inputs.{shelved, IsInputRead, AreAllLines, Serving, HasSent, EndsWithin, EndsServed, ServesOn, ServesLine, StopsAt, HasServed, HasStopped};

use crate::service::{CutOff, Service};
use pc_part::Part;
use pc_serving::{Turned, next_line};
use pc_turn::LogDevice;
use pc_types::{FileNo, Refusal};
use std::alloc::Global;
use std::io::{BufRead, BufReader, Read, Write};

/// Why a process that serves ended before its input did.
#[derive(Clone, Copy, Debug, PartialEq, Eq)]
pub enum ServeFault {
    /// A read of the input failed.
    Input,
    /// An allocation failed, the checkpointer was refused an event, or the file of a point can't be kept; `Full` if 2^64 - 1 lines were
    /// answered.
    Refused(Refusal),
    /// A device failed at the end of a turn.
    CutOff(CutOff),
}

/// Why no more lines are answered.
#[derive(Clone, Copy, Debug, PartialEq, Eq)]
pub enum Stopped {
    /// The input has ended, or a line has asked for the end.
    Ended,
    /// The generation is full: the next one can begin, and answer the rest of the input.
    Filled,
}

/// The destination of the files of points. Contracts see the texts that it has under the points' numbers; for a number of which that isn't
/// known each text counts as there.
pub trait PointFiles {
    ghost use Rattle.std.specs.Prelude.{ℕ, List, OnOk};
    ghost use Rattle.pc_server.specs.Files.{HasFile, HasNoMore, KeepsOthers};

    // It has this text under this point.
    ghost holds: { Self → ℕ → List ℕ → Type 0 };

    /// Keeps the file of a point that was taken, or returns the reason why it can't be. The files of other points stay. If it can't be
    /// kept, it may have the file all the same, whole or not at all.
    fn keep(&mut self, file: &Part) -> Result<(), Refusal>
        ensures kept { OnOk result (HasFile (holds self.new) file.now) }
        ensures others { KeepsOthers (holds self.old) (holds self.new) file.now }
        ensures no_more { HasNoMore (holds self.old) (holds self.new) file.now };
}

// The next line is read into the vector; false at the end of the input.
fn read_next<R: BufRead>(input: &mut R, line: &mut Vec<u8>) -> Result<bool, ServeFault>
    ensures read { (text : Option (List ℕ)) (lines : List (List ℕ)) → IsInputRead text (R.remaining input.old) lines
        → IfOk result (λ some. MatchBool some (IsInputRead text (R.remaining input.new) (lines ++ line.new.items ∷ [])) (AreAllLines text lines)) }
{
    match next_line(input, line) {
        Ok(some) => Ok(some),
        Err(_) => Err(ServeFault::Input),
    }
}

// The turn ends.
fn send<L: LogDevice + Drop, W: Write + Drop>(
    alloc: Global,
    service: &mut Service<L, W>,
) -> Result<(), ServeFault>
    requires { (log out : Option (List ℕ)) × (st : Setting) × (lag : ℕ) × (lines : List (List ℕ)) × (files : List File) × Serving L.written L.kept W.contents log out st lag lines files service.old }
    ensures { (log out : Option (List ℕ)) (st : Setting) (lag : ℕ) (lines : List (List ℕ)) (files : List File) → Serving L.written L.kept W.contents log out st lag lines files service.old
        → MatchResult result (λ _. HasSent L.written L.kept W.contents log out st lag lines files service.new) (λ _. EndsWithin L.written L.kept W.contents log out st lag lines files service.new.log (inner_of service.new.out)) }
{
    match service.end_turn(alloc) {
        Ok(()) => Ok(()),
        Err(why) => Err(ServeFault::CutOff(why)),
    }
}

// The last turn ends, and all of the log is kept.
fn send_all<L: LogDevice + Drop, W: Write + Drop>(
    alloc: Global,
    service: &mut Service<L, W>,
) -> Result<(), ServeFault>
    requires { (log out : Option (List ℕ)) × (st : Setting) × (lag : ℕ) × (lines : List (List ℕ)) × (files : List File) × Serving L.written L.kept W.contents log out st lag lines files service.old }
    ensures sent { (log out : Option (List ℕ)) (st : Setting) (lag : ℕ) (lines : List (List ℕ)) (files : List File) → Serving L.written L.kept W.contents log out st lag lines files service.old
        → MatchResult result (λ _. HasSent L.written L.kept W.contents log out st lag lines files service.new) (λ _. EndsWithin L.written L.kept W.contents log out st lag lines files service.new.log (inner_of service.new.out)) }
    ensures all { OnOk result (length service.new.server.served.world.log ≤ service.new.server.marks.kept) }
    ensures same { service.new.server.served ≡ service.old.server.served }
{
    match service.close(alloc) {
        Ok(()) => Ok(()),
        Err(why) => Err(ServeFault::CutOff(why)),
    }
}

// The turn ends when no whole line is left of what was read.
fn send_if_idle<R: Read + Drop, L: LogDevice + Drop, W: Write + Drop>(
    alloc: Global,
    service: &mut Service<L, W>,
    input: &BufReader<R>,
) -> Result<(), ServeFault>
    requires { (log out : Option (List ℕ)) × (st : Setting) × (lag : ℕ) × (lines : List (List ℕ)) × (files : List File) × Serving L.written L.kept W.contents log out st lag lines files service.old }
    ensures { (log out : Option (List ℕ)) (st : Setting) (lag : ℕ) (lines : List (List ℕ)) (files : List File) → Serving L.written L.kept W.contents log out st lag lines files service.old
        → MatchResult result (λ _. Serving L.written L.kept W.contents log out st lag lines files service.new) (λ _. EndsWithin L.written L.kept W.contents log out st lag lines files service.new.log (inner_of service.new.out)) }
{
    if input.buffer().contains(&b'\n') {
        return Ok(());
    }
    send(alloc, service)
}

// Answers the line; false if it asks for the end.
fn answer_line<L: LogDevice + Drop, W: Write + Drop>(
    alloc: Global,
    service: &mut Service<L, W>,
    line: &[u8],
) -> Result<bool, ServeFault>
    ensures asks { IfOk result (λ goes_on. goes_on ≡ not (is_quit (request_of line.now))) }
    ensures served { (log out : Option (List ℕ)) (st : Setting) (lag : ℕ) (lines : List (List ℕ)) (files : List File) → Serving L.written L.kept W.contents log out st lag lines files service.old
        → MatchResult result (λ _. Serving L.written L.kept W.contents log out st lag (lines ++ line.now ∷ []) files service.new) (λ _. EndsWithin L.written L.kept W.contents log out st lag lines files service.new.log (inner_of service.new.out)) }
{
    match service.answer(alloc, line) {
        Ok(goes_on) => Ok(goes_on),
        Err(why) => Err(ServeFault::Refused(why)),
    }
}

// Asks the next event of the point's cycle, if one is due, and keeps the file that it has put on the shelf.
fn go_on<L: LogDevice + Drop, W: Write + Drop, P: PointFiles>(
    service: &mut Service<L, W>,
    points: &mut P,
) -> Result<(), ServeFault>
    ensures { (log out : Option (List ℕ)) (st : Setting) (lag : ℕ) (lines : List (List ℕ)) (first : P) → WithFiles (P.holds first) (P.holds points.old) (λ files. Serving L.written L.kept W.contents log out st lag lines files service.old)
        → MatchResult result
        (λ _. WithFiles (P.holds first) (P.holds points.new) (λ files. Serving L.written L.kept W.contents log out st lag lines files service.new))
        (λ _. WithSomeFiles (P.holds first) (P.holds points.new) (λ files. EndsWithin L.written L.kept W.contents log out st lag lines files service.new.log (inner_of service.new.out))) }
{
    match service.go_on() {
        Ok(turned) => keep_shelved(&*service, points, turned),
        Err(why) => Err(ServeFault::Refused(why)),
    }
}

// Keeps the file that was put on the shelf, if one was.
fn keep_shelved<L: LogDevice + Drop, W: Write + Drop, P: PointFiles>(
    service: &Service<L, W>,
    points: &mut P,
    turned: Turned,
) -> Result<(), ServeFault>
    ensures { (first : P) (files : List File) → ExtendsShelf turned files service.now.server.served.world.shelf → AreOfPoints service.now.server.served.world.shelf → HasAllFiles (P.holds points.old) files → HasOnlyFiles (P.holds first) (P.holds points.old) files
        → MatchResult result
        (λ _. HasAllFiles (P.holds points.new) service.now.server.served.world.shelf × HasOnlyFiles (P.holds first) (P.holds points.new) service.now.server.served.world.shelf)
        (λ _. HasOnlyFiles (P.holds first) (P.holds points.new) service.now.server.served.world.shelf) }
{
    match shelved(turned) {
        Some(number) => keep_file(service, number, points),
        None => Ok(()),
    }
}

// The number of the file that was put on the shelf.
fn shelved(turned: Turned) -> Option<FileNo>
    ensures { result ≡ shelved turned }
{
    match turned {
        Turned::Shelved(number) => Some(number),
        _ => None,
    }
}

// Keeps the shelf's file of this number.
fn keep_file<L: LogDevice + Drop, W: Write + Drop, P: PointFiles>(
    service: &Service<L, W>,
    number: FileNo,
    points: &mut P,
) -> Result<(), ServeFault>
    ensures { (file : File) → file_at service.now.server.served.world.shelf number ≡ Some file → OnOk result (HasFile (P.holds points.new) file) × KeepsOthers (P.holds points.old) (P.holds points.new) file × HasNoMore (P.holds points.old) (P.holds points.new) file }
{
    let Some(file) = service.file(number) else {
        return Err(ServeFault::Refused(Refusal::NoFile));
    };
    match points.keep(file) {
        Ok(()) => Ok(()),
        Err(why) => Err(ServeFault::Refused(why)),
    }
}

// Answers the line that was read, and takes the checkpointer's turn; false if the line asks for the end.
fn take_turns<L: LogDevice + Drop, W: Write + Drop, P: PointFiles>(
    alloc: Global,
    service: &mut Service<L, W>,
    line: &[u8],
    points: &mut P,
) -> Result<bool, ServeFault>
    ensures asks { IfOk result (λ goes_on. goes_on ≡ not (is_quit (request_of line.now))) }
    ensures served { (log out : Option (List ℕ)) (st : Setting) (lag : ℕ) (lines : List (List ℕ)) (first : P) → WithFiles (P.holds first) (P.holds points.old) (λ files. Serving L.written L.kept W.contents log out st lag lines files service.old)
        → MatchResult result
        (λ _. WithFiles (P.holds first) (P.holds points.new) (λ files. Serving L.written L.kept W.contents log out st lag (lines ++ line.now ∷ []) files service.new))
        (λ _. WithSomeFiles (P.holds first) (P.holds points.new) (λ files. EndsWithin L.written L.kept W.contents log out st lag (lines ++ line.now ∷ []) files service.new.log (inner_of service.new.out))) }
{
    match answer_line(alloc, service, line) {
        Ok(goes_on) => match go_on(service, points) {
            Ok(()) => Ok(goes_on),
            Err(why) => Err(why),
        },
        Err(why) => Err(why),
    }
}

// Reads the next line, answers it, and takes the checkpointer's turn; false at the end of the input, or if the line asks for the end.
fn serve_next<R: Read + Drop, L: LogDevice + Drop, W: Write + Drop, P: PointFiles>(
    alloc: Global,
    service: &mut Service<L, W>,
    input: &mut BufReader<R>,
    line: &mut Vec<u8>,
    points: &mut P,
) -> Result<bool, ServeFault>
    ensures { (log out text : Option (List ℕ)) (st : Setting) (lag : ℕ) (first : P) → WithFiles (P.holds first) (P.holds points.old) (λ files. ServesOn L.written L.kept W.contents log out text st lag (reader_remaining R.remaining input.old) files service.old)
        → MatchResult result
        (λ goes_on. WithFiles (P.holds first) (P.holds points.new) (λ files. ServesLine L.written L.kept W.contents log out text st lag (reader_remaining R.remaining input.new) files service.new goes_on))
        (λ _. WithSomeFiles (P.holds first) (P.holds points.new) (λ files. EndsServed L.written L.kept W.contents log out text st lag files service.new.log (inner_of service.new.out))) }
{
    match read_next(input, line) {
        Ok(true) => take_turns(alloc, service, line, points),
        Ok(false) => Ok(false),
        Err(why) => Err(why),
    }
}

// The same, once the turn has ended because no whole line is left of what was read.
fn serve_line<R: Read + Drop, L: LogDevice + Drop, W: Write + Drop, P: PointFiles>(
    alloc: Global,
    service: &mut Service<L, W>,
    input: &mut BufReader<R>,
    line: &mut Vec<u8>,
    points: &mut P,
) -> Result<bool, ServeFault>
    requires { (log out text : Option (List ℕ)) × (st : Setting) × (lag : ℕ) × (first : P) × WithFiles (P.holds first) (P.holds points.old) (λ files. ServesOn L.written L.kept W.contents log out text st lag (reader_remaining R.remaining input.old) files service.old) }
    ensures { (log out text : Option (List ℕ)) (st : Setting) (lag : ℕ) (first : P) → WithFiles (P.holds first) (P.holds points.old) (λ files. ServesOn L.written L.kept W.contents log out text st lag (reader_remaining R.remaining input.old) files service.old)
        → MatchResult result
        (λ goes_on. WithFiles (P.holds first) (P.holds points.new) (λ files. ServesLine L.written L.kept W.contents log out text st lag (reader_remaining R.remaining input.new) files service.new goes_on))
        (λ _. WithSomeFiles (P.holds first) (P.holds points.new) (λ files. EndsServed L.written L.kept W.contents log out text st lag files service.new.log (inner_of service.new.out))) }
{
    match send_if_idle(alloc, service, &*input) {
        Ok(()) => serve_next(alloc, service, input, line, points),
        Err(why) => Err(why),
    }
}

// Answers line after line, until the generation is full, the input ends, or a line asks for the end.
fn serve_lines<R: Read + Drop, L: LogDevice + Drop, W: Write + Drop, P: PointFiles>(
    alloc: Global,
    service: &mut Service<L, W>,
    input: &mut BufReader<R>,
    points: &mut P,
    roll: usize,
) -> Result<Stopped, ServeFault>
    requires { (log out text : Option (List ℕ)) × (st : Setting) × (lag : ℕ) × (first : P) × WithFiles (P.holds first) (P.holds points.old) (λ files. ServesOn L.written L.kept W.contents log out text st lag (reader_remaining R.remaining input.old) files service.old) }
    ensures served { (log out text : Option (List ℕ)) (st : Setting) (lag : ℕ) (first : P) → WithFiles (P.holds first) (P.holds points.old) (λ files. ServesOn L.written L.kept W.contents log out text st lag (reader_remaining R.remaining input.old) files service.old)
        → MatchResult result
        (λ stopped. WithFiles (P.holds first) (P.holds points.new) (λ files. StopsAt L.written L.kept W.contents log out text st lag (reader_remaining R.remaining input.new) files service.new stopped))
        (λ _. WithSomeFiles (P.holds first) (P.holds points.new) (λ files. EndsServed L.written L.kept W.contents log out text st lag files service.new.log (inner_of service.new.out))) }
    ensures filled { IfOk result (λ stopped. stopped ≡ Stopped.Filled → is_filled roll service.new.server.served.world ≡ true) }
{
    let mut line = Vec::new(alloc);
    for _ in 0..u64::MAX {
        if service.is_filled(roll) {
            return Ok(Stopped::Filled);
        }
        match serve_line(alloc, service, input, &mut line, points) {
            Ok(true) => {}
            Ok(false) => return Ok(Stopped::Ended),
            Err(why) => return Err(why),
        }
    }
    Err(ServeFault::Refused(Refusal::Full))
}

/// Answers the lines of the input, in order, until it ends, a line asks for the end (`quit`), or the generation is full: its log has at
/// least `roll` entries, or 60,000 points were taken, and no session has a transaction open. A turn ends when no whole line is left of what
/// was read, so it has at most as many bytes of lines as the reader's buffer; the points that are due are taken between the lines. If
/// nothing fails all lines were answered, or all up to that one, or all that were read before the generation was full, whose rest the input
/// still has; all answers are sent, and all of the log is kept, whatever the lag. At every other end, and so whatever device fails at
/// whatever call: some first lines of the input were answered, of their answers a prefix was sent, and nothing else, and of the log as it
/// was then all is written, and at most as many entries as the lag are not kept. Each file of a point was given to `points`, which has its text, and nothing
/// else of that run; if the service ends because one can't be kept, `points` may lack that one.
pub fn serve_input<R: Read + Drop, L: LogDevice + Drop, W: Write + Drop, P: PointFiles>(
    alloc: Global,
    service: &mut Service<L, W>,
    input: &mut BufReader<R>,
    points: &mut P,
    roll: usize,
) -> Result<Stopped, ServeFault>
    requires { (log out text : Option (List ℕ)) × (st : Setting) × (lag : ℕ) × (first : P) × WithFiles (P.holds first) (P.holds points.old) (λ files. ServesOn L.written L.kept W.contents log out text st lag (reader_remaining R.remaining input.old) files service.old) }
    ensures served { (log out text : Option (List ℕ)) (st : Setting) (lag : ℕ) (first : P) → WithFiles (P.holds first) (P.holds points.old) (λ files. ServesOn L.written L.kept W.contents log out text st lag (reader_remaining R.remaining input.old) files service.old)
        → MatchResult result
        (λ stopped. WithFiles (P.holds first) (P.holds points.new) (λ files. HasStopped L.written L.kept W.contents log out text st lag (reader_remaining R.remaining input.new) files service.new stopped))
        (λ _. WithSomeFiles (P.holds first) (P.holds points.new) (λ files. EndsServed L.written L.kept W.contents log out text st lag files service.new.log (inner_of service.new.out))) }
    ensures filled { IfOk result (λ stopped. stopped ≡ Stopped.Filled → is_filled roll service.new.server.served.world ≡ true) }
    ensures all { OnOk result (length service.new.server.served.world.log ≤ service.new.server.marks.kept) }
{
    match serve_lines(alloc, service, input, points, roll) {
        Ok(stopped) => match send_all(alloc, service) {
            Ok(()) => Ok(stopped),
            Err(why) => Err(why),
        },
        Err(why) => Err(why),
    }
}
