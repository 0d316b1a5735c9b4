//! The output at the end of a turn, its order, and the state if a device fails.
ghost use Rattle.std.specs.Prelude.{◌≡◌, ◌≤◌, length, is_ok, true};
ghost use Rattle.pc_kept_log.specs.Logs.{entries_of};
ghost use Rattle.pc_turn.specs.Turns.{AreMarks, IsAppended, IsKept, IsLogOut, IsSent, TurnEnds, rest_text};

use crate::device::LogDevice;
use pc_io::Tally;
use pc_kept_log::Log;
use pc_types::Refusal;
use std::io;
use std::io::Write;

/// The outcome of a turn.
#[derive(Clone, Copy, Debug, PartialEq, Eq)]
pub enum TurnEnd {
    /// All of it went out.
    Whole,
    /// The log's device failed, and no answer went out.
    LogCut,
    /// The answers' device failed, once the log was written, and kept as far as it must be.
    AnswersCut,
}

/// How many first entries of a log its device has, and how many of these are kept.
#[derive(Clone, Copy, Debug, PartialEq, Eq)]
pub struct Marks {
    /// The entries that were written.
    pub written: usize,
    /// Those that are kept.
    pub kept: usize,
}

/// Ends the turn in which the log has become what it is: first the texts of all entries that aren't written yet are appended to the
/// device; then, if more entries than the lag aren't kept, all that was written is kept; and then the answers go out, which were made
/// in the turn. So no answer goes out as long as an entry isn't written, or more entries than the lag aren't kept, wherever a device
/// fails. `marks` then says how many are written and kept; if the log's device fails it is as it was. A device that has nothing to
/// write or to keep isn't called.
pub fn end_turn<L: LogDevice, W: Write>(
    kept: &Log,
    marks: &mut Marks,
    lag: usize,
    log: &mut L,
    answers: &[u8],
    out: &mut Tally<W>,
) -> TurnEnd
    requires { AreMarks (entries_of kept.now) marks.old }
    ensures ends { TurnEnds L.written L.kept W.contents (entries_of kept.now) lag answers.now marks.old marks.new log.old log.new out.old out.new result }
    ensures within { AreMarks (entries_of kept.now) marks.new }
{
    if put_log(kept, marks, lag, log).is_err() {
        return TurnEnd::LogCut;
    }
    match put_answers(answers, out) {
        Ok(()) => TurnEnd::Whole,
        Err(_) => TurnEnd::AnswersCut,
    }
}

// The entries that aren't written are; and if more than the lag aren't kept, all are.
fn put_log<L: LogDevice>(kept: &Log, marks: &mut Marks, lag: usize, log: &mut L) -> io::Result<()>
    requires { AreMarks (entries_of kept.now) marks.old }
    ensures out { IsLogOut L.written L.kept (entries_of kept.now) lag marks.old marks.new log.old log.new (is_ok result) }
    ensures within { AreMarks (entries_of kept.now) marks.new }
{
    let all = kept.len();
    put_behind(kept, marks.written, log)?;
    let safe = keep_due(all, marks.kept, lag, log)?;
    *marks = Marks {
        written: all,
        kept: safe,
    };
    Ok(())
}

// Of that many entries, all of which are written, all are kept, if more than the lag are not; how many are.
fn keep_due<L: LogDevice>(all: usize, kept: usize, lag: usize, log: &mut L) -> io::Result<usize>
    requires { kept ≤ all }
    ensures { IsKept L.written L.kept all lag kept log.old log.new result }
{
    if all - kept <= lag {
        return Ok(kept);
    }
    log.sync()?;
    Ok(all)
}

/// Appends the texts of the log's entries after the first `written`, if there are any. It allocates no memory. On an error a prefix
/// of them was appended.
pub fn put_behind<L: LogDevice>(kept: &Log, written: usize, log: &mut L) -> io::Result<()>
    requires { written ≤ length (entries_of kept.now) }
    ensures appended { IsAppended L.written L.kept (rest_text written (entries_of kept.now)) log.old log.new (is_ok result) }
    ensures none { length (entries_of kept.now) ≤ written → (is_ok result ≡ true) × (log.new ≡ log.old) }
{
    let mut done = written;
    while done < kept.len() {
        let next = kept.texts(done, kept.len() - done);
        log.append(next.bytes)?;
        done += next.count;
    }
    Ok(())
}

// The answers go out, and out of whatever keeps them.
fn put_answers<W: Write>(answers: &[u8], out: &mut Tally<W>) -> Result<(), Refusal>
    ensures { IsSent W.contents answers.now out.old out.new result }
{
    out.put(answers)?;
    match out.flush() {
        Ok(()) => Ok(()),
        Err(_) => Err(Refusal::Device),
    }
}
