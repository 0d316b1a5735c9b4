//! The progress of a run, shown on a terminal, and its final report.
use crate::counts::Counts;
use crate::times::Times;
use pc_types::{Gate, GatePlace, Refusal, SessionNo};
use std::io::{IsTerminal, Write};
use std::sync::{Mutex, Wait};
use std::time::{Duration, Instant};
use std::{io, thread};

/// The milliseconds before the line is shown first, and between two updates.
const PAUSE: u64 = 10;

/// The counts that are asked for.
#[derive(Clone, Copy)]
pub struct Asked {
    /// Whether to show nothing on a terminal while it runs.
    pub is_quiet: bool,
    /// Whether it writes a log.
    pub has_log: bool,
    /// Whether to print a report in the end.
    pub is_reported: bool,
    /// Whether the commits are counted by hundredths of a second.
    pub is_timed: bool,
}

/// Counts what the loops of a run pass, if that is asked for or is shown on a terminal; otherwise nothing is counted, so that the threads
/// have no count in common. A loop that passes counts, and never waits for the terminal: a thread of its own shows the line.
#[derive(Drop)]
pub struct Progress<'a> {
    rt: &'a HostRuntime,
    counting: Option<Counting>,
}

#[derive(Drop)]
struct Counting {
    // A moment before the run.
    clock: Instant,
    counts: Counts,
    times: Option<Times>,
    line: Option<TerminalLine>,
}

// The line on a terminal.
#[derive(Drop)]
struct TerminalLine {
    has_log: bool,
    // Whoever prints the line has the lock meanwhile, and it is printed only if it hasn't ended. So nothing of it comes after its end, and
    // who ends it waits at most until the thread that shows it has printed it once.
    state: Mutex<LineState>,
}

#[derive(Clone, Copy)]
enum LineState {
    Unshown,
    Shown,
    Ended,
}

impl<'a> Progress<'a> {
    /// Nothing has been done. It is an error if an allocation fails, or the system has no clock.
    pub fn new(rt: &'a HostRuntime, asked: Asked) -> io::Result<Progress<'a>> {
        let is_shown = !asked.is_quiet && rt.stderr().is_terminal();
        if !is_shown && !asked.is_reported && !asked.is_timed {
            let counting = None;
            return Ok(Progress { rt, counting });
        }
        let alloc = rt.alloc();
        let times = if asked.is_timed {
            Some(Times::new(alloc)?)
        } else {
            None
        };
        let line = if is_shown {
            Some(TerminalLine {
                has_log: asked.has_log,
                state: Mutex::new(LineState::Unshown),
            })
        } else {
            None
        };
        let counting = Some(Counting {
            clock: Instant::now(rt)?,
            counts: Counts::new(alloc)?,
            times,
            line,
        });
        Ok(Progress { rt, counting })
    }

    /// Whether to show a line on a terminal.
    pub fn is_shown(&self) -> bool {
        self.line().is_some()
    }

    fn line(&self) -> Option<(&Counting, &TerminalLine)> {
        let counting = self.counting.as_ref()?;
        let line = counting.line.as_ref()?;
        Some((counting, line))
    }

    /// Shows the line on the terminal every 10 milliseconds, once the run has begun as long ago, and returns once it was ended.
    pub fn show_until_ended<R: Wait>(&self, rt: &R) {
        let Some((counting, line)) = self.line() else {
            return;
        };
        for _ in rt.forever() {
            thread::sleep(self.rt, Duration::from_millis(PAUSE));
            if !line.show(self.rt, rt, counting) {
                return;
            }
        }
    }

    /// Ends the line on the terminal, if one is shown, for good.
    pub fn end<R: Wait>(&self, rt: &R) {
        if let Some((counting, line)) = self.line() {
            line.end(self.rt, rt, &counting.counts);
        }
    }

    // Ends it, unless the run has not begun: then nothing of it was shown.
    fn give_way<R: Wait>(&self, rt: &R) {
        if let Some((counting, line)) = self.line() {
            if counting.age(self.rt).is_some() {
                line.end(self.rt, rt, &counting.counts);
            }
        }
    }

    /// The session's transaction was refused for this; if it is given up, `put_report` reports it.
    pub fn note_refusal(&self, session: SessionNo, why: Refusal) {
        if let Some(counting) = &self.counting {
            counting.counts.note_refusal(session, why);
        }
    }

    /// Writes the lines of the report, and after them, for each cause for which transactions were given up, how many.
    pub fn put_report<W: Write>(&self, out: &mut W) -> io::Result<()> {
        let Some(counting) = &self.counting else {
            return Ok(());
        };
        let counts = &counting.counts;
        let length = counts.length().unwrap_or(0);
        let rate = counts
            .commits()
            .saturating_mul(1_000_000)
            .checked_div(length)
            .unwrap_or(0);
        writeln!(out, "commits a second {rate}")?;
        writeln!(out, "deaths {}", counts.deaths())?;
        writeln!(
            out,
            "longest wait {} ms",
            milliseconds(counts.longest_wait())
        )?;
        writeln!(
            out,
            "longest pause {} ms",
            milliseconds(counts.longest_pause())
        )?;
        counts.put_causes(out)
    }

    /// Writes a line for each cause for which transactions were given up, with how many of them.
    pub fn put_causes<W: Write>(&self, out: &mut W) -> io::Result<()> {
        match &self.counting {
            Some(counting) => counting.counts.put_causes(out),
            None => Ok(()),
        }
    }

    /// Writes the lines of the hundredths of a second.
    pub fn put_times<W: Write>(&self, out: &mut W) -> io::Result<()> {
        if let Some(counting) = &self.counting {
            if let Some(times) = &counting.times {
                return times.put(counting.counts.length(), out);
            }
        }
        Ok(())
    }
}

impl<'a> Gate for Progress<'a> {
    fn pass(&self, place: GatePlace) {
        let Some(counting) = &self.counting else {
            return;
        };
        if let GatePlace::Took | GatePlace::Due(_) | GatePlace::Writing(_) = place {
            return;
        }
        let Some(now) = counting.now(self.rt) else {
            return;
        };
        let since = counting.counts.since_begin(now);
        counting.counts.note(&place, now);
        if let Some(times) = &counting.times {
            times.note(&place, since);
        }
    }
}

impl Counting {
    // The time in microseconds, from a moment before the run.
    fn now(&self, rt: &HostRuntime) -> Option<u64> {
        let elapsed = self.clock.elapsed(rt).ok()?;
        Some(u64::try_from(elapsed.as_micros()).ok()?.saturating_add(1))
    }

    // The microseconds since the begin of the run; `None` if it has not begun.
    fn age(&self, rt: &HostRuntime) -> Option<u64> {
        self.counts.age(self.now(rt)?)
    }
}

impl TerminalLine {
    // Shows how far the run is, if it has begun long enough ago; whether the line hasn't ended.
    fn show<R: Wait>(&self, host: &HostRuntime, rt: &R, counting: &Counting) -> bool {
        let mut state = self.state.lock(rt);
        if let LineState::Ended = *state {
            return false;
        }
        if counting.age(host).unwrap_or(0) >= PAUSE * 1_000 {
            self.print(host, &counting.counts);
            *state = LineState::Shown;
        }
        true
    }

    // Prints the last counts if the line was shown, and ends it.
    fn end<R: Wait>(&self, host: &HostRuntime, rt: &R, counts: &Counts) {
        let mut state = self.state.lock(rt);
        if let LineState::Shown = *state {
            self.print(host, counts);
            let _ = eprintln!(host; "");
        }
        *state = LineState::Ended;
    }

    // The counts, in the place of what the line had. The terminal doesn't wrap it meanwhile, so that it takes one row of any width.
    fn print(&self, host: &HostRuntime, counts: &Counts) {
        let (commits, points, joins) = (counts.commits(), counts.points(), counts.joins());
        let given_up = counts.given_up();
        let _ = if self.has_log {
            let lag = counts.lag();
            eprint!(host;
                "\r\x1b[?7l{commits} commits, point {points}, {joins} joins, lag {lag}, given up {given_up}\x1b[K\x1b[?7h"
            )
        } else {
            eprint!(host;
                "\r\x1b[?7l{commits} commits, point {points}, {joins} joins, given up {given_up}\x1b[K\x1b[?7h"
            )
        };
    }
}

// Microseconds in milliseconds, rounded up.
fn milliseconds(micros: u64) -> u64 {
    micros.saturating_add(999) / 1_000
}

/// A writer before whose first bytes the line on the terminal is ended, if the run has begun: nothing of it comes after them.
#[derive(Drop)]
pub struct Behind<'a, W, R: Wait> {
    progress: &'a Progress<'a>,
    waits: &'a R,
    inner: W,
}

impl<'a, W, R: Wait> Behind<'a, W, R> {
    /// All writes go on to the writer.
    pub fn new(progress: &'a Progress<'a>, waits: &'a R, inner: W) -> Behind<'a, W, R> {
        Behind {
            progress,
            waits,
            inner,
        }
    }
}

impl<'a, W: Write, R: Wait> Write for Behind<'a, W, R> {
    fn write(&mut self, buf: &[u8]) -> io::Result<usize> {
        self.progress.give_way(self.waits);
        self.inner.write(buf)
    }

    fn flush(&mut self) -> io::Result<()> {
        self.inner.flush()
    }
}
