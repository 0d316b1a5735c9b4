//! The logger's loop: the text of the log goes out while the store is in use.
ghost use Rattle.std.specs.Prelude.{◌≡◌, ◌≤◌, ◌++◌, ℕ, [], List, length, take, All, IfOk, IfSome};
ghost use Rattle.std.specs.List.{flat_map};
ghost use mathlib.Core.List.{IsPrefix};
ghost use Rattle.pc_io.specs.Tallies.{Puts};
ghost use Rattle.pc_model.specs.History.{log_of};
ghost use Rattle.pc_types.specs.declared.Entry.{Entry};
ghost use Rattle.pc_log.specs.Texts.{entry_text, log_text};
ghost use Rattle.pc_latch.specs.Batches.{IsNext};
ghost use Rattle.pc_shared.specs.Written.{HasGoneOut, CountsAsOut};
ghost use Rattle.pc_workers.specs.Logging.{Flushes, LogGoesOut, LogsMore, rest_text};

use pc_io::Tally;
use pc_log::encode_header;
use pc_shared::{Closed, EndMark, LogBatch, LogPass, Shared, pause};
use pc_tie::StoreName;
use pc_types::{Gate, GatePlace, Lsn, Refusal};
use std::io;
use std::io::Write;
use std::sync::Wait;

/// The number of bytes that the texts of the entries in one batch of the logger have, about.
pub const MOST_BATCH: u32 = 262_144;

// How often the logger lets others run at most after a batch, as long as no call waits for an entry: meanwhile more of them come,
// and it gets the latch less often.
const PAUSE: u32 = 1024;

// Flushes the bytes that were written.
fn flush<W: io::Write>(out: &mut Tally<W>) -> Result<(), Refusal>
    ensures { Flushes W.contents out.old out.new result }
{
    match out.flush() {
        Ok(()) => Ok(()),
        Err(_) => Err(Refusal::Device),
    }
}

// The texts of the next entries go out, and these are then marked as written; the pass has handed them out.
fn write_batch<N: StoreName, R: Wait, W: io::Write, G: Gate>(
    rt: &R,
    shared: &Shared<N>,
    pass: &LogPass<N>,
    next: LogBatch<N>,
    out: &mut Tally<W>,
    gate: &G,
) -> Result<(), Refusal>
    requires next { (before : List Entry) × IsNext MOST_BATCH before pass.now next.text.items next.count × HasGoneOut W.contents out.old (log_text N.name.setting.run before) }
    requires first { IsPrefix pass.now (log_of next.seen) }
    requires counts { CountsAsOut W.contents N.out }
    ensures { LogGoesOut W.contents out.old out.new result next.text.items }
{
    let LogBatch { text, count, seen } = next;
    gate.pass(GatePlace::Writing((pass.len() - count) as u32));
    out.put(text.as_slice())?;
    flush(out)?;
    shared.mark_logged(rt, pass, seen, out);
    gate.pass(GatePlace::Written(pass.len() as u32));
    Ok(())
}

// The next entries go out, and are marked as written. False if there are none.
fn log_batch<N: StoreName, R: Wait, W: io::Write, G: Gate>(
    rt: &R,
    shared: &Shared<N>,
    pass: &mut LogPass<N>,
    out: &mut Tally<W>,
    gate: &G,
) -> Result<bool, Refusal>
    requires out { HasGoneOut W.contents out.old (log_text N.name.setting.run pass.old) }
    requires counts { CountsAsOut W.contents N.out }
    ensures { LogsMore W.contents out.old out.new result pass.old pass.new }
{
    let next = shared.log_next(rt, pass, MOST_BATCH)?;
    if next.count == 0 {
        return Ok(false);
    }
    write_batch(rt, shared, pass, next, out, gate)?;
    Ok(true)
}

// Lets others run for a while, until a call waits for an entry.
fn rest<N: StoreName>(shared: &Shared<N>) {
    for _ in 0..PAUSE {
        if shared.is_log_awaited() {
            return;
        }
        pause(1);
    }
}

// A turn of the logger: the next entries go out, and it rests. If there were none, it gives the mark of the end, if that is marked
// and there still are none, and otherwise waits until the count of changes differs from the one before it looked for them.
fn turn<'a, N: StoreName, R: Wait, W: io::Write, G: Gate>(
    rt: &R,
    shared: &'a Shared<N>,
    pass: &mut LogPass<N>,
    out: &mut Tally<W>,
    seen: &mut u64,
    gate: &G,
) -> Result<Option<EndMark<'a, N>>, Refusal>
    requires out { HasGoneOut W.contents out.old (log_text N.name.setting.run pass.old) }
    requires counts { CountsAsOut W.contents N.out }
    ensures text { LogsMore W.contents out.old out.new result pass.old pass.new }
    ensures ours { IfOk result (λ end. IfSome end (λ mark. mark.token.of ≡ shared.now.end.id)) }
    ensures all { IfOk result (λ end. IfSome end (λ mark. IsPrefix (log_of mark.token.value) pass.new)) }
{
    let has_more = log_batch(rt, shared, pass, out, gate)?;
    if has_more {
        rest(shared);
        return Ok(None);
    }
    let end = shared.end_of_log(rt, pass);
    if end.is_none() {
        *seen = shared.until_changed(rt, *seen);
    }
    Ok(end)
}

/// How a logger's loop ended.
#[derive(Drop)]
pub struct LogEnd<'a, N: StoreName> {
    /// The number of the last entry that was handed out.
    pub last: Lsn,
    /// The mark of the store's end.
    pub mark: EndMark<'a, N>,
}

/// Writes the log as the store grows it: the header of the run, and each entry, until the end is marked and no entry is left. It
/// takes all entries that there are, up to about 262,144 bytes of text together, flushes the writer after them, and then marks them
/// as written; it passes the gate before and after that. Returns the number of the last entry that the pass has then handed out,
/// which is the number of entries, and the mark of the store's end: each entry that the log had when the end was marked is among
/// them. In every case the pass has the entries that were handed out: on Ok and after a failed allocation their whole text went
/// out; `Device` is returned if and only if the device failed, and then a beginning of the text went out, and not all of it, or all
/// of it, and a flush failed. Text that goes out to the writer must count as gone out by the store's name, since calls that wait
/// rely on it.
pub fn log_loop<'a, N: StoreName, R: Wait, W: io::Write, G: Gate>(
    rt: &R,
    shared: &'a Shared<N>,
    pass: &mut LogPass<N>,
    out: &mut Tally<W>,
    gate: &G,
) -> Result<LogEnd<'a, N>, Refusal>
    requires fresh { pass.old ≡ [] }
    requires counts { CountsAsOut W.contents N.out }
    ensures text { LogGoesOut W.contents out.old out.new result (log_text N.name.setting.run pass.new) }
    ensures last { IfOk result (λ end. end.last ≡ length pass.new) }
    ensures ours { IfOk result (λ end. end.mark.token.of ≡ shared.now.end.id) }
    ensures all { IfOk result (λ end. IsPrefix (log_of end.mark.token.value) pass.new) }
{
    encode_header(out, pass.run())?;
    let mut seen = 0;
    for _ in rt.forever() {
        match turn(rt, shared, pass, out, &mut seen, gate) {
            Ok(Some(mark)) => {
                let last = Lsn(pass.len() as u32);
                return Ok(LogEnd { last, mark });
            }
            Ok(None) => {}
            Err(why) => return Err(why),
        }
    }
    unreachable!()
}

/// If the logger has ended, its pass has each entry that the log had when the end was marked, by any mark of the store's end: all
/// marks of one store's end have the same history. It does nothing, and its contract is that law.
pub fn has_all_until<'a, N: StoreName>(
    mark: &EndMark<'a, N>,
    ended: &LogEnd<'a, N>,
    _pass: &LogPass<N>,
)
    requires ours { mark.now.token.of ≡ ended.now.mark.token.of }
    requires all { IsPrefix (log_of ended.now.mark.token.value) _pass.now }
    ensures { IsPrefix (log_of mark.now.token.value) _pass.now }
{
    ended.mark.agrees(mark);
}

// The entries after those that were handed out go out.
fn put_rest<N: StoreName, W: io::Write>(
    closed: &Closed<N>,
    out: &mut Tally<W>,
) -> Result<(), Refusal>
    requires { closed.now.logged ≤ length closed.now.world.log }
    ensures { Puts W.contents out.old out.new result (rest_text closed.now.logged closed.now.world.log) }
{
    let log = closed.log();
    let mut done = closed.logged;
    while done < log.len() {
        let next = log.texts(done, log.len() - done);
        out.put(next.bytes)?;
        done += next.count;
    }
    Ok(())
}

/// Writes the rest of the log of a store that was closed, after the logger: if the text of the entries that were handed out had
/// gone out, that of the whole log then has. It allocates nothing, and returns `Device` if and only if the device failed; then a
/// beginning of the text went out, and not all of it.
pub fn log_rest<N: StoreName, W: io::Write>(
    closed: &Closed<N>,
    out: &mut Tally<W>,
) -> Result<(), Refusal>
    requires { closed.now.logged ≤ length closed.now.world.log }
    ensures text { Puts W.contents out.old out.new result (rest_text closed.now.logged closed.now.world.log) }
    ensures whole { (run : ℕ) → HasGoneOut W.contents out.old (log_text run (take closed.now.logged closed.now.world.log)) → IfOk result (λ _. HasGoneOut W.contents out.new (log_text run closed.now.world.log)) }
{
    put_rest(closed, out)
}
