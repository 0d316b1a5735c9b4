//! The logger's pass: how far the log was handed out.
ghost use Rattle.std.specs.Prelude.{◌≡◌, ◌≤◌, ◌+◌, [], IfOk, IfErr, length, take, drop};
ghost use Rattle.std.specs.List.{flat_map};
ghost use Rattle.pc_model.specs.History.{log_of};
ghost use Rattle.pc_kept_log.specs.Logs.{entries_of};
ghost use Rattle.pc_log.specs.Texts.{entry_text};
ghost use Rattle.pc_model.specs.Replies.{IsLegalHistory};
ghost use Rattle.pc_latch.specs.Batches.{batch, HasEntries};

use pc_kept_log::Log;
use pc_tie::{Keeper, StoreName, Tie, Witness};
use pc_types::{MOST_LOG_ENTRIES, Refusal};
use std::alloc::Global;
use std::marker::Model;

/// How far the log was handed out. Contracts see the entries that were: a beginning of the log.
#[derive(Drop)]
pub struct LogPass<N: StoreName> {
    pub(crate) run: u64,
    pub(crate) count: usize,
    pub(crate) witness: Witness<N>,
}

impl<N: StoreName> Model for LogPass<N> {
    ghost use Rattle.std.specs.Prelude.{◌≡◌, ◌≤◌, List, length, take};
    ghost use Rattle.pc_types.specs.declared.Entry.{Entry};
    ghost use Rattle.pc_types.specs.declared.limits.TheConstants.{MOST_LOG_ENTRIES};
    ghost use Rattle.pc_model.specs.History.{log_of};
    ghost use Rattle.pc_model.specs.Replies.{IsLegalHistory};

    ghost Value = { List Entry };

    ghost view = { λ p. take p.count (log_of p.witness) };

    ghost invariant = { λ p. (p.count ≤ length (log_of p.witness)) × (p.count ≤ MOST_LOG_ENTRIES) × (p.run ≡ N.name.setting.run) × IsLegalHistory N.name.setting p.witness };
}

impl<N: StoreName> LogPass<N> {
    /// The pass of a new store, of which nothing was handed out.
    pub fn new(run: u64, witness: Witness<N>) -> LogPass<N>
        requires run { run ≡ N.name.setting.run }
        requires legal { IsLegalHistory N.name.setting witness }
        ensures { result ≡ [] }
    {
        LogPass {
            run,
            count: 0,
            witness,
        }
    }

    /// The run of the store's base.
    pub fn run(&self) -> u64
        ensures { result ≡ N.name.setting.run }
    {
        self.run
    }

    /// The number of entries that were handed out, at most 16,777,216.
    pub fn len(&self) -> usize
        ensures len { result ≡ length self.now }
        ensures legal { HasEntries N.name.setting result }
        ensures limit { result ≤ MOST_LOG_ENTRIES }
    {
        self.count
    }

    // Its witness sees the keeper's history; the entries that were handed out are the first ones of that history's log.
    pub(crate) fn renew(&mut self, tie: &Tie<N>, keeper: &mut Keeper<N>)
        requires alone { keeper.old.guests ≡ [] }
        requires legal { IsLegalHistory N.name.setting keeper.old.history }
        ensures same { self.new ≡ self.old }
        ensures keeper { keeper.new ≡ keeper.old }
        ensures first { self.old ≡ take (length self.old) (log_of keeper.old.history) }
    {
        keeper.renew(tie, &mut self.witness);
    }

    /// Ends the pass. Returns the number of entries of the keeper's log that were handed out, the first ones.
    pub fn close(self, tie: &Tie<N>, keeper: &mut Keeper<N>) -> usize
        requires { keeper.old.guests ≡ [] }
        ensures same { keeper.new ≡ keeper.old }
        ensures list { self ≡ take result (log_of keeper.old.history) }
        ensures within { result ≤ length (log_of keeper.old.history) }
    {
        let LogPass {
            run: _,
            count,
            mut witness,
        } = self;
        keeper.renew(tie, &mut witness);
        count
    }
}

/// The texts of the next entries of a log.
#[derive(Drop)]
pub struct LogTexts {
    /// The texts, in order.
    pub text: Vec<u8>,
    /// The number of entries.
    pub count: usize,
}

// The number of entries after the first ones that are handed out, with room for this many bytes of text.
fn batch_len(log: &Log, first: usize, room: u32) -> usize
    requires { first ≤ length (entries_of log.now) }
    ensures within { first + result ≤ length (entries_of log.now) }
    ensures batch { take result (drop first (entries_of log.now)) ≡ batch room (drop first (entries_of log.now)) }
{
    let mut left = room as usize;
    let mut count = 0;
    for place in first..log.len() {
        if left == 0 {
            return count;
        }
        left = left.saturating_sub(log.size(place));
        count += 1;
    }
    count
}

// The next entries after the first ones, until they have this many bytes of text.
pub(crate) fn next_of(
    alloc: Global,
    log: &Log,
    first: usize,
    room: u32,
) -> Result<LogTexts, Refusal>
    requires { first ≤ length (entries_of log.now) }
    ensures within { IfOk result (λ next. first + next.count ≤ length (entries_of log.now)) }
    ensures batch { IfOk result (λ next. take next.count (drop first (entries_of log.now)) ≡ batch room (drop first (entries_of log.now))) }
    ensures text { IfOk result (λ next. next.text.items ≡ flat_map entry_text (batch room (drop first (entries_of log.now)))) }
    ensures memory { IfErr result (λ e. e ≡ Refusal.OutOfMemory) }
{
    let count = batch_len(log, first, room);
    let text = log.copied_texts(alloc, first, count)?;
    Ok(LogTexts { text, count })
}
