//! The entries of a store's log that have gone out.
ghost use Rattle.std.specs.Prelude.{◌≡◌, ◌≤◌, ℕ, length};
ghost use mathlib.Core.List.{IsPrefix};
ghost use Rattle.pc_model.specs.History.{log_of};
ghost use Rattle.pc_log.specs.Texts.{log_text};
ghost use Rattle.pc_shared.specs.Written.{AreEntriesWritten, AreOut};

use pc_latch::LogPass;
use pc_tie::{SessionSeat, StoreName, Tie, Witness};
use std::marker::Model;

/// The number of entries of a store's log that have gone out as text, with a witness of a history of whose log they are the first.
/// Contracts see the number.
#[derive(Drop)]
pub(crate) struct GoneOut<N: StoreName> {
    count: u64,
    seen: Witness<N>,
}

impl<N: StoreName> Model for GoneOut<N> {
    ghost use Rattle.std.specs.Prelude.{◌≤◌, ℕ};
    ghost use Rattle.pc_shared.specs.Written.{AreEntriesWritten, IsFirstOut};

    ghost Value = { ℕ };

    ghost view = { λ o. o.count };

    ghost invariant = { λ o. AreEntriesWritten N.out N.name.setting o.count × (1 ≤ o.count → IsFirstOut N.out N.name.setting.run o.seen o.count) };
}

impl<N: StoreName> GoneOut<N> {
    /// No entry has gone out, of a store in which nothing has happened.
    pub(crate) fn none(seen: Witness<N>) -> GoneOut<N>
        ensures { result ≡ 0 }
    {
        GoneOut { count: 0, seen }
    }

    /// The entries that the pass has handed out have gone out, the first of the log of the history that the witness has seen.
    pub(crate) fn of(pass: &LogPass<N>, seen: Witness<N>) -> GoneOut<N>
        requires first { IsPrefix pass.now (log_of seen) }
        requires out { N.out (log_text N.name.setting.run pass.now) }
        ensures { result ≡ length pass.now }
    {
        GoneOut {
            count: pass.len() as u64,
            seen,
        }
    }

    /// The number of entries.
    pub(crate) fn count(&self) -> u64
        ensures count { result ≡ self.now }
        ensures counted { AreEntriesWritten N.out N.name.setting result }
    {
        self.count
    }

    /// Compares them with the log that the session has seen: the first entries of that log, up to their number, are among them.
    pub(crate) fn compare(&mut self, tie: &Tie<N>, session: &mut SessionSeat<N>)
        ensures same { (self.new ≡ self.old) × (session.new ≡ session.old) }
        ensures out { (number : ℕ) → number ≤ self.old → AreOut N.out N.name.setting.run session.old.seen number }
    {
        session.meet(tie, &mut self.seen);
    }
}
