//! The end of a store, which is marked once, and the history that its mark stands for.
ghost use Rattle.std.specs.Prelude.{◌≡◌, true, IfSome};
ghost use mathlib.Core.List.{IsPrefix};
ghost use Rattle.pc_model.specs.History.{log_of};
ghost use Rattle.pc_model.specs.Replies.{IsLegalHistory};
ghost use Rattle.pc_model.specs.Calls.{IsBeginning};

use crate::store::Shared;
use pc_latch::LogPass;
use pc_tie::{Milestone, StoreName, Witness};
use std::sync::{OnceToken, Wait};

/// The mark of a store's end. Contracts see by its token whose end it marks (`of`, which is the store's `end.id`), and the store's
/// history when the end was marked (`value`).
#[derive(Drop)]
pub struct EndMark<'a, N: StoreName> {
    pub(crate) token: OnceToken<'a, Milestone<N>>,
}

/// The result of a call that marks the end.
#[derive(Drop)]
pub struct Marked<'a, N: StoreName> {
    pub mark: EndMark<'a, N>,
    /// Whether this call has marked the end, and no earlier one has.
    pub is_new: bool,
}

impl<'a, N: StoreName> EndMark<'a, N> {
    /// Two marks of one store's end have the same history.
    pub fn agrees(&self, other: &EndMark<'a, N>)
        requires { self.now.token.of ≡ other.now.token.of }
        ensures { self.now.token.value ≡ other.now.token.value }
    {
        self.token.agrees(&other.token);
    }
}

impl<N: StoreName> Shared<N> {
    /// Marks the end, for loops that ask whether it is marked, and returns the mark; if it was marked before, the earlier mark. It
    /// is a change, of the phase too, and ends nothing by itself. The witness has then seen the store's legal history so far, which
    /// is the history of a new mark.
    pub fn mark_end<R: Wait>(&self, rt: &R, witness: &mut Witness<N>) -> Marked<'_, N>
        ensures ours { result.mark.token.of ≡ self.now.end.id }
        ensures fresh { result.is_new ≡ true → result.mark.token.value ≡ witness.new }
        ensures had_seen { IsBeginning witness.old witness.new }
        ensures legal { IsLegalHistory N.name.setting witness.new }
    {
        let mut held = self.get_latch(rt);
        let milestone = held.latched.milestone(&self.tie, witness);
        let inserted = self.end.try_insert(rt, milestone);
        let woken = held.waits.end();
        drop(held);
        self.wake(woken);
        match inserted {
            Ok(token) => Marked {
                mark: EndMark { token },
                is_new: true,
            },
            Err((token, _milestone)) => Marked {
                mark: EndMark { token },
                is_new: false,
            },
        }
    }

    /// The mark of the end, if it was marked.
    pub fn end_mark(&self) -> Option<EndMark<'_, N>>
        ensures { IfSome result (λ mark. mark.token.of ≡ self.now.end.id) }
    {
        match self.end.witness() {
            Some(token) => Some(EndMark { token }),
            None => None,
        }
    }

    /// The mark of the end, once it is marked and the pass has handed out all entries of the log: it then has each that the log had
    /// when the end was marked.
    pub fn end_of_log<R: Wait>(&self, rt: &R, pass: &mut LogPass<N>) -> Option<EndMark<'_, N>>
        ensures same { pass.new ≡ pass.old }
        ensures ours { IfSome result (λ mark. mark.token.of ≡ self.now.end.id) }
        ensures all { IfSome result (λ mark. IsPrefix (log_of mark.token.value) pass.old) }
    {
        let mut held = self.get_latch(rt);
        let Some(mark) = self.end_mark() else {
            return None;
        };
        let milestone = self.end.value(&mark.token);
        if !held.latched.has_all(&self.tie, pass, milestone) {
            return None;
        }
        Some(mark)
    }
}
