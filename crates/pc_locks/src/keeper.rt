//! The keeper of the ends of the slots' queues.
ghost use Rattle.std.specs.Prelude.{◌≡◌, ◌≢◌, ◌↔◌, ℕ};
ghost use Rattle.pc_chain.specs.declared.chain.Chain.{Chain};

use pc_chain::Chain;
use pc_types::SlotId;

/// Keeps the ends of the queue of each of its slots, in what it has of the slot. The requests between them are the locks'.
/// The marker `K` is a type of the crate that says how the ends are kept, so that it may say so of a keeper from another
/// crate.
pub trait QueueEnds<K> {
    /// The slot has ends here.
    ghost has: { Self → ℕ → Type 0 };

    /// The ends of the slot's queue; if the slot has none here, those of an empty one.
    ghost ends_of: { Self → ℕ → Chain ℕ };

    /// All that the first keeps besides ends is in the second as it was, and the same slots have ends.
    ghost beside: { Self → Self → Type 0 };

    /// The ends of the slot's queue.
    fn ends(&self, slot: SlotId) -> Chain<usize>
        requires { has self.now slot }
        ensures { result ≡ ends_of self.now slot };

    /// Sets the ends of the slot's queue. What is set is read; the ends of all other slots stay, and so does all that is kept
    /// besides them.
    fn set_ends(&mut self, slot: SlotId, ends: Chain<usize>)
        requires { has self.old slot }
        ensures set { ends_of self.new slot ≡ ends }
        ensures others { (other : ℕ) → other ≢ slot → ends_of self.new other ≡ ends_of self.old other }
        ensures beside { beside self.old self.new };

    /// If nothing changed, all is as it was.
    ghost beside_same: { (a : Self) → beside a a };

    /// The relation is transitive.
    ghost beside_then: { (a b c : Self) → beside a b → beside b c → beside a c };

    /// If everything besides them stayed, the same slots have ends.
    ghost beside_has: { (a b : Self) (slot : ℕ) → beside a b → has a slot ↔ has b slot };
}
