//! The ends of the slots' queues, in a row.
ghost use Rattle.std.specs.Prelude.{◌≡◌, ◌≢◌, ◌<◌, ℕ, length, IfOk, replicate};
ghost use Rattle.pc_locks.specs.Lines.{no_chain};
ghost use Rattle.test_lock_slots.specs.Rows.{ends_at};

use pc_chain::Chain;
use pc_locks::QueueEnds;
use pc_types::SlotId;
use std::alloc::{AllocError, Global};

/// The ends of the queue of each slot below a number.
#[derive(Drop)]
pub struct RowOfEnds {
    ends: Vec<Chain<usize>>,
}

/// How a row keeps ends.
pub struct ByRowOfEnds;

impl QueueEnds<ByRowOfEnds> for RowOfEnds {
    ghost use Rattle.std.specs.Prelude.{◌≡◌, ◌<◌, length, refl};
    ghost use Rattle.std.proofs.Common.{◌∙◌, sym, subst};
    ghost use Rattle.test_lock_slots.specs.Rows.{ends_at};

    ghost has = { λ row slot. slot < length row.ends.items };

    ghost ends_of = { λ row slot. ends_at row.ends.items slot };

    ghost beside = { λ a b. length b.ends.items ≡ length a.ends.items };

    fn ends(&self, slot: SlotId) -> Chain<usize> {
        self.ends[slot.0 as usize]
    }

    fn set_ends(&mut self, slot: SlotId, ends: Chain<usize>)
        requires { slot < length self.old.ends.items }
        ensures set { ends_at self.new.ends.items slot ≡ ends }
        ensures others { (other : ℕ) → other ≢ slot → ends_at self.new.ends.items other ≡ ends_at self.old.ends.items other }
        ensures beside { length self.new.ends.items ≡ length self.old.ends.items }
    {
        self.ends[slot.0 as usize] = ends;
    }

    ghost beside_same = { λ a. refl };

    ghost beside_then = { λ a b c p q. q ∙ p };

    ghost beside_has = { λ a b slot p. ((λ h. subst (λ n. slot < n) (sym p) h), (λ h. subst (λ n. slot < n) p h)) };
}

impl RowOfEnds {
    /// The ends of the empty queues of sixteen slots.
    pub fn new(alloc: Global) -> Result<RowOfEnds, AllocError>
        ensures { IfOk result (λ row. row.ends.items ≡ replicate 16 no_chain) }
    {
        Ok(RowOfEnds {
            ends: vec![in alloc; Chain::new(); 16]?,
        })
    }
}
