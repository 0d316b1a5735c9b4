//! The slots of a table as the keeper of the ends of their queues.

use pc_chain::Chain;
use pc_locks::QueueEnds;
use pc_slots::{Cell, chain_in, put_ends};
use pc_table::Table;
use pc_types::SlotId;

/// Marks the ends in each slot.
pub(crate) struct ByEnds;

impl QueueEnds<ByEnds> for Table<Cell> {
    ghost use Rattle.std.specs.Prelude.{◌≡◌, ◌≢◌, ◌↔◌, ℕ, refl};
    ghost use Rattle.std.proofs.Common.{◌∙◌, sym};
    ghost use Rattle.pc_chain.specs.declared.chain.Chain.{Chain};
    ghost use Rattle.pc_table.specs.Rows.{HasRow};
    ghost use Rattle.pc_records.specs.Ends.{ends_in, KeepSlots};

    ghost has = { λ table slot. HasRow table.rows slot };

    ghost ends_of = { λ table slot. ends_in table.rows slot };

    ghost beside = { λ a b. KeepSlots a b };

    fn ends(&self, slot: SlotId) -> Chain<usize> {
        chain_in(self.get(slot))
    }

    fn set_ends(&mut self, slot: SlotId, ends: Chain<usize>)
        requires { HasRow self.old.rows slot }
        ensures set { ends_in self.new.rows slot ≡ ends }
        ensures others { (other : ℕ) → other ≢ slot → ends_in self.new.rows other ≡ ends_in self.old.rows other }
        ensures beside { KeepSlots self.old self.new }
    {
        put_ends(self.get_mut(slot), ends);
    }

    ghost beside_same = { λ a. record { capacity = refl; row = λ slot. refl; slots = λ side. refl; sets = record { same = λ slot. refl } } };

    ghost beside_then = { λ a b c p q. record { capacity = q.capacity ∙ p.capacity; row = λ slot. q.row slot ∙ p.row slot; slots = λ side. q.slots side ∙ p.slots side; sets = record { same = λ slot. q.sets.same slot ∙ p.sets.same slot } } };

    ghost beside_has = { λ a b slot p. ((λ h. p.row slot ∙ h), (λ h. sym (p.row slot) ∙ h)) };
}
