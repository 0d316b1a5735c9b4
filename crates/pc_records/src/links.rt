//! The slots of a table as the keeper of the two sets' links.

use pc_chain::Links;
use pc_dirty::SideSlot;
use pc_slots::Cell;
use pc_table::Table;

/// Marks the two words of each slot.
pub(crate) struct BySets;

impl Links<BySets> for Table<Cell> {
    ghost use Rattle.std.specs.Prelude.{◌≡◌, ◌≢◌, refl};
    ghost use Rattle.std.proofs.Common.{◌∙◌};
    ghost use Rattle.pc_dirty.specs.declared.side.SideSlot.{SideSlot};
    ghost use Rattle.pc_records.specs.SetLists.{next_in, HasPlace, KeepRecords};

    type Id = SideSlot;

    ghost has = { λ table place. HasPlace table.rows place };

    ghost next_of = { λ table place. next_in table.rows place };

    ghost beside = { λ a b. KeepRecords a b };

    fn next(&self, id: SideSlot) -> Option<SideSlot> {
        self.get(id.slot).link(id.side)
    }

    fn set_next(&mut self, id: SideSlot, next: Option<SideSlot>)
        requires { HasPlace self.old.rows id }
        ensures set { next_in self.new.rows id ≡ next }
        ensures others { (other : SideSlot) → other ≢ id → next_in self.new.rows other ≡ next_in self.old.rows other }
        ensures has { (other : SideSlot) → HasPlace self.old.rows other → HasPlace self.new.rows other }
        ensures beside { KeepRecords self.old self.new }
    {
        self.get_mut(id.slot).put_link(id.side, next);
    }

    ghost beside_same = { λ a. record { capacity = refl; rows = refl } };

    ghost beside_then = { λ a b c p q. record { capacity = q.capacity ∙ p.capacity; rows = q.rows ∙ p.rows } };
}
