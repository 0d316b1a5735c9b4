//! Arenas of records that have keys.
use crate::arena::Arena;
use crate::cells::ByLink;
use pc_chain::{Keyed, KeyedSlots};
use pc_types::{Key, Refusal, SlotId};
use std::alloc::Global;

impl<T: Keyed> KeyedSlots<ByLink> for Arena<T> {
    ghost use Rattle.std.specs.Prelude.{refl};

    type Item = T;

    ghost slots_of = { λ a. a };

    ghost key_of = { T.key_of };

    ghost blank_of = { T.blank_of };

    fn slot_count(&self) -> u32 {
        self.capacity()
    }

    fn key_in(&self, id: SlotId) -> &Key {
        self.get(id).key()
    }

    fn make_blank(&mut self, alloc: Global, key: &Key) -> Result<SlotId, Refusal> {
        if self.is_full() {
            return Err(Refusal::Full);
        }
        let Ok(item) = T::blank(alloc, key) else {
            return Err(Refusal::OutOfMemory);
        };
        self.take_slot(item)
    }

    fn free(&mut self, id: SlotId) -> T {
        self.free_slot(id)
    }

    ghost blank_key = { T.blank_key };

    ghost taken_has = { λ a id h. h };

    ghost has_taken = { λ a id h. h };

    ghost leads = { λ a id. refl };

    ghost keeps = { λ a b h. h };
}
