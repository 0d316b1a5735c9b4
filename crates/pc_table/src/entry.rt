//! Entries: the contents of slots.
use pc_chain::{Blank, Keyed};
use pc_types::Key;
use std::alloc::{AllocError, Global};

/// A key with its record.
#[derive(Drop)]
pub(crate) struct TableEntry<T> {
    pub(crate) key: Key,
    pub(crate) item: T,
}

impl<T> TableEntry<T> {
    ghost use Rattle.std.specs.Prelude.{◌≡◌};
    ghost use Rattle.std.specs.Borrow.{sem};
    ghost use Rattle.pc_table.specs.Lending.{LendsEntryRecord};
    ghost use Rattle.pc_table.specs.Rows.{pair_behind};

    /// The record, to be changed in place.
    pub(crate) fn item_mut(&mut self) -> &mut T
        ensures* lends { sem 𝓛 (LendsEntryRecord T.row self.entry result) }
        ensures value { self.old.item ≡ result.now }
    {
        &mut self.item
    }

    /// Both together.
    pub(crate) fn pair(&self) -> (&Key, &T)
        ensures { pair_behind result ≡ (self.now.key, self.now.item) }
    {
        (&self.key, &self.item)
    }

    /// The record alone.
    pub(crate) fn into_item(self) -> T
        ensures { result ≡ self.item }
    {
        let TableEntry { key: _, item } = self;
        item
    }
}

impl<T: Blank> Keyed for TableEntry<T> {
    ghost use Rattle.std.specs.Prelude.{refl};
    ghost use Rattle.pc_table.specs.Entries.{key_in, entry_of};

    ghost key_of = { key_in };

    ghost blank_of = { λ key. entry_of key T.blank };

    fn key(&self) -> &Key {
        &self.key
    }

    fn blank(alloc: Global, key: &Key) -> Result<TableEntry<T>, AllocError> {
        let key = key.copy(alloc)?;
        Ok(TableEntry {
            key,
            item: T::blank(),
        })
    }

    ghost blank_key = { λ key. refl };
}
