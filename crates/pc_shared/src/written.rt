//! The number of entries of a store's log that are written.
ghost use Rattle.std.specs.Prelude.{◌≡◌};
ghost use Rattle.pc_log.specs.Texts.{log_text};
ghost use Rattle.pc_shared.specs.Written.{AreEntriesWritten};

use atomic_table::{Play, Table, TableRule};
use pc_latch::LogPass;
use pc_tie::StoreName;
use std::alloc::{AllocError, Global};
use std::marker::PhantomData;

/// The rule of the number: the text of that many entries has gone out. A thread that reads the number learns that.
pub struct CountsEntries<N: StoreName> {
    name: PhantomData<N>,
}

impl<S, N: StoreName> TableRule<S, (), ()> for CountsEntries<N> {
    ghost use Rattle.std.specs.Prelude.{slice_index};
    ghost use Rattle.pc_shared.specs.Written.{AreEntriesWritten};

    ghost holds = { λ key state. AreEntriesWritten N.out N.name.setting (slice_index state.words 0) };

    ghost first = { λ key. tt };
}

impl<S, N: StoreName> Play<S, ()> for CountsEntries<N> {
    ghost use Rattle.pc_shared.specs.Written.{AreEntriesWritten};

    ghost then = { λ step before found after. AreEntriesWritten N.out N.name.setting found };
}

/// The number of entries of a store's log that are written. Only a pass whose text has gone out changes it.
#[derive(Drop)]
pub(crate) struct Written<N: StoreName> {
    table: Table<(), (), (), CountsEntries<N>, Global>,
    ghost words: { table.shared.table_id.words ≡ 1 },
}

impl<N: StoreName> Written<N> {
    /// No entry is written.
    pub(crate) fn new(alloc: Global) -> Result<Written<N>, AllocError> {
        let (table, _seat) = Table::of_words(alloc, &[0], &())?;
        Ok(Written { table })
    }

    /// The number of written entries: their text has gone out.
    pub(crate) fn get(&self) -> u64
        ensures { AreEntriesWritten N.out N.name.setting result }
    {
        let (entries, _seat) = self.table.shared.load_new_seat::<CountsEntries<N>>(0);
        entries
    }

    /// The entries that the pass has handed out are written; their text has gone out.
    pub(crate) fn mark(&self, pass: &LogPass<N>)
        requires { N.out (log_text N.name.setting.run pass.now) }
    {
        let entries = pass.len() as u64;
        let (_before, _seat) = self
            .table
            .shared
            .swap_new_seat::<CountsEntries<N>>(0, entries);
    }
}
