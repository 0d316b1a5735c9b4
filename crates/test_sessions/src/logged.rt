//! The text of the log, as a logger writes it.
ghost use Rattle.std.specs.Prelude.{◌≡◌, ◌≤◌, ℕ, List, [], length};

use pc_io::Tally;
use pc_log::encode_log;
use pc_shared::{Closed, LogPass, Shared};
use pc_tie::StoreName;
use pc_types::{Gate, Lsn, Refusal};
use pc_workers::{log_loop, log_rest};
use std::alloc::Global;
use std::marker::{Model, PhantomData};
use std::sync::Wait;

/// What a logger of this store has written; each text counts as gone out. Contracts see the bytes.
#[derive(Drop)]
pub struct TextOfLog<N: StoreName> {
    out: Tally<Vec<u8>>,
    name: PhantomData<N>,
}

impl<N: StoreName> Model for TextOfLog<N> {
    ghost use Rattle.std.specs.Prelude.{ℕ, List};

    ghost Value = { List ℕ };

    ghost view = { λ t. t.out.inner.items };

    ghost invariant = { λ t. (text : List ℕ) → N.out text };
}

impl<N: StoreName> TextOfLog<N> {
    pub fn new(alloc: Global) -> TextOfLog<N>
        requires { (text : List ℕ) → N.out text }
    {
        TextOfLog {
            out: Tally::new(Vec::new(alloc)),
            name: PhantomData,
        }
    }

    /// Writes the log until the end is marked and no entry is left; the number of the last entry.
    pub fn write<R: Wait, G: Gate>(
        &mut self,
        rt: &R,
        shared: &Shared<N>,
        pass: &mut LogPass<N>,
        gate: &G,
    ) -> Result<Lsn, Refusal>
        requires { pass.old ≡ [] }
    {
        match log_loop(rt, shared, pass, &mut self.out, gate) {
            Ok(end) => Ok(end.last),
            Err(why) => Err(why),
        }
    }

    /// Writes the rest of a closed log.
    pub fn write_rest(&mut self, closed: &Closed<N>) -> Result<(), Refusal>
        requires { closed.now.logged ≤ length closed.now.world.log }
    {
        log_rest(closed, &mut self.out)
    }

    /// Whether it is the text of the closed log.
    pub fn is_of(self, alloc: Global, closed: &Closed<N>) -> Result<bool, Refusal> {
        let mut whole = Tally::new(Vec::new(alloc));
        let log = closed.log().entries(alloc)?;
        encode_log(&mut whole, closed.base().run(), log.as_slice())?;
        let TextOfLog { out, name: _ } = self;
        Ok(out.into_inner().as_slice() == whole.into_inner().as_slice())
    }
}
