//! The captured entries of a point, as one value.
ghost use Rattle.std.specs.Prelude.{◌≡◌, [], length, map, OnOk, OnErr};
ghost use Rattle.std.specs.FinMap.{put as put_entry};
ghost use Rattle.pc_model.specs.Database.{KeysRise, key_cmp};
ghost use Rattle.pc_model.specs.TripleLists.{triple_at};

use crate::headed::Headed;
use crate::lists::{is_above, place, put_among};
use crate::taken_pass::TakenPass;
use pc_types::{Key, Point, Value};
use std::alloc::{AllocError, Global};
use std::collections::BTreeMap;
use std::marker::Model;
use std::mem;

/// The captured entries of a point: each key once, with its content there, a value or nothing. A contract sees it as the
/// list of these entries, which ascend strictly by key. A put of a key above all others costs one comparison; another one
/// costs a logarithm of how many keys there are.
#[derive(Drop)]
pub struct Taken {
    alloc: Global,
    // Each key that was above all others when it came.
    rising: Vec<(Headed, Option<Value>)>,
    // The keys that weren't, each of which is in one of the two alone.
    others: BTreeMap<Headed, Option<Value>>,
}

impl Model for Taken {
    ghost use Rattle.std.specs.Prelude.{ℕ, List, Option};
    ghost use Rattle.pc_taken.specs.Takings.{AreTaken, as_one, taken_code};

    ghost Value = { List (List ℕ × Option (List ℕ)) };

    ghost coded = { taken_code };

    ghost view = { λ t. as_one t.rising.items t.others.entries };

    ghost invariant = { λ t. AreTaken t.rising.items t.others.entries };
}

impl Taken {
    /// Nothing yet. It allocates no memory.
    pub fn new(alloc: Global) -> Taken
        ensures { result ≡ [] }
    {
        Taken {
            alloc,
            rising: Vec::new(alloc),
            others: BTreeMap::new(alloc),
        }
    }

    /// The number of keys taken; a key that came twice counts once.
    pub fn len(&self) -> usize
        ensures { result ≡ length self.now }
    {
        self.rising.len() + self.others.len()
    }

    /// Puts the key in its place, with what it had at the point; what was there of the same key is replaced. It fails only
    /// if an allocation fails, and then nothing has changed.
    pub fn put(&mut self, key: Key, content: Option<Value>) -> Result<(), AllocError>
        ensures put { OnOk result (self.new ≡ put_entry key_cmp key content self.old) }
        ensures kept { OnErr result (self.new ≡ self.old) }
    {
        let key = Headed::of(key);
        if is_above(&self.rising, &key) {
            self.rising.push((key, content))?;
            return Ok(());
        }
        if let Ok(i) = place(&self.rising, &key) {
            self.rising[i].1 = content;
            return Ok(());
        }
        put_among(&mut self.others, key, content)?;
        Ok(())
    }

    /// Moves all captured entries out; nothing is left then. It takes constant time and no memory.
    pub fn move_out(&mut self) -> Taken
        ensures taken { result ≡ self.old }
        ensures rise { KeysRise result }
        ensures moved { self.new ≡ [] }
    {
        let nothing = Taken::new(self.alloc);
        mem::replace(self, nothing)
    }

    // The entries as triples of the point, in order.
    pub(crate) fn pass(&self, point: Point) -> TakenPass<'_>
        ensures { result ≡ map (triple_at point) self.now }
    {
        TakenPass::new(point, &self.rising, &self.others, self.len())
    }
}
