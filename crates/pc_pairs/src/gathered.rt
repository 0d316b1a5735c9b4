//! The pairs of the lines so far, in a tree of keys.
ghost use Rattle.std.specs.Prelude.{◌≡◌, is_some, IfOk, OnOk, option_copied};
ghost use Rattle.pc_model.specs.Maps as map;
ghost use Rattle.pc_model.specs.Database.{KeysRise, database_of};

use pc_types::{Key, Value};
use std::alloc::{AllocError, Global};
use std::collections::BTreeMap;
use std::marker::Model;

/// A database whose pairs come in any order.
#[derive(Drop)]
pub(crate) struct Gathered {
    pairs: BTreeMap<Key, Value>,
}

impl Model for Gathered {
    ghost use Rattle.std.specs.Prelude.{ℕ, List};
    ghost use Rattle.std.specs.Coded.{coded_list, coded_ℕ};
    ghost use Rattle.pc_model.specs.Maps as map;
    ghost use Rattle.std.specs.BTreeMap.{IsOrdered};
    ghost use Rattle.pc_model.specs.Database.{Database, database_of, key_cmp};

    ghost Value = { Database };

    ghost coded = { map.code (coded_list coded_ℕ) (coded_list coded_ℕ) };

    ghost view = { λ a. database_of a.pairs.entries };

    ghost invariant = { λ a. IsOrdered key_cmp a.pairs };
}

impl Gathered {
    pub(crate) fn new(alloc: Global) -> Gathered
        ensures { result ≡ map.empty }
    {
        Gathered {
            pairs: BTreeMap::new(alloc),
        }
    }

    /// Whether it has the key.
    pub(crate) fn has(&self, key: &Key) -> bool
        ensures { result ≡ is_some (map.get self.now key.now) }
    {
        self.pairs.get(key).is_some()
    }

    /// Sets the value of a key.
    pub(crate) fn insert(&mut self, key: Key, value: Value) -> Result<(), AllocError>
        ensures { OnOk result (self.new ≡ map.insert self.old key value) }
    {
        match self.pairs.insert(key, value) {
            Ok(_) => Ok(()),
            Err(_) => Err(AllocError),
        }
    }

    /// The pairs, ascending by key.
    pub(crate) fn into_pairs(self, alloc: Global) -> Result<Vec<(Key, Value)>, AllocError>
        ensures rise { IfOk result (λ pairs. KeysRise pairs.items) }
        ensures pairs { IfOk result (λ pairs. database_of pairs.items ≡ self) }
    {
        let Gathered { pairs } = self;
        vector_of(alloc, pairs)
    }
}

// The entries of a tree, in their order.
fn vector_of(alloc: Global, tree: BTreeMap<Key, Value>) -> Result<Vec<(Key, Value)>, AllocError>
    ensures { IfOk result (λ pairs. pairs.items ≡ tree.entries) }
{
    let mut pairs = Vec::with_capacity(alloc, tree.len())?;
    for pair in tree {
        pairs.push(pair)?;
    }
    Ok(pairs)
}
