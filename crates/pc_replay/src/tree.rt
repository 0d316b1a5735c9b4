//! A database as a tree of keys: a look-up, a write and a removal cost a logarithm of its size.
ghost use Rattle.std.specs.Prelude.{◌≡◌, ◌↔◌, IsTrue, Some, IfOk, OnOk, option_copied};
ghost use Rattle.std.specs.List.{list_all};
ghost use Rattle.std.specs.BTreeMap.{IsOrdered};
ghost use Rattle.pc_model.specs.Maps as map;
ghost use Rattle.pc_types.specs.declared.Change.TheVariants.{Add};
ghost use Rattle.pc_model.specs.Database.{key_cmp, database_of, put, applied, applied_all, write_of};
ghost use Rattle.pc_model.specs.Log.{after};
ghost use Rattle.pc_model.specs.Files.{same_content};
ghost use Rattle.pc_replay.specs.Laying.{laid_in_turn};
ghost use Rattle.pc_replay.specs.Trees.{has_all};

use pc_types::{Change, Entry, Key, Point, Triple, Value, Write, sum};
use std::alloc::{AllocError, Global};
use std::collections::BTreeMap;
use std::marker::Model;

/// A database in memory.
#[derive(Drop)]
pub(crate) struct Tree {
    pairs: BTreeMap<Key, Value>,
}

impl Model for Tree {
    ghost use Rattle.std.specs.Prelude.{ℕ, List};
    ghost use Rattle.std.specs.Coded.{coded_list, coded_ℕ};
    ghost use Rattle.pc_model.specs.Maps as map;
    ghost use Rattle.pc_model.specs.Database.{Database, database_of};

    ghost Value = { Database };

    ghost coded = { map.code (coded_list coded_ℕ) (coded_list coded_ℕ) };

    ghost view = { λ a. database_of a.pairs.entries };
}

impl Tree {
    pub(crate) fn new(alloc: Global) -> Tree
        ensures { result ≡ map.empty }
    {
        Tree {
            pairs: BTreeMap::new(alloc),
        }
    }

    // Sets the key to the value, or removes it.
    pub(crate) fn put(
        &mut self,
        alloc: Global,
        key: &Key,
        content: &Option<Value>,
    ) -> Result<(), AllocError>
        ensures { OnOk result (self.new ≡ put self.old key.now content.now) }
    {
        match content {
            Some(value) => self.insert(key.copy(alloc)?, value.copy(alloc)?),
            None => {
                self.remove(key);
                Ok(())
            }
        }
    }

    fn insert(&mut self, key: Key, value: Value) -> Result<(), AllocError>
        ensures { OnOk result (self.new ≡ map.insert self.old key value) }
    {
        match self.pairs.insert(key, value) {
            Ok(_) => Ok(()),
            Err(_) => Err(AllocError),
        }
    }

    fn remove(&mut self, key: &Key)
        ensures { self.new ≡ map.remove self.old key.now }
    {
        self.pairs.remove(key);
    }

    // The database of these pairs, of which the first one of a key counts.
    pub(crate) fn of_pairs(alloc: Global, pairs: &[(Key, Value)]) -> Result<Tree, AllocError>
        ensures { IfOk result (λ tree. tree ≡ database_of pairs.now) }
    {
        let mut tree = Tree::new(alloc);
        for i in 0..pairs.len() {
            let pair = &pairs[pairs.len() - 1 - i];
            let key = pair.0.copy(alloc)?;
            tree.insert(key, pair.1.copy(alloc)?)?;
        }
        Ok(tree)
    }

    // Applies the writes, in order.
    pub(crate) fn apply_all(&mut self, alloc: Global, writes: &[Write]) -> Result<(), AllocError>
        ensures { OnOk result (self.new ≡ applied_all self.old writes.now) }
    {
        for write in writes {
            self.apply(alloc, write)?;
        }
        Ok(())
    }

    fn apply(&mut self, alloc: Global, write: &Write) -> Result<(), AllocError>
        ensures { OnOk result (self.new ≡ applied self.old write.now) }
    {
        match &write.change {
            Change::Set(value) => self.insert(write.key.copy(alloc)?, value.copy(alloc)?),
            Change::Remove => {
                self.remove(&write.key);
                Ok(())
            }
            Change::Add(delta) => self.add(alloc, &write.key, *delta),
        }
    }

    // Adds to the number that the key has; nothing changes if it has none, or the sum doesn't fit.
    fn add(&mut self, alloc: Global, key: &Key, delta: i64) -> Result<(), AllocError>
        ensures { OnOk result (self.new ≡ applied self.old (write_of key.now (Add delta))) }
    {
        match sum(self.get(key), delta) {
            Some(number) => self.insert(key.copy(alloc)?, Value::of_number(alloc, number)),
            None => Ok(()),
        }
    }

    // The value of a key.
    fn get(&self, key: &Key) -> Option<&Value>
        ensures { option_copied result ≡ map.get self.now key.now }
    {
        self.pairs.get(key)
    }

    // Applies the commits of the log, in order.
    pub(crate) fn replay(&mut self, alloc: Global, log: &[Entry]) -> Result<(), AllocError>
        ensures { OnOk result (self.new ≡ after self.old log.now) }
    {
        for entry in log {
            if let Entry::Commit(_, writes) = entry {
                self.apply_all(alloc, writes.as_slice())?;
            }
        }
        Ok(())
    }

    // Applies the triples to it at the point, in order.
    pub(crate) fn lay(
        &mut self,
        alloc: Global,
        point: Point,
        triples: &[Triple],
    ) -> Result<(), AllocError>
        ensures { OnOk result (self.new ≡ laid_in_turn self.old point triples.now) }
    {
        for triple in triples {
            if triple.point.0 > point.0 {
                self.put(alloc, &triple.key, &triple.content)?;
            }
        }
        Ok(())
    }

    // Whether the databases are the same.
    pub(crate) fn is(&self, other: &Tree) -> bool
        ensures { IsTrue result ↔ (self.now ≡ other.now) }
    {
        self.is_within(other) && other.is_within(self)
    }

    // Whether the other database has each pair of this one.
    fn is_within(&self, other: &Tree) -> bool
        ensures { result ≡ has_all self.now other.now }
    {
        all_in(&self.pairs, other)
    }

    // Whether the key has this value.
    fn has(&self, key: &Key, value: &Value) -> bool
        ensures { result ≡ same_content (Some value.now) (map.get self.now key.now) }
    {
        match self.get(key) {
            Some(there) => value.is(there),
            None => false,
        }
    }
}

// Whether the database has each of the pairs.
fn all_in(pairs: &BTreeMap<Key, Value>, other: &Tree) -> bool
    ensures all { result ≡ list_all (λ e. same_content (Some e.1) (map.get other.now e.0)) pairs.now.entries }
    ensures ordered { IsOrdered key_cmp pairs.now }
{
    for (key, value) in pairs {
        if !other.has(key, value) {
            return false;
        }
    }
    true
}
