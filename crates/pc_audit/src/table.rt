//! A database in a map by hash: a look-up, a write and a removal cost the same however large it is.
ghost use Rattle.std.specs.Prelude.{◌≡◌, ◌≤◌, ◌↔◌, length, IsTrue, Some, IfOk, OnOk, option_copied, slice_range};
ghost use Rattle.std.specs.List.{list_all};
ghost use Rattle.std.specs.HashMap.{IsUnique};
ghost use Rattle.pc_types.specs.declared.Change.TheVariants.{Add};
ghost use Rattle.pc_model.specs.Maps as map;
ghost use Rattle.pc_model.specs.Database.{same_bytes, database_of, put, applied, applied_all, write_of};
ghost use Rattle.pc_model.specs.Log.{after};
ghost use Rattle.pc_model.specs.Files.{same_content};
ghost use Rattle.pc_kept_log.specs.Logs.{entries_of};
ghost use Rattle.pc_replay.specs.Laying.{laid_in_turn};
ghost use Rattle.pc_audit.specs.Tables.{IsContainedIn};

use pc_kept_log::{LentWrites, Log};
use pc_types::{Change, Key, Point, Triple, Value, Write, sum};
use std::alloc::{AllocError, Global};
use std::collections::HashMap;
use std::hash::RandomState;
use std::marker::Model;

/// A database in memory, found by hash.
#[derive(Drop)]
pub(crate) struct Table {
    pairs: HashMap<Key, Value, RandomState>,
}

impl Model for Table {
    ghost use Rattle.std.specs.Prelude.{ℕ, List};
    ghost use Rattle.std.specs.Coded.{coded_list, coded_ℕ};
    ghost use Rattle.pc_model.specs.Maps as map;
    ghost use Rattle.pc_model.specs.Database.{Database, database_of};

    ghost Value = { Database };

    ghost coded = { map.code (coded_list coded_ℕ) (coded_list coded_ℕ) };

    ghost view = { λ a. database_of a.pairs.entries };
}

impl Table {
    fn new(alloc: Global, seed: RandomState) -> Table
        ensures { result ≡ map.empty }
    {
        Table {
            pairs: HashMap::with_hasher(alloc, seed),
        }
    }

    // The database of these pairs, of which the first one of a key counts.
    pub(crate) fn of_pairs(
        alloc: Global,
        seed: RandomState,
        pairs: &[(Key, Value)],
    ) -> Result<Table, AllocError>
        ensures { IfOk result (λ table. table ≡ database_of pairs.now) }
    {
        let mut table = Table::new(alloc, seed);
        for i in 0..pairs.len() {
            let pair = &pairs[pairs.len() - 1 - i];
            let key = pair.0.copy(alloc)?;
            table.insert(key, pair.1.copy(alloc)?)?;
        }
        Ok(table)
    }

    // That of other pairs, whose keys are hashed under the same seed.
    pub(crate) fn beside(&self, alloc: Global, pairs: &[(Key, Value)]) -> Result<Table, AllocError>
        ensures { IfOk result (λ table. table ≡ database_of pairs.now) }
    {
        Table::of_pairs(alloc, *self.pairs.hasher(), pairs)
    }

    fn insert(&mut self, key: Key, value: Value) -> Result<(), AllocError>
        ensures { OnOk result (self.new ≡ map.insert self.old key value) }
    {
        match self.pairs.insert(key, value) {
            Ok(_) => Ok(()),
            Err(_) => Err(AllocError),
        }
    }

    fn remove(&mut self, key: &Key)
        ensures { self.new ≡ map.remove self.old key.now }
    {
        self.pairs.remove(key);
    }

    // The value of a key.
    fn get(&self, key: &Key) -> Option<&Value>
        ensures { option_copied result ≡ map.get self.now key.now }
    {
        self.pairs.get(key)
    }

    // Applies the commits of the log from one place up to another one, in order.
    pub(crate) fn replay(
        &mut self,
        alloc: Global,
        log: &Log,
        from: usize,
        to: usize,
    ) -> Result<(), AllocError>
        requires { to ≤ length (entries_of log.now) }
        ensures { OnOk result (self.new ≡ after self.old (slice_range (entries_of log.now) from to)) }
    {
        for entry in log.lent(from, to) {
            self.apply_all(alloc, entry.writes())?;
        }
        Ok(())
    }

    // Applies the writes, in order.
    fn apply_all(&mut self, alloc: Global, writes: LentWrites<'_>) -> Result<(), AllocError>
        ensures { OnOk result (self.new ≡ applied_all self.old writes.entry) }
    {
        for write in writes {
            self.apply(alloc, write.to_write(alloc)?)?;
        }
        Ok(())
    }

    fn apply(&mut self, alloc: Global, write: Write) -> Result<(), AllocError>
        ensures { OnOk result (self.new ≡ applied self.old write) }
    {
        let Write { key, change } = write;
        match change {
            Change::Set(value) => self.insert(key, value),
            Change::Remove => {
                self.remove(&key);
                Ok(())
            }
            Change::Add(delta) => self.add(alloc, key, delta),
        }
    }

    // Adds to the number that the key has; nothing changes if it has none, or the sum doesn't fit.
    fn add(&mut self, alloc: Global, key: Key, delta: i64) -> Result<(), AllocError>
        ensures { OnOk result (self.new ≡ applied self.old (write_of key (Add delta))) }
    {
        match sum(self.get(&key), delta) {
            Some(number) => self.insert(key, Value::of_number(alloc, number)),
            None => Ok(()),
        }
    }

    // Applies the triples to it at the point, in order.
    pub(crate) fn lay(
        &mut self,
        alloc: Global,
        point: Point,
        triples: &[Triple],
    ) -> Result<(), AllocError>
        ensures { OnOk result (self.new ≡ laid_in_turn self.old point triples.now) }
    {
        for triple in triples {
            if triple.point.0 > point.0 {
                self.put(alloc, &triple.key, &triple.content)?;
            }
        }
        Ok(())
    }

    // Sets the key to the value, or removes it.
    fn put(&mut self, alloc: Global, key: &Key, content: &Option<Value>) -> Result<(), AllocError>
        ensures { OnOk result (self.new ≡ put self.old key.now content.now) }
    {
        match content {
            Some(value) => self.insert(key.copy(alloc)?, value.copy(alloc)?),
            None => {
                self.remove(key);
                Ok(())
            }
        }
    }

    // Whether the databases are the same.
    pub(crate) fn is(&self, other: &Table) -> bool
        ensures { IsTrue result ↔ (self.now ≡ other.now) }
    {
        self.is_within(other) && other.is_within(self)
    }

    // Whether the other database has each pair of this one.
    fn is_within(&self, other: &Table) -> bool
        ensures { IsTrue result ↔ IsContainedIn self.now other.now }
    {
        all_in(&self.pairs, other)
    }

    // Whether the key has this value.
    fn has(&self, key: &Key, value: &Value) -> bool
        ensures { result ≡ same_content (Some value.now) (map.get self.now key.now) }
    {
        match self.get(key) {
            Some(there) => value.is(there),
            None => false,
        }
    }
}

// Whether the database has each of the pairs.
fn all_in(pairs: &HashMap<Key, Value, RandomState>, other: &Table) -> bool
    ensures all { result ≡ list_all (λ e. same_content (Some e.1) (map.get other.now e.0)) pairs.now.entries }
    ensures unique { IsUnique same_bytes pairs.now }
{
    for (key, value) in pairs {
        if !other.has(key, value) {
            return false;
        }
    }
    true
}
