//! A database as a vector of pairs, which ascend by key.
ghost use Rattle.std.specs.Prelude.{◌≡◌, ℕ, ◌==◌, ◌+◌, ◌<◌, ◌≤◌, List, [], ◌∷◌, ◌++◌, length, take, drop, slice_index_or, slice_set, insert, option_copied, IsTrue, IfOk, IfErr, OnOk, OnErr, MatchResult};
ghost use Rattle.pc_model.specs.Maps as map;
ghost use Rattle.std.specs.FinMap.{is_sorted, find, put as put_entry};
ghost use Rattle.pc_model.specs.Database.{key_cmp, KeysRise, database_of};
ghost use Rattle.pc_model.specs.Entries.{without_key};
ghost use Rattle.pc_model.specs.Places.{IsAt, IsGap};

use pc_types::{Key, Value};
use std::alloc::{AllocError, Global};
use std::marker::Model;

/// The pairs of a database, which ascend strictly by key.
#[derive(Drop)]
pub struct Pairs {
    pairs: Vec<(Key, Value)>,
}

impl Model for Pairs {
    ghost use Rattle.std.specs.Prelude.{ℕ, List, IsTrue};
    ghost use Rattle.pc_model.specs.Maps as map;
    ghost use Rattle.std.specs.FinMap.{is_sorted};
    ghost use Rattle.std.specs.Coded.{coded_list, coded_ℕ};
    ghost use Rattle.pc_model.specs.Database.{key_cmp, Database};

    ghost Value = { Database };

    ghost coded = { map.code (coded_list coded_ℕ) (coded_list coded_ℕ) };

    ghost view = { λ a. map.from_list a.pairs.items };

    ghost invariant = { λ a. IsTrue (is_sorted key_cmp a.pairs.items) };
}

impl Pairs {
    pub fn new(alloc: Global) -> Pairs
        ensures { result ≡ map.empty }
    {
        Pairs {
            pairs: Vec::new(alloc),
        }
    }

    /// A copy; an error if an allocation fails.
    pub fn copy(&self, alloc: Global) -> Result<Pairs, AllocError>
        ensures { IfOk result (λ pairs. pairs ≡ self.now) }
    {
        let pairs = copy_of(alloc, &self.pairs)?;
        Ok(Pairs { pairs })
    }

    /// The number of pairs.
    pub fn len(&self) -> usize
        ensures { result ≡ map.len self.now }
    {
        self.as_slice().len()
    }

    /// Whether there is no pair.
    pub fn is_empty(&self) -> bool
        ensures { result ≡ (map.len self.now == 0) }
    {
        self.len() == 0
    }

    /// The pairs, ascending by key.
    pub fn as_slice(&self) -> &[(Key, Value)]
        ensures rise { KeysRise result.now }
        ensures pairs { database_of result.now ≡ self.now }
    {
        self.pairs.as_slice()
    }

    /// The pairs, ascending by key.
    pub fn into_vec(self) -> Vec<(Key, Value)>
        ensures rise { KeysRise result.items }
        ensures pairs { database_of result.items ≡ self }
    {
        let Pairs { pairs } = self;
        pairs
    }

    /// The value of a key.
    pub fn get(&self, key: &Key) -> Option<&Value>
        ensures { option_copied result ≡ map.get self.now key.now }
    {
        value_of(&self.pairs, key)
    }

    /// Sets the value of a key.
    pub fn insert(&mut self, key: Key, value: Value) -> Result<(), AllocError>
        ensures ok { OnOk result (self.new ≡ map.insert self.old key value) }
        ensures err { OnErr result (self.new ≡ self.old) }
    {
        set(&mut self.pairs, key, value)
    }

    /// Removes a key.
    pub fn remove(&mut self, key: &Key)
        ensures { self.new ≡ map.remove self.old key.now }
    {
        unset(&mut self.pairs, key);
    }
}

// The value of the pair that has the key, in pairs that ascend by key.
fn value_of<'a>(pairs: &'a [(Key, Value)], key: &Key) -> Option<&'a Value>
    requires { KeysRise pairs.now }
    ensures { option_copied result ≡ find key_cmp key.now pairs.now }
{
    match place(pairs, key) {
        Ok(i) => Some(&pairs[i].1),
        Err(_) => None,
    }
}

/// The place of the key's entry, or else the place where one would go, in entries that ascend strictly by key: a binary
/// search.
pub fn place<X>(pairs: &[(Key, X)], key: &Key) -> Result<usize, usize>
    requires { KeysRise pairs.now }
    ensures at { IfOk result (IsAt pairs.now key.now) }
    ensures here { IfOk result (λ i. (pair : List ℕ × X) → (slice_index_or pairs.now i pair).0 ≡ key.now) }
    ensures gap { IfErr result (IsGap pairs.now key.now) }
{
    pairs.binary_search_by(|pair| pair.0.compare(key))
}

/// Puts an entry in its place, in entries that ascend strictly by key: the key's entry has this value then, or there is a
/// new one. It fails only if an allocation fails, and then nothing changed.
pub fn set<X: Drop>(pairs: &mut Vec<(Key, X)>, key: Key, value: X) -> Result<(), AllocError>
    requires { KeysRise pairs.old.items }
    ensures ok { OnOk result (pairs.new.items ≡ put_entry key_cmp key value pairs.old.items) }
    ensures err { OnErr result (pairs.new.items ≡ pairs.old.items) }
{
    match place(pairs, &key) {
        Ok(i) => {
            pairs[i].1 = value;
            Ok(())
        }
        Err(i) => {
            pairs.insert(i, (key, value))?;
            Ok(())
        }
    }
}

// Removes each pair that has the key.
fn unset(pairs: &mut Vec<(Key, Value)>, key: &Key)
    ensures { pairs.new.items ≡ without_key key.now pairs.old.items }
{
    pairs.retain(|pair| !key.is(&pair.0));
}

fn copy_of(alloc: Global, pairs: &[(Key, Value)]) -> Result<Vec<(Key, Value)>, AllocError>
    ensures { IfOk result (λ copied. copied.items ≡ pairs.now) }
{
    let mut copied = Vec::new(alloc);
    for pair in pairs {
        let key = pair.0.copy(alloc)?;
        let value = pair.1.copy(alloc)?;
        copied.push((key, value))?;
    }
    Ok(copied)
}
