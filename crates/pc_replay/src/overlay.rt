//! A database that is written over in place.
ghost use Rattle.std.specs.Prelude.{◌≡◌, [], Some, None, IfOk, IfErr, OnOk, option_copied};
ghost use Rattle.std.specs.Option.{option_to_list};
ghost use Rattle.std.specs.BTreeMap.{Updates};
ghost use Rattle.std.specs.FinMap.{put as put_entry};
ghost use Rattle.pc_model.specs.Maps as map;
ghost use Rattle.pc_replay.specs.Changes.{overlaid, overlaid_there};
ghost use Rattle.pc_types.specs.declared.Change.TheVariants.{Add};
ghost use Rattle.pc_model.specs.Database.{KeysRise, key_cmp, database_of, applied, applied_all, write_of};
ghost use Rattle.pc_model.specs.Merges.{with_content, with_item};
ghost use Rattle.pc_model.specs.Places.{IsAt, IsGap};

use crate::samples::KeySamples;
use itertools::{EitherOrBoth, Itertools};
use pc_types::{Change, Items, Key, Value, Write, sum};
use std::alloc::{AllocError, Global};
use std::collections::BTreeMap;
use std::marker::Model;

/// A database that is written over in place: pairs that ascend by key, and the additions and removals of writes apart from
/// them. A write costs a logarithm of its size. A new value of a key that has a pair takes the old one's place; a write
/// takes memory for a key alone that it adds or removes.
#[derive(Drop)]
pub struct Overlay {
    // They ascend strictly by key.
    pairs: Vec<(Key, Value)>,
    // The places where the keys may be among them.
    samples: KeySamples,
    // Keys that are not, or no longer, as the pairs say: each is set or absent.
    changes: BTreeMap<Key, Option<Value>>,
}

impl Model for Overlay {
    ghost use Rattle.std.specs.Prelude.{ℕ, List};
    ghost use Rattle.std.specs.Coded.{coded_list, coded_ℕ};
    ghost use Rattle.pc_model.specs.Maps as map;
    ghost use Rattle.pc_replay.specs.Changes.{overlaid};
    ghost use Rattle.pc_model.specs.Database.{Database, KeysRise, database_of};

    ghost Value = { Database };

    ghost coded = { map.code (coded_list coded_ℕ) (coded_list coded_ℕ) };

    ghost view = { λ a. overlaid (database_of a.pairs.items) a.changes.entries };

    ghost invariant = { λ a. KeysRise a.pairs.items };
}

impl Overlay {
    /// The database of these pairs, which ascend strictly by key. They are taken over; memory is taken for a number of
    /// every 32 of them. It fails only if an allocation fails.
    pub fn new(alloc: Global, pairs: Vec<(Key, Value)>) -> Result<Overlay, AllocError>
        requires { KeysRise pairs.items }
        ensures { IfOk result (λ overlay. overlay ≡ database_of pairs.items) }
    {
        let samples = KeySamples::of(alloc, &pairs)?;
        let changes = BTreeMap::new(alloc);
        Ok(Overlay {
            pairs,
            samples,
            changes,
        })
    }

    /// The database once the writes are applied, in order. They are taken over, not copied. It fails only if an allocation
    /// fails, and then nothing of the database is left.
    pub fn with_writes(self, alloc: Global, writes: Items<Write>) -> Result<Overlay, AllocError>
        ensures { IfOk result (λ overlay. overlay ≡ applied_all self writes) }
    {
        let mut overlay = self;
        for write in writes.into_vec() {
            overlay.apply(alloc, write)?;
        }
        Ok(overlay)
    }

    /// Its pairs, ascending strictly by key. No key and no value is copied. If no key was added or removed, the vector is
    /// handed back as it is, and no memory is taken; otherwise it fails only if an allocation fails.
    pub fn into_pairs(self, alloc: Global) -> Result<Vec<(Key, Value)>, AllocError>
        ensures rise { IfOk result (λ pairs. KeysRise pairs.items) }
        ensures pairs { IfOk result (λ pairs. database_of pairs.items ≡ self) }
    {
        let Overlay { pairs, changes, .. } = self;
        if changes.is_empty() {
            return Ok(pairs);
        }
        merged(alloc, pairs, changes)
    }

    fn apply(&mut self, alloc: Global, write: Write) -> Result<(), AllocError>
        ensures { OnOk result (self.new ≡ applied self.old write) }
    {
        let Write { key, change } = write;
        match change {
            Change::Set(value) => self.insert(key, value),
            Change::Remove => self.remove(key),
            Change::Add(delta) => self.add(alloc, key, delta),
        }
    }

    // Sets the value of a key: in place, if the key has a pair.
    fn insert(&mut self, key: Key, value: Value) -> Result<(), AllocError>
        ensures { OnOk result (self.new ≡ map.insert self.old key value) }
    {
        let place = self.samples.place(&self.pairs, &key);
        set_at(&mut self.pairs, &mut self.changes, place, key, value)
    }

    // Adds to the number that a key has; nothing changes if it has none, or the sum doesn't fit.
    fn add(&mut self, alloc: Global, key: Key, delta: i64) -> Result<(), AllocError>
        ensures { OnOk result (self.new ≡ applied self.old (write_of key (Add delta))) }
    {
        let place = self.samples.place(&self.pairs, &key);
        match sum(there(&self.pairs, &self.changes, place, &key), delta) {
            Some(number) => {
                let value = Value::of_number(alloc, number);
                set_at(&mut self.pairs, &mut self.changes, place, key, value)
            }
            None => Ok(()),
        }
    }

    // Removes a key: its pair stays, and its absence is noted.
    fn remove(&mut self, key: Key) -> Result<(), AllocError>
        ensures { OnOk result (self.new ≡ map.remove self.old key) }
    {
        match self.samples.place(&self.pairs, &key) {
            Ok(_) => note(&mut self.changes, key, None),
            Err(_) => {
                forget(&mut self.changes, key);
                Ok(())
            }
        }
    }
}

// Sets the value of a key, whose pair is at this place, or which has none: in place, if it has one.
fn set_at(
    pairs: &mut Vec<(Key, Value)>,
    changes: &mut BTreeMap<Key, Option<Value>>,
    place: Result<usize, usize>,
    key: Key,
    value: Value,
) -> Result<(), AllocError>
    requires rise { KeysRise pairs.old.items }
    requires at { IfOk place (IsAt pairs.old.items key) }
    requires gap { IfErr place (IsGap pairs.old.items key) }
    ensures rise { KeysRise pairs.new.items }
    ensures set { OnOk result (overlaid (database_of pairs.new.items) changes.new.entries ≡ map.insert (overlaid (database_of pairs.old.items) changes.old.entries) key value) }
{
    match place {
        Ok(i) => {
            replace(pairs, i, &key, value);
            forget(changes, key);
            Ok(())
        }
        Err(_) => note(changes, key, Some(value)),
    }
}

// The content of a key whose pair is at this place, or which has none.
fn there<'a>(
    pairs: &'a [(Key, Value)],
    changes: &'a BTreeMap<Key, Option<Value>>,
    place: Result<usize, usize>,
    key: &Key,
) -> Option<&'a Value>
    requires rise { KeysRise pairs.now }
    requires at { IfOk place (IsAt pairs.now key.now) }
    requires gap { IfErr place (IsGap pairs.now key.now) }
    ensures { option_copied result ≡ map.get (overlaid (database_of pairs.now) changes.now.entries) key.now }
{
    match changes.get(key) {
        Some(content) => content.as_ref(),
        None => match place {
            Ok(i) => Some(&pairs[i].1),
            Err(_) => None,
        },
    }
}

// Puts the value into the key's pair.
fn replace(pairs: &mut Vec<(Key, Value)>, i: usize, key: &Key, value: Value)
    requires { IsAt pairs.old.items key.now i }
    ensures { pairs.new.items ≡ put_entry key_cmp key.now value pairs.old.items }
{
    pairs[i].1 = value;
}

// Notes that the key is set or absent.
fn note(
    changes: &mut BTreeMap<Key, Option<Value>>,
    key: Key,
    content: Option<Value>,
) -> Result<(), AllocError>
    ensures { OnOk result (Updates key_cmp changes.old changes.new key (Some content)) }
{
    match changes.insert(key, content) {
        Ok(_) => Ok(()),
        Err(_) => Err(AllocError),
    }
}

// The key is as the pairs say.
fn forget(changes: &mut BTreeMap<Key, Option<Value>>, key: Key)
    ensures { Updates key_cmp changes.old changes.new key None }
{
    changes.remove(&key);
}

// The pairs with the changes laid over: both are gone through together, from the least key up.
fn merged(
    alloc: Global,
    pairs: Vec<(Key, Value)>,
    changes: BTreeMap<Key, Option<Value>>,
) -> Result<Vec<(Key, Value)>, AllocError>
    requires { KeysRise pairs.items }
    ensures rise { IfOk result (λ out. KeysRise out.items) }
    ensures overlaid { IfOk result (λ out. database_of out.items ≡ overlaid (database_of pairs.items) changes.entries) }
{
    let mut out = Vec::with_capacity(alloc, pairs.len() + changes.len())?;
    for item in pairs
        .into_iter()
        .merge_join_by(changes, |pair, change| pair.0.compare(&change.0))
    {
        if let Some(pair) = overlaid_item(item) {
            out.push(pair)?;
        }
    }
    Ok(out)
}

// The content of a key once its change, if any, is applied to its pair, if any.
fn overlaid_item(item: EitherOrBoth<(Key, Value), (Key, Option<Value>)>) -> Option<(Key, Value)>
    ensures { with_item overlaid_there item [] ≡ option_to_list result }
{
    match item {
        EitherOrBoth::Left(pair) => Some(pair),
        EitherOrBoth::Right(change) => changed(change.0, change.1),
        EitherOrBoth::Both(pair, change) => changed(pair.0, change.1),
    }
}

// The key with its new value; nothing if it is removed.
fn changed(key: Key, content: Option<Value>) -> Option<(Key, Value)>
    ensures { with_content key content [] ≡ option_to_list result }
{
    content.map(|value| (key, value))
}
