//! Writes, and what each does to its key.
ghost use Rattle.std.specs.Prelude.{◌≡◌, IfOk, option_copied, Some, true, is_some};
ghost use Rattle.pc_types.specs.Changes.{fits_i64, content_number, added, can_add, merged, CanMerge};
ghost use Rattle.pc_types.specs.declared.changes.Change.TheVariants.{Add};

use crate::keys::Key;
use crate::values::Value;
use std::alloc::{AllocError, Global};

/// The effect of a write on its key.
#[derive(Drop)]
pub enum Change {
    /// The key has this value then.
    Set(Value),
    /// The key has no value then.
    Remove,
    /// This is added to the number that the key has. A value of eight bytes is a number, in two's complement with the highest
    /// byte first, and no value counts as 0. If the key has another value, or the sum leaves 64 bits, nothing changes.
    Add(i64),
}

impl Change {
    /// A copy of the change. It allocates memory only for a value of more than 16 bytes, and fails only if that allocation
    /// fails.
    pub fn copy(&self, alloc: Global) -> Result<Change, AllocError>
        ensures { IfOk result (λ change. change ≡ self.now) }
    {
        match self {
            Change::Set(value) => Ok(Change::Set(value.copy(alloc)?)),
            Change::Remove => Ok(Change::Remove),
            Change::Add(delta) => Ok(Change::Add(*delta)),
        }
    }

    /// Whether an add after this change can be kept as one change with it: the sum of two adds must have 64 bits.
    pub fn can_add(&self, delta: i64) -> bool
        ensures { result ≡ can_add (Some self.now) delta }
    {
        match self {
            Change::Add(earlier) => earlier.checked_add(delta).is_some(),
            _ => true,
        }
    }

    /// A later change of the same key is merged with this one. It allocates no memory.
    pub fn merge(&mut self, alloc: Global, later: Change)
        requires { CanMerge (Some self.old) later }
        ensures { self.new ≡ merged self.old later }
    {
        match later {
            Change::Add(delta) => self.add(alloc, delta),
            other => *self = other,
        }
    }

    // An add is merged with this earlier change of its key.
    fn add(&mut self, alloc: Global, delta: i64)
        requires { can_add (Some self.old) delta ≡ true }
        ensures { self.new ≡ merged self.old (Add delta) }
    {
        match self {
            Change::Set(value) => {
                if let Some(number) = sum(Some(value), delta) {
                    *value = Value::of_number(alloc, number);
                }
            }
            Change::Remove => *self = Change::Set(Value::of_number(alloc, delta)),
            Change::Add(earlier) => *earlier += delta,
        }
    }
}

/// A number of 64 bits with a sign fits if one is asked for: its type says so, and nothing is done.
pub fn number_fits(number: i64)
    ensures { fits_i64 number ≡ true }
{
    let _ = number;
}

/// The number that a key has once this is added to what it has, a value or nothing; `None` if the value is no number, or the
/// sum leaves 64 bits.
pub fn sum(there: Option<&Value>, delta: i64) -> Option<i64>
    ensures { result ≡ added delta (option_copied there.entry) }
{
    match there {
        Some(value) => sum_with(value.as_bytes(), delta),
        None => Some(delta),
    }
}

/// Whether what a key has is a number: it is a value of eight bytes, or nothing, which counts as 0.
pub fn is_number(there: Option<&Value>) -> bool
    ensures { result ≡ is_some (content_number (option_copied there.entry)) }
{
    match there {
        Some(value) => value.as_bytes().len() == 8,
        None => true,
    }
}

// The same of a value.
fn sum_with(bytes: &[u8], delta: i64) -> Option<i64>
    ensures { result ≡ added delta (Some bytes.now) }
{
    match bytes {
        [a, b, c, d, e, f, g, h] => {
            i64::from_be_bytes([*a, *b, *c, *d, *e, *f, *g, *h]).checked_add(delta)
        }
        _ => None,
    }
}

/// A write of one key.
#[derive(Drop)]
pub struct Write {
    pub key: Key,
    pub change: Change,
}

impl Write {
    /// A copy of the write. It fails only if an allocation fails.
    pub fn copy(&self, alloc: Global) -> Result<Write, AllocError>
        ensures { IfOk result (λ write. write ≡ self.now) }
    {
        let key = self.key.copy(alloc)?;
        let change = self.change.copy(alloc)?;
        Ok(Write { key, change })
    }
}
