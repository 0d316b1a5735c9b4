//! The writes of the open transaction.
ghost use Rattle.std.specs.Prelude.{◌≡◌, IfOk, option_copied};
ghost use Rattle.pc_types.specs.declared.Change.TheVariants.{Add};
ghost use Rattle.pc_types.specs.Changes.{change_to};
ghost use Rattle.pc_model.specs.Database.{write_of};
ghost use Rattle.pc_transactions.specs.Adds.{value_of_sum};

use pc_types::{Change, Key, Value, Write};
use std::alloc::{AllocError, Global};

// A write that sets the key to the value, or removes it, and what it leaves in the key's place, all of them copies.
pub(crate) fn content_write(
    alloc: Global,
    key: &Key,
    value: Option<&Value>,
) -> Result<(Write, Option<Value>), AllocError>
    ensures write { IfOk result (λ pair. pair.0 ≡ write_of key.now (change_to (option_copied value.entry))) }
    ensures left { IfOk result (λ pair. pair.1 ≡ option_copied value.entry) }
{
    let key = key.copy(alloc)?;
    let left = copied(alloc, value)?;
    let change = set_or_removed(copied(alloc, value)?);
    Ok((Write { key, change }, left))
}

// A write that adds to the key, and what it leaves in the key's place where there is this sum.
pub(crate) fn add_write(
    alloc: Global,
    key: &Key,
    delta: i64,
    sum: Option<i64>,
) -> Result<(Write, Option<Value>), AllocError>
    ensures write { IfOk result (λ pair. pair.0 ≡ write_of key.now (Add delta)) }
    ensures left { IfOk result (λ pair. pair.1 ≡ value_of_sum sum) }
{
    let key = key.copy(alloc)?;
    let left = sum.map(|number| Value::of_number(alloc, number));
    let change = Change::Add(delta);
    Ok((Write { key, change }, left))
}

// The change that sets a key to the value, or removes it.
fn set_or_removed(content: Option<Value>) -> Change
    ensures { result ≡ change_to content }
{
    match content {
        Some(value) => Change::Set(value),
        None => Change::Remove,
    }
}

// A copy of the value, if there is one.
fn copied(alloc: Global, value: Option<&Value>) -> Result<Option<Value>, AllocError>
    ensures { IfOk result (λ copy. copy ≡ option_copied value.entry) }
{
    match value {
        Some(value) => Ok(Some(value.copy(alloc)?)),
        None => Ok(None),
    }
}
