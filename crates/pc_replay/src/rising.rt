//! Entries in the order of their keys.
ghost use Rattle.std.specs.Prelude.{◌≡◌, Some, IfOk, OnOk};
ghost use Rattle.std.specs.BTreeMap.{Updates, IsOrdered};
ghost use Rattle.pc_model.specs.Maps.{from_list};
ghost use Rattle.pc_model.specs.Database.{key_cmp, key_order};

use pc_types::{Key, Value, copy_content};
use std::alloc::{AllocError, Global};
use std::collections::BTreeMap;

/// Copies of the entries, of each key the first one, ascending strictly by key. It fails only if an allocation fails.
pub fn first_of_each(
    alloc: Global,
    entries: &[(Key, Option<Value>)],
) -> Result<Vec<(Key, Option<Value>)>, AllocError>
    ensures { IfOk result (λ out. out.items ≡ (from_list {o = key_order} entries.now).entries) }
{
    let mut first = BTreeMap::new(alloc);
    for i in 0..entries.len() {
        let (key, content) = &entries[entries.len() - 1 - i];
        put(alloc, &mut first, key, content)?;
    }
    entries_in(alloc, first)
}

// Sets what the key has, to a copy.
fn put(
    alloc: Global,
    entries: &mut BTreeMap<Key, Option<Value>>,
    key: &Key,
    content: &Option<Value>,
) -> Result<(), AllocError>
    ensures { OnOk result (Updates key_cmp entries.old entries.new key.now (Some content.now)) }
{
    let key = key.copy(alloc)?;
    let content = copy_content(alloc, content)?;
    match entries.insert(key, content) {
        Ok(_) => Ok(()),
        Err(_) => Err(AllocError),
    }
}

// The entries, ascending by key.
fn entries_in(
    alloc: Global,
    entries: BTreeMap<Key, Option<Value>>,
) -> Result<Vec<(Key, Option<Value>)>, AllocError>
    ensures same { IfOk result (λ out. out.items ≡ entries.entries) }
    ensures ordered { IsOrdered key_cmp entries }
{
    let mut out = Vec::with_capacity(alloc, entries.len())?;
    for (key, content) in entries {
        out.push((key, content))?;
    }
    Ok(out)
}
