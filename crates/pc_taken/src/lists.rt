//! Two lists of entries by key: one that only grows at its end, and a tree for what came out of order.
ghost use Rattle.std.specs.Prelude.{◌≡◌, ◌↔◌, IsTrue, IfOk, IfErr, OnOk, OnErr};
ghost use Rattle.std.specs.FinMap.{put as put_entry};
ghost use Rattle.pc_model.specs.Database.{KeysRise, key_cmp};
ghost use Rattle.pc_model.specs.Places.{IsAt, IsGap};
ghost use Rattle.pc_taken.specs.Takings.{IsAbove};

use crate::headed::Headed;
use pc_types::Value;
use std::alloc::AllocError;
use std::collections::BTreeMap;

// Whether the key is above those of all entries, which ascend by key.
pub(crate) fn is_above(entries: &[(Headed, Option<Value>)], key: &Headed) -> bool
    requires { KeysRise entries.now }
    ensures { IsTrue result ↔ IsAbove key.now entries.now }
{
    match entries.last() {
        Some(last) => last.0.compare(key).is_lt(),
        None => true,
    }
}

// The place of the key's entry, or else the place where one would go, in entries that ascend by key: a binary search.
pub(crate) fn place(entries: &[(Headed, Option<Value>)], key: &Headed) -> Result<usize, usize>
    requires { KeysRise entries.now }
    ensures at { IfOk result (IsAt entries.now key.now) }
    ensures gap { IfErr result (IsGap entries.now key.now) }
{
    entries.binary_search_by(|entry| entry.0.compare(key))
}

// Puts the entry into the tree. If an allocation failed the tree stays.
pub(crate) fn put_among(
    others: &mut BTreeMap<Headed, Option<Value>>,
    key: Headed,
    content: Option<Value>,
) -> Result<(), AllocError>
    ensures put { OnOk result (others.new.entries ≡ put_entry key_cmp key content others.old.entries) }
    ensures kept { OnErr result (others.new.entries ≡ others.old.entries) }
{
    match others.insert(key, content) {
        Ok(_) => Ok(()),
        Err(_) => Err(AllocError),
    }
}
