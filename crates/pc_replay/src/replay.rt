//! Replay of a log, as the definition says it.
ghost use Rattle.std.specs.Prelude.{◌≡◌, ◌≤◌, length, take, IfOk, OnOk, OnErr};
ghost use Rattle.pc_types.specs.declared.Change.TheVariants.{Add};
ghost use Rattle.pc_model.specs.Maps as map;
ghost use Rattle.pc_model.specs.Database.{put, applied, applied_all, write_of};
ghost use Rattle.pc_model.specs.Log.{after, front, state_at};

use crate::pairs::Pairs;
use pc_types::{Change, Entry, Key, Phase, Point, Value, Write, sum};
use std::alloc::{AllocError, Global};

/// Sets the key to the value, or removes it.
pub(crate) fn put(
    alloc: Global,
    pairs: &mut Pairs,
    key: &Key,
    content: &Option<Value>,
) -> Result<(), AllocError>
    ensures ok { OnOk result (pairs.new ≡ put pairs.old key.now content.now) }
    ensures err { OnErr result (pairs.new ≡ pairs.old) }
{
    match content {
        Some(value) => set(alloc, pairs, key, value),
        None => {
            pairs.remove(key);
            Ok(())
        }
    }
}

// Sets the key to a copy of the value.
fn set(alloc: Global, pairs: &mut Pairs, key: &Key, value: &Value) -> Result<(), AllocError>
    ensures ok { OnOk result (pairs.new ≡ map.insert pairs.old key.now value.now) }
    ensures err { OnErr result (pairs.new ≡ pairs.old) }
{
    let key = key.copy(alloc)?;
    let value = value.copy(alloc)?;
    pairs.insert(key, value)
}

/// Applies one write.
pub fn apply(alloc: Global, pairs: &mut Pairs, write: &Write) -> Result<(), AllocError>
    ensures ok { OnOk result (pairs.new ≡ applied pairs.old write.now) }
    ensures err { OnErr result (pairs.new ≡ pairs.old) }
{
    match &write.change {
        Change::Set(value) => set(alloc, pairs, &write.key, value),
        Change::Remove => {
            pairs.remove(&write.key);
            Ok(())
        }
        Change::Add(delta) => add(alloc, pairs, &write.key, *delta),
    }
}

// Adds to the number that the key has; nothing changes if it has none, or the sum doesn't fit.
fn add(alloc: Global, pairs: &mut Pairs, key: &Key, delta: i64) -> Result<(), AllocError>
    ensures ok { OnOk result (pairs.new ≡ applied pairs.old (write_of key.now (Add delta))) }
    ensures err { OnErr result (pairs.new ≡ pairs.old) }
{
    match sum(pairs.get(key), delta) {
        Some(number) => {
            let key = key.copy(alloc)?;
            pairs.insert(key, Value::of_number(alloc, number))
        }
        None => Ok(()),
    }
}

// Applies the writes, in order.
fn apply_all(alloc: Global, pairs: &mut Pairs, writes: &[Write]) -> Result<(), AllocError>
    ensures { OnOk result (pairs.new ≡ applied_all pairs.old writes.now) }
{
    for write in writes {
        apply(alloc, pairs, write)?;
    }
    Ok(())
}

/// The database after the log.
pub fn after(alloc: Global, base: &Pairs, log: &[Entry]) -> Result<Pairs, AllocError>
    ensures { IfOk result (λ pairs. pairs ≡ after base.now log.now) }
{
    let mut pairs = base.copy(alloc)?;
    for entry in log {
        if let Entry::Commit(_, writes) = entry {
            apply_all(alloc, &mut pairs, writes.as_slice())?;
        }
    }
    Ok(pairs)
}

/// The number of entries before the point's token.
pub fn front_len(log: &[Entry], point: Point) -> usize
    ensures within { result ≤ length log.now }
    ensures front { take result log.now ≡ front point log.now }
{
    for (i, entry) in log.iter().enumerate() {
        if let Entry::Token(phase, n) = entry {
            if *phase == Phase::Resolve && *n == point {
                return i;
            }
        }
    }
    log.len()
}

/// The state of a point.
pub fn state_at(
    alloc: Global,
    base: &Pairs,
    log: &[Entry],
    point: Point,
) -> Result<Pairs, AllocError>
    ensures { IfOk result (λ pairs. pairs ≡ state_at base.now log.now point) }
{
    if point == Point(0) {
        return base.copy(alloc);
    }
    let n = front_len(log, point);
    after(alloc, base, &log[..n])
}
