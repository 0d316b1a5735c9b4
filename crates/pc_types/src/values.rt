//! Values: texts of bytes, of which up to 16 lie inline and take no memory.
ghost use Rattle.std.specs.Prelude.{◌≡◌, ◌≤◌, ◌↔◌, length, IsOk, IfErr, IfOk, OnOk};
ghost use Rattle.std.specs.Ordering.{nat_cmp, eq_by_cmp};
ghost use Rattle.std.specs.Cmp.Lexicographic.{slice_cmp};
ghost use Rattle.pc_types.specs.Limits.{IsValue};
ghost use Rattle.pc_types.specs.Changes.{number_text};

use crate::limits::MOST_VALUE_BYTES;
use crate::refusal::Refusal;
use smallvec::SmallVec;
use std::alloc::{AllocError, Global};
use std::marker::Model;

/// A value: at most 65,535 bytes, of which up to 16 lie inline.
#[derive(Drop)]
pub struct Value {
    bytes: SmallVec<u8, 16>,
}

impl Model for Value {
    ghost use Rattle.std.specs.Prelude.{ℕ, List};
    ghost use Rattle.pc_types.specs.Limits.{IsValue};

    ghost Value = { List ℕ };

    ghost view = { λ v. v.bytes.items };

    ghost invariant = { λ v. IsValue v.bytes.items };
}

impl Value {
    /// The value of these bytes. Returns `ValueLength` if and only if there are more than 65,535; otherwise the only error
    /// is `OutOfMemory`, never for up to 16 bytes.
    pub fn new(alloc: Global, bytes: &[u8]) -> Result<Value, Refusal>
        ensures value { IfOk result (λ value. value ≡ bytes.now) }
        ensures in_limits { OnOk result (IsValue bytes.now) }
        ensures length { (result ≡ Err Refusal.ValueLength) ↔ (¬ IsValue bytes.now) }
        ensures memory { IsValue bytes.now → IfErr result (λ e. e ≡ Refusal.OutOfMemory) }
        ensures inline { length bytes.now ≤ 16 → IsOk result }
    {
        if bytes.len() > MOST_VALUE_BYTES {
            return Err(Refusal::ValueLength);
        }
        match SmallVec::from_slice(alloc, bytes) {
            Ok(bytes) => Ok(Value { bytes }),
            Err(_) => Err(Refusal::OutOfMemory),
        }
    }

    /// The value that represents a number: its eight bytes in two's complement, the highest first. It allocates no memory.
    pub fn of_number(alloc: Global, number: i64) -> Value
        ensures { result ≡ number_text number }
    {
        match Value::new(alloc, &number.to_be_bytes()) {
            Ok(value) => value,
            Err(_) => unreachable!(),
        }
    }

    /// Its bytes, at most 65,535.
    pub fn as_bytes(&self) -> &[u8]
        ensures bytes { result.now ≡ self.now }
        ensures in_limits { IsValue self.now }
    {
        self.bytes.as_slice()
    }

    /// Whether the values are the same.
    pub fn is(&self, other: &Value) -> bool
        ensures { result ≡ eq_by_cmp (slice_cmp nat_cmp) self.now other.now }
    {
        self.as_bytes() == other.as_bytes()
    }

    /// A copy of the value. It allocates memory only for more than 16 bytes.
    pub fn copy(&self, alloc: Global) -> Result<Value, AllocError>
        ensures copy { IfOk result (λ value. value ≡ self.now) }
        ensures inline { length self.now ≤ 16 → IsOk result }
    {
        let bytes = SmallVec::from_slice(alloc, self.as_bytes())?;
        Ok(Value { bytes })
    }
}

/// A copy of what a key has, a value or nothing. It allocates memory only for a value of more than 16 bytes, and fails
/// only if that allocation fails.
pub fn copy_content(alloc: Global, content: &Option<Value>) -> Result<Option<Value>, AllocError>
    ensures { IfOk result (λ copy. copy ≡ content.now) }
{
    match content {
        Some(value) => Ok(Some(value.copy(alloc)?)),
        None => Ok(None),
    }
}
