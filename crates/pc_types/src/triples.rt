//! Triples: what files have of a key.
ghost use Rattle.std.specs.Prelude.{◌≡◌, IfOk};

use crate::keys::Key;
use crate::numbers::Point;
use crate::values::{Value, copy_content};
use std::alloc::{AllocError, Global};

/// A triple of a file: a key, a point, and what the key had there, a value or nothing.
#[derive(Drop)]
pub struct Triple {
    pub key: Key,
    pub point: Point,
    pub content: Option<Value>,
}

impl Triple {
    /// A copy of the triple. It fails only if an allocation fails.
    pub fn copy(&self, alloc: Global) -> Result<Triple, AllocError>
        ensures { IfOk result (λ copy. copy ≡ self.now) }
    {
        let key = self.key.copy(alloc)?;
        let content = copy_content(alloc, &self.content)?;
        Ok(Triple {
            key,
            point: self.point,
            content,
        })
    }
}
