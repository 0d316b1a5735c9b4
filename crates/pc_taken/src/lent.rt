//! Triples that borrow their keys and contents in place.
ghost use Rattle.std.specs.Prelude.{◌≡◌, IfOk};

use pc_types::{Key, Point, Triple, Value, copy_content};
use std::alloc::{AllocError, Global};
use std::marker::Model;

/// A borrowed triple of a file. A contract sees the triple.
#[derive(Drop)]
pub struct LentTriple<'a> {
    pub key: &'a Key,
    pub point: Point,
    /// The content of the key at the point, a value or nothing.
    pub content: &'a Option<Value>,
}

impl<'a> Model for LentTriple<'a> {
    ghost use Rattle.pc_types.specs.declared.Triple.{Triple};

    ghost Value = { Triple };

    ghost view = { λ t. record { key = t.key.now; point = t.point; content = t.content.now } };
}

impl<'a> LentTriple<'a> {
    pub(crate) fn of(triple: &'a Triple) -> LentTriple<'a>
        ensures { result ≡ triple.now }
    {
        LentTriple {
            key: &triple.key,
            point: triple.point,
            content: &triple.content,
        }
    }

    /// A triple of its own. It fails only if an allocation fails.
    pub fn copy(&self, alloc: Global) -> Result<Triple, AllocError>
        ensures { IfOk result (λ copy. copy ≡ self.now) }
    {
        let key = self.key.copy(alloc)?;
        let content = copy_content(alloc, self.content)?;
        Ok(Triple {
            key,
            point: self.point,
            content,
        })
    }
}
