//! Which pairs of a database are written, and how.
ghost use Rattle.std.specs.Prelude.{◌≡◌, filter};
ghost use Rattle.pc_pairs.specs.Dumps.{chosen, is_chosen, is_in_space};

use crate::form::Form;
use pc_types::{Key, Point, Value};

/// Which pairs are written, and how: those of this point's state, if one is given, and otherwise all that is recovered; of them those
/// whose key is of this space, if one is given, and has own bytes that begin with these.
#[derive(Clone, Copy, Debug)]
pub struct Choice<'a> {
    /// The point; `None` chooses all that is recovered.
    pub point: Option<Point>,
    /// The space; `None` chooses the keys of all spaces.
    pub space: Option<u16>,
    /// The bytes with which a key's own bytes begin. No bytes choose all.
    pub prefix: &'a [u8],
    /// How each is written.
    pub form: Form,
}

impl Choice<'_> {
    /// The pairs that are chosen, in their order.
    pub(crate) fn keep(&self, pairs: &mut Vec<(Key, Value)>)
        ensures { pairs.new.items ≡ chosen self.now pairs.old.items }
    {
        pairs.retain(|pair| self.has(pair));
    }

    fn has(&self, pair: &(Key, Value)) -> bool
        ensures { result ≡ is_chosen self.now pair.now }
    {
        let key = &pair.0;
        is_in_space(self.space, key.space()) && key.own_bytes().starts_with(self.prefix)
    }
}

// Whether a space is the one that is given, or none is.
fn is_in_space(wanted: Option<u16>, space: u16) -> bool
    ensures { result ≡ is_in_space wanted space }
{
    match wanted {
        Some(wanted) => wanted == space,
        None => true,
    }
}
