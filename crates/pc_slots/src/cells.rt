//! The record of a key in its slot.
ghost use Rattle.std.specs.Prelude.{◌≡◌};
ghost use Rattle.pc_slots.specs.Slots.{base_cell};

use crate::versions::Aside;
use crate::words::Mark;
use pc_chain::Blank;
use pc_dirty::Side;
use pc_types::{SlotId, Value};

/// The record of a key, without its requests.
#[derive(Drop)]
pub struct Cell {
    /// The content of the key's place, a value or absence: what an open transaction has written last, or else what is
    /// committed.
    pub live: Option<Value>,
    /// The data that an open transaction or a point needs besides that; none while nothing does.
    pub(crate) aside: Option<Box<Aside>>,
    /// The slots that the links of the two sides lead to, if they lead to one. From here on small fields are side by side, so
    /// that all of them and the ends of the queue take 32 bytes.
    pub(crate) first_next: SlotId,
    pub(crate) second_next: SlotId,
    /// The slot's other data of each side.
    pub(crate) first: Mark,
    pub(crate) second: Mark,
    /// Whether the queue of the slot's requests has a first and a last one, and which they are then.
    pub(crate) has_first: bool,
    pub(crate) has_last: bool,
    pub(crate) first_request: usize,
    pub(crate) last_request: usize,
}

impl Cell {
    ghost use Rattle.std.specs.Prelude.{◌≡◌};
    ghost use Rattle.pc_slots.specs.Words.{is_marked, with_mark};

    /// Whether the slot is in the set on the side: in the open set, if a commit since the last resolve token, or since the
    /// start, wrote its key; in the closed set, if its key is of the point, and not taken yet.
    pub(crate) fn is_in(&self, side: Side) -> bool
        ensures { result ≡ is_marked side self.now }
    {
        match side {
            Side::First => self.first.is_in,
            Side::Second => self.second.is_in,
        }
    }

    /// Marks whether the slot is in the set on the side.
    pub(crate) fn put_mark(&mut self, side: Side, is_in: bool)
        ensures { self.new ≡ with_mark side is_in self.old }
    {
        match side {
            Side::First => self.first.is_in = is_in,
            Side::Second => self.second.is_in = is_in,
        }
    }
}

impl Blank for Cell {
    ghost use Rattle.std.specs.Prelude.{None};
    ghost use Rattle.pc_slots.specs.Slots.{base_cell};

    ghost blank = { base_cell None };

    fn blank() -> Cell {
        cell_with(None)
    }
}

/// The record of a key that has this committed, a value or absence, and nothing else.
pub fn cell_with(content: Option<Value>) -> Cell
    ensures { result ≡ base_cell content }
{
    Cell {
        live: content,
        aside: None,
        first_next: SlotId(0),
        second_next: SlotId(0),
        first: Mark::blank(),
        second: Mark::blank(),
        has_first: false,
        has_last: false,
        first_request: 0,
        last_request: 0,
    }
}
