//! The two sides, and the places of slots on them.
ghost use Rattle.std.specs.Prelude.{◌≡◌};
ghost use Rattle.pc_dirty.specs.Sets.{other_side};

use pc_types::SlotId;

/// One of the two words of links that each slot has. The open set is linked by one of them, and the closed set by the other.
#[derive(Clone, Copy, PartialEq)]
pub enum Side {
    First,
    Second,
}

impl Side {
    /// The other side.
    pub fn other(self) -> Side
        ensures { result ≡ other_side self }
    {
        match self {
            Side::First => Side::Second,
            Side::Second => Side::First,
        }
    }
}

/// The name of a link: a slot, and a side.
#[derive(Clone, Copy, PartialEq)]
pub struct SideSlot {
    pub slot: SlotId,
    pub side: Side,
}
