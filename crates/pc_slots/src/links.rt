//! The links of a slot to others, one on either side of the two sets.
ghost use Rattle.std.specs.Prelude.{◌≡◌};
ghost use Rattle.pc_slots.specs.Words.{place_at, linked_slot, linked_side};

use crate::cells::Cell;
use pc_dirty::{Side, SideSlot};
use pc_types::SlotId;

// The slot on the side that a link leads to.
fn place_at(slot: SlotId, leads_to: Option<Side>) -> Option<SideSlot>
    ensures { result ≡ place_at slot leads_to }
{
    match leads_to {
        Some(side) => Some(SideSlot { slot, side }),
        None => None,
    }
}

// The slot that a link leads to, 0 if it leads to none, and the side.
fn parts_of(link: Option<SideSlot>) -> (SlotId, Option<Side>)
    ensures { result ≡ (linked_slot link, linked_side link) }
{
    match link {
        Some(place) => (place.slot, Some(place.side)),
        None => (SlotId(0), None),
    }
}

impl Cell {
    ghost use Rattle.std.specs.Prelude.{◌≡◌};
    ghost use Rattle.pc_slots.specs.Words.{link_of, with_link};

    /// The slot and the side to which the link of the side leads; `None` if it leads to none.
    pub fn link(&self, side: Side) -> Option<SideSlot>
        ensures { result ≡ link_of side self.now }
    {
        match side {
            Side::First => place_at(self.first_next, self.first.leads_to),
            Side::Second => place_at(self.second_next, self.second.leads_to),
        }
    }

    /// Sets the link of the side, and nothing else.
    pub fn put_link(&mut self, side: Side, link: Option<SideSlot>)
        ensures { self.new ≡ with_link side link self.old }
    {
        let (slot, leads_to) = parts_of(link);
        match side {
            Side::First => {
                self.first_next = slot;
                self.first.leads_to = leads_to;
            }
            Side::Second => {
                self.second_next = slot;
                self.second.leads_to = leads_to;
            }
        }
    }
}
