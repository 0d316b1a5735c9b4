//! The two sets.
ghost use Rattle.std.specs.Prelude.{◌≡◌, ◌<◌, ◌+◌, ◌^◌, ◌∷◌, ◌++◌, ◌↔◌, [], false, ℕ, List, length, IsTrue};
ghost use Rattle.pc_chain.specs.Chains.{first_of, rest_of, Avoids};
ghost use Rattle.pc_dirty.specs.Sets.{other_side, place_on_side, AreSets, AreEmpty};

use crate::side::{Side, SideSlot};
use pc_chain::{Chain, Links};
use pc_types::SlotId;

/// Two sets of slots, the open one and the closed one; a slot can be in both. Each is a list without repeats, in the order of first
/// addition. The sets have their ends alone: each slot's links, one on either side, are kept by the keeper that is given at each
/// call, in the words that the call's marker `K` names. No call takes memory, none but `in_open`, `in_closed` and `add` goes over the
/// slots, and each succeeds.
#[derive(Clone, Copy)]
pub struct Dirty {
    opened: Chain<SideSlot>,
    closed: Chain<SideSlot>,
    side: Side,
    open_count: u32,
    closed_count: u32,
}

impl Dirty {
    /// Two empty sets, over any links.
    pub fn new() -> Self
        ensures { AreEmpty result }
    {
        Dirty {
            opened: Chain::new(),
            closed: Chain::new(),
            side: Side::First,
            open_count: 0,
            closed_count: 0,
        }
    }

    /// The side of the open set; the closed one is on the other.
    pub fn open_side(&self) -> Side
        ensures { result ≡ self.now.side }
    {
        let Dirty { side, .. } = *self;
        side
    }

    /// Whether a slot is in the open set. It goes along the set, up to all of its slots: the keeper of the links may know it without
    /// that.
    #[tactic(auto, using(crate::proofs::Changing::none_told))]
    pub fn in_open<K, L: Links<K, Id = SideSlot>>(&self, links: &L, slot: SlotId) -> bool
        requires { (opened closed : List ℕ) × AreSets (L.has links.now) (L.next_of links.now) self.now opened closed }
        ensures { (opened closed : List ℕ) → AreSets (L.has links.now) (L.next_of links.now) self.now opened closed → (result ≡ false) ↔ Avoids slot opened }
    {
        if self.open_len(links) == 0 {
            return false;
        }
        let side = self.side;
        self.opened.contains(links, SideSlot { slot, side })
    }

    /// Whether a slot is in the closed set. It goes along the set, up to all of its slots: the keeper of the links may know it
    /// without that.
    #[tactic(auto, using(crate::proofs::Changing::none_told))]
    pub fn in_closed<K, L: Links<K, Id = SideSlot>>(&self, links: &L, slot: SlotId) -> bool
        requires { (opened closed : List ℕ) × AreSets (L.has links.now) (L.next_of links.now) self.now opened closed }
        ensures { (opened closed : List ℕ) → AreSets (L.has links.now) (L.next_of links.now) self.now opened closed → (result ≡ false) ↔ Avoids slot closed }
    {
        if self.closed_len(links) == 0 {
            return false;
        }
        let side = self.side.other();
        self.closed.contains(links, SideSlot { slot, side })
    }

    /// Adds a slot at the end of the open set; if the set has it, all stays as it is. It looks for the slot along the set
    /// (`in_open`); `add_new` doesn't.
    pub fn add<K, L: Links<K, Id = SideSlot>>(&mut self, links: &mut L, slot: SlotId)
        requires has { L.has links.old (place_on_side self.old.side slot) }
        requires stands { (opened closed : List ℕ) × AreSets (L.has links.old) (L.next_of links.old) self.old opened closed × (length opened + 1 < 2 ^ 32) }
        ensures added { (opened closed : List ℕ) → AreSets (L.has links.old) (L.next_of links.old) self.old opened closed → Avoids slot opened → AreSets (L.has links.new) (L.next_of links.new) self.new (opened ++ slot ∷ []) closed }
        ensures kept { (opened closed : List ℕ) → AreSets (L.has links.old) (L.next_of links.old) self.old opened closed → ¬ Avoids slot opened → (self.new ≡ self.old) × (links.new ≡ links.old) }
        ensures side { self.new.side ≡ self.old.side }
        ensures has { (other : SideSlot) → L.has links.old other → L.has links.new other }
        ensures beside { L.beside links.old links.new }
    {
        if !self.in_open(&*links, slot) {
            self.add_new(links, slot);
        }
    }

    /// Adds a slot, which isn't in the open set, at its end. No slot of the set is looked at.
    pub fn add_new<K, L: Links<K, Id = SideSlot>>(&mut self, links: &mut L, slot: SlotId)
        requires has { L.has links.old (place_on_side self.old.side slot) }
        requires stands { (opened closed : List ℕ) × AreSets (L.has links.old) (L.next_of links.old) self.old opened closed × Avoids slot opened × (length opened + 1 < 2 ^ 32) }
        ensures sets { (opened closed : List ℕ) → AreSets (L.has links.old) (L.next_of links.old) self.old opened closed → Avoids slot opened → AreSets (L.has links.new) (L.next_of links.new) self.new (opened ++ slot ∷ []) closed }
        ensures side { self.new.side ≡ self.old.side }
        ensures has { (other : SideSlot) → L.has links.old other → L.has links.new other }
        ensures beside { L.beside links.old links.new }
    {
        let side = self.side;
        self.open_count += 1;
        self.opened.push_back(links, SideSlot { slot, side });
    }

    /// Makes the open set the closed one, which has to be empty. The open set is then empty. The sides are turned, and no
    /// slot is looked at.
    pub fn close<K, L: Links<K, Id = SideSlot>>(&mut self, links: &L)
        requires { (opened : List ℕ) × AreSets (L.has links.now) (L.next_of links.now) self.old opened [] }
        ensures sets { (opened : List ℕ) → AreSets (L.has links.now) (L.next_of links.now) self.old opened [] → AreSets (L.has links.now) (L.next_of links.now) self.new [] opened }
        ensures side { self.new.side ≡ other_side self.old.side }
    {
        self.closed = self.opened;
        self.opened = Chain::new();
        self.closed_count = self.open_count;
        self.open_count = 0;
        self.side = self.side.other();
    }

    /// The first slot of the closed set; `None` if the set is empty.
    pub fn first_closed<K, L: Links<K, Id = SideSlot>>(&self, links: &L) -> Option<SlotId>
        ensures { (opened closed : List ℕ) → AreSets (L.has links.now) (L.next_of links.now) self.now opened closed → result ≡ first_of closed }
    {
        let place = self.closed.first(links)?;
        Some(place.slot)
    }

    /// Takes the first slot out of the closed set and returns it; `None` if the set is empty. No link changes.
    pub fn pop_closed<K, L: Links<K, Id = SideSlot>>(&mut self, links: &L) -> Option<SlotId>
        requires { (opened closed : List ℕ) × AreSets (L.has links.now) (L.next_of links.now) self.old opened closed }
        ensures given { (opened closed : List ℕ) → AreSets (L.has links.now) (L.next_of links.now) self.old opened closed → result ≡ first_of closed }
        ensures sets { (opened closed : List ℕ) → AreSets (L.has links.now) (L.next_of links.now) self.old opened closed → AreSets (L.has links.now) (L.next_of links.now) self.new opened (rest_of closed) }
        ensures side { self.new.side ≡ self.old.side }
    {
        let place = self.closed.pop_front(links)?;
        self.closed_count -= 1;
        Some(place.slot)
    }

    /// Whether the closed set has no slot.
    pub fn closed_is_empty<K, L: Links<K, Id = SideSlot>>(&self, links: &L) -> bool
        ensures { (opened closed : List ℕ) → AreSets (L.has links.now) (L.next_of links.now) self.now opened closed → IsTrue result ↔ (closed ≡ []) }
    {
        self.closed_len(links) == 0
    }

    /// How many slots are in the closed set; a count that is kept.
    pub fn closed_len<K, L: Links<K, Id = SideSlot>>(&self, _links: &L) -> u32
        ensures { (opened closed : List ℕ) → AreSets (L.has _links.now) (L.next_of _links.now) self.now opened closed → result ≡ length closed }
    {
        let Dirty { closed_count, .. } = *self;
        closed_count
    }

    /// How many slots are in the open set; a count that is kept.
    pub fn open_len<K, L: Links<K, Id = SideSlot>>(&self, _links: &L) -> u32
        ensures { (opened closed : List ℕ) → AreSets (L.has _links.now) (L.next_of _links.now) self.now opened closed → result ≡ length opened }
    {
        let Dirty { open_count, .. } = *self;
        open_count
    }
}
