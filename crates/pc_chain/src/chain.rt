//! The chain itself: its two ends.
ghost use Rattle.std.specs.Prelude.{◌≡◌, ◌≢◌, ◌↔◌, ◌<◌, ◌^◌, ◌++◌, IsTrue, List, length, false, Some, None, IfSome};
ghost use Rattle.pc_chain.specs.Chains.{first_of, last_of, rest_of, Avoids, IsChain, IsEmpty, SetsLink, AddsLast, TakesBehind};

use crate::links::Links;

/// A list of ids, each linked to the one after it. The chain has its ends alone; the links are kept by the keeper that is given
/// at each call, in the word that the call's marker `K` names. Several chains may share a word, as long as no id is in two of
/// them, and chains over different words have nothing to do with each other. Whatever else the keeper has stays. No call takes
/// memory, and each succeeds.
#[derive(Clone, Copy)]
pub struct Chain<I> {
    first: Option<I>,
    last: Option<I>,
}

impl<I: Copy> Chain<I> {
    /// The empty list, over any links.
    pub fn new() -> Self
        ensures { IsEmpty result }
    {
        Chain {
            first: None,
            last: None,
        }
    }

    /// The ends as they are kept, the first and the last, each None in the empty list: for a keeper of many chains that keeps
    /// them in fewer bytes.
    pub fn ends(&self) -> (Option<I>, Option<I>)
        ensures { result ≡ (self.now.first, self.now.last) }
    {
        let Chain { first, last } = *self;
        (first, last)
    }

    /// The chain that has these ends, which are those of a chain (`ends`).
    pub fn of_ends(first: Option<I>, last: Option<I>) -> Self
        ensures { result ≡ record { first = first; last = last } }
    {
        Chain { first, last }
    }

    /// The first id of the list.
    pub fn first<K, L: Links<K, Id = I>>(&self, links: &L) -> Option<I>
        ensures { (xs : List I) → IsChain (L.has links.now) (L.next_of links.now) self.now xs → result ≡ first_of xs }
    {
        let Chain { first, last: _ } = *self;
        first
    }

    /// Adds an id, which isn't in the list, at its end. Of the other ids only the links of those in the list may change, so
    /// that each chain without a common id stays the list that it was.
    pub fn push_back<K, L: Links<K, Id = I>>(&mut self, links: &mut L, id: I)
        requires has { L.has links.old id }
        requires stands { (xs : List I) × IsChain (L.has links.old) (L.next_of links.old) self.old xs × Avoids id xs }
        ensures added { AddsLast (L.has links.old) (L.has links.new) (L.next_of links.old) (L.next_of links.new) self.old self.new id }
        ensures has { (other : I) → L.has links.old other → L.has links.new other }
        ensures beside { L.beside links.old links.new }
    {
        links.set_next(id, None);
        link(links, self.last, id);
        self.first = self.first.or(Some(id));
        self.last = Some(id);
    }

    /// Takes the first id out of the list and returns it; `None` if the list is empty. No link changes.
    pub fn pop_front<K, L: Links<K, Id = I>>(&mut self, links: &L) -> Option<I>
        requires { (xs : List I) × IsChain (L.has links.now) (L.next_of links.now) self.old xs }
        ensures given { (xs : List I) → IsChain (L.has links.now) (L.next_of links.now) self.old xs → result ≡ first_of xs }
        ensures list { (xs : List I) → IsChain (L.has links.now) (L.next_of links.now) self.old xs → IsChain (L.has links.now) (L.next_of links.now) self.new (rest_of xs) }
    {
        let id = self.first?;
        self.first = links.next(id);
        if self.first.is_none() {
            self.last = None;
        }
        Some(id)
    }

    /// Takes the id after `previous` out of the list, the first one if `previous` is `None`, and returns it; `None` if there is
    /// no such id. Only the link of `previous` changes, so that each chain without it stays the list that it was.
    pub fn unlink_after<K, L: Links<K, Id = I>>(
        &mut self,
        links: &mut L,
        previous: Option<I>,
    ) -> Option<I>
        requires { (before rest : List I) × IsChain (L.has links.old) (L.next_of links.old) self.old (before ++ rest) × (previous ≡ last_of before) }
        ensures taken { TakesBehind (L.has links.old) (L.has links.new) (L.next_of links.old) (L.next_of links.new) self.old self.new previous result }
        ensures has { (other : I) → L.has links.old other → L.has links.new other }
        ensures beside { L.beside links.old links.new }
    {
        match previous {
            None => self.pop_front(&*links),
            Some(before) => self.unlink_behind(links, before),
        }
    }

    // The same after an id of the list.
    fn unlink_behind<K, L: Links<K, Id = I>>(&mut self, links: &mut L, previous: I) -> Option<I>
        requires { (before rest : List I) × IsChain (L.has links.old) (L.next_of links.old) self.old (before ++ rest) × (Some previous ≡ last_of before) }
        ensures given { (before rest : List I) → IsChain (L.has links.old) (L.next_of links.old) self.old (before ++ rest) → Some previous ≡ last_of before → result ≡ first_of rest }
        ensures list { (before rest : List I) → IsChain (L.has links.old) (L.next_of links.old) self.old (before ++ rest) → Some previous ≡ last_of before → IsChain (L.has links.new) (L.next_of links.new) self.new (before ++ rest_of rest) }
        ensures links { (other : I) → Some previous ≢ Some other → L.next_of links.new other ≡ L.next_of links.old other }
        ensures has { (other : I) → L.has links.old other → L.has links.new other }
        ensures beside { L.beside links.old links.new }
    {
        let id = links.next(previous)?;
        let next = links.next(id);
        links.set_next(previous, next);
        if next.is_none() {
            self.last = Some(previous);
        }
        Some(id)
    }
}

impl<I: Copy + PartialEq> Chain<I> {
    /// Whether the id is in the list, by going along the list up to it; the list has fewer than 2^64 ids, which `==`
    /// distinguishes.
    pub fn contains<K, L: Links<K, Id = I>>(&self, links: &L, id: I) -> bool
        requires told { (x y : I) → IsTrue (I.eq x y) ↔ (x ≡ y) }
        requires stands { (xs : List I) × IsChain (L.has links.now) (L.next_of links.now) self.now xs × (length xs < 2 ^ 64) }
        ensures { (xs : List I) → IsChain (L.has links.now) (L.next_of links.now) self.now xs → (result ≡ false) ↔ Avoids id xs }
    {
        let mut place = self.first;
        for _ in 0..u64::MAX {
            let Some(here) = place else {
                return false;
            };
            if here == id {
                return true;
            }
            place = links.next(here);
        }
        false
    }
}

// If there is a last id, it leads to this one.
fn link<K, L: Links<K>>(links: &mut L, last: Option<<L as Links<K>>::Id>, id: <L as Links<K>>::Id)
    requires { IfSome last (L.has links.old) }
    ensures sets { SetsLink last (Some id) (L.next_of links.old) (L.next_of links.new) }
    ensures has { (other : L.Id) → L.has links.old other → L.has links.new other }
    ensures beside { L.beside links.old links.new }
{
    if let Some(last) = last {
        links.set_next(last, Some(id));
    }
}
