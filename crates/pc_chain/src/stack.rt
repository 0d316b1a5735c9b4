//! The stack: a list that has its first id alone.
ghost use Rattle.std.specs.Prelude.{◌≡◌, ◌≢◌, ◌↔◌, ◌<◌, ◌^◌, IsTrue, ◌∷◌, ◌++◌, List, length, None};
ghost use Rattle.pc_chain.specs.Chains.{first_of, last_of, Avoids};
ghost use Rattle.pc_chain.specs.Stacks.{IsStack, TakesOut};

use crate::links::Links;

/// A list of ids, each linked to the one after it, that is entered at its front. It has its first id alone, half of what a
/// chain has; an id that is taken out is looked for from the front. As with a chain the links are kept by the keeper that is
/// given at each call, several stacks and chains may share a word as long as no id is in two of them, and whatever else the
/// keeper has stays. No call takes memory, and each succeeds.
#[derive(Clone, Copy)]
pub struct Stack<I> {
    first: Option<I>,
}

impl<I: Copy> Stack<I> {
    /// The empty list, over any links.
    pub fn new() -> Self
        ensures { result.first ≡ None }
    {
        Stack { first: None }
    }

    /// The first id of the list.
    pub fn first<K, L: Links<K, Id = I>>(&self, links: &L) -> Option<I>
        ensures { (xs : List I) → IsStack (L.has links.now) (L.next_of links.now) self.now xs → result ≡ first_of xs }
    {
        let Stack { first } = *self;
        first
    }

    /// Adds an id, which isn't in the list, at its front. Of all links only that of the id changes, so that each stack without
    /// it stays the list that it was.
    pub fn push_front<K, L: Links<K, Id = I>>(&mut self, links: &mut L, id: I)
        requires { L.has links.old id }
        ensures list { (xs : List I) → IsStack (L.has links.old) (L.next_of links.old) self.old xs → Avoids id xs → IsStack (L.has links.new) (L.next_of links.new) self.new (id ∷ xs) }
        ensures links { (other : I) → other ≢ id → L.next_of links.new other ≡ L.next_of links.old other }
        ensures others { (ys : List I) (other : Stack I) → IsStack (L.has links.old) (L.next_of links.old) other ys → Avoids id ys → IsStack (L.has links.new) (L.next_of links.new) other ys }
        ensures has { (other : I) → L.has links.old other → L.has links.new other }
        ensures beside { L.beside links.old links.new }
    {
        links.set_next(id, self.first);
        self.first = Some(id);
    }
}

impl<I: Copy + PartialEq> Stack<I> {
    /// Takes the id, which is in the list, out of it, by going along the list up to it; the list has fewer than 2^64 ids, which
    /// `==` distinguishes. Only the link of the id before it changes, so that each stack without a common id stays the list
    /// that it was.
    pub fn unlink<K, L: Links<K, Id = I>>(&mut self, links: &mut L, id: I)
        requires told { (x y : I) → IsTrue (I.eq x y) ↔ (x ≡ y) }
        requires stands { (before rest : List I) × IsStack (L.has links.old) (L.next_of links.old) self.old (before ++ id ∷ rest) × (length (before ++ id ∷ rest) < 2 ^ 64) }
        ensures taken { TakesOut (L.has links.old) (L.has links.new) (L.next_of links.old) (L.next_of links.new) self.old self.new id }
        ensures has { (other : I) → L.has links.old other → L.has links.new other }
        ensures beside { L.beside links.old links.new }
    {
        let next = links.next(id);
        match self.before(&*links, id) {
            None => self.first = next,
            Some(previous) => links.set_next(previous, next),
        }
    }

    // The id before this one, which is in the list; `None` if it is the first.
    fn before<K, L: Links<K, Id = I>>(&self, links: &L, id: I) -> Option<I>
        requires told { (x y : I) → IsTrue (I.eq x y) ↔ (x ≡ y) }
        requires stands { (before rest : List I) × IsStack (L.has links.now) (L.next_of links.now) self.now (before ++ id ∷ rest) × (length (before ++ id ∷ rest) < 2 ^ 64) }
        ensures { (before rest : List I) → IsStack (L.has links.now) (L.next_of links.now) self.now (before ++ id ∷ rest) → result ≡ last_of before }
    {
        let mut previous = None;
        let mut place = self.first;
        for _ in 0..u64::MAX {
            let Some(here) = place else {
                return previous;
            };
            if here == id {
                return previous;
            }
            previous = Some(here);
            place = links.next(here);
        }
        previous
    }
}
