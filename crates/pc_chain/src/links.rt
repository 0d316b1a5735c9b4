//! The keeper of links.
ghost use Rattle.std.specs.Prelude.{◌≡◌, ◌≢◌, Option};

/// Keeps a link for each of its ids: to another id, or to none. One keeper may have several links for an id, in words of
/// their own; each word has a marker `K`, a type that distinguishes it from the others.
pub trait Links<K> {
    /// The name of a place.
    type Id: Copy;

    /// The id has a link here.
    ghost has: { Self → Self.Id → Type 0 };

    /// The id to which the id's link leads.
    ghost next_of: { Self → Self.Id → Option Self.Id };

    /// All that the first keeps besides the links of this word is in the second as it was.
    ghost beside: { Self → Self → Type 0 };

    /// The id to which the id's link leads.
    fn next(&self, id: Self::Id) -> Option<Self::Id>
        requires { has self.now id }
        ensures { result ≡ next_of self.now id };

    /// Sets the id's link. What is set is read; all other links stay, and so does all that is kept besides them.
    fn set_next(&mut self, id: Self::Id, next: Option<Self::Id>)
        requires { has self.old id }
        ensures set { next_of self.new id ≡ next }
        ensures others { (other : Self.Id) → other ≢ id → next_of self.new other ≡ next_of self.old other }
        ensures has { (other : Self.Id) → has self.old other → has self.new other }
        ensures beside { beside self.old self.new };

    /// If nothing changed, all is as it was.
    ghost beside_same: { (a : Self) → beside a a };

    /// The relation is transitive.
    ghost beside_then: { (a b c : Self) → beside a b → beside b c → beside a c };
}
