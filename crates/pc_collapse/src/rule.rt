//! The rule of the bag: the files in it and in the collapsers' hands together represent the given files.
use crate::piece::{Given, Piece};
use crossbeam_queue::RuledArrayQueue;
use crossbeam_queue::protocol::{Join, Lesson, Outcome, Protocol, Split};
use pc_part::Part;
use std::collections::LinkedList;
use std::marker::PhantomData;

// The file that a collapser holds, and its parts of the right to know the whole. No value of it is made.
pub(crate) struct Hand {
    pub(crate) parts: u64,
    pub(crate) held: LinkedList<Part>,
}

// The rule. The first hand holds all the given files, which then go into the bag.
pub(crate) struct InBag<G> {
    of: PhantomData<G>,
}

impl<G: Given> Protocol<Piece<G>, Hand> for InBag<G> {
    ghost use Rattle.pc_collapse.specs.Bags.{Bagged, hand, all_parts};

    ghost holds = { λ items views. Bagged G.files items views };

    ghost first = { hand all_parts G.files };
}

// A collapser gets its hand, and returns it back.
pub(crate) struct Shares;

impl Split<Hand> for Shares {
    ghost use Rattle.std.specs.Prelude.{[], ◌-◌};
    ghost use Rattle.pc_collapse.specs.Bags.{hand};

    ghost left = { λ v. hand (v.parts - 1) v.held };

    ghost right = { λ v. hand 1 [] };
}

impl Join<Hand> for Shares {
    ghost use Rattle.std.specs.Prelude.{[], ◌+◌};
    ghost use Rattle.pc_collapse.specs.Bags.{hand};

    ghost both = { λ v w. hand (v.parts + w.parts) v.held };

    ghost spent = { hand 0 [] };
}

// A file is taken: what is held then is of the given files.
pub(crate) struct TakesFile<G> {
    of: PhantomData<G>,
}

impl<G: Given> Outcome<Piece<G>, Hand> for TakesFile<G> {
    ghost use Rattle.std.specs.Prelude.{◌≡◌, ◌∷◌};
    ghost use Rattle.pc_collapse.specs.Bags.{hand};
    ghost use Rattle.pc_collapse.specs.Worth.{AreFactsGiven};

    ghost then = { λ v x w. (w ≡ hand v.parts (x ∷ v.held)) × AreFactsGiven G.files (x ∷ v.held) };
}

impl<G: Given> Lesson<Piece<G>, Hand> for TakesFile<G> {
    ghost fact = { λ v items. Unit {0} };
}

// A file is taken by the one who knows the whole.
pub(crate) struct Drains<G> {
    of: PhantomData<G>,
}

impl<G: Given> Outcome<Piece<G>, Hand> for Drains<G> {
    ghost use Rattle.std.specs.Prelude.{◌≡◌, ◌++◌, ◌∷◌, []};
    ghost use Rattle.pc_collapse.specs.Bags.{hand};

    ghost then = { λ v x w. w ≡ hand v.parts (v.held ++ x ∷ []) };
}

impl<G: Given> Lesson<Piece<G>, Hand> for Drains<G> {
    ghost use Rattle.std.specs.Prelude.{◌++◌};
    ghost use Rattle.pc_collapse.specs.Worth.{AreWorth};

    ghost fact = { λ v items. AreWorth G.files (items ++ v.held) };
}

// The file that is held is put in as one file.
pub(crate) struct PutsFile<G> {
    of: PhantomData<G>,
}

impl<G: Given> Outcome<Piece<G>, Hand> for PutsFile<G> {
    ghost use Rattle.std.specs.Prelude.{◌≡◌, []};
    ghost use Rattle.pc_collapse.specs.Bags.{hand};

    ghost then = { λ v x w. w ≡ hand v.parts [] };
}

impl<G: Given> Lesson<Piece<G>, Hand> for PutsFile<G> {
    ghost use Rattle.std.specs.Prelude.{◌<◌, length};

    ghost fact = { λ v items. length items < length G.files };
}

// The file that was taken last is put back.
pub(crate) struct PutsBack<G> {
    of: PhantomData<G>,
}

impl<G: Given> Outcome<Piece<G>, Hand> for PutsBack<G> {
    ghost use Rattle.std.specs.Prelude.{◌≡◌};
    ghost use Rattle.pc_collapse.specs.Bags.{hand, held_without_last};

    ghost then = { λ v x w. w ≡ hand v.parts (held_without_last v.held) };
}

impl<G: Given> Lesson<Piece<G>, Hand> for PutsBack<G> {
    ghost use Rattle.std.specs.Prelude.{◌<◌, length};

    ghost fact = { λ v items. length items < length G.files };
}

pub(crate) type Bag<G> = RuledArrayQueue<Piece<G>, Hand, InBag<G>>;

pub(crate) type BagPass<G> = crossbeam_queue::Pass<Piece<G>, Hand>;
