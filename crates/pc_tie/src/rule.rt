//! The rule that every atomic step on a store's word keeps, and the facts that each step gives.
use crate::noted::NotedStep;
use crate::sight::Sight;
use crate::start::Start;
use atomic_table::{Join, Play, Split, TableRule};

/// The word is read off one legal history, of which each seat knows a prefix. The rule's key is what the store starts
/// from.
pub struct OneHistory;

impl<S> TableRule<S, Sight, Start> for OneHistory {
    ghost use Rattle.std.specs.Prelude.{[]};
    ghost use Rattle.pc_tie.specs.declared.sight.Sight.TheVariants.{Whole};
    ghost use Rattle.pc_tie.specs.Rules.{HasOneHistory};

    ghost holds = { λ start state. HasOneHistory start state };

    ghost first = { λ start. Whole [] 0 [] };
}

/// The keeper adds a step to the history.
pub struct Append;

impl Play<NotedStep, Sight> for Append {
    ghost use Rattle.pc_tie.specs.Rules.{Applied};

    ghost then = { Applied };
}

/// The keeper looks at what the seats had seen that it has taken in.
pub struct Compare;

impl Play<NotedStep, Sight> for Compare {
    ghost use Rattle.pc_tie.specs.Rules.{Compared};

    ghost then = { Compared };
}

/// A seat is taken in by the keeper, and the one that came last leaves.
pub struct Visit;

impl Join<Sight> for Visit {
    ghost use Rattle.pc_tie.specs.declared.sight.Sight.TheVariants.{Gone};
    ghost use Rattle.pc_tie.specs.Rules.{with_guest};

    ghost both = { with_guest };

    ghost spent = { Gone };
}

impl Split<Sight> for Visit {
    ghost use Rattle.pc_tie.specs.Rules.{parted, left_out};

    ghost left = { parted };

    ghost right = { left_out };
}

/// A witness of the history so far leaves the keeper, in place of all that were taken in.
pub struct Show;

impl Split<Sight> for Show {
    ghost use Rattle.pc_tie.specs.Rules.{emptied, shown_out};

    ghost left = { emptied };

    ghost right = { shown_out };
}

/// The next seat is dealt: the checkpointer's first, then those of sessions.
pub struct Deal;

impl Split<Sight> for Deal {
    ghost use Rattle.pc_tie.specs.Rules.{after_dealing, new_front};

    ghost left = { after_dealing };

    ghost right = { new_front };
}

/// A seat takes a witness in, looks at what both have seen, and lets the witness go.
pub struct Meet;

impl Join<Sight> for Meet {
    ghost use Rattle.pc_tie.specs.declared.sight.Sight.TheVariants.{Gone};
    ghost use Rattle.pc_tie.specs.Rules.{beside};

    ghost both = { beside };

    ghost spent = { Gone };
}

impl Play<NotedStep, Sight> for Meet {
    ghost use Rattle.pc_tie.specs.Rules.{Met};

    ghost then = { Met };
}

impl Split<Sight> for Meet {
    ghost use Rattle.pc_tie.specs.Rules.{alone, witness_out};

    ghost left = { alone };

    ghost right = { witness_out };
}
