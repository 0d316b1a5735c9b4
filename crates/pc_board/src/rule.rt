//! The rule that every atomic step on the board's two words keeps, and the facts that each step gives.
use crate::sight::PassSight;
use atomic_table::{Join, Play, Split, TableRule};

/// The word that counts the claims.
pub(crate) const CLAIM_COUNT: usize = 0;

/// The word with the greatest point.
pub(crate) const HORIZON: usize = 1;

/// Both words are read off one legal history, of which every pass has seen a prefix with all of its own calls.
pub struct OneCallHistory;

impl<S> TableRule<S, PassSight, u8> for OneCallHistory {
    ghost use Rattle.pc_board.specs.declared.sight.PassSight.TheVariants.{Dealer};
    ghost use Rattle.pc_board.specs.Rules.{HasOneCallHistory};

    ghost holds = { λ passes state. HasOneCallHistory passes state };

    ghost first = { λ passes. Dealer 0 };
}

/// The step of a claim.
pub struct ClaimStep;

impl<S> Play<S, PassSight> for ClaimStep {
    ghost use Rattle.pc_board.specs.Rules.{Claims};

    ghost then = { Claims };
}

/// The step of a publication.
pub struct PublishStep;

impl<S> Play<S, PassSight> for PublishStep {
    ghost use Rattle.pc_board.specs.Rules.{Publishes};

    ghost then = { Publishes };
}

/// The step of a look.
pub struct LookStep;

impl<S> Play<S, PassSight> for LookStep {
    ghost use Rattle.pc_board.specs.Rules.{Looks};

    ghost then = { Looks };
}

/// The dealer gives out the next pass.
pub struct DealPass;

impl Split<PassSight> for DealPass {
    ghost use Rattle.pc_board.specs.Rules.{dealer_after, next_holder};

    ghost left = { dealer_after };

    ghost right = { next_holder };
}

/// Passes are handed in to a closer, who begins with none.
pub struct HandIn;

impl<S> Play<S, PassSight> for HandIn {
    ghost use Rattle.std.specs.Prelude.{◌≡◌, []};
    ghost use Rattle.pc_board.specs.declared.sight.PassSight.TheVariants.{Closer};

    ghost then = { λ step before found after. after.0 ≡ Closer [] };
}

impl Join<PassSight> for HandIn {
    ghost use Rattle.pc_board.specs.declared.sight.PassSight.TheVariants.{Nobody};
    ghost use Rattle.pc_board.specs.Rules.{closer_after};

    ghost both = { closer_after };

    ghost spent = { Nobody };
}
