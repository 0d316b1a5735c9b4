//! Laws of restarts. Each function does nothing, and its contract is a law.
ghost use Rattle.pc_restarts.specs.Rules.{RecoveriesReachFurthest, RecoveriesSkipUnusedParts};
ghost use Rattle.pc_restarts.specs.Worlds.{EveryCutOfAWorldIsRecovered};

/// Of a world that represents a history, as every world does that `World::new`, `step` and `run` return: whatever prefix of its
/// log's text came back, with a text of its base and the texts of any files that were made of its shelf, each in either format,
/// `recover` gives the database after the first entries of its log: as far as those that are whole in that prefix go, or the
/// recovered point's token if that is further. Other bytes among the parts are passed over, if they are no part of the run.
/// Only the entry limit refuses.
pub fn every_cut_of_a_world_is_recovered()
    ensures { EveryCutOfAWorldIsRecovered }
{}

/// The point that a recovery reaches is the greatest one: the files without later points have all points from the base's to it.
pub fn recoveries_reach_furthest()
    ensures { RecoveriesReachFurthest }
{}

/// A recovery passes over just the parts that it doesn't use: each once, in order, with the reason for which it isn't used.
pub fn recoveries_skip_unused_parts()
    ensures { RecoveriesSkipUnusedParts }
{}
