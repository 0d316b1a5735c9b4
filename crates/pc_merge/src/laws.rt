//! Laws of merges.
ghost use Rattle.pc_merge.specs.Given.{CausesStand, EndsAreMerges, GivenGrows};

/// The entries that a merge has given until all inputs have ended are the join of them, and no two of them differ at a key's
/// greatest point.
pub fn ends_are_merges()
    ensures { EndsAreMerges }
{}

/// With each entry that a merge gives it has given one more.
pub fn given_grows()
    ensures { GivenGrows }
{}

/// A cause of a refusal that follows from what is left of inputs follows from the inputs.
pub fn causes_stand()
    ensures { CausesStand }
{}
