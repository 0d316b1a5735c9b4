//! Laws of worlds. Each function does nothing, and its contract is a law.
ghost use Rattle.pc_engine.specs.Laws.{StandingWorldsAreSerial, StandingWorldsHaveLegalQueues, StandingWorldsKeepPoints};

/// A world that represents a history is serial: each key's committed value is that of the log replayed on the base, the reads and
/// the sums of each committed transaction are correct, and each add of the log applies to what was committed before it.
pub fn standing_worlds_are_serial()
    ensures { StandingWorldsAreSerial }
{}

/// A world that represents a history keeps its points: each touched key is taken once, with what it has at the point; files
/// made of the shelf that cover the same points are one file; and one of the points 1 to n, applied to the base, is the
/// database after what was committed before point n's token.
pub fn standing_worlds_keep_points()
    ensures { StandingWorldsKeepPoints }
{}

/// In a world that represents a history no two granted requests of a key conflict.
pub fn standing_worlds_have_legal_queues()
    ensures { StandingWorldsHaveLegalQueues }
{}
