//! A law of files. The function does nothing, and its contract is the law.
ghost use Rattle.pc_audit.specs.Laws.{FilesOfTheirPointsAreRight};

/// A file that a legal history gives its points is correct by the log of that history.
pub fn files_of_their_points_are_right()
    ensures { FilesOfTheirPointsAreRight }
{}
