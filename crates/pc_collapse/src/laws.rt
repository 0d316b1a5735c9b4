//! Laws of folds, for files of one run. Each function does nothing, and its contract is a law.
ghost use Rattle.pc_collapse.specs.Laws.{FilesFoldWell, FoldsAreStates};

/// Files of a run fold to the file of all their points, and are never refused with `OtherRun` or `Conflict`.
pub fn files_fold_well()
    ensures { FilesFoldWell }
{}

/// The headline holds of folds: there is one file of the points of all, in whatever order and by whatever joins it was
/// made, and if the points are 1 to n, the base with it applied is the state of n.
pub fn folds_are_states()
    ensures { FoldsAreStates }
{}
