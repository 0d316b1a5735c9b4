//! Laws of the join, and of reading parts. Each function does nothing, and its contract is a law.
ghost use Rattle.pc_part.specs.Joins.{ConflictsAreMutual, JoinsAreIdempotent, JoinsAssociate, JoinsCommute, JoinsMakeNoConflict};
ghost use Rattle.pc_part.specs.RoundTrips.{CutPartTextsAreShort, PartTextsAreRead, ReadPartsAreTexts, StepsAreLocal};

/// Two files of one run without conflict are joined to one file, whichever comes first.
pub fn joins_commute()
    ensures { JoinsCommute }
{}

/// A file joined with itself stays as it is.
pub fn joins_are_idempotent()
    ensures { JoinsAreIdempotent }
{}

/// Three files are joined to one file, whichever two are joined first.
pub fn joins_associate()
    ensures { JoinsAssociate }
{}

/// Two files conflict, whichever comes first, or they don't.
pub fn conflicts_are_mutual()
    ensures { ConflictsAreMutual }
{}

/// The join of two files conflicts with no file with which neither of them does.
pub fn joins_make_no_conflict()
    ensures { JoinsMakeNoConflict }
{}

/// The text of a part file is read as the file.
pub fn part_texts_are_read()
    ensures { PartTextsAreRead }
{}

/// Bytes that are read as a part file are the text of that file.
pub fn read_parts_are_texts()
    ensures { ReadPartsAreTexts }
{}

/// The text of a part file that is truncated anywhere is read as short.
pub fn cut_part_texts_are_short()
    ensures { CutPartTextsAreShort }
{}

/// The header and the next entry of a part are read of longer bytes as of these, unless these end too soon.
pub fn steps_are_local()
    ensures { StepsAreLocal }
{}
