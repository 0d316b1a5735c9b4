//! Laws of sessions' calls and receipts, and of prefixes of histories. Each function does nothing, and its contract is a law.
ghost use Rattle.pc_model.specs.SessionLaws.{BeginningsAreLegal, WritesAreOwnCalls, OwnIsOfOwnCalls, CallsMakeOwn, ReceiptsAreExact, LegalRepliesFit, LogsGrow, FilesStay, FilesAreNumbered};

/// A prefix of a legal history is legal.
pub fn beginnings_are_legal()
    ensures { BeginningsAreLegal }
{}

/// A session's own calls determine what it has written.
pub fn writes_are_own_calls()
    ensures { WritesAreOwnCalls }
{}

/// So is all that a session keeps: whether its transaction is open, its writes and reads, and its receipts.
pub fn own_is_of_own_calls()
    ensures { OwnIsOfOwnCalls }
{}

/// A session's notes after a call are those that the call makes of its notes before, whatever others asked between.
pub fn calls_make_own()
    ensures { CallsMakeOwn }
{}

/// After a legal history each session's receipts are those of its commits in the log, with what was read before each.
pub fn receipts_are_exact()
    ensures { ReceiptsAreExact }
{}

/// A legal reply is of a kind that its event may have.
pub fn legal_replies_fit()
    ensures { LegalRepliesFit }
{}

/// The log of a prefix of a history is a prefix of its log.
pub fn logs_grow()
    ensures { LogsGrow }
{}

/// A file that is that of its points by a prefix of a legal history is so by all of it.
pub fn files_stay()
    ensures { FilesStay }
{}

/// In a legal history without joins the file of number f is that of point f.
pub fn files_are_numbered()
    ensures { FilesAreNumbered }
{}
