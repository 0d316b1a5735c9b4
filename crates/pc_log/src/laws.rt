//! Laws of texts. Each function does nothing, and its contract is a law.
ghost use Rattle.pc_log.specs.Laws.{CutLogsAreRead, EntryTextsAreRead, LogTextsAreRead, LogsOfRunsHaveTexts, WholeEntriesAreLongest};

/// The entries read of a text of either format are its whole entries: their texts begin the bytes after the header, they have
/// what an entry's text asks, their tokens keep their order, and each such list of entries is a prefix of theirs.
pub fn whole_entries_are_longest()
    ensures { WholeEntriesAreLongest }
{}

/// The log of a run of at most 64 sessions has a text: its entries are within the limits of the format, and its tokens keep
/// their order.
pub fn logs_of_runs_have_texts()
    ensures { LogsOfRunsHaveTexts }
{}

/// A text of either format is read again, whole.
pub fn log_texts_are_read()
    ensures { LogTextsAreRead }
{}

/// An entry's text of format 02 is read as that entry by itself, whatever token was before it, and the texts of entries as these.
pub fn entry_texts_are_read()
    ensures { EntryTextsAreRead }
{}

/// A text of either format that was truncated in its header is short, and otherwise as many entries are read as are there as a
/// whole; the rest is short, if there is one.
pub fn cut_logs_are_read()
    ensures { CutLogsAreRead }
{}
