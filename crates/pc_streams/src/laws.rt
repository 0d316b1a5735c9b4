//! Laws of what is to come of a part's text. Each function does nothing, and its contract is a law.
ghost use Rattle.pc_streams.specs.Laws.{FieldsCome, PartsCome};

/// A reader gives the same header, entries and end or first fault as reading the whole text in one piece.
pub fn parts_come()
    ensures fields { FieldsCome }
    ensures parts { PartsCome }
{}
