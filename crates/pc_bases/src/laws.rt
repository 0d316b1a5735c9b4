//! Laws of reading bases. Each function does nothing, and its contract is a law.
ghost use Rattle.pc_bases.specs.RoundTrips.{BaseTextsAreRead, CutBaseTextsAreShort, ReadBasesAreTexts};

/// The text of a base file is read as the base.
pub fn base_texts_are_read()
    ensures { BaseTextsAreRead }
{}

/// Bytes that are read as a base file are the text of that base.
pub fn read_bases_are_texts()
    ensures { ReadBasesAreTexts }
{}

/// The text of a base file that is truncated anywhere is read as short.
pub fn cut_base_texts_are_short()
    ensures { CutBaseTextsAreShort }
{}
