//! Laws of the definitions. Each function does nothing, and its contract is a law.
ghost use Rattle.pc_board.specs.Laws.{ClaimsRise, LooksNeverFall};

/// Of two claims of a legal history the later one gave the greater number; so no number is claimed twice.
pub fn claims_rise()
    ensures { ClaimsRise }
{}

/// In a legal history a look gives no less than each point that was published before it, and than what each look before it
/// gave.
pub fn looks_never_fall()
    ensures { LooksNeverFall }
{}
