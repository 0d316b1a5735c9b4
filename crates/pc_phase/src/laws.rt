//! Laws of the definitions. Each function does nothing, and its contract is a law.
ghost use Rattle.pc_phase.specs.Agreement.{HeldBackIsCertain, ChangesStayOf, BeginsStayOf, EndsStayOf, StartsOf, OthersStayOf};

/// If the phase, the point and the counts are those of a history, the store's certain reply to a change is what holds it
/// back, or else that the shelf or the log is full.
pub fn held_back_is_certain()
    ensures { HeldBackIsCertain }
{}

/// Once the store answered a change as its rules say, the phase, the point and the counts are still those of the history.
pub fn changes_stay_of_the_history()
    ensures { ChangesStayOf }
{}

/// Once the store answered a begin as its rules say, the phase, the point and the counts with the transaction entered are
/// those of the history.
pub fn begins_stay_of_the_history()
    ensures { BeginsStayOf }
{}

/// Once the store answered a commit or an abort as its rules say, the phase, the point and the counts without the
/// transaction are those of the history.
pub fn ends_stay_of_the_history()
    ensures { EndsStayOf }
{}

/// Before the first step the history's phase is rest, its point 0, and no transaction is active.
pub fn starts_of_the_history()
    ensures { StartsOf }
{}

/// A step that neither begins nor ends a transaction nor changes the phase leaves the phase, the point and the counts.
pub fn others_stay_of_the_history()
    ensures { OthersStayOf }
{}
