//! Laws of the states of points. Each function does nothing, and its contract is a law.
ghost use Rattle.pc_points.specs.Laws.{LogsGiveStates};

use pc_log::log_texts_are_read;

/// From the base that a run started from and its whole log, in either format, the state of each point whose token the log has is
/// the database after what was committed before that token; there is none of any other point.
pub fn logs_give_states()
    ensures { LogsGiveStates }
{
    log_texts_are_read();
}
