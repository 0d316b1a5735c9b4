//! Laws of recovery. Each function does nothing, and its contract is a law.
ghost use Rattle.pc_recover.specs.Restarts.{EveryCutIsRecovered};
ghost use Rattle.pc_recover.specs.Runs.{EveryCutOfARunIsRecovered};

/// If a run's base and parts came back as they were written, and of its log any beginning, each in either format, the recovered
/// state is the database after the first entries of the log: up to the last whole one, or up to the recovered point's token if that
/// is further. Only the entry limit refuses.
pub fn every_cut_is_recovered()
    ensures { EveryCutIsRecovered }
{}

/// Whatever a run did: any beginning of its log, with the texts of any files that were made of its shelf and a text of its base,
/// each in either format, is recovered to the database after the first entries of the log, up to the last whole one, or up to the
/// recovered point's token if that is further.
pub fn every_cut_of_a_run_is_recovered()
    ensures { EveryCutOfARunIsRecovered }
{}
