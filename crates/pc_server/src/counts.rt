//! The counts of a served store's log.
ghost use Rattle.std.specs.Prelude.{◌≡◌};
ghost use Rattle.pc_kept_log.specs.Logs.{entries_of};
ghost use Rattle.pc_server.specs.Turns.{IsNoted};

use pc_kept_log::Log;

// The number of bytes that a log without entries has: its header's.
const HEADER: u64 = 20;

/// The numbers of commits and bytes of a log.
#[derive(Drop)]
pub struct Counts {
    pub commits: u64,
    pub bytes: u64,
}

impl Counts {
    /// Those of a log without entries.
    pub fn new() -> Counts
        ensures { result ≡ record { commits = 0; bytes = 20 } }
    {
        Counts {
            commits: 0,
            bytes: HEADER,
        }
    }

    /// Counts the entry that the log has after its first `before`, if it has one: a commit, or else a token. A count stays at the
    /// greatest of 64 bits.
    pub fn note(&mut self, log: &Log, before: usize, commits: bool)
        ensures { IsNoted commits (entries_of log.now) before self.old self.new }
    {
        if log.len() <= before {
            return;
        }
        self.bytes = self.bytes.saturating_add(log.size(before) as u64);
        if commits {
            self.commits = self.commits.saturating_add(1);
        }
    }
}
