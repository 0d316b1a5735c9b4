//! The pace of a capture: how many keys the checkpointer takes in a turn, and when it has rested after one.
ghost use Rattle.std.specs.Prelude.{◌≡◌, ◌≤◌, ◌-◌, nat_eq};
ghost use Rattle.pc_workers.specs.declared.pace.TheConstants.{FIRST_TAKES, MOST_TAKES};
ghost use Rattle.pc_workers.specs.Pacing.{turn_behind, has_rested};

use pc_types::Lsn;

/// The number of keys in the first turn of a capture: some half a millisecond's work.
pub const FIRST_TAKES: u32 = 1_024;

/// The greatest number of keys in a turn.
pub const MOST_TAKES: u32 = 65_536;

/// After this many looks without a commit the checkpointer has rested: no other thread seems to run. A thread that finds the latch
/// held may let others run 256 times before it looks again, and between these looks others are let run 511 times in all.
pub const LOOKS_ALONE: u32 = 36;

/// The number of keys that the checkpointer takes in a turn, the number of them that are left to take, and the log's last entry
/// when the turn began. A turn has half as many keys as were committed in the one before it and in the rest after that, and twice
/// as many as that one if nothing was committed, from 1,024 to 65,536: if others run for long whenever the checkpointer rests, as
/// on one processor, its turns grow with the commits meanwhile.
#[derive(Drop)]
pub struct Pace {
    turn: u32,
    left: u32,
    begun: u32,
    ghost at_least: { FIRST_TAKES ≤ turn },
    ghost at_most: { turn ≤ MOST_TAKES },
}

impl Pace {
    /// The first turn begins; the log's last entry has this number.
    pub(crate) fn new(last: Lsn) -> Pace
        ensures turn { result.turn ≡ FIRST_TAKES }
        ensures left { result.left ≡ FIRST_TAKES }
        ensures begun { result.begun ≡ last }
    {
        Pace {
            turn: FIRST_TAKES,
            left: FIRST_TAKES,
            begun: last.0,
        }
    }

    /// This many more keys were taken; returns whether the turn has none left.
    pub(crate) fn take(&mut self, keys: u32) -> bool
        ensures over { result ≡ nat_eq self.new.left 0 }
        ensures left { self.new.left ≡ self.old.left - keys }
        ensures turn { self.new.turn ≡ self.old.turn }
        ensures begun { self.new.begun ≡ self.old.begun }
    {
        self.left = self.left.saturating_sub(keys);
        self.left == 0
    }

    /// Whether the checkpointer has rested, if the log's last entry has this number now and it has looked this often: twice as many
    /// keys were committed since the turn began as it has taken, or none was.
    pub(crate) fn has_rested(&self, last: Lsn, looks: u32) -> bool
        ensures { result ≡ has_rested self.now.turn (last - self.now.begun) looks }
    {
        match last.0.saturating_sub(self.begun) {
            0 => LOOKS_ALONE <= looks,
            committed => self.turn * 2 <= committed,
        }
    }

    /// The next turn begins; the log's last entry has this number.
    pub(crate) fn begin_turn(&mut self, last: Lsn)
        ensures turn { self.new.turn ≡ turn_behind self.old.turn (last - self.old.begun) }
        ensures left { self.new.left ≡ self.new.turn }
        ensures begun { self.new.begun ≡ last }
    {
        self.turn = match last.0.saturating_sub(self.begun) {
            0 => (self.turn * 2).min(MOST_TAKES),
            committed => (committed / 2).max(FIRST_TAKES).min(MOST_TAKES),
        };
        self.left = self.turn;
        self.begun = last.0;
    }
}
