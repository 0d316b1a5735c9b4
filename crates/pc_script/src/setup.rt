//! The setup of a store.
ghost use Rattle.std.specs.Prelude.{◌≤◌};
ghost use Rattle.pc_types.specs.declared.limits.TheConstants.{MOST_KEYS, MOST_SESSIONS};

/// The setup of a store: its run's number; the number of its sessions, from 1 to 64; and its capacity, the greatest
/// number of keys that it has room for, from 1 to 1,048,576.
#[derive(Clone, Copy, Debug)]
pub struct Setup {
    pub run: u32,
    pub sessions: u8,
    pub capacity: u32,
    ghost in_range: { (1 ≤ capacity) × (capacity ≤ MOST_KEYS) },
    ghost some_sessions: { (1 ≤ sessions) × (sessions ≤ MOST_SESSIONS) },
}
