//! How much work is measured.
ghost use Rattle.std.specs.Prelude.{◌≤◌};
ghost use Rattle.pc_types.specs.declared.limits.TheConstants.{MOST_KEYS};

/// The number of cycles that a store goes through, and how many keys it has, 1 to 1,048,576.
#[derive(Clone, Copy)]
pub struct Cycles {
    pub points: u16,
    pub keys: u32,
    ghost in_range: { (1 ≤ keys) × (keys ≤ MOST_KEYS) },
}

/// How many transactions commit, each with one write, how many keys they go round, 1 to 1,048,576, whether the writes are
/// adds, and whether checkpoints are taken concurrently.
#[derive(Clone, Copy)]
pub struct Rounds {
    pub commits: u32,
    pub keys: u32,
    pub is_adding: bool,
    pub has_points: bool,
    ghost in_range: { (1 ≤ keys) × (keys ≤ MOST_KEYS) },
}
