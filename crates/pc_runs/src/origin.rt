//! The state from which the store of a run starts.
ghost use Rattle.std.specs.Prelude.{◌≤◌};
ghost use Rattle.pc_types.specs.declared.limits.TheConstants.{MOST_KEYS};

use pc_restore::Folder;

/// A folder of another run, by its name, with the files that recovery reads.
#[derive(Drop)]
pub struct NamedFolder<R> {
    pub name: Vec<u8>,
    pub folder: Folder<R>,
    /// Whether a run starts from it even if its files lack more than the files of a killed process do.
    pub accepts_damage: bool,
}

/// The state from which the store of a run starts.
#[derive(Drop)]
pub enum Start<R> {
    /// No pairs; the run has this number.
    Empty(u64),
    /// The pairs recovered from the files of this folder; the run's number is that of the folder's run plus 1.
    Folder(NamedFolder<R>),
}

/// The arguments with which the store of a run is opened.
#[derive(Drop)]
pub struct Origin<R> {
    pub start: Start<R>,
    /// The greatest number of keys that it has room for, 1 to 1,048,576.
    pub capacity: u32,
    ghost in_range: { (1 ≤ capacity) × (capacity ≤ MOST_KEYS) },
}
