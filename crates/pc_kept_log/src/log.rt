//! A log in memory, which is kept as its own text.
ghost use Rattle.std.specs.Prelude.{◌≡◌, ◌≤◌, ◌++◌, length};
ghost use Rattle.pc_types.specs.declared.limits.TheConstants.{MOST_LOG_ENTRIES};
ghost use Rattle.pc_kept_log.specs.Chunks.{ArePiecesNumbered, entries_in_pieces};

use crate::chunk::Chunk;
use std::alloc::Global;

/// A log: its entries, the oldest first. It has at most 16,777,216. What is kept of them are their texts in format 02, in order
/// in pieces, and where each begins.
#[derive(Drop)]
pub struct Log {
    pub(crate) alloc: Global,
    // The pieces to which nothing is added any more, the oldest first.
    pub(crate) full: Vec<Chunk>,
    // The last piece.
    pub(crate) open: Chunk,
    ghost limit: { length (entries_in_pieces full.items ++ open.entries) ≤ MOST_LOG_ENTRIES },
    ghost behind: { open.first ≡ length (entries_in_pieces full.items) },
    ghost counted: { ArePiecesNumbered full.items },
}
