//! Views of a log's entries, and their values read back.
ghost use Rattle.std.specs.Prelude.{◌≡◌, ◌<◌, ◌≤◌, ◌+◌, length, IfOk, Some, slice_get, slice_range};
ghost use Rattle.std.specs.List.{flat_map};
ghost use Rattle.pc_types.specs.declared.Entry.{Entry};
ghost use Rattle.pc_kept_log.specs.Logs.{entries_of};
ghost use Rattle.pc_kept_log.specs.Pieces.{PieceHasPlace};
ghost use Rattle.pc_log.specs.Texts.{entry_text};

use crate::chunk::Chunk;
use crate::log::Log;
use pc_types::Entry;
use std::alloc::{AllocError, Global};

/// The texts of some entries of a log, in order.
#[derive(Clone, Copy)]
pub struct LentTexts<'a> {
    /// The texts.
    pub bytes: &'a [u8],
    /// The number of entries that they are of.
    pub count: usize,
}

impl Log {
    /// The entry at this place, which counts from 0, read of its text. It fails only if an allocation fails.
    pub fn entry(&self, alloc: Global, place: usize) -> Result<Entry, AllocError>
        requires { place < length (entries_of self.now) }
        ensures { IfOk result (λ entry. slice_get (entries_of self.now) place ≡ Some entry) }
    {
        let piece = self.piece_of(place);
        piece.entry(alloc, place - piece.first())
    }

    /// All entries, the oldest first, read of their texts. It fails only if an allocation fails.
    pub fn entries(&self, alloc: Global) -> Result<Vec<Entry>, AllocError>
        ensures { IfOk result (λ entries. entries.items ≡ entries_of self.now) }
    {
        let count = self.len();
        let mut entries = Vec::with_capacity(alloc, count)?;
        for place in 0..count {
            entries.push_reserved(self.entry(alloc, place)?);
        }
        Ok(entries)
    }

    /// The texts of the entries from this place on, which counts from 0: of at most the given number, as far as they are adjacent
    /// in memory, and of one at least if there is one and any are asked for.
    pub fn texts(&self, from: usize, most: usize) -> LentTexts<'_>
        ensures texts { result.bytes.now ≡ flat_map entry_text (slice_range (entries_of self.now) from (from + result.count)) }
        ensures most { result.count ≤ most }
        ensures inside { from ≤ length (entries_of self.now) → from + result.count ≤ length (entries_of self.now) }
        ensures some { from < length (entries_of self.now) → 1 ≤ most → 1 ≤ result.count }
    {
        if self.len() <= from {
            return LentTexts {
                bytes: &[],
                count: 0,
            };
        }
        let piece = self.piece_of(from);
        let begin = from - piece.first();
        let count = most.min(piece.len() - begin);
        LentTexts {
            bytes: piece.text(begin, begin + count),
            count,
        }
    }

    /// The number of bytes that the text of the entry at this place takes.
    pub fn size(&self, place: usize) -> usize
        requires { place < length (entries_of self.now) }
        ensures { (entry : Entry) → slice_get (entries_of self.now) place ≡ Some entry → result ≡ length (entry_text entry) }
    {
        self.texts(place, 1).bytes.len()
    }

    /// A copy of the texts of the given number of entries from this place on, in order. It fails only if an allocation fails.
    pub fn copied_texts(
        &self,
        alloc: Global,
        from: usize,
        count: usize,
    ) -> Result<Vec<u8>, AllocError>
        requires { from + count ≤ length (entries_of self.now) }
        ensures { IfOk result (λ bytes. bytes.items ≡ flat_map entry_text (slice_range (entries_of self.now) from (from + count))) }
    {
        let mut bytes = Vec::new(alloc);
        let mut done = 0;
        while done < count {
            let LentTexts { bytes: next, count } = self.texts(from + done, count - done);
            bytes.extend_from_slice(next)?;
            done += count;
        }
        Ok(bytes)
    }

    // The piece of the entry at the place.
    pub(crate) fn piece_of(&self, place: usize) -> &Chunk
        requires { place < length (entries_of self.now) }
        ensures { PieceHasPlace (entries_of self.now) result.now place }
    {
        if self.open.first() <= place {
            return &self.open;
        }
        let behind = self.full.partition_point(|piece| piece.first() <= place);
        &self.full[behind - 1]
    }
}
