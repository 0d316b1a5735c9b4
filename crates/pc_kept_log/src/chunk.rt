//! A piece of a log: the texts of whole entries, in order.
ghost use Rattle.std.specs.Prelude.{◌≡◌, ◌<◌, ◌≤◌, [], ◌∷◌, ◌++◌, length, IfOk, Some, All, slice_get, slice_range};
ghost use Rattle.std.specs.List.{flat_map};
ghost use Rattle.pc_types.specs.declared.Entry.TheVariants.{Commit, Token};
ghost use Rattle.pc_log.specs.Texts.{entry_text, IsEntry};
ghost use Rattle.pc_types.specs.declared.limits.TheConstants.{MOST_SESSIONS, MOST_WRITES};
ghost use Rattle.pc_model.specs.DistinctWrites.{AreDistinct};

use crate::placing::{put_commit, put_token};
use pc_log::read_plain_entry;
use pc_types::{Entry, Phase, Point, Refusal, SessionNo, Write};
use std::alloc::{AllocError, Global};
use std::marker::Model;

/// The most bytes of the texts of a piece's entries, if there is more than one.
pub(crate) const CHUNK_BYTES: usize = 32_768;

// The most entries of a piece.
const CHUNK_ENTRIES: usize = 1_024;

/// A piece of a log: the texts of whole entries, in order, and where each begins.
#[derive(Drop)]
pub(crate) struct Chunk {
    // The number of entries in the pieces before.
    before: usize,
    bytes: Vec<u8>,
    // How many of the bytes are used.
    used: usize,
    starts: Vec<u16>,
}

impl Model for Chunk {
    ghost use Rattle.std.specs.Prelude.{◌-◌, length, take, vec_len, vec_capacity};
    ghost use Rattle.pc_log.specs.Plain.{entries_in};
    ghost use Rattle.pc_kept_log.specs.Chunks.{Piece, IsFilled, room_behind};

    ghost Value = { Piece };

    ghost view = { λ c. record {
      first = c.before;
      entries = entries_in (take c.used c.bytes.items);
      room = room_behind (length c.bytes.items) c.used (vec_capacity c.starts - vec_len c.starts);
    } };

    ghost invariant = { λ c. IsFilled c.bytes.items c.used c.starts.items };
}

impl Chunk {
    /// A piece without entries or room, before all others. It allocates no memory.
    pub(crate) fn new(alloc: Global) -> Chunk
        ensures first { result.first ≡ 0 }
        ensures none { result.entries ≡ [] }
    {
        Chunk {
            before: 0,
            bytes: Vec::new(alloc),
            used: 0,
            starts: Vec::new(alloc),
        }
    }

    /// A piece without entries, after `before` others, with room for an entry of `size` bytes.
    pub(crate) fn with_room(alloc: Global, before: usize, size: u32) -> Result<Chunk, AllocError>
        ensures first { IfOk result (λ chunk. chunk.first ≡ before) }
        ensures none { IfOk result (λ chunk. chunk.entries ≡ []) }
        ensures room { IfOk result (λ chunk. size ≤ chunk.room) }
    {
        let room = CHUNK_BYTES.max(size as usize);
        let bytes = vec![in alloc; 0u8; room]?;
        let starts = Vec::with_capacity(alloc, CHUNK_ENTRIES)?;
        Ok(Chunk {
            before,
            bytes,
            used: 0,
            starts,
        })
    }

    /// The number of entries in the pieces before.
    pub(crate) fn first(&self) -> usize
        ensures { result ≡ self.now.first }
    {
        self.before
    }

    /// The number of entries that it has.
    pub(crate) fn len(&self) -> usize
        ensures { result ≡ length self.now.entries }
    {
        self.starts.len()
    }

    /// Of how many bytes one more entry may be.
    pub(crate) fn room(&self) -> usize
        ensures { result ≡ self.now.room }
    {
        if self.used < CHUNK_BYTES && self.starts.len() < self.starts.capacity() {
            self.bytes.len() - self.used
        } else {
            0
        }
    }

    /// Adds the entry of a commit, for which there is room. It allocates no memory.
    pub(crate) fn append_commit(&mut self, session: SessionNo, writes: &[Write])
        requires session { (1 ≤ session) × (session ≤ MOST_SESSIONS) }
        requires few { length writes.now ≤ MOST_WRITES }
        requires distinct { AreDistinct writes.now }
        requires room { length (entry_text (Commit session writes.now)) ≤ self.old.room }
        ensures entries { self.new.entries ≡ self.old.entries ++ Commit session writes.now ∷ [] }
        ensures first { self.new.first ≡ self.old.first }
    {
        let start = self.used;
        self.used = put_commit(self.bytes.as_mut_slice(), start, session, writes);
        self.starts.push_reserved(start as u16);
    }

    /// Adds the entry of a token, for which there is room. It allocates no memory.
    pub(crate) fn append_token(&mut self, phase: Phase, point: Point)
        requires begun { 1 ≤ point }
        requires room { length (entry_text (Token phase point)) ≤ self.old.room }
        ensures entries { self.new.entries ≡ self.old.entries ++ Token phase point ∷ [] }
        ensures first { self.new.first ≡ self.old.first }
    {
        let start = self.used;
        self.used = put_token(self.bytes.as_mut_slice(), start, phase, point);
        self.starts.push_reserved(start as u16);
    }

    /// The texts of the entries from this place up to the other, which count from 0.
    pub(crate) fn text(&self, from: usize, to: usize) -> &[u8]
        requires order { from ≤ to }
        requires inside { to ≤ length self.now.entries }
        ensures text { result.now ≡ flat_map entry_text (slice_range self.now.entries from to) }
        ensures lawful { All IsEntry self.now.entries }
    {
        let begin = start_of(self.starts.as_slice(), self.used, from);
        let end = start_of(self.starts.as_slice(), self.used, to);
        part_of(self.bytes.as_slice(), begin, end)
    }

    /// The entry at this place, which counts from 0. It fails only if an allocation fails.
    pub(crate) fn entry(&self, alloc: Global, place: usize) -> Result<Entry, AllocError>
        requires { place < length self.now.entries }
        ensures { IfOk result (λ entry. slice_get self.now.entries place ≡ Some entry) }
    {
        match read_plain_entry(alloc, self.text(place, self.len())) {
            Ok((entry, _)) => Ok(entry),
            Err(why) => {
                if why == Refusal::OutOfMemory {
                    return Err(AllocError);
                }
                unreachable!()
            }
        }
    }
}

// The bytes from the one place up to the other.
fn part_of(bytes: &[u8], from: usize, to: usize) -> &[u8]
    requires { (from ≤ to) × (to ≤ length bytes.now) }
    ensures { result.now ≡ slice_range bytes.now from to }
{
    &bytes[from..to]
}

// The place where the text of the entry begins; after the last one, the end of all of them.
fn start_of(starts: &[u16], end: usize, place: usize) -> usize
    ensures inside { place < length starts.now → slice_get starts.now place ≡ Some result }
    ensures behind { length starts.now ≤ place → result ≡ end }
{
    match starts.get(place) {
        Some(start) => usize::from(*start),
        None => end,
    }
}
