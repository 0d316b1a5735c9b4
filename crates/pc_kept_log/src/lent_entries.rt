//! Views of the entries of a log, in order, without memory.
ghost use Rattle.std.specs.Prelude.{◌≡◌, ◌<◌, ◌≤◌, length, Some, slice_range};
ghost use Rattle.std.specs.Iterator.{YieldsFirst, item_count};
ghost use Rattle.pc_kept_log.specs.Logs.{entries_of, writes_of_entry, token_of};
ghost use Rattle.pc_kept_log.specs.Pieces.{PieceHasPlace, IsPiece, entry_at_place};

use crate::chunk::Chunk;
use crate::lent_writes::LentWrites;
use crate::log::Log;
use pc_log::{TOKEN, phases};
use pc_types::{Phase, Point};
use std::marker::Model;

/// A borrowed entry of a log. A contract sees the entry.
#[derive(Drop)]
pub struct LentEntry<'a> {
    piece: &'a Chunk,
    // Its place in the piece.
    place: usize,
}

impl<'a> Model for LentEntry<'a> {
    ghost use Rattle.std.specs.Prelude.{◌<◌, length};
    ghost use Rattle.pc_types.specs.declared.Entry.{Entry};
    ghost use Rattle.pc_kept_log.specs.Pieces.{entry_at_place};

    ghost Value = { Entry };

    ghost view = { λ e. entry_at_place e.piece.now.entries e.place };

    ghost invariant = { λ e. e.place < length e.piece.now.entries };
}

impl<'a> LentEntry<'a> {
    /// A view of its writes: those of a commit, and none if it is a token. It allocates no memory.
    pub fn writes(&self) -> LentWrites<'a>
        ensures { result ≡ writes_of_entry (Some self.now) }
    {
        let piece = self.piece;
        piece.writes(self.place)
    }

    /// The phase and the point of a token; `None` if it is a commit.
    pub fn token(&self) -> Option<(Phase, Point)>
        ensures { result ≡ token_of self.now }
    {
        let piece = self.piece;
        piece.token(self.place)
    }
}

impl Chunk {
    // The phase and the point of the token at this place, which counts from 0; `None` if a commit is there.
    fn token(&self, place: usize) -> Option<(Phase, Point)>
        requires { place < length self.now.entries }
        ensures { result ≡ token_of (entry_at_place self.now.entries place) }
    {
        let text = self.text(place, self.len());
        if text[4] != TOKEN {
            return None;
        }
        let point = u32::from_be_bytes([text[6], text[7], text[8], text[9]]);
        match phases::numbered(text[5]) {
            Ok(phase) => Some((phase, Point(point as u16))),
            Err(_) => unreachable!(),
        }
    }
}

/// Borrowed entries of a log, in order. A contract sees those to come.
#[derive(Drop)]
pub struct LentEntries<'a> {
    log: &'a Log,
    // The piece of the last one.
    piece: &'a Chunk,
    // The place of the next one, and that after the last one.
    at: usize,
    to: usize,
}

impl<'a> Model for LentEntries<'a> {
    ghost use Rattle.std.specs.Prelude.{◌≤◌, List, length, slice_range};
    ghost use Rattle.pc_types.specs.declared.Entry.{Entry};
    ghost use Rattle.pc_kept_log.specs.Logs.{entries_of};
    ghost use Rattle.pc_kept_log.specs.Pieces.{IsPiece};

    ghost Value = { List Entry };

    ghost view = { λ e. slice_range (entries_of e.log.now) e.at e.to };

    ghost invariant = { λ e. (e.to ≤ length (entries_of e.log.now)) × IsPiece (entries_of e.log.now) e.piece.now };
}

impl Log {
    /// Views of the entries from one place up to another one, which count from 0, in order, read from their texts. It
    /// allocates no memory.
    pub fn lent(&self, from: usize, to: usize) -> LentEntries<'_>
        requires { to ≤ length (entries_of self.now) }
        ensures { result ≡ slice_range (entries_of self.now) from to }
    {
        LentEntries {
            log: self,
            piece: &self.open,
            at: from,
            to,
        }
    }

    // The piece of the entry at the place: this one, if the entry is in it.
    fn piece_beside<'a>(&'a self, piece: &'a Chunk, place: usize) -> &'a Chunk
        requires inside { place < length (entries_of self.now) }
        requires piece { IsPiece (entries_of self.now) piece.now }
        ensures { PieceHasPlace (entries_of self.now) result.now place }
    {
        if piece.first() <= place && place - piece.first() < piece.len() {
            return piece;
        }
        self.piece_of(place)
    }
}

impl<'a> Iterator for LentEntries<'a> {
    type Item = LentEntry<'a>;

    ghost next_gives = { YieldsFirst (λ s. s) };

    ghost remaining = { item_count (λ s. s) };

    fn next(&mut self) -> Option<LentEntry<'a>> {
        if self.to <= self.at {
            return None;
        }
        let log = self.log;
        let piece = log.piece_beside(self.piece, self.at);
        let place = self.at - piece.first();
        self.piece = piece;
        self.at += 1;
        Some(LentEntry { piece, place })
    }
}
