//! A session's notes of its commits, in few bytes.
ghost use Rattle.std.specs.Prelude.{◌≡◌, ◌<◌, ◌≤◌, ◌∷◌, ◌++◌, [], length, option_map, OnOk, slice_get, slice_range, IsOk};
ghost use Rattle.pc_txn.specs.Commits.{HasRoomFor, begin_at, commit_note, reads_at};

use crate::reads::ReadSet;
use pc_types::{Key, Lsn, Value};
use std::alloc::{AllocError, Global};
use std::marker::Model;

/// The commits of a session, in their order: of each the number of its entry in the log, and what its transaction has read. What
/// it has written is in the log. The reads of all of them are in one list, each commit's after those of the one before: a commit
/// takes no list of its own, and 16 bytes besides its reads. Contracts see the notes, and how much more there is room for.
#[derive(Drop)]
pub struct Commits {
    heads: Vec<Head>,
    reads: Vec<(Key, Option<Value>)>,
}

/// A commit's number, and where its reads end; they begin where those of the commit before it end.
#[derive(Clone, Copy)]
pub struct Head {
    number: Lsn,
    reads_end: usize,
}

impl Model for Commits {
    ghost use Rattle.std.specs.Prelude.{◌-◌, length, vec_len, vec_capacity};
    ghost use Rattle.pc_txn.specs.Commits.{Noted, notes_from, EndAt};

    ghost Value = { Noted };

    ghost view = { λ a. record {
      items = notes_from 0 a.heads.items a.reads.items;
      room = vec_capacity a.heads - vec_len a.heads;
      reads_room = vec_capacity a.reads - vec_len a.reads;
    } };

    ghost invariant = { λ a. EndAt 0 a.heads.items (length a.reads.items) };
}

impl Commits {
    /// No commits. It allocates no memory.
    pub fn new(alloc: Global) -> Commits
        ensures { result.items ≡ [] }
    {
        Commits {
            heads: Vec::new(alloc),
            reads: Vec::new(alloc),
        }
    }

    /// The number of commits.
    pub fn len(&self) -> usize
        ensures { result ≡ length self.now.items }
    {
        self.heads.len()
    }

    /// The number of the commit at the place, which counts from 0; `None` if there are no more than that.
    pub fn number(&self, place: usize) -> Option<Lsn>
        ensures { result ≡ option_map (λ note. note.number) (slice_get self.now.items place) }
    {
        match head_at(self.heads.as_slice(), place) {
            Some(head) => Some(head.number),
            None => None,
        }
    }

    /// The reads of the commit at the place: of each key that it had not written the first read, in their order, with the value
    /// that was answered, or nothing. `None` if there are no more commits than that.
    pub fn reads(&self, place: usize) -> &[(Key, Option<Value>)]
        ensures { result.now ≡ reads_at self.now.items place }
    {
        let Some(head) = head_at(self.heads.as_slice(), place) else {
            return &[];
        };
        let begin = begin_of(self.heads.as_slice(), place);
        part_of(self.reads.as_slice(), begin, head.reads_end)
    }

    /// Makes room for one more commit, with the given number of reads. It fails only if an allocation fails, never if there is
    /// room, and the commits stay.
    pub fn reserve(&mut self, reads: usize) -> Result<(), AllocError>
        ensures room { OnOk result (HasRoomFor self.new reads) }
        ensures at_hand { HasRoomFor self.old reads → IsOk result }
        ensures same { self.new.items ≡ self.old.items }
    {
        self.heads.reserve(1)?;
        self.reads.reserve(reads)?;
        Ok(())
    }

    /// Adds a commit with this number, of which the reads are moved here: none are left in the set. There is room for it. It
    /// allocates no memory.
    pub fn push(&mut self, number: Lsn, reads: &mut ReadSet)
        requires { HasRoomFor self.old (length reads.old.items) }
        ensures commits { self.new.items ≡ self.old.items ++ commit_note number reads.old.items ∷ [] }
        ensures reads { reads.new.items ≡ [] }
    {
        reads.move_into(&mut self.reads);
        self.heads.push_reserved(Head {
            number,
            reads_end: self.reads.len(),
        });
    }
}

// The head at the place.
fn head_at(heads: &[Head], place: usize) -> Option<Head>
    ensures { result ≡ slice_get heads.now place }
{
    heads.get(place).copied()
}

// The start of the reads of the commit at the place, which exists.
fn begin_of(heads: &[Head], place: usize) -> usize
    requires { place < length heads.now }
    ensures { result ≡ begin_at 0 heads.now place }
{
    if place == 0 {
        return 0;
    }
    match head_at(heads, place - 1) {
        Some(head) => head.reads_end,
        None => unreachable!(),
    }
}

// The items from the first place up to the second.
fn part_of<T>(items: &[T], from: usize, to: usize) -> &[T]
    requires { (from ≤ to) × (to ≤ length items.now) }
    ensures { result.now ≡ slice_range items.now from to }
{
    &items[from..to]
}
