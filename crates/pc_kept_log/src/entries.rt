//! The entries of a log.
ghost use Rattle.std.specs.Prelude.{◌≡◌, ◌==◌, ◌<◌, ◌≤◌, [], ◌∷◌, ◌++◌, length, Err, IfOk, IfErr, OnOk, OnErr, if◌then◌else◌};
ghost use Rattle.pc_types.specs.declared.Entry.TheVariants.{Commit, Token};
ghost use Rattle.pc_kept_log.specs.Logs.{entries_of, HasRoomForEntry, IsFitEntry};
ghost use Rattle.pc_log.specs.Texts.{entry_text};
ghost use Rattle.pc_types.specs.declared.limits.TheConstants.{MOST_SESSIONS, MOST_WRITES};
ghost use Rattle.pc_model.specs.DistinctWrites.{AreDistinct};
ghost use Rattle.pc_model.specs.FewWrites.{HasFewWrites};

use crate::chunk::Chunk;
use crate::log::Log;
use pc_log::entry_size;
use pc_types::{Entry, Lsn, MOST_LOG_ENTRIES, Phase, Point, Refusal, SessionNo, Write};
use std::alloc::{AllocError, Global};
use std::mem;

impl Log {
    /// A log without entries. It allocates no memory.
    pub fn new(alloc: Global) -> Log
        ensures { entries_of result ≡ [] }
    {
        Log {
            alloc,
            full: Vec::new(alloc),
            open: Chunk::new(alloc),
        }
    }

    /// The number of entries, at most 16,777,216.
    pub fn len(&self) -> usize
        ensures { result ≡ length (entries_of self.now) }
    {
        self.open.first() + self.open.len()
    }

    /// Whether there are 16,777,216 entries, so that none more can follow.
    pub fn is_full(&self) -> bool
        ensures full { result ≡ (length (entries_of self.now) == MOST_LOG_ENTRIES) }
        ensures limit { length (entries_of self.now) ≤ MOST_LOG_ENTRIES }
    {
        self.len() == MOST_LOG_ENTRIES
    }

    /// Makes room for one more entry, of the given number of bytes. It refuses with `OutOfMemory` alone, and never if there is room;
    /// the entries stay. Whether the log is full is not looked at.
    pub fn reserve(&mut self, size: u32) -> Result<(), Refusal>
        ensures entries { entries_of self.new ≡ entries_of self.old }
        ensures room { OnOk result (HasRoomForEntry self.new size) }
        ensures memory { IfErr result (λ e. e ≡ Refusal.OutOfMemory) }
        ensures needed { OnErr result (¬ HasRoomForEntry self.old size) }
    {
        if size as usize <= self.open.room() {
            return Ok(());
        }
        self.add_piece(size)?;
        Ok(())
    }

    // Closes the last piece, and appends one with room for an entry of the given number of bytes.
    fn add_piece(&mut self, size: u32) -> Result<(), AllocError>
        ensures entries { entries_of self.new ≡ entries_of self.old }
        ensures room { OnOk result (HasRoomForEntry self.new size) }
    {
        let piece = Chunk::with_room(self.alloc, self.len(), size)?;
        self.full.reserve(1)?;
        self.full.push_reserved(mem::replace(&mut self.open, piece));
        Ok(())
    }

    /// Adds the entry of a commit at the end, if room was made for it: of a session from 1 to 64, with at most 256 writes, no two of
    /// which have one key. Answers its number: the first entry has number 1. It allocates no memory.
    pub fn append_commit(&mut self, session: SessionNo, writes: &[Write]) -> Lsn
        requires session { (1 ≤ session) × (session ≤ MOST_SESSIONS) }
        requires few { length writes.now ≤ MOST_WRITES }
        requires distinct { AreDistinct writes.now }
        requires room { HasRoomForEntry self.old (length (entry_text (Commit session writes.now))) }
        requires not_full { length (entries_of self.old) < MOST_LOG_ENTRIES }
        ensures entries { entries_of self.new ≡ entries_of self.old ++ Commit session writes.now ∷ [] }
        ensures number { result ≡ length (entries_of self.new) }
    {
        self.open.append_commit(session, writes);
        self.last()
    }

    /// Adds a token at the end, if room was made for it. Answers its number: the first entry has number 1. It allocates no memory.
    pub fn append_token(&mut self, phase: Phase, point: Point) -> Lsn
        requires begun { 1 ≤ point }
        requires room { HasRoomForEntry self.old (length (entry_text (Token phase point))) }
        requires not_full { length (entries_of self.old) < MOST_LOG_ENTRIES }
        ensures entries { entries_of self.new ≡ entries_of self.old ++ Token phase point ∷ [] }
        ensures number { result ≡ length (entries_of self.new) }
    {
        self.open.append_token(phase, point);
        self.last()
    }

    /// Adds the entry at the end, for which it makes room: of a commit of a session from 1 to 64, with at most 256 writes, no two of
    /// which have one key, or a token. Answers its number: the first entry has number 1. Refuses with `LogFull` if and only if there
    /// are 16,777,216 entries, and otherwise only with `OutOfMemory`, never if there is room for it; the entries are then as they were.
    pub fn append(&mut self, entry: &Entry) -> Result<Lsn, Refusal>
        requires few { HasFewWrites entry.now }
        requires fit { IsFitEntry entry.now }
        ensures entries { OnOk result (entries_of self.new ≡ entries_of self.old ++ entry.now ∷ []) }
        ensures number { IfOk result (λ number. number ≡ length (entries_of self.new)) }
        ensures full { length (entries_of self.old) ≡ MOST_LOG_ENTRIES → result ≡ Err Refusal.LogFull }
        ensures refusal { IfErr result (λ e. e ≡ (if length (entries_of self.old) == MOST_LOG_ENTRIES then Refusal.LogFull else Refusal.OutOfMemory)) }
        ensures needed { result ≡ Err Refusal.OutOfMemory → ¬ HasRoomForEntry self.old (length (entry_text entry.now)) }
        ensures err { OnErr result (entries_of self.new ≡ entries_of self.old) }
    {
        if self.is_full() {
            return Err(Refusal::LogFull);
        }
        self.reserve(entry_size(entry))?;
        Ok(match entry {
            Entry::Commit(session, writes) => self.append_commit(*session, writes.as_slice()),
            Entry::Token(phase, point) => self.append_token(*phase, *point),
        })
    }

    // The number of the last entry.
    fn last(&self) -> Lsn
        ensures { result ≡ length (entries_of self.now) }
    {
        Lsn(self.len() as u32)
    }
}
