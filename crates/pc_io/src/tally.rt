//! Readers and writers whose failures are counted.
ghost use Rattle.std.specs.Prelude.{◌≡◌, ◌⊎◌, OnOk, IfOk, IfErr, IfSome};
ghost use Rattle.std.specs.Io.{ReadsAtMost, WritesAtMost};
ghost use Rattle.std.specs.Io.KnownBytes.{ReadConsumes, WriteAppends, Keeps, IsAtEnd};
ghost use Rattle.std.specs.List.{flat_map};
ghost use Rattle.pc_io.specs.Counted.{after_read, after_write, after_flush, HasRisen};
ghost use Rattle.pc_io.specs.Tallies.{inner_of, failures_of, Puts};

use pc_types::Refusal;
use std::alloc::Global;
use std::io;
use std::io::{Read, Write};

/// A reader or writer, and how many of its calls failed: those that answered an error, and writes that were given bytes and
/// took none. The count stays at the greatest `u64`, and then counts as increased.
#[derive(Drop)]
pub struct Tally<T> {
    inner: T,
    failures: u64,
}

impl<T> Tally<T> {
    /// Counts from 0.
    pub fn new(inner: T) -> Tally<T>
        ensures inner { inner_of result ≡ inner }
        ensures none { failures_of result ≡ 0 }
    {
        Tally { inner, failures: 0 }
    }

    /// The number of calls that failed.
    pub fn failures(&self) -> u64
        ensures { result ≡ failures_of self.now }
    {
        let Tally { inner: _, failures } = self;
        *failures
    }

    /// The reader or writer whose failures were counted.
    pub fn into_inner(self) -> T
        ensures { result ≡ inner_of self }
    {
        let Tally { inner, failures: _ } = self;
        inner
    }
}

impl<R: Read> Read for Tally<R> {
    ghost remaining = { λ t. R.remaining t.inner };

    fn read(&mut self, buf: &mut [u8]) -> io::Result<usize>
        ensures bound { ReadsAtMost result buf.new }
        ensures bytes { ReadConsumes (R.remaining (inner_of self.old)) (R.remaining (inner_of self.new)) result buf.new }
        ensures counts { failures_of self.new ≡ after_read result (failures_of self.old) }
    {
        let answer = self.inner.read(buf);
        if answer.is_err() {
            self.failures = self.failures.saturating_add(1);
        }
        answer
    }
}

impl<W: Write> Write for Tally<W> {
    ghost contents = { λ t. W.contents t.inner };

    fn write(&mut self, buf: &[u8]) -> io::Result<usize>
        ensures bound { WritesAtMost result buf.now }
        ensures bytes { WriteAppends (W.contents (inner_of self.old)) (W.contents (inner_of self.new)) result buf.now }
        ensures counts { failures_of self.new ≡ after_write result buf.now (failures_of self.old) }
    {
        let answer = self.inner.write(buf);
        let failed = match &answer {
            Ok(n) => *n == 0 && !buf.is_empty(),
            Err(_) => true,
        };
        if failed {
            self.failures = self.failures.saturating_add(1);
        }
        answer
    }

    fn flush(&mut self) -> io::Result<()>
        ensures bytes { Keeps (W.contents (inner_of self.old)) (W.contents (inner_of self.new)) }
        ensures counts { failures_of self.new ≡ after_flush result (failures_of self.old) }
    {
        let answer = self.inner.flush();
        if answer.is_err() {
            self.failures = self.failures.saturating_add(1);
        }
        answer
    }
}

impl<W: Write> Tally<W> {
    /// Writes all of the bytes. Returns `Device` if and only if the count increased in this call; then a prefix of them
    /// went out, and not all of them.
    #[tactic(auto, using(crate::proofs::KnownBytesLaws::appends_nothing))]
    pub fn put(&mut self, bytes: &[u8]) -> Result<(), Refusal>
        ensures { Puts W.contents self.old self.new result bytes.now }
    {
        let mut at = 0;
        while at < bytes.len() {
            match self.write(&bytes[at..]) {
                Ok(0) => return Err(Refusal::Device),
                Ok(n) => at += n,
                Err(_) => return Err(Refusal::Device),
            }
        }
        Ok(())
    }

    /// Writes the pieces in order. Returns `Device` if and only if the count increased in this call; then a prefix of them
    /// went out, and not all of them.
    pub fn put_all(&mut self, pieces: &[&[u8]]) -> Result<(), Refusal>
        ensures { Puts W.contents self.old self.new result (flat_map (λ piece. piece.now) pieces.now) }
    {
        for piece in pieces {
            self.put(piece)?;
        }
        Ok(())
    }
}

/// Reads all that is left, to the reader's end. Refuses with `OutOfMemory`, and with `Device` if and only if the count
/// increased in this call.
#[tactic(auto, using(crate::proofs::KnownBytesLaws::consumes_nothing))]
pub fn read_all<R: Read>(alloc: Global, reader: &mut Tally<R>) -> Result<Vec<u8>, Refusal>
    ensures bytes { IfOk result (λ bytes. IfSome (R.remaining (inner_of reader.old)) (λ remained. bytes.items ≡ remained)) }
    ensures end { OnOk result (IsAtEnd (R.remaining (inner_of reader.new))) }
    ensures device { result ≡ Err Refusal.Device → HasRisen (failures_of reader.old) (failures_of reader.new) }
    ensures sound { ¬ (result ≡ Err Refusal.Device) → failures_of reader.new ≡ failures_of reader.old }
    ensures refusals { IfErr result (λ e. (e ≡ Refusal.OutOfMemory) ⊎ (e ≡ Refusal.Device)) }
{
    let mut bytes = Vec::new(alloc);
    let mut piece = [0u8; 4096];
    loop {
        match reader.read(&mut piece) {
            Ok(0) => return Ok(bytes),
            Ok(n) => bytes.extend_from_slice(&piece[..n])?,
            Err(_) => return Err(Refusal::Device),
        }
    }
}
