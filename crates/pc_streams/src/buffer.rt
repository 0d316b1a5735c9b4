//! Bytes that were read of a text and are not used yet.
ghost use Rattle.std.specs.Prelude.{◌≡◌, ◌<◌, ◌≤◌, ◌+◌, ◌-◌, [], length, take, drop, vec_len, Ok, OnOk, OnErr, IfOk, IfErr, ◌⊎◌};
ghost use Rattle.std.specs.Io.KnownBytes.{Keeps, IsAtEnd, prepend_known};
ghost use Rattle.pc_io.specs.Tallies.{inner_of};
ghost use Rattle.pc_streams.specs.Draws.{CountsFailures};

use pc_io::Tally;
use pc_types::Refusal;
use std::alloc::{AllocError, Global};
use std::io::Read;
use std::marker::Model;

// The fewest bytes that the reader is asked for at a time.
const PIECE: usize = 16_384;

// Bytes of a text: those in front of `used` are used, those up to `filled` are left, and the rest is room for more. A
// contract sees the bytes that are left.
#[derive(Drop)]
pub(crate) struct Buffer {
    bytes: Vec<u8>,
    used: usize,
    filled: usize,
}

impl Model for Buffer {
    ghost use Rattle.std.specs.Prelude.{ℕ, ◌≤◌, List, take, drop, vec_len};

    ghost Value = { List ℕ };

    ghost view = { λ b. drop b.used (take b.filled b.bytes.items) };

    ghost invariant = { λ b. (b.used ≤ b.filled) × (b.filled ≤ vec_len b.bytes) };
}

impl Buffer {
    // Nothing is left. It allocates no memory.
    pub(crate) fn new(alloc: Global) -> Buffer
        ensures { result ≡ [] }
    {
        Buffer {
            bytes: Vec::new(alloc),
            used: 0,
            filled: 0,
        }
    }

    // The bytes that are left.
    pub(crate) fn left(&self) -> &[u8]
        ensures { result.now ≡ self.now }
    {
        &self.bytes[self.used..self.filled]
    }

    // Uses all but the given number of the bytes that are left.
    pub(crate) fn keep_last(&mut self, count: usize)
        requires { count ≤ length self.old }
        ensures { self.new ≡ drop (length self.old - count) self.old }
    {
        self.used = self.filled - count;
    }

    // Reads one more piece after what is left, and answers of how many bytes it was, 0 at the reader's end. A refusal leaves
    // all as it was.
    pub(crate) fn read_more<R: Read>(&mut self, from: &mut Tally<R>) -> Result<usize, Refusal>
        ensures kept { Keeps (prepend_known self.old (R.remaining (inner_of from.old))) (prepend_known self.new (R.remaining (inner_of from.new))) }
        ensures len { IfOk result (λ n. length self.new ≡ length self.old + n) }
        ensures ended { result ≡ Ok 0 → (self.new ≡ self.old) × IsAtEnd (R.remaining (inner_of from.new)) }
        ensures err { OnErr result (self.new ≡ self.old) }
        ensures counts { CountsFailures from.old from.new result }
        ensures refusals { IfErr result (λ e. (e ≡ Refusal.OutOfMemory) ⊎ (e ≡ Refusal.Device)) }
    {
        self.to_front();
        let filled = self.filled;
        make_room(&mut self.bytes, filled)?;
        match from.read(&mut self.bytes[filled..]) {
            Ok(count) => {
                self.filled += count;
                Ok(count)
            }
            Err(_) => Err(Refusal::Device),
        }
    }

    // Moves what is left to the front.
    fn to_front(&mut self)
        ensures { self.new ≡ self.old }
    {
        if self.used > 0 {
            self.bytes.copy_within(self.used..self.filled, 0);
            self.filled -= self.used;
            self.used = 0;
        }
    }
}

// Makes room for a piece after the first bytes, whose number is given, and which stay. It fails only if an allocation fails.
fn make_room(bytes: &mut Vec<u8>, filled: usize) -> Result<(), AllocError>
    requires { filled ≤ vec_len bytes.old }
    ensures same { take filled bytes.new.items ≡ take filled bytes.old.items }
    ensures room { OnOk result (filled + PIECE ≤ vec_len bytes.new) }
    ensures err { OnErr result (bytes.new.items ≡ bytes.old.items) }
{
    if bytes.len() - filled < PIECE {
        bytes.extend_from_slice(&[0; PIECE])?;
    }
    Ok(())
}
