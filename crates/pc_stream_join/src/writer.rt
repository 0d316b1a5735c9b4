//! The text of a part goes out in pieces.
ghost use Rattle.std.specs.Prelude.{◌≡◌, ◌+◌, ◌<◌, ◌^◌, nat_le, [], IfOk, IfErr, OnOk, MatchResult};
ghost use Rattle.pc_part.specs.Lawful.{HasLimits};
ghost use Rattle.pc_part.specs.Parts.{AreRanges};
ghost use Rattle.pc_part.specs.Texts.{triple_text};
ghost use Rattle.pc_io.specs.Tallies.{Puts};
ghost use Rattle.pc_types.specs.declared.refusal.Refusal.{Refusal};
ghost use Rattle.pc_stream_join.specs.Writing.{Ends, WritesBuffered, part_header_text};

use pc_entries::EntryText;
use pc_io::Tally;
use pc_part::{PartHeader, put_end, put_head, put_ranges};
use pc_types::{MOST_FILE_ENTRIES, Refusal};
use std::alloc::Global;
use std::io::Write;
use std::marker::Model;
use std::mem;

// Bytes are kept until they are this many, and go out together.
const PIECE: usize = 65_536;

// The text of a part, of which a beginning went out. A contract sees the bytes that are kept of it, and the number of its entries.
#[derive(Drop)]
pub(crate) struct PartWriter {
    alloc: Global,
    kept: Tally<Vec<u8>>,
    // The number of bytes that are kept, about.
    size: usize,
    count: u32,
}

impl Model for PartWriter {
    ghost use Rattle.pc_io.specs.Tallies.{inner_of};
    ghost use Rattle.pc_stream_join.specs.Writing.{Writing};

    ghost Value = { Writing };

    ghost view = { λ w. record { kept = (inner_of w.kept).items; count = w.count } };
}

impl PartWriter {
    // Keeps the header, which comes before the entries. It allocates room for a piece and the header.
    pub(crate) fn new(alloc: Global, header: &PartHeader) -> Result<PartWriter, Refusal>
        requires { AreRanges header.now.ranges.items }
        ensures begun { IfOk result (λ writer. writer ≡ record { kept = part_header_text header.now.run header.now.ranges.items; count = 0 }) }
        ensures memory { IfErr result (λ why. why ≡ Refusal.OutOfMemory) }
        ensures run { OnOk result (header.now.run < 2 ^ 64) }
    {
        let mut kept = Tally::new(Vec::with_capacity(alloc, 2 * PIECE)?);
        in_memory(put_head(&mut kept, header.run, header.ranges.len() as u32))?;
        in_memory(put_ranges(&mut kept, &header.ranges))?;
        Ok(PartWriter {
            alloc,
            kept,
            size: 0,
            count: 0,
        })
    }

    // Whether no more entries can be counted.
    pub(crate) fn is_full(&self) -> bool
        ensures { result ≡ nat_le MOST_FILE_ENTRIES self.now.count }
    {
        self.count as usize >= MOST_FILE_ENTRIES
    }

    // Writes one more entry. It is kept, or a piece goes out.
    pub(crate) fn entry<W: Write>(
        &mut self,
        out: &mut Tally<W>,
        entry: &EntryText,
    ) -> Result<(), Refusal>
        requires { self.old.count < MOST_FILE_ENTRIES }
        ensures goes { WritesBuffered W.contents out.old out.new self.old.kept self.new.kept (triple_text entry.now) result }
        ensures counted { OnOk result (self.new.count ≡ self.old.count + 1) }
        ensures lawful { HasLimits entry.now }
    {
        let text = entry.text();
        in_memory(self.kept.put(text))?;
        self.count += 1;
        self.size = self.size.saturating_add(text.len());
        if self.size < PIECE {
            return Ok(());
        }
        self.drain(out)
    }

    // Writes the end, and all bytes that are kept; gives the number of entries of the text.
    pub(crate) fn end<W: Write>(self, out: &mut Tally<W>) -> Result<u32, Refusal>
        ensures { Ends W.contents out.old out.new self.kept self.count result }
    {
        let mut writer = self;
        in_memory(put_end(&mut writer.kept, writer.count))?;
        writer.drain(out)?;
        Ok(writer.count)
    }

    // Writes all bytes that are kept.
    fn drain<W: Write>(&mut self, out: &mut Tally<W>) -> Result<(), Refusal>
        ensures put { Puts W.contents out.old out.new result self.old.kept }
        ensures kept { OnOk result (self.new ≡ record self.old { kept = [] }) }
    {
        let kept = mem::replace(&mut self.kept, Tally::new(Vec::new(self.alloc)));
        let mut bytes = kept.into_inner();
        out.put(&bytes)?;
        bytes.clear();
        self.kept = Tally::new(bytes);
        self.size = 0;
        Ok(())
    }
}

// Bytes that are kept in memory can fail only for a failed allocation.
fn in_memory(put: Result<(), Refusal>) -> Result<(), Refusal>
    ensures { MatchResult result (λ _. put ≡ Ok tt) (λ why. why ≡ Refusal.OutOfMemory) }
{
    put.map_err(|_| Refusal::OutOfMemory)
}
