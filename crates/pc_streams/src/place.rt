//! The place at which the text of a part is read, after its header.
ghost use Rattle.std.specs.Prelude.{◌≡◌, true, false, [], None, Ok, OnOk, IfErr, IfOk};
ghost use Rattle.std.specs.Int.{w32};
ghost use Rattle.std.specs.Option.{option_map};
ghost use Rattle.pc_io.specs.Counted.{one_more};
ghost use Rattle.pc_io.specs.Fields.{number_at};
ghost use Rattle.pc_entries.specs.Lent.{IsHead};
ghost use Rattle.pc_part.specs.Parts.{AreRanges};
ghost use Rattle.pc_merge.specs.Coming.{GivesNext};
ghost use Rattle.pc_streams.specs.Coming.{part_end_at};
ghost use Rattle.pc_streams.specs.Draws.{CountsFailures, Draws};
ghost use Rattle.pc_streams.specs.Places.{first_place_at, place_coming, EndsAs, IsLawfulNext, PassesTo};
ghost use Rattle.pc_streams.specs.Refusals.{IsReadRefusal};
ghost use Rattle.pc_streams.specs.Sources.{text_left, tally_of};

use crate::source::Source;
use pc_entries::EntryText;
use pc_part::{PartHeader, Range};
use pc_types::Refusal;
use std::alloc::{AllocError, Global};
use std::io::Read;
use std::marker::Model;

// After the header, the last key, and a number of entries; the end may have been read. A contract sees the format, the run,
// the ranges and the rest.
#[derive(Drop)]
pub(crate) struct Place {
    header: PartHeader,
    last: Vec<u8>,
    // The head of the last key.
    last_head: u64,
    count: u64,
    ended: bool,
}

impl Model for Place {
    ghost use Rattle.pc_entries.specs.Lent.{IsHead};
    ghost use Rattle.pc_part.specs.Parts.{AreRanges};
    ghost use Rattle.pc_streams.specs.Places.{Place};

    ghost Value = { Place };

    ghost view = { λ p. record { format = p.header.format; run = p.header.run; ranges = p.header.ranges.items; last = p.last.items; count = p.count; ended = p.ended } };

    ghost invariant = { λ p. AreRanges p.header.ranges.items × IsHead p.last.items p.last_head };
}

impl Place {
    // Reads the header, which comes first.
    pub(crate) fn open<R: Read>(alloc: Global, source: &mut Source<R>) -> Result<Place, Refusal>
        ensures drawn { Draws (λ place. place) (text_left R.remaining source.old) (text_left R.remaining source.new) result first_place_at }
        ensures first { IfOk result (λ place. (place.last ≡ []) × (place.count ≡ 0) × (place.ended ≡ false)) }
        ensures counts { CountsFailures (tally_of source.old) (tally_of source.new) result }
        ensures refusals { IfErr result IsReadRefusal }
    {
        let header = source.header(alloc)?;
        Ok(Place {
            header,
            last: Vec::new(alloc),
            last_head: 0,
            count: 0,
            ended: false,
        })
    }

    pub(crate) fn run(&self) -> u64
        ensures run { result ≡ self.now.run }
        ensures apart { AreRanges self.now.ranges }
    {
        self.header.run
    }

    // The points as ranges.
    pub(crate) fn ranges(&self) -> &[Range]
        ensures { result.now ≡ self.now.ranges }
    {
        &self.header.ranges
    }

    // The next entry, kept in this memory, or `None` at the end.
    #[inline(always)]
    pub(crate) fn next<R: Read>(
        &mut self,
        memory: Vec<u8>,
        source: &mut Source<R>,
    ) -> Result<Option<EntryText>, Refusal>
        ensures given { GivesNext (place_coming self.old (text_left R.remaining source.old)) (place_coming self.new (text_left R.remaining source.new)) result }
        ensures lawful { IsLawfulNext self.old.ranges self.old.last result }
        ensures passes { PassesTo self.old.last self.new.last result }
        ensures over { self.old.ended ≡ true → result ≡ Ok None }
        ensures ends { result ≡ Ok None → self.new.ended ≡ true }
        ensures header { (self.new.run ≡ self.old.run) × (self.new.ranges ≡ self.old.ranges) }
        ensures counts { CountsFailures (tally_of source.old) (tally_of source.new) result }
        ensures refusals { IfErr result IsReadRefusal }
    {
        if self.ended {
            return Ok(None);
        }
        match source.entry(
            memory,
            self.header.format,
            &self.header.ranges,
            &self.last,
            self.last_head,
        )? {
            Some(entry) => {
                self.pass(entry.key(), entry.head())?;
                Ok(Some(entry))
            }
            None => {
                read_end(source, self.count)?;
                self.ended = true;
                Ok(None)
            }
        }
    }

    // Counts an entry of this key, which has this head. It fails only if an allocation fails.
    #[inline(always)]
    fn pass(&mut self, key: &[u8], head: u64) -> Result<(), AllocError>
        requires { IsHead key.now head }
        ensures passed { OnOk result (self.new ≡ record self.old { last = key.now; count = one_more self.old.count }) }
        ensures header { (self.new.run ≡ self.old.run) × (self.new.ranges ≡ self.old.ranges) }
    {
        self.last.clear();
        self.last_head = 0;
        self.last.extend_from_slice(key)?;
        self.last_head = head;
        self.count = self.count.saturating_add(1);
        Ok(())
    }
}

// Reads the number of entries, and checks that nothing follows.
fn read_end<R: Read>(source: &mut Source<R>, count: u64) -> Result<(), Refusal>
    ensures ends { EndsAs (option_map (λ bytes. part_end_at count (number_at Refusal.Short w32 bytes)) (text_left R.remaining source.old)) result }
    ensures counts { CountsFailures (tally_of source.old) (tally_of source.new) result }
    ensures refusals { IfErr result IsReadRefusal }
{
    let total = source.number()?;
    if u64::from(total) != count {
        return Err(Refusal::BadLength);
    }
    if !source.is_over()? {
        return Err(Refusal::Trailing);
    }
    Ok(())
}
