//! A part's text, of which the entries come in order.
ghost use Rattle.std.specs.Prelude.{◌≡◌, true, Some, None, Ok, Err, OnOk, IfErr, IfOk};
ghost use Rattle.std.specs.Option.{option_map};
ghost use Rattle.pc_io.specs.Tallies.{inner_of, failures_of};
ghost use Rattle.pc_types.specs.declared.Refusal.{Refusal};
ghost use Rattle.pc_part.specs.Parts.{AreRanges};
ghost use Rattle.pc_merge.specs.Coming.{GivesNext, GivesWithin, KeepsRefusal};
ghost use Rattle.pc_streams.specs.Coming.{part_coming, part_header};
ghost use Rattle.pc_streams.specs.Draws.{CountsFailures};
ghost use Rattle.pc_streams.specs.Places.{IsLawfulNext, PassesTo};
ghost use Rattle.pc_streams.specs.Refusals.{IsReadRefusal};
ghost use Rattle.pc_streams.specs.Readers.{coming_of, header_of, refused_of, counted_by, ranges_read, last_given, has_ended, reads_within, standing_of, AnswersAs, CountsOnce, KeepsToRanges, Refuses, StaysKnown, TellsRanges};

use crate::kept::KeptRefusal;
use crate::place::Place;
use crate::source::Source;
use pc_entries::EntryText;
use pc_io::Tally;
use pc_merge::Entries;
use pc_part::Range;
use pc_types::Refusal;
use std::alloc::Global;
use std::io::Read;

/// A part's text, read from a counted reader as its entries are asked for. In memory are its ranges, the last key, and a buffer for
/// the longest entry, or the header, and two pieces of 16,384 bytes. Its entries take memory if that in which they are to be kept
/// has no room for their text.
#[derive(Drop)]
pub struct PartReader<R> {
    alloc: Global,
    source: Source<R>,
    stage: PartStage,
}

// The progress of reading a part's text.
#[derive(Drop)]
enum PartStage {
    // Nothing is read.
    Unread,
    // The header is read, and maybe entries, or the end.
    Among(Place),
    // A call was refused, and so is each later one.
    Refused(KeptRefusal),
}

impl<R: Read> PartReader<R> {
    /// Reads nothing yet, and takes no memory.
    pub fn new(alloc: Global, tally: Tally<R>) -> PartReader<R>
        ensures tally { counted_by result ≡ tally }
        ensures sound { refused_of result ≡ None }
        ensures coming { coming_of R.remaining result ≡ option_map part_coming (R.remaining (inner_of tally)) }
        ensures header { header_of R.remaining result ≡ option_map part_header (R.remaining (inner_of tally)) }
    {
        PartReader {
            alloc,
            source: Source::new(alloc, tally),
            stage: PartStage::Unread,
        }
    }

    /// The number of reads that failed.
    pub fn failures(&self) -> u64
        ensures { result ≡ failures_of (counted_by self.now) }
    {
        self.source.failures()
    }

    /// The run. It comes before the entries, as the ranges do; both are read if they aren't yet. Fails with `OutOfMemory` and, if
    /// and only if the count of failures has increased, with `Device`, else with `Short`, `BadMagic` or `BadRanges`, the first fault
    /// of the text. After a refusal of any call it answers the same one from then on.
    pub fn header(&mut self) -> Result<u64, Refusal>
        ensures header { AnswersAs (λ run. (run, ranges_read self.new)) (header_of R.remaining self.old) result }
        ensures told { IfOk result (λ run. header_of R.remaining self.new ≡ Some (Ok (run, ranges_read self.new))) }
        ensures apart { OnOk result (AreRanges (ranges_read self.new)) }
        ensures last { OnOk result (last_given self.new ≡ last_given self.old) }
        ensures stays { OnOk result (StaysKnown (header_of R.remaining self.old) (header_of R.remaining self.new)) }
        ensures coming { OnOk result (StaysKnown (coming_of R.remaining self.old) (coming_of R.remaining self.new)) }
        ensures refused { Refuses (refused_of self.old) (refused_of self.new) result }
        ensures counts { CountsOnce (refused_of self.old) (counted_by self.old) (counted_by self.new) result }
        ensures stands { KeepsRefusal (standing_of self.old) (standing_of self.new) result }
        ensures within { OnOk result (KeepsToRanges self.new (ranges_read self.new)) }
        ensures refusals { IfErr result IsReadRefusal }
    {
        match &self.stage {
            PartStage::Unread => self.open(),
            PartStage::Among(place) => Ok(place.run()),
            PartStage::Refused(kept) => Err(kept.why()),
        }
    }

    /// The points as ranges, ascending, with at least one point left out between two. They are none if the header isn't read, or a
    /// call was refused.
    pub fn ranges(&self) -> &[Range]
        ensures { result.now ≡ ranges_read self.now }
    {
        match &self.stage {
            PartStage::Among(place) => place.ranges(),
            _ => &[],
        }
    }

    // Reads the header.
    fn open(&mut self) -> Result<u64, Refusal>
        requires { self.old.stage ≡ PartStage.Unread }
        ensures header { AnswersAs (λ run. (run, ranges_read self.new)) (header_of R.remaining self.old) result }
        ensures told { IfOk result (λ run. header_of R.remaining self.new ≡ Some (Ok (run, ranges_read self.new))) }
        ensures apart { OnOk result (AreRanges (ranges_read self.new)) }
        ensures last { OnOk result (last_given self.new ≡ last_given self.old) }
        ensures stays { OnOk result (StaysKnown (header_of R.remaining self.old) (header_of R.remaining self.new)) }
        ensures coming { OnOk result (StaysKnown (coming_of R.remaining self.old) (coming_of R.remaining self.new)) }
        ensures refused { Refuses None (refused_of self.new) result }
        ensures counts { CountsFailures (counted_by self.old) (counted_by self.new) result }
        ensures within { OnOk result (KeepsToRanges self.new (ranges_read self.new)) }
        ensures refusals { IfErr result IsReadRefusal }
    {
        match Place::open(self.alloc, &mut self.source) {
            Ok(place) => {
                let run = place.run();
                self.stage = PartStage::Among(place);
                Ok(run)
            }
            Err(why) => {
                self.refuse(&why);
                Err(why)
            }
        }
    }

    // Refuses so from now on.
    fn refuse(&mut self, why: &Refusal)
        requires { IsReadRefusal why.now }
        ensures { self.new ≡ record self.old { stage = PartStage.Refused why.now } }
    {
        self.stage = PartStage::Refused(KeptRefusal::new(*why));
    }

    // The next entry, kept in this memory, or `None` at the end. A refusal is not kept.
    #[inline(always)]
    fn step(&mut self, memory: Vec<u8>) -> Result<Option<EntryText>, Refusal>
        ensures given { GivesNext (coming_of R.remaining self.old) (coming_of R.remaining self.new) result }
        ensures lawful { IsLawfulNext (ranges_read self.new) (last_given self.old) result }
        ensures passes { PassesTo (last_given self.old) (last_given self.new) result }
        ensures told { OnOk result (TellsRanges (header_of R.remaining self.new) (ranges_read self.new)) }
        ensures over { has_ended self.old ≡ true → result ≡ Ok None }
        ensures ends { result ≡ Ok None → has_ended self.new ≡ true }
        ensures sound { OnOk result (refused_of self.new ≡ None) }
        ensures again { (why : Refusal) → refused_of self.old ≡ Some why → result ≡ Err why }
        ensures header { OnOk result (StaysKnown (header_of R.remaining self.old) (header_of R.remaining self.new)) }
        ensures counts { CountsOnce (refused_of self.old) (counted_by self.old) (counted_by self.new) result }
        ensures within { GivesWithin reads_within self.old self.new result }
        ensures refusals { IfErr result IsReadRefusal }
    {
        match &mut self.stage {
            PartStage::Unread => self.first(memory),
            PartStage::Among(place) => place.next(memory, &mut self.source),
            PartStage::Refused(kept) => Err(kept.why()),
        }
    }

    // The header, and then the first entry, kept in this memory, or `None` at the end.
    fn first(&mut self, memory: Vec<u8>) -> Result<Option<EntryText>, Refusal>
        requires { self.old.stage ≡ PartStage.Unread }
        ensures given { GivesNext (coming_of R.remaining self.old) (coming_of R.remaining self.new) result }
        ensures lawful { IsLawfulNext (ranges_read self.new) (last_given self.old) result }
        ensures passes { PassesTo (last_given self.old) (last_given self.new) result }
        ensures told { OnOk result (TellsRanges (header_of R.remaining self.new) (ranges_read self.new)) }
        ensures ends { result ≡ Ok None → has_ended self.new ≡ true }
        ensures sound { OnOk result (refused_of self.new ≡ None) }
        ensures header { OnOk result (StaysKnown (header_of R.remaining self.old) (header_of R.remaining self.new)) }
        ensures counts { CountsFailures (counted_by self.old) (counted_by self.new) result }
        ensures refusals { IfErr result IsReadRefusal }
    {
        let mut place = Place::open(self.alloc, &mut self.source)?;
        let answer = place.next(memory, &mut self.source);
        self.stage = PartStage::Among(place);
        answer
    }
}

impl<R: Read> Entries for PartReader<R> {
    ghost use Rattle.pc_streams.specs.Readers.{coming_of, reads_within, standing_of};
    ghost use Rattle.pc_streams.specs.Refusals.{IsReadRefusal};

    ghost coming = { coming_of R.remaining };

    ghost standing = { standing_of };

    ghost within = { reads_within };

    ghost refusals = { IsReadRefusal };

    /// The next entry, kept in this memory, or `None` at the end. The header is read before the first. After the last one it checks
    /// that the text has their number, and ends. Fails with `OutOfMemory` and, if and only if the count of failures has increased,
    /// with `Device`, else with the first fault of the text, which is that of `Part::decode`. After a refusal it answers the same
    /// one from then on.
    #[inline(always)]
    fn next(&mut self, memory: Vec<u8>) -> Result<Option<EntryText>, Refusal>
        ensures given { GivesNext (coming_of R.remaining self.old) (coming_of R.remaining self.new) result }
        ensures lawful { IsLawfulNext (ranges_read self.new) (last_given self.old) result }
        ensures passes { PassesTo (last_given self.old) (last_given self.new) result }
        ensures told { OnOk result (TellsRanges (header_of R.remaining self.new) (ranges_read self.new)) }
        ensures over { has_ended self.old ≡ true → result ≡ Ok None }
        ensures ends { result ≡ Ok None → has_ended self.new ≡ true }
        ensures refused { Refuses (refused_of self.old) (refused_of self.new) result }
        ensures header { OnOk result (StaysKnown (header_of R.remaining self.old) (header_of R.remaining self.new)) }
        ensures counts { CountsOnce (refused_of self.old) (counted_by self.old) (counted_by self.new) result }
        ensures stands { KeepsRefusal (standing_of self.old) (standing_of self.new) result }
        ensures within { GivesWithin reads_within self.old self.new result }
        ensures refusals { IfErr result IsReadRefusal }
    {
        let answer = self.step(memory);
        if let Err(why) = &answer {
            self.refuse(why);
        }
        answer
    }
}
