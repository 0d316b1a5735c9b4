//! The output of `pcalc recover`. It goes out piece by piece and allocates nothing.
ghost use Rattle.std.specs.Prelude.{◌≡◌, ◌++◌, codes, length, slice_get};
ghost use Rattle.std.specs.List.{flat_map};
ghost use Rattle.pc_io.specs.Tallies.{Puts};
ghost use Rattle.pc_model.specs.Database.{KeysRise};
ghost use Rattle.pc_recover.specs.Recovery.{recovery_of};
ghost use Rattle.pc_texts.specs.Texts.{printed_name, refusal_text};
ghost use Rattle.pc_restore.specs.Reports.{count_line, counts_text, damage_text, details_text, is_cut, log_line, name_at, pairs_text, recovery_text, skipped_line, summary_text};
ghost use Rattle.pc_restore.specs.Recoveries.{names_of};

use crate::reading::PartBytes;
use itoa::Buffer;
use pc_io::Tally;
use pc_recover::{Recovered, Skipped};
use pc_texts::{put_name, put_pairs, put_reason};
use pc_types::{Key, Point, Refusal, Value};
use std::io::Write;

/// Writes the recovered state of parts with these names, with its pairs or without.
pub(crate) fn put_recovered<W: Write>(
    out: &mut Tally<W>,
    has_pairs: bool,
    parts: &[PartBytes],
    recovered: &Recovered,
) -> Result<(), Refusal>
    requires rise { KeysRise recovered.now.pairs.items }
    ensures { Puts W.contents out.old out.new result (recovery_text has_pairs (names_of parts.now) (recovery_of recovered.now)) }
{
    put_summary(out, parts, recovered)?;
    put_all_pairs(out, has_pairs, &recovered.pairs)
}

// The output without the pairs.
fn put_summary<W: Write>(
    out: &mut Tally<W>,
    parts: &[PartBytes],
    recovered: &Recovered,
) -> Result<(), Refusal>
    requires rise { KeysRise recovered.now.pairs.items }
    ensures { Puts W.contents out.old out.new result (summary_text (names_of parts.now) (recovery_of recovered.now)) }
{
    put_counts(out, recovered.point, recovered.entries)?;
    put_details(out, parts, recovered)
}

// The output after the counts: the damage and the skipped parts, and the number of the pairs.
fn put_details<W: Write>(
    out: &mut Tally<W>,
    parts: &[PartBytes],
    recovered: &Recovered,
) -> Result<(), Refusal>
    requires rise { KeysRise recovered.now.pairs.items }
    ensures { Puts W.contents out.old out.new result (details_text (names_of parts.now) (recovery_of recovered.now)) }
{
    put_damage(out, parts, recovered)?;
    put_pair_count(out, &recovered.pairs)
}

/// Writes the damage of parts with these names and of the log: the line of the log's fault, if it has one and was not only
/// truncated, and one of each part that was skipped.
pub(crate) fn put_damage<W: Write>(
    out: &mut Tally<W>,
    parts: &[PartBytes],
    recovered: &Recovered,
) -> Result<(), Refusal>
    ensures { Puts W.contents out.old out.new result (damage_text (names_of parts.now) (recovery_of recovered.now)) }
{
    put_log(out, recovered.fault)?;
    put_all_skipped(out, parts, &recovered.skipped)
}

fn put_counts<W: Write>(out: &mut Tally<W>, point: Point, entries: usize) -> Result<(), Refusal>
    ensures { Puts W.contents out.old out.new result (counts_text point entries) }
{
    put_point(out, point)?;
    put_count(out, b"entries ", entries as u64)
}

fn put_point<W: Write>(out: &mut Tally<W>, point: Point) -> Result<(), Refusal>
    ensures { Puts W.contents out.old out.new result (count_line (codes "point ") point) }
{
    let mut buffer = Buffer::new();
    out.put_all(&[b"point ", buffer.format(point.0).as_bytes(), b"\n"])
}

/// Writes a line of a word and a number.
pub(crate) fn put_count<W: Write>(
    out: &mut Tally<W>,
    word: &[u8],
    number: u64,
) -> Result<(), Refusal>
    ensures { Puts W.contents out.old out.new result (count_line word.now number) }
{
    let mut buffer = Buffer::new();
    out.put_all(&[word, buffer.format(number).as_bytes(), b"\n"])
}

// The fault of the log's rest, if it was not only truncated.
fn put_log<W: Write>(out: &mut Tally<W>, fault: Option<Refusal>) -> Result<(), Refusal>
    ensures { Puts W.contents out.old out.new result (log_line fault) }
{
    match fault {
        Some(why) if !is_cut(why) => out.put_all(&[b"log ", why.name().as_bytes(), b"\n"]),
        _ => Ok(()),
    }
}

/// Whether a log with this fault of its rest was only truncated.
pub(crate) fn is_cut(fault: Refusal) -> bool
    ensures { result ≡ is_cut fault }
{
    match fault {
        Refusal::Short => true,
        _ => false,
    }
}

fn put_all_skipped<W: Write>(
    out: &mut Tally<W>,
    parts: &[PartBytes],
    skipped: &[Skipped],
) -> Result<(), Refusal>
    ensures { Puts W.contents out.old out.new result (flat_map (skipped_line (names_of parts.now)) skipped.now) }
{
    for one in skipped {
        put_skipped(out, parts, one)?;
    }
    Ok(())
}

fn put_skipped<W: Write>(
    out: &mut Tally<W>,
    parts: &[PartBytes],
    skipped: &Skipped,
) -> Result<(), Refusal>
    ensures { Puts W.contents out.old out.new result (skipped_line (names_of parts.now) skipped.now) }
{
    put_place(out, name_at(parts, skipped.place))?;
    put_reason_line(out, skipped.reason)
}

fn put_place<W: Write>(out: &mut Tally<W>, name: &[u8]) -> Result<(), Refusal>
    ensures { Puts W.contents out.old out.new result (codes "skipped " ++ printed_name name.now) }
{
    out.put(b"skipped ")?;
    put_name(out, name)
}

// A space, the reason and the end of the line.
fn put_reason_line<W: Write>(out: &mut Tally<W>, reason: Refusal) -> Result<(), Refusal>
    ensures { Puts W.contents out.old out.new result (codes " " ++ (refusal_text reason ++ codes "\n")) }
{
    out.put(b" ")?;
    put_reason_end(out, reason)
}

fn put_reason_end<W: Write>(out: &mut Tally<W>, reason: Refusal) -> Result<(), Refusal>
    ensures { Puts W.contents out.old out.new result (refusal_text reason ++ codes "\n") }
{
    put_reason(out, reason)?;
    out.put(b"\n")
}

// The name of the part at a place.
fn name_at<'a>(parts: &'a [PartBytes], place: usize) -> &'a [u8]
    ensures { result.now ≡ name_at (slice_get (names_of parts.now) place) }
{
    match parts.get(place) {
        Some(part) => part.name.as_slice(),
        None => b"",
    }
}

fn put_pair_count<W: Write>(out: &mut Tally<W>, pairs: &[(Key, Value)]) -> Result<(), Refusal>
    ensures { Puts W.contents out.old out.new result (count_line (codes "pairs ") (length pairs.now)) }
{
    put_count(out, b"pairs ", pairs.len() as u64)
}

// The pairs, if they are asked for.
fn put_all_pairs<W: Write>(
    out: &mut Tally<W>,
    has_pairs: bool,
    pairs: &[(Key, Value)],
) -> Result<(), Refusal>
    ensures { Puts W.contents out.old out.new result (pairs_text has_pairs pairs.now) }
{
    if has_pairs {
        put_pairs(out, pairs)
    } else {
        Ok(())
    }
}
