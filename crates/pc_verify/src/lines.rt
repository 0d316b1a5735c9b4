//! The line with the finding about a file.
ghost use Rattle.std.specs.Prelude.{◌≡◌, ◌++◌, codes, decimal};
ghost use Rattle.pc_io.specs.Tallies.{Puts};
ghost use Rattle.pc_texts.specs.Texts.{joined_line};
ghost use Rattle.pc_verify.specs.Lines.{base_words, fault_words, finding_line, finding_words, format_digits, head_words, log_words, unread_words};

use crate::findings::{Finding, Head};
use itoa::Buffer;
use pc_io::{Format, Tally};
use pc_texts::{put_joined, put_name};
use pc_types::{Point, Refusal};
use std::io::Write;

/// Writes the line with the finding about the file of this name.
pub(crate) fn put_finding<W: Write>(
    out: &mut Tally<W>,
    name: &[u8],
    finding: &Finding,
) -> Result<(), Refusal>
    ensures { Puts W.contents out.old out.new result (finding_line name.now finding.now) }
{
    put_name(out, name)?;
    put_words(out, finding)
}

fn put_words<W: Write>(out: &mut Tally<W>, finding: &Finding) -> Result<(), Refusal>
    ensures { Puts W.contents out.old out.new result (finding_words finding.now) }
{
    match finding {
        Finding::Base(head, point, pairs) => put_base(out, head, *point, *pairs),
        Finding::Part(head, points, entries) => put_part(out, head, points.as_slice(), *entries),
        Finding::Log(head, entries) => put_log(out, head, *entries),
        Finding::Fault(why, byte) => put_fault(out, *why, *byte),
        Finding::Unread(why) => out.put_all(&[b" ", why.name().as_bytes(), b"\n"]),
    }
}

fn put_fault<W: Write>(out: &mut Tally<W>, why: Refusal, byte: u64) -> Result<(), Refusal>
    ensures { Puts W.contents out.old out.new result (fault_words why byte) }
{
    let mut buffer = Buffer::new();
    out.put_all(&[
        b" ",
        why.name().as_bytes(),
        b" byte ",
        buffer.format(byte).as_bytes(),
        b"\n",
    ])
}

fn put_base<W: Write>(
    out: &mut Tally<W>,
    head: &Head,
    point: Point,
    pairs: u64,
) -> Result<(), Refusal>
    ensures { Puts W.contents out.old out.new result (head_words head.now ++ base_words point pairs) }
{
    put_head(out, head)?;
    put_base_end(out, point, pairs)
}

fn put_base_end<W: Write>(out: &mut Tally<W>, point: Point, pairs: u64) -> Result<(), Refusal>
    ensures { Puts W.contents out.old out.new result (base_words point pairs) }
{
    let mut point_text = Buffer::new();
    let mut pairs_text = Buffer::new();
    out.put_all(&[
        b"point ",
        point_text.format(point.0).as_bytes(),
        b" pairs ",
        pairs_text.format(pairs).as_bytes(),
        b"\n",
    ])
}

fn put_part<W: Write>(
    out: &mut Tally<W>,
    head: &Head,
    points: &[Point],
    entries: u64,
) -> Result<(), Refusal>
    ensures { Puts W.contents out.old out.new result (head_words head.now ++ joined_line points.now entries) }
{
    put_head(out, head)?;
    put_joined(out, points, entries)
}

fn put_log<W: Write>(out: &mut Tally<W>, head: &Head, entries: u64) -> Result<(), Refusal>
    ensures { Puts W.contents out.old out.new result (head_words head.now ++ log_words entries) }
{
    put_head(out, head)?;
    put_entries(out, entries)
}

fn put_entries<W: Write>(out: &mut Tally<W>, entries: u64) -> Result<(), Refusal>
    ensures { Puts W.contents out.old out.new result (log_words entries) }
{
    let mut buffer = Buffer::new();
    out.put_all(&[b"entries ", buffer.format(entries).as_bytes(), b"\n"])
}

// That the text is whole, its format and its run.
fn put_head<W: Write>(out: &mut Tally<W>, head: &Head) -> Result<(), Refusal>
    ensures { Puts W.contents out.old out.new result (head_words head.now) }
{
    let mut buffer = Buffer::new();
    out.put_all(&[
        b" ok ",
        format_digits(head.format),
        b" run ",
        buffer.format(head.run).as_bytes(),
        b" ",
    ])
}

fn format_digits(format: Format) -> &'static [u8]
    ensures { result.now ≡ format_digits format }
{
    match format {
        Format::First => b"01",
        Format::Second => b"02",
    }
}
