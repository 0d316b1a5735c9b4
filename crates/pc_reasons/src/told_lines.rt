//! The lines that report which lines of a script are bad, and why.
ghost use Rattle.std.specs.Prelude.{◌<◌, ◌-◌, ◌++◌, length, take, codes, decimal};
ghost use Rattle.std.specs.List.{flat_map};
ghost use Rattle.pc_io.specs.Tallies.{Puts};
ghost use Rattle.pc_texts.specs.Texts.{printed_name};
ghost use Rattle.pc_reasons.specs.Sentences.{fault_sentence};
ghost use Rattle.pc_reasons.specs.Told.{place_text, bad_line_text, bad_lines_text, more_text};

use crate::faults::LineFault;
use itoa::Buffer;
use pc_io::Tally;
use pc_texts::put_name;
use pc_types::Refusal;
use std::io::Write;

/// A bad line of a script.
#[derive(Drop)]
pub struct BadLine {
    /// Its number, from 1.
    pub number: usize,
    /// The fault.
    pub fault: LineFault,
}

/// The most lines whose faults are reported.
pub const MOST_TOLD: usize = 20;

/// Reports the first 20 lines, and how many more there are.
pub(crate) fn put_bad_lines<W: Write>(
    name: &[u8],
    bad: &[BadLine],
    out: &mut Tally<W>,
) -> Result<(), Refusal>
    ensures { Puts W.contents out.old out.new result (bad_lines_text name.now bad.now) }
{
    if bad.len() <= MOST_TOLD {
        put_each(name, bad, out)
    } else {
        put_first(name, bad, out)
    }
}

// The first 20 of more lines, and how many more there are.
fn put_first<W: Write>(name: &[u8], bad: &[BadLine], out: &mut Tally<W>) -> Result<(), Refusal>
    requires { MOST_TOLD < length bad.now }
    ensures { Puts W.contents out.old out.new result (flat_map (bad_line_text name.now) (take MOST_TOLD bad.now) ++ more_text name.now (length bad.now - MOST_TOLD)) }
{
    put_each(name, &bad[..MOST_TOLD], out)?;
    put_more(name, bad.len() - MOST_TOLD, out)
}

fn put_each<W: Write>(name: &[u8], bad: &[BadLine], out: &mut Tally<W>) -> Result<(), Refusal>
    ensures { Puts W.contents out.old out.new result (flat_map (bad_line_text name.now) bad.now) }
{
    for line in bad {
        put_bad_line(name, line, out)?;
    }
    Ok(())
}

// That a line is bad, and why.
fn put_bad_line<W: Write>(name: &[u8], line: &BadLine, out: &mut Tally<W>) -> Result<(), Refusal>
    ensures { Puts W.contents out.old out.new result (bad_line_text name.now line.now) }
{
    put_place(name, line.number, out)?;
    put_fault_line(line.fault, out)
}

/// The name of the file and the number of the line, and the text before the reason.
pub(crate) fn put_place<W: Write>(
    name: &[u8],
    number: usize,
    out: &mut Tally<W>,
) -> Result<(), Refusal>
    ensures { Puts W.contents out.old out.new result (place_text name.now number) }
{
    put_name(out, name)?;
    put_number(number, out)
}

fn put_number<W: Write>(number: usize, out: &mut Tally<W>) -> Result<(), Refusal>
    ensures { Puts W.contents out.old out.new result (codes ":" ++ (decimal number ++ codes ": ")) }
{
    let mut buffer = Buffer::new();
    out.put_all(&[b":", buffer.format(number).as_bytes(), b": "])
}

fn put_fault_line<W: Write>(fault: LineFault, out: &mut Tally<W>) -> Result<(), Refusal>
    ensures { Puts W.contents out.old out.new result (fault_sentence fault ++ codes "\n") }
{
    fault.put(out)?;
    out.put(b"\n")
}

fn put_more<W: Write>(name: &[u8], count: usize, out: &mut Tally<W>) -> Result<(), Refusal>
    ensures { Puts W.contents out.old out.new result (more_text name.now count) }
{
    put_name(out, name)?;
    put_count(count, out)
}

fn put_count<W: Write>(count: usize, out: &mut Tally<W>) -> Result<(), Refusal>
    ensures { Puts W.contents out.old out.new result (codes ": and " ++ (decimal count ++ codes " more\n")) }
{
    let mut buffer = Buffer::new();
    out.put_all(&[b": and ", buffer.format(count).as_bytes(), b" more\n"])
}
