//! The report of a run, and its text.
ghost use Rattle.std.specs.Prelude.{◌≡◌};
ghost use Rattle.pc_io.specs.Tallies.{Puts};
ghost use Rattle.pc_outcomes.specs.Outcomes.{number_line, collapsed_lines, file_lines, left_text, run_counts_text, outcome_text, printed_text, run_status};

use itoa::Buffer;
use pc_io::Tally;
use pc_texts::{put_check, put_collapsed};
use pc_types::{Items, Point, Refusal};
use std::io::Write;

/// The report of a run.
#[derive(Drop)]
pub struct RunReport {
    /// The number of transactions committed.
    pub commits: u64,
    /// How many were given up.
    pub given_up: u64,
    /// The number of points taken.
    pub points: u32,
    /// The report of the store.
    pub left: StoreReport,
}

/// The report of a closed store.
#[derive(Drop)]
pub struct StoreReport {
    /// The file of all points, if there are any.
    pub collapsed: Option<Collapsed>,
    /// Whether each file of all points from the first on is correct by the log.
    pub is_right: bool,
}

/// The file of all points.
#[derive(Drop)]
pub struct Collapsed {
    /// Its points, which ascend.
    pub points: Items<Point>,
    /// The number of entries that it has.
    pub entries: u64,
    /// The number of pairs that the base has with the file applied to it.
    pub pairs: usize,
}

/// The output of a workload.
#[derive(Drop)]
pub enum Printed {
    /// The number of its first bad line, from 1.
    BadLine(usize),
    /// The report of its run.
    Whole(RunReport),
}

// A word and a number, alone in a line.
fn put_number<W: Write>(out: &mut Tally<W>, word: &[u8], number: u64) -> Result<(), Refusal>
    ensures { Puts W.contents out.old out.new result (number_line word.now number) }
{
    let mut buffer = Buffer::new();
    out.put_all(&[word, buffer.format(number).as_bytes(), b"\n"])
}

impl Collapsed {
    // Writes the lines of the file of all points.
    fn put<W: Write>(&self, out: &mut Tally<W>) -> Result<(), Refusal>
        ensures { Puts W.contents out.old out.new result (collapsed_lines self.now) }
    {
        put_collapsed(out, self.points.as_slice(), self.entries)?;
        put_number(out, b"state pairs ", self.pairs as u64)
    }
}

// The lines of the file of all points, or the line that says that there is none.
fn put_file<W: Write>(out: &mut Tally<W>, collapsed: &Option<Collapsed>) -> Result<(), Refusal>
    ensures { Puts W.contents out.old out.new result (file_lines collapsed.now) }
{
    match collapsed {
        None => out.put(b"collapsed none\n"),
        Some(file) => file.put(out),
    }
}

impl StoreReport {
    // Writes the lines of the file of all points, and what the check found.
    fn put<W: Write>(&self, out: &mut Tally<W>) -> Result<(), Refusal>
        ensures { Puts W.contents out.old out.new result (left_text self.now) }
    {
        put_file(out, &self.collapsed)?;
        put_check(out, self.is_right)
    }
}

impl RunReport {
    // Writes how many jobs were committed and given up, and how many points were taken.
    fn put_counts<W: Write>(&self, out: &mut Tally<W>) -> Result<(), Refusal>
        ensures { Puts W.contents out.old out.new result (run_counts_text self.now) }
    {
        let mut commits = Buffer::new();
        let mut given_up = Buffer::new();
        let mut points = Buffer::new();
        out.put_all(&[
            b"commits ",
            commits.format(self.commits).as_bytes(),
            b"\ngave up ",
            given_up.format(self.given_up).as_bytes(),
            b"\npoints ",
            points.format(self.points).as_bytes(),
            b"\n",
        ])
    }

    // Writes the lines of a run.
    fn put<W: Write>(&self, out: &mut Tally<W>) -> Result<(), Refusal>
        ensures { Puts W.contents out.old out.new result (outcome_text self.now) }
    {
        self.put_counts(out)?;
        self.left.put(out)
    }
}

impl Printed {
    /// Its exit status.
    pub fn status(&self) -> u8
        ensures { result ≡ run_status self.now }
    {
        match self {
            Printed::BadLine(_) => 3,
            Printed::Whole(_) => 0,
        }
    }

    /// Writes its lines.
    pub fn put<W: Write>(&self, out: &mut Tally<W>) -> Result<(), Refusal>
        ensures { Puts W.contents out.old out.new result (printed_text self.now) }
    {
        match self {
            Printed::BadLine(line) => put_number(out, b"bad line ", *line as u64),
            Printed::Whole(outcome) => outcome.put(out),
        }
    }
}
