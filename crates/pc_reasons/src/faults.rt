//! The fault of a line by itself, and its reason in words.
ghost use Rattle.std.specs.Prelude.{◌≡◌, ◌++◌, codes};
ghost use Rattle.pc_io.specs.Tallies.{Puts};
ghost use Rattle.pc_reasons.specs.Sentences.{place_name, kind_name, fault_sentence};

use pc_io::Tally;
use pc_types::Refusal;
use std::io::Write;

/// The place of a word in its line, after the first.
#[derive(Clone, Copy, Debug, PartialEq, Eq)]
pub enum WordPlace {
    Second,
    Third,
    Fourth,
}

/// The expected kind of a word.
#[derive(Clone, Copy, Debug, PartialEq, Eq)]
pub enum WordKind {
    /// A session's number: 1 to 9 digits.
    SessionNumber,
    /// A file's number: 1 to 9 digits.
    FileNumber,
    /// The word of a key, whatever its length.
    KeyWord,
    /// The word of a value, whatever its length.
    ValueWord,
    /// A number to add: 64 bits with a sign.
    Addend,
    /// The number of points that a workload asks for: 0 to 1,000.
    PointCount,
    /// The session of a workload's client: 1 to 64.
    ClientNumber,
    /// A key of 1 to 255 bytes.
    WholeKey,
    /// A value of at most 65,535 bytes.
    WholeValue,
    /// What the keys of a fill begin with: at most 249 bytes.
    KeyPrefix,
    /// The number of transactions that a fill has: 1 to 1,000,000.
    FillCount,
}

/// The fault of a line, wherever it is.
#[derive(Clone, Copy, Debug, PartialEq, Eq)]
pub enum LineFault {
    /// Its first word names no command.
    NoCommand,
    /// It has fewer words than its command takes.
    TooFewWords,
    /// It has more of them.
    TooManyWords,
    /// The first word of it that isn't of the expected kind.
    WrongWord(WordPlace, WordKind),
    /// Its last byte is a CR, which no word has: its end was CR CR LF, or CR without an LF.
    CarriageReturn,
}

impl LineFault {
    /// Writes it in words. Returns `Device` if and only if the writer failed in this call.
    pub fn put<W: Write>(&self, out: &mut Tally<W>) -> Result<(), Refusal>
        ensures { Puts W.contents out.old out.new result (fault_sentence self.now) }
    {
        match *self {
            LineFault::NoCommand => out.put(b"the first word names no command"),
            LineFault::TooFewWords => out.put(b"a word is missing"),
            LineFault::TooManyWords => out.put(b"there are too many words"),
            LineFault::CarriageReturn => out.put(b"a CR stands at its end"),
            LineFault::WrongWord(place, kind) => put_wrong_word(place, kind, out),
        }
    }
}

// The word at this place isn't of the expected kind.
fn put_wrong_word<W: Write>(
    place: WordPlace,
    kind: WordKind,
    out: &mut Tally<W>,
) -> Result<(), Refusal>
    ensures { Puts W.contents out.old out.new result (codes "the " ++ (place_name place ++ (codes " word is no " ++ kind_name kind))) }
{
    out.put_all(&[b"the ", place_name(place), b" word is no ", kind_name(kind)])
}

fn place_name(place: WordPlace) -> &'static [u8]
    ensures { result.now ≡ place_name place }
{
    match place {
        WordPlace::Second => b"second",
        WordPlace::Third => b"third",
        WordPlace::Fourth => b"fourth",
    }
}

fn kind_name(kind: WordKind) -> &'static [u8]
    ensures { result.now ≡ kind_name kind }
{
    match kind {
        WordKind::SessionNumber => b"session number",
        WordKind::FileNumber => b"file number",
        WordKind::KeyWord => b"key",
        WordKind::ValueWord => b"value",
        WordKind::Addend => b"number to add",
        WordKind::PointCount => b"number from 0 to 1000",
        WordKind::ClientNumber => b"session number from 1 to 64",
        WordKind::WholeKey => b"key of 1 to 255 bytes",
        WordKind::WholeValue => b"value of at most 65535 bytes",
        WordKind::KeyPrefix => b"prefix of at most 249 bytes",
        WordKind::FillCount => b"number from 1 to 1000000",
    }
}
