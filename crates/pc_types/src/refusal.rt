//! Why a call was refused.
ghost use Rattle.std.specs.Prelude.{◌≡◌};
ghost use Rattle.pc_types.specs.declared.refusal.Refusal.TheVariants.{OutOfMemory};
ghost use Rattle.pc_types.specs.Names.{refusal_name};

use crate::numbers::Point;
use std::alloc::{AllocError, AllocFailed};
use std::fmt;
use thiserror::Error;

/// Why a call was refused. After a refusal the value is as it was before the call.
#[derive(Clone, Copy, Debug, PartialEq, Eq, Error)]
pub enum Refusal {
    /// Memory that this call needed was refused.
    OutOfMemory,
    /// There is no free slot, no room for the pairs of a base, or a file would have too many entries.
    Full,
    /// A key of no or more than 255 bytes.
    KeyLength,
    /// A value of more than 65,535 bytes.
    ValueLength,
    /// The session has no transaction open.
    NoTransaction,
    /// Begin with a transaction open.
    AlreadyBegun,
    /// A request of this transaction has died.
    MustAbort,
    /// The event doesn't belong to this phase.
    WrongPhase,
    /// A 257th key in one transaction.
    TooManyWrites,
    /// The log has no place left, or at Begin no further transaction can be numbered.
    LogFull,
    /// StartPoint after point 65,535.
    PointsFull,
    /// A session number of 0 or past the store's number.
    NoSession,
    /// No such file, or nothing to fold.
    NoFile,
    /// Two files of different runs.
    OtherRun,
    /// Equal key and point with different contents.
    Conflict,
    /// The least point that a file would have to cover and doesn't.
    Gap(Point),
    /// The shelf is at its limit.
    ShelfFull,
    /// The session's request still waits.
    StillWaiting,
    /// An add to a key whose value has not eight bytes.
    NotNumber,
    /// An add whose sum, or the sum of all that the transaction has added to the key, leaves 64 bits.
    OutOfRange,
    /// The bytes end inside a field.
    Short,
    /// The first 8 bytes are there and aren't the magic.
    BadMagic,
    /// A range count of 0, a range against its rule, or a base point that isn't allowed.
    BadRanges,
    /// A key that isn't greater than the one before, or that occurs twice in a commit.
    KeyOrder,
    /// An unknown kind or phase.
    BadKind,
    /// A number past its limits, be it a length, a count or a session; or the body of a log's entry is too short for a field.
    BadLength,
    /// Bytes after the end of a file or of a log body.
    Trailing,
    /// An entry's point lies in no range of the file.
    NotCovered,
    /// A token that isn't the next one.
    TokenOrder,
    /// A call of the device failed, and was counted.
    Device,
}

impl Refusal {
    /// The word that is printed; that of a gap without its point.
    pub fn name(&self) -> &'static str
        ensures { result.now ≡ refusal_name self.now }
    {
        match *self {
            Refusal::OutOfMemory => "OutOfMemory",
            Refusal::Full => "Full",
            Refusal::KeyLength => "KeyLength",
            Refusal::ValueLength => "ValueLength",
            Refusal::NoTransaction => "NoTransaction",
            Refusal::AlreadyBegun => "AlreadyBegun",
            Refusal::MustAbort => "MustAbort",
            Refusal::WrongPhase => "WrongPhase",
            Refusal::TooManyWrites => "TooManyWrites",
            Refusal::LogFull => "LogFull",
            Refusal::PointsFull => "PointsFull",
            Refusal::NoSession => "NoSession",
            Refusal::NoFile => "NoFile",
            Refusal::OtherRun => "OtherRun",
            Refusal::Conflict => "Conflict",
            Refusal::Gap(_) => "Gap",
            Refusal::ShelfFull => "ShelfFull",
            Refusal::StillWaiting => "StillWaiting",
            Refusal::NotNumber => "NotNumber",
            Refusal::OutOfRange => "OutOfRange",
            Refusal::Short => "Short",
            Refusal::BadMagic => "BadMagic",
            Refusal::BadRanges => "BadRanges",
            Refusal::KeyOrder => "KeyOrder",
            Refusal::BadKind => "BadKind",
            Refusal::BadLength => "BadLength",
            Refusal::Trailing => "Trailing",
            Refusal::NotCovered => "NotCovered",
            Refusal::TokenOrder => "TokenOrder",
            Refusal::Device => "Device",
        }
    }

    // Its message in words; that of a gap without its point.
    fn message(&self) -> &'static str {
        match *self {
            Refusal::OutOfMemory => "memory ran out",
            Refusal::Full => "no room is left",
            Refusal::KeyLength => "a key has 1 to 255 bytes",
            Refusal::ValueLength => "a value has at most 65535 bytes",
            Refusal::NoTransaction => "the session has no transaction open",
            Refusal::AlreadyBegun => "the session has a transaction open",
            Refusal::MustAbort => "the transaction has died and can only abort",
            Refusal::WrongPhase => "not in this phase",
            Refusal::TooManyWrites => "a transaction writes at most 256 keys",
            Refusal::LogFull => "the log is full",
            Refusal::PointsFull => "all points are taken",
            Refusal::NoSession => "no such session",
            Refusal::NoFile => "no such file",
            Refusal::OtherRun => "the files are of two runs",
            Refusal::Conflict => "the files differ at one key and point",
            Refusal::Gap(_) => "a point is not covered",
            Refusal::ShelfFull => "the shelf is full",
            Refusal::StillWaiting => "the session's request still waits",
            Refusal::NotNumber => "the key has a value that is no number of eight bytes",
            Refusal::OutOfRange => "the sum leaves 64 bits",
            Refusal::Short => "the bytes end inside a field",
            Refusal::BadMagic => "the first 8 bytes are not the magic",
            Refusal::BadRanges => "the ranges of points break their rule",
            Refusal::KeyOrder => "a key does not rise",
            Refusal::BadKind => "no such kind or phase",
            Refusal::BadLength => "a length or count is wrong",
            Refusal::Trailing => "bytes follow the end",
            Refusal::NotCovered => "an entry's point is in no range",
            Refusal::TokenOrder => "a token is not the next one",
            Refusal::Device => "the device failed",
        }
    }
}

impl fmt::Display for Refusal {
    fn fmt<W: fmt::Write>(&self, f: &mut fmt::Formatter<W>) -> fmt::Result {
        match *self {
            Refusal::Gap(point) => write!(f, "point {} is not covered", point.0),
            _ => f.write_str(self.message()),
        }
    }
}

impl From<AllocError> for Refusal {
    ghost from_gives = { λ _ e. e ≡ OutOfMemory };

    fn from(_e: AllocError) -> Refusal {
        Refusal::OutOfMemory
    }
}

impl<T: Drop> From<AllocFailed<T>> for Refusal {
    ghost from_gives = { λ _ e. e ≡ OutOfMemory };

    fn from(_e: AllocFailed<T>) -> Refusal {
        Refusal::OutOfMemory
    }
}
