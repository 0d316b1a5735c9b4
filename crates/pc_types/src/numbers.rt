//! Numbers that name things, each of a type of its own. A contract sees each as its number.
use std::fmt;
use std::marker::Model;

/// A place for a record, from 0; below the capacity of its store.
#[derive(Clone, Copy, Debug, PartialEq, Eq)]
pub struct SlotId(pub u32);

impl Model for SlotId {
    ghost use Rattle.std.specs.Prelude.{ℕ};
    ghost use Rattle.std.specs.Coded.{coded_ℕ};

    ghost Value = { ℕ };

    ghost coded = { coded_ℕ };

    ghost view = { λ a. a.0 };

    ghost inverse = { λ d. record { 0 = d } };
}

/// A transaction's number, from 1 in the order of begins; at most 1,099,511,627,776. The smaller is the older.
#[derive(Clone, Copy, Debug, PartialEq, Eq)]
pub struct TxnNo(pub u64);

impl Model for TxnNo {
    ghost use Rattle.std.specs.Prelude.{ℕ};
    ghost use Rattle.std.specs.Coded.{coded_ℕ};

    ghost Value = { ℕ };

    ghost coded = { coded_ℕ };

    ghost view = { λ a. a.0 };

    ghost inverse = { λ d. record { 0 = d } };
}

/// A log sequence number: commits and tokens count together from 1; at most 16,777,216.
#[derive(Clone, Copy, Debug, PartialEq, Eq)]
pub struct Lsn(pub u32);

impl Model for Lsn {
    ghost use Rattle.std.specs.Prelude.{ℕ};
    ghost use Rattle.std.specs.Coded.{coded_ℕ};

    ghost Value = { ℕ };

    ghost coded = { coded_ℕ };

    ghost view = { λ a. a.0 };

    ghost inverse = { λ d. record { 0 = d } };
}

/// A point of consistency, from 1 to 65,535; 0 if none was taken.
#[derive(Clone, Copy, Debug, PartialEq, Eq)]
pub struct Point(pub u16);

impl Model for Point {
    ghost use Rattle.std.specs.Prelude.{ℕ};
    ghost use Rattle.std.specs.Coded.{coded_ℕ};

    ghost Value = { ℕ };

    ghost coded = { coded_ℕ };

    ghost view = { λ a. a.0 };

    ghost inverse = { λ d. record { 0 = d } };
}

/// A shelved file's number, from 1 in the order of shelving; no file has another number.
#[derive(Clone, Copy, Debug, PartialEq, Eq)]
pub struct FileNo(pub u32);

impl Model for FileNo {
    ghost use Rattle.std.specs.Prelude.{ℕ};
    ghost use Rattle.std.specs.Coded.{coded_ℕ};

    ghost Value = { ℕ };

    ghost coded = { coded_ℕ };

    ghost view = { λ a. a.0 };

    ghost inverse = { λ d. record { 0 = d } };
}

/// A session's number. A store has the sessions 1 to at most 64; to a session of another number it answers NoSession.
#[derive(Clone, Copy, Debug, PartialEq, Eq)]
pub struct SessionNo(pub u32);

impl Model for SessionNo {
    ghost use Rattle.std.specs.Prelude.{ℕ};
    ghost use Rattle.std.specs.Coded.{coded_ℕ};

    ghost Value = { ℕ };

    ghost coded = { coded_ℕ };

    ghost view = { λ a. a.0 };

    ghost inverse = { λ d. record { 0 = d } };
}
