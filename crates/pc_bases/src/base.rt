//! The base: what a store starts from.
ghost use Rattle.std.specs.Prelude.{◌≡◌, ℕ, ◌≤◌, length};
ghost use Rattle.pc_model.specs.Database.{KeysRise, database_of};
ghost use Rattle.pc_part.specs.Parts.{IsWithinLimit};

use pc_types::{Key, Point, Value};
use std::marker::Model;

/// A base file: a run, a point of consistency, and the pairs of the database at that point, which ascend strictly by
/// key. It has at most 4,294,967,295 pairs. A contract sees it as its run, its point and its database.
#[derive(Drop)]
pub struct Base {
    run: u64,
    point: Point,
    pairs: Vec<(Key, Value)>,
}

impl Model for Base {
    ghost use Rattle.pc_model.specs.Database.{KeysRise, database_of};
    ghost use Rattle.pc_model.specs.Files.{BaseFile};
    ghost use Rattle.pc_bases.specs.Bases.{base_code};
    ghost use Rattle.pc_part.specs.Parts.{IsWithinLimit};

    ghost Value = { BaseFile };

    ghost coded = { base_code };

    ghost view = { λ b. record { run = b.run; point = b.point; pairs = database_of b.pairs.items } };

    ghost invariant = { λ b. KeysRise b.pairs.items × IsWithinLimit b.pairs.items };
}

impl Base {
    /// The base of a run that starts from these pairs: it is at point 0, since no point was taken yet. A restart starts
    /// a new run, under a run number of its own, from the pairs that were recovered.
    pub fn start(run: u64, pairs: Vec<(Key, Value)>) -> Base
        requires rise { KeysRise pairs.items }
        requires limit { IsWithinLimit pairs.items }
        ensures { result ≡ record { run = run; point = 0; pairs = database_of pairs.items } }
    {
        let point = Point(0);
        Base { run, point, pairs }
    }

    // The base of a run at this point with these pairs.
    pub(crate) fn at_point(run: u64, at: Point, pairs: Vec<(Key, Value)>) -> Base
        requires rise { KeysRise pairs.items }
        requires limit { IsWithinLimit pairs.items }
        ensures { result ≡ record { run = run; point = at; pairs = database_of pairs.items } }
    {
        Base {
            run,
            point: at,
            pairs,
        }
    }

    /// The number of the run, by which files of one run know each other.
    pub fn run(&self) -> u64
        ensures { result ≡ self.now.run }
    {
        self.run
    }

    /// The point that it is at: 0 before the first, and at most 65,535.
    pub fn point(&self) -> Point
        ensures { result ≡ self.now.point }
    {
        self.point
    }

    /// The pairs, ascending strictly by key; at most 4,294,967,295.
    pub fn pairs(&self) -> &[(Key, Value)]
        ensures rise { KeysRise result.now }
        ensures limit { IsWithinLimit result.now }
        ensures pairs { database_of result.now ≡ self.now.pairs }
    {
        self.pairs.as_slice()
    }

    /// The pairs, ascending strictly by key; at most 4,294,967,295.
    pub fn into_pairs(self) -> Vec<(Key, Value)>
        ensures rise { KeysRise result.items }
        ensures limit { IsWithinLimit result.items }
        ensures pairs { database_of result.items ≡ self.pairs }
    {
        let Base {
            run: _,
            point: _,
            pairs,
        } = self;
        pairs
    }
}
