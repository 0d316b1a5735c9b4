//! The pieces to be joined: borrowed parts, by their numbers, and owned parts, which are freed as soon as they are
//! joined.
ghost use Rattle.std.specs.Prelude.{◌≡◌, ◌<◌, [], ◌∷◌, length};
ghost use Rattle.pc_collapse.specs.Pieces.{borrowed_file_at};
ghost use Rattle.pc_collapse.specs.Worth.{JoinsToOne};

use pc_part::{Part, join};
use pc_types::Refusal;
use std::alloc::Global;
use std::marker::{Brand, Model, PhantomData};

// Which parts are borrowed, and which files are joined.
pub(crate) trait Given {
    ghost use Rattle.std.specs.Prelude.{List};
    ghost use Rattle.pc_model.specs.Files.{File};

    ghost parts: { List File };

    ghost files: { List File };
}

impl Given for Brand {
    ghost use Rattle.std.specs.Prelude.{[]};

    ghost parts = { [] };

    ghost files = { [] };
}

// Whose part it is.
#[derive(Drop)]
enum Source {
    Lent(usize),
    Own(Part),
}

// A part that takes part in a join. A contract sees it as its file.
#[derive(Drop)]
pub(crate) struct Piece<G: Given> {
    source: Source,
    of: PhantomData<G>,
}

impl<G: Given> Model for Piece<G> {
    ghost use Rattle.pc_model.specs.Files.{File};
    ghost use Rattle.pc_part.specs.Parts.{file_code};

    ghost Value = { File };

    ghost coded = { file_code };

    ghost use Rattle.pc_collapse.specs.Pieces.{source_file, IsLentOf};

    ghost view = { λ p. source_file G.parts p.source };

    ghost invariant = { λ p. IsLentOf G.parts p.source };
}

impl<G: Given> Piece<G> {
    // The borrowed part of this number, from 0.
    pub(crate) fn lent(number: usize) -> Piece<G>
        requires { number < length G.parts }
        ensures { result ≡ borrowed_file_at G.parts number }
    {
        Piece {
            source: Source::Lent(number),
            of: PhantomData,
        }
    }

    // A part that is handed over.
    pub(crate) fn own(part: Part) -> Piece<G>
        ensures { result ≡ part }
    {
        Piece {
            source: Source::Own(part),
            of: PhantomData,
        }
    }

    // The part, to be read.
    pub(crate) fn part<'a>(&'a self, parts: &'a [Part]) -> &'a Part
        requires { parts.now ≡ G.parts }
        ensures { result.now ≡ self.now }
    {
        match &self.source {
            Source::Lent(number) => &parts[*number],
            Source::Own(part) => part,
        }
    }

    // The part, to be kept. One that is borrowed is copied, which is to join it with itself.
    pub(crate) fn into_part(self, alloc: Global, parts: &[Part]) -> Result<Part, Refusal>
        requires { parts.now ≡ G.parts }
        ensures { JoinsToOne (self ∷ []) result }
    {
        match self.source {
            Source::Lent(number) => {
                let part = &parts[number];
                join(alloc, part, part)
            }
            Source::Own(part) => Ok(part),
        }
    }
}
