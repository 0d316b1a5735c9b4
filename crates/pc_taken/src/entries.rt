//! The entries of a part, in the container that they came in.
ghost use Rattle.std.specs.Prelude.{◌≡◌, map, IfOk};
ghost use Rattle.pc_model.specs.TripleLists.{triple_at};

use crate::pass::Pass;
use crate::taken::Taken;
use pc_types::{Point, Triple};
use std::alloc::{AllocError, Global};
use std::marker::Model;

/// The entries of a part: triples in a list, or what was taken of one point. A contract sees the triples in their order.
#[derive(Drop)]
pub struct Entries {
    form: Form,
}

#[derive(Drop)]
enum Form {
    Listed(Vec<Triple>),
    Taken(Point, Taken),
}

impl Model for Entries {
    ghost use Rattle.std.specs.Prelude.{List};
    ghost use Rattle.pc_types.specs.declared.Triple.{Triple};
    ghost use Rattle.pc_taken.specs.Kept.{triples_in};

    ghost Value = { List Triple };

    ghost view = { λ e. triples_in e.form };
}

impl Entries {
    /// The triples.
    pub fn listed(triples: Vec<Triple>) -> Entries
        ensures { result ≡ triples.items }
    {
        Entries {
            form: Form::Listed(triples),
        }
    }

    /// The captured entries of the point, moved. It takes constant time and no memory.
    pub fn taken(point: Point, taken: Taken) -> Entries
        ensures { result ≡ map (triple_at point) taken }
    {
        Entries {
            form: Form::Taken(point, taken),
        }
    }

    /// A pass over all entries.
    pub fn pass(&self) -> Pass<'_>
        ensures { result ≡ self.now }
    {
        match &self.form {
            Form::Listed(triples) => Pass::listed(triples),
            Form::Taken(point, taken) => Pass::taken(taken.pass(*point)),
        }
    }

    /// A copy of the entries. It fails only if an allocation fails.
    pub fn copy(&self, alloc: Global) -> Result<Entries, AllocError>
        ensures { IfOk result (λ copy. copy ≡ self.now) }
    {
        let triples = match &self.form {
            Form::Listed(triples) => copies_of(alloc, triples)?,
            Form::Taken(point, taken) => copies(alloc, Pass::taken(taken.pass(*point)))?,
        };
        Ok(Entries::listed(triples))
    }
}

// Copies of the triples.
fn copies_of(alloc: Global, triples: &[Triple]) -> Result<Vec<Triple>, AllocError>
    ensures { IfOk result (λ copies. copies.items ≡ triples.now) }
{
    let mut copies = Vec::with_capacity(alloc, triples.len())?;
    for triple in triples {
        copies.push_reserved(triple.copy(alloc)?);
    }
    Ok(copies)
}

// Copies of the triples to come.
fn copies(alloc: Global, pass: Pass) -> Result<Vec<Triple>, AllocError>
    ensures { IfOk result (λ copies. copies.items ≡ pass.entry) }
{
    let mut copies = Vec::with_capacity(alloc, pass.len())?;
    for triple in pass {
        copies.push_reserved(triple.copy(alloc)?);
    }
    Ok(copies)
}
