//! A pass over the entries of a part. If they lie in a list a step is a few instructions, which go into the loop; what was
//! taken is gone over after a call, so that it doesn't lie in their way.
ghost use Rattle.std.specs.Prelude.{◌≡◌, ◌++◌, ◌∷◌, [], length, option_copied, slice_get, OnOk, OnErr};
ghost use Rattle.std.specs.Iterator.{YieldsFirst, item_count};
ghost use Rattle.std.specs.Option.{option_map, option_to_list};
ghost use Rattle.std.specs.Slice.Iter.{iter_rest};

use crate::lent::LentTriple;
use crate::taken_pass::TakenPass;
use pc_types::{Key, Triple};
use std::alloc::{AllocError, Global};
use std::marker::Model;
use std::slice;

/// Borrowed entries of a part, in order. A contract sees those to come.
#[derive(Drop)]
pub struct Pass<'a> {
    form: PassForm<'a>,
}

#[derive(Drop)]
enum PassForm<'a> {
    Listed(slice::Iter<'a, Triple>),
    Taken(TakenPass<'a>),
}

impl<'a> Model for Pass<'a> {
    ghost use Rattle.std.specs.Prelude.{List};
    ghost use Rattle.pc_types.specs.declared.Triple.{Triple};
    ghost use Rattle.pc_taken.specs.Passes.{triples_to_come};

    ghost Value = { List Triple };

    ghost view = { λ p. triples_to_come p.form };
}

impl<'a> Pass<'a> {
    // Over triples in a list.
    pub(crate) fn listed(triples: &'a [Triple]) -> Pass<'a>
        ensures { result ≡ triples.now }
    {
        Pass {
            form: PassForm::Listed(triples.iter()),
        }
    }

    // Over what was taken of a point.
    pub(crate) fn taken(pass: TakenPass<'a>) -> Pass<'a>
        ensures { result ≡ pass.entry }
    {
        Pass {
            form: PassForm::Taken(pass),
        }
    }

    /// The first one to come, which stays.
    #[inline(always)]
    pub fn first(&self) -> Option<LentTriple<'a>>
        ensures { result ≡ slice_get self.now 0 }
    {
        match &self.form {
            PassForm::Listed(triples) => first_of(triples.as_slice()),
            PassForm::Taken(pass) => pass.first(),
        }
    }

    /// The key of the first one to come, which stays.
    #[inline(always)]
    pub fn key(&self) -> Option<&'a Key>
        ensures { option_copied result ≡ option_map (λ triple. triple.key) (slice_get self.now 0) }
    {
        match &self.form {
            PassForm::Listed(triples) => key_of(triples.as_slice()),
            PassForm::Taken(pass) => pass.key(),
        }
    }

    /// Adds a copy of the first one to come, which stays. It fails only if an allocation fails, and then nothing is added.
    #[inline(always)]
    pub fn push_first(&self, alloc: Global, out: &mut Vec<Triple>) -> Result<(), AllocError>
        ensures pushed { OnOk result (out.new.items ≡ out.old.items ++ option_to_list (slice_get self.now 0)) }
        ensures kept { OnErr result (out.new.items ≡ out.old.items) }
    {
        match &self.form {
            PassForm::Listed(triples) => push_first_of(alloc, out, triples.as_slice()),
            PassForm::Taken(pass) => match pass.first() {
                Some(triple) => push(out, triple.copy(alloc)?),
                None => Ok(()),
            },
        }
    }

    /// The number of items to come.
    pub fn len(&self) -> usize
        ensures { result ≡ length self.now }
    {
        match &self.form {
            PassForm::Listed(triples) => triples.len(),
            PassForm::Taken(pass) => pass.len(),
        }
    }
}

impl<'a> Iterator for Pass<'a> {
    type Item = LentTriple<'a>;

    ghost next_gives = { YieldsFirst (λ s. s) };

    ghost remaining = { item_count (λ s. s) };

    #[inline(always)]
    fn next(&mut self) -> Option<LentTriple<'a>> {
        match &mut self.form {
            PassForm::Listed(triples) => next_of(triples),
            PassForm::Taken(pass) => pass.next(),
        }
    }

    fn size_hint(&self) -> (usize, Option<usize>) {
        let len = self.len();
        (len, Some(len))
    }
}

// The first triple, borrowed.
#[inline(always)]
fn first_of(triples: &[Triple]) -> Option<LentTriple<'_>>
    ensures { result ≡ slice_get triples.now 0 }
{
    match triples.first() {
        Some(triple) => Some(LentTriple::of(triple)),
        None => None,
    }
}

// The key of the first triple.
#[inline(always)]
fn key_of(triples: &[Triple]) -> Option<&Key>
    ensures { option_copied result ≡ option_map (λ triple. triple.key) (slice_get triples.now 0) }
{
    match triples.first() {
        Some(triple) => Some(&triple.key),
        None => None,
    }
}

// Adds a copy of the first triple.
#[inline(always)]
fn push_first_of(alloc: Global, out: &mut Vec<Triple>, triples: &[Triple]) -> Result<(), AllocError>
    ensures pushed { OnOk result (out.new.items ≡ out.old.items ++ option_to_list (slice_get triples.now 0)) }
    ensures kept { OnErr result (out.new.items ≡ out.old.items) }
{
    match triples.first() {
        Some(triple) => push(out, triple.copy(alloc)?),
        None => Ok(()),
    }
}

#[inline(always)]
fn push(out: &mut Vec<Triple>, triple: Triple) -> Result<(), AllocError>
    ensures pushed { OnOk result (out.new.items ≡ out.old.items ++ triple ∷ []) }
    ensures kept { OnErr result (out.new.items ≡ out.old.items) }
{
    out.push(triple)?;
    Ok(())
}

// The next triple, borrowed.
#[inline(always)]
fn next_of<'a>(triples: &mut slice::Iter<'a, Triple>) -> Option<LentTriple<'a>>
    ensures { YieldsFirst iter_rest triples.old result triples.new }
{
    match triples.next() {
        Some(triple) => Some(LentTriple::of(triple)),
        None => None,
    }
}
