//! A line, and the pair that it spells.
ghost use Rattle.std.specs.Prelude.{◌≡◌, ◌==◌, ◌<◌, length, IfOk, IfErr, IfSome, Some};
ghost use Rattle.std.specs.List.{position};
ghost use Rattle.pc_lines.specs.Words.{key_text_of, word_text};
ghost use Rattle.pc_pairs.specs.Loads.{fault_name, pair_around, pair_in, pair_of, words_pair};

use crate::form::Form;
use crate::json::json_pair_in;
use pc_lines::{KeyText, is_value, key_text_of, text_of};
use pc_types::{Key, Refusal, Value};
use std::alloc::Global;

/// Why a line gives no pair.
#[derive(Clone, Copy, Debug, PartialEq, Eq)]
pub enum Fault {
    /// It is not a key's word and a value's word with one space between them, or no object of JSON with just a key and a value.
    Malformed,
    /// The key has no own bytes, or more than 255.
    KeyLength,
    /// The value has more than 65,535 bytes.
    ValueLength,
    /// An earlier line has the key.
    Twice,
}

impl Fault {
    /// The fault's name.
    pub fn name(&self) -> &'static [u8]
        ensures { result.now ≡ fault_name self.now }
    {
        match self {
            Fault::Malformed => b"Malformed",
            Fault::KeyLength => b"KeyLength",
            Fault::ValueLength => b"ValueLength",
            Fault::Twice => b"Twice",
        }
    }
}

/// What a line spells.
#[derive(Drop)]
pub(crate) enum PairLine {
    Pair(Key, Value),
    Bad(Fault),
}

/// What the line of this form, without its end, spells. Refuses only with `OutOfMemory`.
pub(crate) fn pair_in(alloc: Global, form: Form, text: &[u8]) -> Result<PairLine, Refusal>
    ensures line { IfOk result (λ line. line ≡ pair_in form text.now) }
    ensures refusals { IfErr result (λ why. why ≡ Refusal.OutOfMemory) }
{
    match form {
        Form::Words => words_pair(alloc, text),
        Form::Json => json_pair_in(alloc, text),
    }
}

fn words_pair(alloc: Global, text: &[u8]) -> Result<PairLine, Refusal>
    ensures line { IfOk result (λ line. line ≡ words_pair text.now) }
    ensures refusals { IfErr result (λ why. why ≡ Refusal.OutOfMemory) }
{
    match space(text) {
        Some(at) => pair_of_words(alloc, &text[..at], &text[at + 1..]),
        None => Ok(PairLine::Bad(Fault::Malformed)),
    }
}

// Where the first space stands.
fn space(text: &[u8]) -> Option<usize>
    ensures place { result ≡ position (λ b. b == 32) text.now }
    ensures bound { IfSome result (λ at. at < length text.now) }
{
    text.iter().position(|byte| *byte == b' ')
}

fn pair_of_words(alloc: Global, first: &[u8], second: &[u8]) -> Result<PairLine, Refusal>
    ensures line { IfOk result (λ line. line ≡ pair_of (key_text_of first.now) (word_text second.now)) }
    ensures refusals { IfErr result (λ why. why ≡ Refusal.OutOfMemory) }
{
    let key = key_text_of(alloc, first)?;
    let value = text_of(alloc, second)?;
    match (key, value) {
        (Some(key), Some(value)) => pair_of(alloc, &key, &value),
        _ => Ok(PairLine::Bad(Fault::Malformed)),
    }
}

/// The pair of a key's and a value's bytes. Refuses only with `OutOfMemory`.
pub(crate) fn pair_of(alloc: Global, key: &KeyText<'_>, value: &[u8]) -> Result<PairLine, Refusal>
    ensures line { IfOk result (λ line. line ≡ pair_of (Some key.now) (Some value.now)) }
    ensures refusals { IfErr result (λ why. why ≡ Refusal.OutOfMemory) }
{
    if !key.is_key() {
        return Ok(PairLine::Bad(Fault::KeyLength));
    }
    if !is_value(value) {
        return Ok(PairLine::Bad(Fault::ValueLength));
    }
    Ok(PairLine::Pair(key.key(alloc)?, Value::new(alloc, value)?))
}
