//! The words after the first of a line: their expected number and kinds.
ghost use Rattle.std.specs.Prelude.{◌≡◌, IfOk, map};
ghost use Rattle.pc_reasons.specs.LineFaults.{is_within, is_of_kind, earlier_fault, word_fault, pair_fault, no_word, one_word_fault, two_word_fault, three_word_fault};

use crate::faults::{LineFault, WordKind, WordPlace};
use pc_jobs::{MOST_FILL, MOST_RUN_POINTS, Prefix};
use pc_lines::{KeyText, is_value, key_text_of, number, signed_number, text_of};
use pc_types::MOST_SESSIONS;
use std::alloc::{AllocError, Global};

// Whether the word is of this kind.
fn is_of(alloc: Global, kind: WordKind, word: &[u8]) -> Result<bool, AllocError>
    ensures { IfOk result (λ is. is ≡ is_of_kind kind word.now) }
{
    match kind {
        WordKind::SessionNumber | WordKind::FileNumber => Ok(number(word).is_some()),
        WordKind::KeyWord => Ok(key_text_of(alloc, word)?.is_some()),
        WordKind::ValueWord => Ok(text_of(alloc, word)?.is_some()),
        WordKind::Addend => Ok(signed_number(word).is_some()),
        WordKind::PointCount => Ok(is_within(0, MOST_RUN_POINTS, word)),
        WordKind::ClientNumber => Ok(is_within(1, u32::from(MOST_SESSIONS), word)),
        WordKind::WholeKey => is_whole_key(alloc, word),
        WordKind::WholeValue => is_whole_value(alloc, word),
        WordKind::KeyPrefix => is_key_prefix(alloc, word),
        WordKind::FillCount => Ok(is_within(1, MOST_FILL, word)),
    }
}

// Whether the word writes a number within the limits.
fn is_within(least: u32, most: u32, word: &[u8]) -> bool
    ensures { result ≡ is_within least most word.now }
{
    match number(word) {
        Some(number) => least <= number && number <= most,
        None => false,
    }
}

fn is_whole_key(alloc: Global, word: &[u8]) -> Result<bool, AllocError>
    ensures { IfOk result (λ is. is ≡ is_of_kind WordKind.WholeKey word.now) }
{
    match key_text_of(alloc, word)? {
        Some(text) => Ok(text.is_key()),
        None => Ok(false),
    }
}

fn is_whole_value(alloc: Global, word: &[u8]) -> Result<bool, AllocError>
    ensures { IfOk result (λ is. is ≡ is_of_kind WordKind.WholeValue word.now) }
{
    match text_of(alloc, word)? {
        Some(text) => Ok(is_value(&text)),
        None => Ok(false),
    }
}

fn is_key_prefix(alloc: Global, word: &[u8]) -> Result<bool, AllocError>
    ensures { IfOk result (λ is. is ≡ is_of_kind WordKind.KeyPrefix word.now) }
{
    match key_text_of(alloc, word)? {
        Some(text) => {
            let KeyText { space, own } = text;
            Ok(Prefix::new(space, own.into_owned(alloc)?).is_some())
        }
        None => Ok(false),
    }
}

// The fault of the word at this place, if it isn't of this kind.
fn word_fault(
    alloc: Global,
    place: WordPlace,
    kind: WordKind,
    word: &[u8],
) -> Result<Option<LineFault>, AllocError>
    ensures { IfOk result (λ fault. fault ≡ word_fault place kind word.now) }
{
    if is_of(alloc, kind, word)? {
        Ok(None)
    } else {
        Ok(Some(LineFault::WrongWord(place, kind)))
    }
}

/// The fault of the words after a command that takes none.
pub(crate) fn no_word(words: &[&[u8]]) -> Option<LineFault>
    ensures { result ≡ no_word (map (λ w. w.now) words.now) }
{
    match words {
        [] => None,
        _ => Some(LineFault::TooManyWords),
    }
}

/// The same of one that takes a word. It fails only if an allocation fails, as those below.
pub(crate) fn one_word(
    alloc: Global,
    kind: WordKind,
    words: &[&[u8]],
) -> Result<Option<LineFault>, AllocError>
    ensures { IfOk result (λ fault. fault ≡ one_word_fault kind (map (λ w. w.now) words.now)) }
{
    match words {
        [] => Ok(Some(LineFault::TooFewWords)),
        [word] => word_fault(alloc, WordPlace::Second, kind, word),
        _ => Ok(Some(LineFault::TooManyWords)),
    }
}

// The fault of the words before this one, or else its own.
fn fault_behind(
    alloc: Global,
    before: Option<LineFault>,
    place: WordPlace,
    kind: WordKind,
    word: &[u8],
) -> Result<Option<LineFault>, AllocError>
    ensures { IfOk result (λ fault. fault ≡ earlier_fault before (word_fault place kind word.now)) }
{
    match before {
        Some(fault) => Ok(Some(fault)),
        None => word_fault(alloc, place, kind, word),
    }
}

// The first fault of two words, at the second and the third place.
fn pair_fault(
    alloc: Global,
    first: WordKind,
    second: WordKind,
    word: &[u8],
    other: &[u8],
) -> Result<Option<LineFault>, AllocError>
    ensures { IfOk result (λ fault. fault ≡ pair_fault first second word.now other.now) }
{
    let fault = word_fault(alloc, WordPlace::Second, first, word)?;
    fault_behind(alloc, fault, WordPlace::Third, second, other)
}

/// The same of one that takes two.
pub(crate) fn two_words(
    alloc: Global,
    first: WordKind,
    second: WordKind,
    words: &[&[u8]],
) -> Result<Option<LineFault>, AllocError>
    ensures { IfOk result (λ fault. fault ≡ two_word_fault first second (map (λ w. w.now) words.now)) }
{
    match words {
        [] | [_] => Ok(Some(LineFault::TooFewWords)),
        [word, other] => pair_fault(alloc, first, second, word, other),
        _ => Ok(Some(LineFault::TooManyWords)),
    }
}

/// The same of one that takes three.
pub(crate) fn three_words(
    alloc: Global,
    first: WordKind,
    second: WordKind,
    third: WordKind,
    words: &[&[u8]],
) -> Result<Option<LineFault>, AllocError>
    ensures { IfOk result (λ fault. fault ≡ three_word_fault first second third (map (λ w. w.now) words.now)) }
{
    match words {
        [] | [_] | [_, _] => Ok(Some(LineFault::TooFewWords)),
        [word, other, last] => {
            let fault = pair_fault(alloc, first, second, word, other)?;
            fault_behind(alloc, fault, WordPlace::Fourth, third, last)
        }
        _ => Ok(Some(LineFault::TooManyWords)),
    }
}
