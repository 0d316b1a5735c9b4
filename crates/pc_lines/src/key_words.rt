//! The words of keys: the spelled bytes of a key's own, and before them its space, if it is another than 0.
ghost use Rattle.std.specs.Prelude.{◌≡◌, ◌<◌, ◌==◌, length, IfSome, IfOk, IfErr, true};
ghost use Rattle.std.specs.List.{position};
ghost use Rattle.pc_lines.specs.Lines.{is_key};
ghost use Rattle.pc_lines.specs.Words.{space_in, key_in_space, key_of_own_word, key_at_colon, key_text_of, word_text};

use crate::words::{number, text_of};
use pc_types::{Key, MOST_KEY_BYTES, Refusal};
use std::alloc::{AllocError, Global};
use std::borrow::CowSlice;
use std::marker::Model;

/// The key of a key word: a space, and bytes of a key's own, which may be too few or too many for a key.
#[derive(Drop)]
pub struct KeyText<'a> {
    /// The space.
    pub space: u16,
    /// The bytes of the key's own.
    pub own: CowSlice<'a, u8>,
}

impl<'a> Model for KeyText<'a> {
    ghost use Rattle.std.specs.Prelude.{ℕ, List};
    ghost use Rattle.std.specs.Cow.{cow_slice_items};
    ghost use Rattle.pc_types.specs.Keys.{key_of};

    ghost Value = { List ℕ };

    ghost view = { λ text. key_of text.space (cow_slice_items text.own) };
}

impl<'a> KeyText<'a> {
    /// Whether it has as many bytes as a key may have of its own: 1 to 255.
    pub fn is_key(&self) -> bool
        ensures { result ≡ is_key self.now }
    {
        let len = self.own.len();
        len > 0 && len <= MOST_KEY_BYTES
    }

    /// The key. Refuses only with `OutOfMemory`.
    pub fn key(&self, alloc: Global) -> Result<Key, Refusal>
        requires { is_key self.now ≡ true }
        ensures key { IfOk result (λ key. key ≡ self.now) }
        ensures refusals { IfErr result (λ e. e ≡ Refusal.OutOfMemory) }
    {
        Key::in_space(alloc, self.space, self.own.as_slice())
    }
}

/// The key of a key word: `\sN:` before the rest of the word gives the space, where N is 1 to 65535 in decimal digits without leading
/// zeros, and the space is 0 without it; the rest, which isn't empty after `\sN:`, spells the key's own bytes as a value word does. `None`
/// for any other word. It fails only if an allocation fails.
pub fn key_text_of(alloc: Global, word: &[u8]) -> Result<Option<KeyText<'_>>, AllocError>
    ensures { IfOk result (λ text. text ≡ key_text_of word.now) }
{
    match word {
        [b'\\', b's', text @ ..] => key_at_colon(alloc, text),
        _ => key_in(alloc, 0, word),
    }
}

// The key of a space's digits, a colon, and the word after it.
fn key_at_colon(alloc: Global, text: &[u8]) -> Result<Option<KeyText<'_>>, AllocError>
    ensures { IfOk result (λ key. key ≡ key_at_colon text.now (position (λ c. c == 58) text.now)) }
{
    match colon(text) {
        Some(at) => key_behind(alloc, space_in(&text[..at]), &text[at + 1..]),
        None => Ok(None),
    }
}

// The place of the first colon.
fn colon(text: &[u8]) -> Option<usize>
    ensures place { result ≡ position (λ c. c == 58) text.now }
    ensures bound { IfSome result (λ at. at < length text.now) }
{
    text.iter().position(|byte| *byte == b':')
}

// The key of a space, if there is one, and a word of own bytes, which isn't empty.
fn key_behind(
    alloc: Global,
    space: Option<u16>,
    word: &[u8],
) -> Result<Option<KeyText<'_>>, AllocError>
    ensures { IfOk result (λ key. key ≡ key_of_own_word space word.now) }
{
    match space {
        Some(space) => {
            if word.is_empty() {
                return Ok(None);
            }
            key_in(alloc, space, word)
        }
        None => Ok(None),
    }
}

// The space that digits write: 1 to 65,535, without zeros before it.
fn space_in(digits: &[u8]) -> Option<u16>
    ensures { result ≡ space_in digits.now }
{
    if digits.is_empty() || digits[0] == b'0' {
        return None;
    }
    let number = number(digits)?;
    if number < 65_536 {
        Some(number as u16)
    } else {
        None
    }
}

// The key of a space and a word of own bytes.
fn key_in(alloc: Global, space: u16, word: &[u8]) -> Result<Option<KeyText<'_>>, AllocError>
    ensures { IfOk result (λ key. key ≡ key_in_space space (word_text word.now)) }
{
    match text_of(alloc, word)? {
        Some(own) => Ok(Some(KeyText { space, own })),
        None => Ok(None),
    }
}
