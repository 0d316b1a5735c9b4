//! The words of a script: numbers, and the texts of keys and values.
ghost use Rattle.std.specs.Prelude.{◌≡◌, ℕ, ◌<◌, ◌≤◌, ◌==◌, ◌^◌, length, drop, IsTrue, IfOk, true, MatchOption, Some, None};
ghost use Rattle.std.specs.List.{list_all};
ghost use Rattle.std.specs.Cow.{cow_slice_items};
ghost use Rattle.std.specs.Option.{option_map};
ghost use Rattle.std.specs.Str.Parse.{digits_value};
ghost use Rattle.pc_lines.specs.Words.{is_digit, is_numeral, is_long_numeral, parsed_number, signed_by, parsed_long_number, signed_number_of, is_plain, hex_value, escaped, unescaped, with_byte, word_text};

use std::alloc::{AllocError, Global};
use std::borrow::CowSlice;

/// The number that 1 to 9 decimal digits write; `None` for any other word.
pub fn number(word: &[u8]) -> Option<u32>
    ensures { result ≡ parsed_number word.now }
{
    if is_numeral(word) {
        Some(value(word) as u32)
    } else {
        None
    }
}

/// The number of 64 bits with a sign that a word writes: 1 to 19 decimal digits, with a `-` before them if it is below 0; `None` for
/// any other word.
pub fn signed_number(word: &[u8]) -> Option<i64>
    ensures { result ≡ signed_number_of word.now }
{
    match word {
        [b'-', digits @ ..] => number_by(true, digits),
        _ => number_by(false, word),
    }
}

// The number that digits write, below 0 if there is a minus before them.
fn number_by(minus: bool, digits: &[u8]) -> Option<i64>
    ensures { result ≡ parsed_long_number minus digits.now }
{
    if is_long_numeral(digits) {
        signed_by(minus, value(digits))
    } else {
        None
    }
}

// The number of this size, below 0 if there is a minus, if 64 bits hold it.
fn signed_by(minus: bool, size: u64) -> Option<i64>
    ensures { result ≡ signed_by minus size }
{
    let zero: i64 = 0;
    if minus {
        zero.checked_sub_unsigned(size)
    } else {
        zero.checked_add_unsigned(size)
    }
}

fn is_digit(byte: u8) -> bool
    ensures { result ≡ is_digit byte }
{
    byte > 47 && byte < 58
}

fn are_digits(word: &[u8]) -> bool
    ensures { result ≡ list_all is_digit word.now }
{
    word.iter().all(|byte| is_digit(*byte))
}

fn is_numeral(word: &[u8]) -> bool
    ensures { result ≡ is_numeral word.now }
{
    !word.is_empty() && word.len() < 10 && are_digits(word)
}

fn is_long_numeral(word: &[u8]) -> bool
    ensures { result ≡ is_long_numeral word.now }
{
    !word.is_empty() && word.len() < 20 && are_digits(word)
}

fn value(digits: &[u8]) -> u64
    requires length { length digits.now < 20 }
    requires digits { list_all is_digit digits.now ≡ true }
    ensures value { result ≡ digits_value 10 digits.now }
    ensures small { length digits.now < 10 → result < 2 ^ 32 }
{
    let mut value: u64 = 0;
    for digit in digits {
        value = value * 10 + u64::from(*digit - b'0');
    }
    value
}

/// Whether a byte represents itself in a word: 0x21 to 0x7E, but not the backslash.
pub fn is_plain(byte: u8) -> bool
    ensures { result ≡ is_plain byte }
{
    byte > 32 && byte < 127 && byte != b'\\'
}

fn hex_value(byte: u8) -> Option<u8>
    ensures value { result ≡ hex_value byte }
    ensures small { MatchOption result (Unit {0}) (λ n. n < 16) }
{
    if is_digit(byte) {
        Some(byte - 48)
    } else if byte > 96 && byte < 103 {
        Some(byte - 87)
    } else {
        None
    }
}

// The byte of an escape.
fn escaped(backslash: u8, x: u8, high: u8, low: u8) -> Option<u8>
    ensures { result ≡ escaped backslash x high low }
{
    if backslash == b'\\' && x == b'x' {
        let high = hex_value(high)?;
        let low = hex_value(low)?;
        Some(high * 16 + low)
    } else {
        None
    }
}

// The first byte that a word represents, and how many bytes of the word it takes.
fn first_byte(word: &[u8]) -> Option<(u8, usize)>
    requires { 0 < length word.now }
    ensures { MatchOption result (unescaped word.now ≡ None)
        (λ p. (0 < p.1) × (p.1 ≤ length word.now) × (unescaped word.now ≡ with_byte p.0 (unescaped (drop p.1 word.now)))) }
{
    if word.len() >= 4 {
        if let Some(byte) = escaped(word[0], word[1], word[2], word[3]) {
            return Some((byte, 4));
        }
    }
    if is_plain(word[0]) {
        Some((word[0], 1))
    } else {
        None
    }
}

// The bytes that a word of plain bytes and escapes represents; `None` if it is made of anything else.
fn unescaped(alloc: Global, word: &[u8]) -> Result<Option<Vec<u8>>, AllocError>
    ensures { IfOk result (λ text. option_map (λ v. v.items) text ≡ unescaped word.now) }
{
    let mut text = Vec::new(alloc);
    let mut at = 0;
    while at < word.len() {
        match first_byte(&word[at..]) {
            Some((byte, len)) => {
                text.push(byte)?;
                at += len;
            }
            None => return Ok(None),
        }
    }
    Ok(Some(text))
}

// Whether each byte of the word represents itself.
fn are_plain(word: &[u8]) -> bool
    ensures { result ≡ list_all is_plain word.now }
{
    word.iter().all(|byte| is_plain(*byte))
}

/// The text of a key or value word, in which `\xHH` represents a byte and `-` alone no bytes; `None` if the word has a byte outside
/// 0x21 to 0x7E or any other use of the backslash. The text of a word without escapes is the word itself, borrowed, and takes no
/// memory; otherwise it fails only if an allocation fails.
pub fn text_of(alloc: Global, word: &[u8]) -> Result<Option<CowSlice<'_, u8>>, AllocError>
    ensures { IfOk result (λ text. option_map cow_slice_items text ≡ word_text word.now) }
{
    if word == b"-".as_slice() {
        return Ok(Some(CowSlice::Borrowed(&word[1..])));
    }
    if are_plain(word) {
        return Ok(Some(CowSlice::Borrowed(word)));
    }
    match unescaped(alloc, word)? {
        Some(text) => Ok(Some(CowSlice::Owned(text))),
        None => Ok(None),
    }
}
