//! The lines of a script, and what each spells.
ghost use Rattle.std.specs.Prelude.{◌≡◌, ◌==◌, ◌≤◌, not, ℕ, List, [], ◌∷◌, Some, map, take, length, IfOk, IfErr, MatchOption};
ghost use Rattle.std.specs.List.{position_or_len};
ghost use Rattle.pc_lines.specs.Words.{parsed_number, signed_number_of, word_text, key_text_of};
ghost use Rattle.pc_lines.specs.Lines.{words_of, is_value, base_line, get_line, del_line, put_line, add_line, one_word, numbered_line, two_words, three_words, four_words, spelled_by, is_comment, spelled};

use crate::key_words::{KeyText, key_text_of};
use crate::words::{number, signed_number, text_of};
use arrayvec::ArrayVec;
use pc_types::{Event, FileNo, Key, MOST_VALUE_BYTES, Refusal, SessionNo, Value};
use std::alloc::Global;

/// The meaning of a line of a script.
#[derive(Drop)]
pub enum Line {
    /// No words, or a `#` first: nothing is answered.
    Silent,
    /// A form that isn't known.
    Malformed,
    /// A pair of the base.
    Sets(Key, Value),
    /// A pair of the base whose key or value is too long, or a key of no bytes.
    SetsRefused(Refusal),
    /// An event.
    Asks(Event),
    /// An event of such a key or value.
    AsksRefused(Refusal),
    /// Something to be shown, which changes nothing.
    Shows(View),
}

/// The view that a line asks for.
#[derive(Clone, Copy, Debug, PartialEq, Eq)]
pub enum View {
    /// The base with a file applied to it.
    State(FileNo),
    /// The bytes of a file.
    Text(FileNo),
    /// Whether the store is what its log says.
    Check,
}

/// A line is determined by its first five words: no form has more than four.
pub const MOST_WORDS: usize = 5;

/// The meaning of the line, without its end. Refuses only with `OutOfMemory`.
pub fn read_line(alloc: Global, text: &[u8]) -> Result<Line, Refusal>
    ensures line { IfOk result (λ line. line ≡ spelled text.now) }
    ensures refusals { IfErr result (λ e. e ≡ Refusal.OutOfMemory) }
{
    if is_comment(text) {
        return Ok(Line::Silent);
    }
    spelled_by(alloc, &first_words(text))
}

// The meaning of the words of a line.
fn spelled_by(alloc: Global, words: &[&[u8]]) -> Result<Line, Refusal>
    ensures line { IfOk result (λ line. line ≡ spelled_by (map (λ w. w.now) words.now)) }
    ensures refusals { IfErr result (λ e. e ≡ Refusal.OutOfMemory) }
{
    match words {
        [] => Ok(Line::Silent),
        [verb] => Ok(one_word(verb)),
        [verb, number] => Ok(two_words(verb, number)),
        [verb, first, second] => three_words(alloc, verb, first, second),
        [verb, first, second, third] => four_words(alloc, verb, first, second, third),
        _ => Ok(Line::Malformed),
    }
}

/// Whether the first byte of a line is `#`: such a line says nothing.
pub fn is_comment(text: &[u8]) -> bool
    ensures { result ≡ is_comment text.now }
{
    !text.is_empty() && text[0] == b'#'
}

/// The first word of a text, which is the longest run of bytes other than space that begins first, and the text after the space that ends
/// it; `None` if the text has no word.
pub fn next_word(text: &[u8]) -> Option<(&[u8], &[u8])>
    ensures { MatchOption result (words_of text.now ≡ []) (λ next. words_of text.now ≡ next.0.now ∷ words_of next.1.now) }
{
    let text = &text[word_at(text)..];
    if text.is_empty() {
        return None;
    }
    let end = space_at(text);
    if end == text.len() {
        return Some((text, &text[end..]));
    }
    Some((&text[..end], &text[end + 1..]))
}

// The number of spaces that a text begins with.
fn word_at(text: &[u8]) -> usize
    ensures place { result ≡ position_or_len (λ b. not (b == 32)) text.now }
    ensures bound { result ≤ length text.now }
{
    match text.iter().position(|byte| *byte != b' ') {
        Some(at) => at,
        None => text.len(),
    }
}

// The number of bytes before the first space of a text, or of all of it if it has none.
fn space_at(text: &[u8]) -> usize
    ensures place { result ≡ position_or_len (λ b. b == 32) text.now }
    ensures bound { result ≤ length text.now }
{
    match text.iter().position(|byte| *byte == b' ') {
        Some(at) => at,
        None => text.len(),
    }
}

/// The first five words of a line, or all if it has fewer: no line that means anything has more than four. It allocates no memory.
pub fn first_words(text: &[u8]) -> ArrayVec<&[u8], MOST_WORDS>
    ensures { map (λ w. w.now) result.items ≡ take MOST_WORDS (words_of text.now) }
{
    let mut words = ArrayVec::new();
    let mut rest = text;
    for _ in 0..MOST_WORDS {
        match next_word(rest) {
            Some((word, behind)) => {
                words.push(word);
                rest = behind;
            }
            None => return words,
        }
    }
    words
}

fn one_word(verb: &[u8]) -> Line
    ensures { result ≡ one_word verb.now }
{
    if verb == b"point".as_slice() {
        Line::Asks(Event::StartPoint)
    } else if verb == b"seal".as_slice() {
        Line::Asks(Event::Seal)
    } else if verb == b"capture".as_slice() {
        Line::Asks(Event::OpenCapture)
    } else if verb == b"take".as_slice() {
        Line::Asks(Event::Take)
    } else if verb == b"done".as_slice() {
        Line::Asks(Event::Done)
    } else if verb == b"rest".as_slice() {
        Line::Asks(Event::Rest)
    } else if verb == b"check".as_slice() {
        Line::Shows(View::Check)
    } else {
        Line::Malformed
    }
}

fn two_words(verb: &[u8], number_word: &[u8]) -> Line
    ensures { result ≡ two_words verb.now number_word.now }
{
    match number(number_word) {
        Some(number) => numbered_line(verb, number),
        None => Line::Malformed,
    }
}

fn numbered_line(verb: &[u8], number: u32) -> Line
    ensures { result ≡ numbered_line verb.now number }
{
    if verb == b"begin".as_slice() {
        Line::Asks(Event::Begin(SessionNo(number)))
    } else if verb == b"commit".as_slice() {
        Line::Asks(Event::Commit(SessionNo(number)))
    } else if verb == b"abort".as_slice() {
        Line::Asks(Event::Abort(SessionNo(number)))
    } else if verb == b"state".as_slice() {
        Line::Shows(View::State(FileNo(number)))
    } else if verb == b"text".as_slice() {
        Line::Shows(View::Text(FileNo(number)))
    } else {
        Line::Malformed
    }
}

fn three_words(alloc: Global, verb: &[u8], first: &[u8], second: &[u8]) -> Result<Line, Refusal>
    ensures line { IfOk result (λ line. line ≡ three_words verb.now first.now second.now) }
    ensures refusals { IfErr result (λ e. e ≡ Refusal.OutOfMemory) }
{
    if verb == b"get".as_slice() {
        let key = key_text_of(alloc, second)?;
        match (number(first), key) {
            (Some(session), Some(key)) => get_line(alloc, session, &key),
            _ => Ok(Line::Malformed),
        }
    } else if verb == b"del".as_slice() {
        let key = key_text_of(alloc, second)?;
        match (number(first), key) {
            (Some(session), Some(key)) => del_line(alloc, session, &key),
            _ => Ok(Line::Malformed),
        }
    } else if verb == b"base".as_slice() {
        let key = key_text_of(alloc, first)?;
        let value = text_of(alloc, second)?;
        match (key, value) {
            (Some(key), Some(value)) => base_line(alloc, &key, &value),
            _ => Ok(Line::Malformed),
        }
    } else if verb == b"join".as_slice() {
        match (number(first), number(second)) {
            (Some(first), Some(second)) => {
                Ok(Line::Asks(Event::Join(FileNo(first), FileNo(second))))
            }
            _ => Ok(Line::Malformed),
        }
    } else {
        Ok(Line::Malformed)
    }
}

fn four_words(
    alloc: Global,
    verb: &[u8],
    first: &[u8],
    second: &[u8],
    third: &[u8],
) -> Result<Line, Refusal>
    ensures line { IfOk result (λ line. line ≡ four_words verb.now first.now second.now third.now) }
    ensures refusals { IfErr result (λ e. e ≡ Refusal.OutOfMemory) }
{
    if verb == b"put".as_slice() {
        put_words(alloc, first, second, third)
    } else if verb == b"add".as_slice() {
        add_words(alloc, first, second, third)
    } else {
        Ok(Line::Malformed)
    }
}

fn put_words(alloc: Global, first: &[u8], second: &[u8], third: &[u8]) -> Result<Line, Refusal>
    ensures line { IfOk result (λ line. line ≡ put_line (parsed_number first.now) (key_text_of second.now) (word_text third.now)) }
    ensures refusals { IfErr result (λ e. e ≡ Refusal.OutOfMemory) }
{
    let key = key_text_of(alloc, second)?;
    let value = text_of(alloc, third)?;
    match (number(first), key, value) {
        (Some(session), Some(key), Some(value)) => put_line(alloc, session, &key, &value),
        _ => Ok(Line::Malformed),
    }
}

fn add_words(alloc: Global, first: &[u8], second: &[u8], third: &[u8]) -> Result<Line, Refusal>
    ensures line { IfOk result (λ line. line ≡ add_line (parsed_number first.now) (key_text_of second.now) (signed_number_of third.now)) }
    ensures refusals { IfErr result (λ e. e ≡ Refusal.OutOfMemory) }
{
    let key = key_text_of(alloc, second)?;
    match (number(first), key, signed_number(third)) {
        (Some(session), Some(key), Some(delta)) => add_line(alloc, session, &key, delta),
        _ => Ok(Line::Malformed),
    }
}

fn base_line(alloc: Global, key: &KeyText<'_>, value: &[u8]) -> Result<Line, Refusal>
    ensures line { IfOk result (λ line. line ≡ base_line (Some key.now) (Some value.now)) }
    ensures refusals { IfErr result (λ e. e ≡ Refusal.OutOfMemory) }
{
    if !key.is_key() {
        return Ok(Line::SetsRefused(Refusal::KeyLength));
    }
    if !is_value(value) {
        return Ok(Line::SetsRefused(Refusal::ValueLength));
    }
    Ok(Line::Sets(key.key(alloc)?, Value::new(alloc, value)?))
}

fn get_line(alloc: Global, session: u32, key: &KeyText<'_>) -> Result<Line, Refusal>
    ensures line { IfOk result (λ line. line ≡ get_line (Some session) (Some key.now)) }
    ensures refusals { IfErr result (λ e. e ≡ Refusal.OutOfMemory) }
{
    if !key.is_key() {
        return Ok(Line::AsksRefused(Refusal::KeyLength));
    }
    let key = key.key(alloc)?;
    Ok(Line::Asks(Event::Get(SessionNo(session), key)))
}

fn del_line(alloc: Global, session: u32, key: &KeyText<'_>) -> Result<Line, Refusal>
    ensures line { IfOk result (λ line. line ≡ del_line (Some session) (Some key.now)) }
    ensures refusals { IfErr result (λ e. e ≡ Refusal.OutOfMemory) }
{
    if !key.is_key() {
        return Ok(Line::AsksRefused(Refusal::KeyLength));
    }
    let key = key.key(alloc)?;
    Ok(Line::Asks(Event::Del(SessionNo(session), key)))
}

fn put_line(alloc: Global, session: u32, key: &KeyText<'_>, value: &[u8]) -> Result<Line, Refusal>
    ensures line { IfOk result (λ line. line ≡ put_line (Some session) (Some key.now) (Some value.now)) }
    ensures refusals { IfErr result (λ e. e ≡ Refusal.OutOfMemory) }
{
    if !key.is_key() {
        return Ok(Line::AsksRefused(Refusal::KeyLength));
    }
    if !is_value(value) {
        return Ok(Line::AsksRefused(Refusal::ValueLength));
    }
    let key = key.key(alloc)?;
    let value = Value::new(alloc, value)?;
    Ok(Line::Asks(Event::Put(SessionNo(session), key, value)))
}

fn add_line(alloc: Global, session: u32, key: &KeyText<'_>, delta: i64) -> Result<Line, Refusal>
    ensures line { IfOk result (λ line. line ≡ add_line (Some session) (Some key.now) (Some delta)) }
    ensures refusals { IfErr result (λ e. e ≡ Refusal.OutOfMemory) }
{
    if !key.is_key() {
        return Ok(Line::AsksRefused(Refusal::KeyLength));
    }
    let key = key.key(alloc)?;
    Ok(Line::Asks(Event::Add(SessionNo(session), key, delta)))
}

/// Whether the bytes can be a value: at most 65,535.
pub fn is_value(bytes: &[u8]) -> bool
    ensures { result ≡ is_value bytes.now }
{
    bytes.len() <= MOST_VALUE_BYTES
}
