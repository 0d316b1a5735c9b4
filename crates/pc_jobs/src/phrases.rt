//! The meaning of a line of a workload by itself.
ghost use Rattle.std.specs.Prelude.{◌≡◌, ◌≤◌, IfOk, IfErr, map};
ghost use Rattle.pc_lines.specs.Words.{signed_number_of};
ghost use Rattle.pc_jobs.specs.Phrases.{spelled_key, spelled_value, prefix_of, number_within, points_line, client_line, get_op_line, del_op_line, put_op_line, add_op_line, fill_line, one_word_phrase, two_word_phrase, three_word_phrase, four_word_phrase, phrase_of_words, spelled_phrase};

use crate::prefixes::Prefix;
use crate::works::{Fill, Op};
use pc_lines::{
    KeyText, first_words, is_comment, is_value, key_text_of, number, signed_number, text_of,
};
use pc_types::{Key, MOST_SESSIONS, Refusal, SessionNo, Value};
use std::alloc::Global;

/// The meaning of a line of a workload by itself, wherever it is.
#[derive(Drop)]
pub enum Phrase {
    /// No words, or a `#` first: it says nothing.
    Silent,
    /// The number of points to take, 0 to 1,000.
    Points(u32),
    /// The next lines are the work of this session, 1 to 64.
    Client(SessionNo),
    /// A transaction begins.
    Begin,
    /// An operation of a transaction.
    Does(Op),
    /// A transaction ends.
    End,
    /// Many transactions of one put each.
    Fill(Fill),
    /// No known form, or a key, a value or a number out of its limits.
    Malformed,
}

/// The most points that a workload asks for.
pub const MOST_RUN_POINTS: u32 = 1_000;

/// The most transactions of a fill, which has at least one.
pub const MOST_FILL: u32 = 1_000_000;

/// The meaning of the line, without its end. Refuses only with `OutOfMemory`.
pub(crate) fn spelled(alloc: Global, text: &[u8]) -> Result<Phrase, Refusal>
    ensures phrase { IfOk result (λ phrase. phrase ≡ spelled_phrase text.now) }
    ensures refusals { IfErr result (λ e. e ≡ Refusal.OutOfMemory) }
{
    if is_comment(text) {
        return Ok(Phrase::Silent);
    }
    spelled_by(alloc, &first_words(text))
}

// The meaning of the words of a line.
fn spelled_by(alloc: Global, words: &[&[u8]]) -> Result<Phrase, Refusal>
    ensures phrase { IfOk result (λ phrase. phrase ≡ phrase_of_words (map (λ w. w.now) words.now)) }
    ensures refusals { IfErr result (λ e. e ≡ Refusal.OutOfMemory) }
{
    match words {
        [] => Ok(Phrase::Silent),
        [verb] => Ok(one_word(verb)),
        [verb, word] => two_words(alloc, verb, word),
        [verb, key, word] => three_words(alloc, verb, key, word),
        [verb, prefix, count, value] => four_words(alloc, verb, prefix, count, value),
        _ => Ok(Phrase::Malformed),
    }
}

fn one_word(verb: &[u8]) -> Phrase
    ensures { result ≡ one_word_phrase verb.now }
{
    if verb == b"txn".as_slice() {
        Phrase::Begin
    } else if verb == b"end".as_slice() {
        Phrase::End
    } else {
        Phrase::Malformed
    }
}

fn two_words(alloc: Global, verb: &[u8], word: &[u8]) -> Result<Phrase, Refusal>
    ensures phrase { IfOk result (λ phrase. phrase ≡ two_word_phrase verb.now word.now) }
    ensures refusals { IfErr result (λ e. e ≡ Refusal.OutOfMemory) }
{
    if verb == b"points".as_slice() {
        Ok(points_line(word))
    } else if verb == b"client".as_slice() {
        Ok(client_line(word))
    } else if verb == b"get".as_slice() {
        get_line(alloc, word)
    } else if verb == b"del".as_slice() {
        del_line(alloc, word)
    } else {
        Ok(Phrase::Malformed)
    }
}

fn three_words(alloc: Global, verb: &[u8], key: &[u8], word: &[u8]) -> Result<Phrase, Refusal>
    ensures phrase { IfOk result (λ phrase. phrase ≡ three_word_phrase verb.now key.now word.now) }
    ensures refusals { IfErr result (λ e. e ≡ Refusal.OutOfMemory) }
{
    if verb == b"put".as_slice() {
        put_line(alloc, key, word)
    } else if verb == b"add".as_slice() {
        add_line(alloc, key, word)
    } else {
        Ok(Phrase::Malformed)
    }
}

fn four_words(
    alloc: Global,
    verb: &[u8],
    prefix: &[u8],
    count: &[u8],
    value: &[u8],
) -> Result<Phrase, Refusal>
    ensures phrase { IfOk result (λ phrase. phrase ≡ four_word_phrase verb.now prefix.now count.now value.now) }
    ensures refusals { IfErr result (λ e. e ≡ Refusal.OutOfMemory) }
{
    if verb == b"fill".as_slice() {
        fill_line(alloc, prefix, count, value)
    } else {
        Ok(Phrase::Malformed)
    }
}

fn points_line(word: &[u8]) -> Phrase
    ensures { result ≡ points_line (number_within 0 MOST_RUN_POINTS word.now) }
{
    match number_within(0, MOST_RUN_POINTS, word) {
        Some(points) => Phrase::Points(points),
        None => Phrase::Malformed,
    }
}

fn client_line(word: &[u8]) -> Phrase
    ensures { result ≡ client_line (number_within 1 MOST_SESSIONS word.now) }
{
    match number_within(1, u32::from(MOST_SESSIONS), word) {
        Some(session) => Phrase::Client(SessionNo(session)),
        None => Phrase::Malformed,
    }
}

fn get_line(alloc: Global, word: &[u8]) -> Result<Phrase, Refusal>
    ensures phrase { IfOk result (λ phrase. phrase ≡ get_op_line (spelled_key word.now)) }
    ensures refusals { IfErr result (λ e. e ≡ Refusal.OutOfMemory) }
{
    match key_of(alloc, word)? {
        Some(key) => Ok(Phrase::Does(Op::Get(key))),
        None => Ok(Phrase::Malformed),
    }
}

fn del_line(alloc: Global, word: &[u8]) -> Result<Phrase, Refusal>
    ensures phrase { IfOk result (λ phrase. phrase ≡ del_op_line (spelled_key word.now)) }
    ensures refusals { IfErr result (λ e. e ≡ Refusal.OutOfMemory) }
{
    match key_of(alloc, word)? {
        Some(key) => Ok(Phrase::Does(Op::Del(key))),
        None => Ok(Phrase::Malformed),
    }
}

fn put_line(alloc: Global, key: &[u8], value: &[u8]) -> Result<Phrase, Refusal>
    ensures phrase { IfOk result (λ phrase. phrase ≡ put_op_line (spelled_key key.now) (spelled_value value.now)) }
    ensures refusals { IfErr result (λ e. e ≡ Refusal.OutOfMemory) }
{
    let key = key_of(alloc, key)?;
    let value = value_of(alloc, value)?;
    match (key, value) {
        (Some(key), Some(value)) => Ok(Phrase::Does(Op::Put(key, value))),
        _ => Ok(Phrase::Malformed),
    }
}

fn add_line(alloc: Global, key: &[u8], delta: &[u8]) -> Result<Phrase, Refusal>
    ensures phrase { IfOk result (λ phrase. phrase ≡ add_op_line (spelled_key key.now) (signed_number_of delta.now)) }
    ensures refusals { IfErr result (λ e. e ≡ Refusal.OutOfMemory) }
{
    let key = key_of(alloc, key)?;
    match (key, signed_number(delta)) {
        (Some(key), Some(delta)) => Ok(Phrase::Does(Op::Add(key, delta))),
        _ => Ok(Phrase::Malformed),
    }
}

fn fill_line(alloc: Global, prefix: &[u8], count: &[u8], value: &[u8]) -> Result<Phrase, Refusal>
    ensures phrase { IfOk result (λ phrase. phrase ≡ fill_line (prefix_of prefix.now) (number_within 1 MOST_FILL count.now) (spelled_value value.now)) }
    ensures refusals { IfErr result (λ e. e ≡ Refusal.OutOfMemory) }
{
    let prefix = prefix_of(alloc, prefix)?;
    let value = value_of(alloc, value)?;
    match (prefix, number_within(1, MOST_FILL, count), value) {
        (Some(prefix), Some(count), Some(value)) => {
            Ok(Phrase::Fill(Fill {
                prefix,
                count,
                value,
            }))
        }
        _ => Ok(Phrase::Malformed),
    }
}

// The number that a word writes, if it is within the limits.
fn number_within(least: u32, most: u32, word: &[u8]) -> Option<u32>
    ensures { result ≡ number_within least most word.now }
{
    match number(word) {
        Some(number) => {
            if least <= number && number <= most {
                Some(number)
            } else {
                None
            }
        }
        None => None,
    }
}

// The key that a word spells.
fn key_of(alloc: Global, word: &[u8]) -> Result<Option<Key>, Refusal>
    ensures key { IfOk result (λ key. key ≡ spelled_key word.now) }
    ensures refusals { IfErr result (λ e. e ≡ Refusal.OutOfMemory) }
{
    match key_text_of(alloc, word)? {
        Some(text) => {
            if !text.is_key() {
                return Ok(None);
            }
            Ok(Some(text.key(alloc)?))
        }
        None => Ok(None),
    }
}

// The value that a word spells.
fn value_of(alloc: Global, word: &[u8]) -> Result<Option<Value>, Refusal>
    ensures value { IfOk result (λ value. value ≡ spelled_value word.now) }
    ensures refusals { IfErr result (λ e. e ≡ Refusal.OutOfMemory) }
{
    match text_of(alloc, word)? {
        Some(text) => {
            if !is_value(&text) {
                return Ok(None);
            }
            Ok(Some(Value::new(alloc, &text)?))
        }
        None => Ok(None),
    }
}

// The prefix that a word spells.
fn prefix_of(alloc: Global, word: &[u8]) -> Result<Option<Prefix>, Refusal>
    ensures prefix { IfOk result (λ prefix. prefix ≡ prefix_of word.now) }
    ensures refusals { IfErr result (λ e. e ≡ Refusal.OutOfMemory) }
{
    match key_text_of(alloc, word)? {
        Some(text) => {
            let KeyText { space, own } = text;
            Ok(Prefix::new(space, own.into_owned(alloc)?))
        }
        None => Ok(None),
    }
}
