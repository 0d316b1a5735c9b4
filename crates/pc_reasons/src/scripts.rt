//! Why lines of a script are bad.
ghost use Rattle.std.specs.Prelude.{◌≡◌, ◌↔◌, ◌++◌, [], IfOk, IsSome, map};
ghost use Rattle.pc_lines.specs.Lines.{spelled, lines_in};
ghost use Rattle.pc_lines.specs.declared.lines.Line.TheVariants.{Malformed};
ghost use Rattle.pc_reasons.specs.Scripts.{is_lone, is_of_session, is_of_file, is_of_key, command_fault, words_fault, script_fault, with_bad_line, bad_lines};
ghost use Rattle.pc_reasons.specs.Told.{script_faults_text, PutsOrRefuses};

use crate::faults::{LineFault, WordKind};
use crate::kinds::{no_word, one_word, three_words, two_words};
use crate::line_lists::{lines_in, told_of};
use crate::told_lines::{BadLine, put_bad_lines};
use pc_io::Tally;
use pc_lines::{first_words, is_comment};
use pc_types::Refusal;
use std::alloc::{AllocError, Global};
use std::io::Write;

/// Why a line of a script, without its end, is bad: there is a fault if and only if the line is one, be it in a script that has none else
/// or if it follows others. How many words it has comes before what they are, and of these the first wrong one is reported. It fails only
/// if an allocation fails.
pub fn script_fault(alloc: Global, line: &[u8]) -> Result<Option<LineFault>, AllocError>
    ensures fault { IfOk result (λ fault. fault ≡ script_fault line.now) }
    ensures bad { IfOk result (λ fault. IsSome fault ↔ (spelled line.now ≡ Malformed)) }
{
    line_fault(alloc, line)
}

fn line_fault(alloc: Global, line: &[u8]) -> Result<Option<LineFault>, AllocError>
    ensures { IfOk result (λ fault. fault ≡ script_fault line.now) }
{
    if is_comment(line) {
        return Ok(None);
    }
    let fault = words_fault(alloc, &first_words(line))?;
    Ok(told_of(line, fault))
}

// The fault of a line of these words.
fn words_fault(alloc: Global, words: &[&[u8]]) -> Result<Option<LineFault>, AllocError>
    ensures { IfOk result (λ fault. fault ≡ words_fault (map (λ w. w.now) words.now)) }
{
    match words {
        [] => Ok(None),
        [verb, words @ ..] => command_fault(alloc, verb, words),
    }
}

// The fault of the words after this one.
fn command_fault(
    alloc: Global,
    verb: &[u8],
    words: &[&[u8]],
) -> Result<Option<LineFault>, AllocError>
    ensures { IfOk result (λ fault. fault ≡ command_fault verb.now (map (λ w. w.now) words.now)) }
{
    if is_lone(verb) {
        Ok(no_word(words))
    } else if is_of_session(verb) {
        one_word(alloc, WordKind::SessionNumber, words)
    } else if is_of_file(verb) {
        one_word(alloc, WordKind::FileNumber, words)
    } else if is_of_key(verb) {
        two_words(alloc, WordKind::SessionNumber, WordKind::KeyWord, words)
    } else if verb == b"base".as_slice() {
        two_words(alloc, WordKind::KeyWord, WordKind::ValueWord, words)
    } else if verb == b"join".as_slice() {
        two_words(alloc, WordKind::FileNumber, WordKind::FileNumber, words)
    } else if verb == b"put".as_slice() {
        three_words(
            alloc,
            WordKind::SessionNumber,
            WordKind::KeyWord,
            WordKind::ValueWord,
            words,
        )
    } else if verb == b"add".as_slice() {
        three_words(
            alloc,
            WordKind::SessionNumber,
            WordKind::KeyWord,
            WordKind::Addend,
            words,
        )
    } else {
        Ok(Some(LineFault::NoCommand))
    }
}

// A command of one word.
fn is_lone(verb: &[u8]) -> bool
    ensures { result ≡ is_lone verb.now }
{
    verb == b"point".as_slice()
        || verb == b"seal".as_slice()
        || verb == b"capture".as_slice()
        || verb == b"take".as_slice()
        || verb == b"done".as_slice()
        || verb == b"rest".as_slice()
        || verb == b"check".as_slice()
}

// A command with the number of a session after it.
fn is_of_session(verb: &[u8]) -> bool
    ensures { result ≡ is_of_session verb.now }
{
    verb == b"begin".as_slice() || verb == b"commit".as_slice() || verb == b"abort".as_slice()
}

// A command with the number of a file after it.
fn is_of_file(verb: &[u8]) -> bool
    ensures { result ≡ is_of_file verb.now }
{
    verb == b"state".as_slice() || verb == b"text".as_slice()
}

// A command with the number of a session and a key after it.
fn is_of_key(verb: &[u8]) -> bool
    ensures { result ≡ is_of_key verb.now }
{
    verb == b"get".as_slice() || verb == b"del".as_slice()
}

// The bad lines of a script, in its order.
fn bad_lines(alloc: Global, lines: &[&[u8]]) -> Result<Vec<BadLine>, AllocError>
    ensures { IfOk result (λ v. v.items ≡ bad_lines 1 (map (λ w. w.now) lines.now)) }
{
    let mut bad = Vec::new(alloc);
    for (index, line) in lines.iter().enumerate() {
        bad = with_line(alloc, bad, index + 1, line)?;
    }
    Ok(bad)
}

// The bad lines, with the line of this number if it is one.
fn with_line(
    alloc: Global,
    bad: Vec<BadLine>,
    number: usize,
    line: &[u8],
) -> Result<Vec<BadLine>, AllocError>
    ensures { IfOk result (λ v. v.items ≡ bad.items ++ with_bad_line number (script_fault line.now) []) }
{
    let mut bad = bad;
    if let Some(fault) = script_fault(alloc, line)? {
        bad.push(BadLine { number, fault })?;
    }
    Ok(bad)
}

// Those of its bytes.
fn faults_in(alloc: Global, script: &[u8]) -> Result<Vec<BadLine>, AllocError>
    ensures { IfOk result (λ v. v.items ≡ bad_lines 1 (lines_in script.now)) }
{
    let lines = lines_in(alloc, script)?;
    bad_lines(alloc, &lines)
}

/// Writes a line `NAME:LINE: REASON` for each bad line of a script, for the first 20 of them, and if there are more, `NAME: and N more`.
/// Refuses with `OutOfMemory`, and then nothing was written, and with `Device` if and only if the writer failed in this call.
pub fn put_script_faults<W: Write>(
    alloc: Global,
    name: &[u8],
    script: &[u8],
    out: &mut Tally<W>,
) -> Result<(), Refusal>
    ensures { PutsOrRefuses W.contents out.old out.new result (script_faults_text name.now script.now) }
{
    let bad = faults_in(alloc, script)?;
    put_bad_lines(name, &bad, out)
}
