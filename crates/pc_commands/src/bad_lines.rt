//! Why a line of pairs is bad, in words.
use base64::DecodeAllocError;
use base64::engine::general_purpose::STANDARD;
use bstr::ByteSlice;
use itoa::Buffer;
use pc_io::Tally;
use pc_lines::key_text_of;
use pc_pairs::{Fault, Form};
use pc_texts::put_name;
use pc_types::Refusal;
use serde_json::{Category, Value};
use std::alloc::{AllocError, Global};
use std::io::Write;

/// A line of a text that gives no pair, by its number from 1, and the fault.
#[derive(Clone, Copy)]
pub struct BadPair<'a> {
    pub form: Form,
    pub text: &'a [u8],
    pub number: u64,
    pub fault: Fault,
}

// A reason: words, the name of a member, and the words after it; all but the first are empty if it is about no member.
#[derive(Clone, Copy)]
struct Reason(&'static [u8], &'static str, &'static [u8]);

impl Reason {
    fn plain(words: &'static [u8]) -> Reason {
        Reason(words, "", b"")
    }
}

impl<'a> BadPair<'a> {
    /// Reports it, and, if that is explained, the reason by the name of the text's file.
    pub fn tell<E: Write>(
        &self,
        alloc: Global,
        name: &str,
        is_explained: bool,
        errors: &mut Tally<E>,
    ) -> Result<(), Refusal> {
        let mut buffer = Buffer::new();
        let line = buffer.format(self.number).as_bytes();
        errors.put_all(&[b"bad line ", line, b" ", self.fault.name(), b"\n"])?;
        if is_explained {
            self.explain(alloc, name, errors)?;
        }
        Ok(())
    }

    fn explain<E: Write>(
        &self,
        alloc: Global,
        name: &str,
        errors: &mut Tally<E>,
    ) -> Result<(), Refusal> {
        let Reason(first, member, last) = self.reason(alloc)?;
        let mut buffer = Buffer::new();
        put_name(errors, name.as_bytes())?;
        errors.put_all(&[b":", buffer.format(self.number).as_bytes(), b": "])?;
        errors.put_all(&[first, member.as_bytes(), last, b"\n"])
    }

    fn reason(&self, alloc: Global) -> Result<Reason, AllocError> {
        let is_json = matches!(self.form, Form::Json);
        Ok(match self.fault {
            Fault::Twice => Reason::plain(b"an earlier line has its key"),
            Fault::KeyLength if is_json => Reason::plain(b"its key has not 1 to 255 bytes"),
            Fault::KeyLength => Reason::plain(b"the first word is no key of 1 to 255 bytes"),
            Fault::ValueLength if is_json => Reason::plain(b"its value has more than 65535 bytes"),
            Fault::ValueLength => Reason::plain(
                b"the second word is no value of at most 65535 bytes",
            ),
            Fault::Malformed if is_json => json_reason(alloc, self.line())?,
            Fault::Malformed => Reason::plain(words_reason(alloc, self.line())?),
        })
    }

    // The line, without its end.
    fn line(&self) -> &'a [u8] {
        let mut number = 0u64;
        for line in self.text.lines() {
            number = number.wrapping_add(1);
            if number == self.number {
                return line;
            }
        }
        b""
    }
}

// Why a line isn't the word of a key and that of a value.
fn words_reason(alloc: Global, line: &[u8]) -> Result<&'static [u8], AllocError> {
    if line.ends_with(b"\r") {
        return Ok(b"a CR stands at its end");
    }
    let mut words = line.splitn(2, |byte| *byte == b' ');
    let (Some(key), Some(value)) = (words.next(), words.next()) else {
        return Ok(b"a word is missing");
    };
    if value.contains(&b' ') {
        return Ok(b"there are too many words");
    }
    Ok(match key_text_of(alloc, key)? {
        Some(_) => b"the second word is no value",
        None => b"the first word is no key",
    })
}

// Why a line of JSON isn't the object of a pair.
fn json_reason(alloc: Global, line: &[u8]) -> Result<Reason, AllocError> {
    let Ok(text) = str::from_utf8(line) else {
        return Ok(Reason::plain(b"it isn't UTF-8"));
    };
    match Value::from_str(alloc, text) {
        Ok(found) => object_reason(alloc, &found),
        Err(why) => match why.classify() {
            Category::Memory => Err(AllocError),
            _ => Ok(Reason::plain(b"it isn't JSON")),
        },
    }
}

// The names of a member that is a text, and of the one that has it in base64.
const NAMES: [(&str, &str); 2] = [("key", "key64"), ("value", "value64")];

// Why an object isn't that of a pair: if nothing is wrong with its members, one is written twice.
fn object_reason(alloc: Global, found: &Value) -> Result<Reason, AllocError> {
    let Some(members) = found.as_object() else {
        return Ok(Reason::plain(b"it is no object"));
    };
    for (name, name64) in NAMES {
        if let Some(reason) = bytes_reason(alloc, found, name, name64)? {
            return Ok(reason);
        }
    }
    let mut most = 2;
    if let Some(space) = found.get("space") {
        most = 3;
        if !is_space(space) {
            return Ok(Reason::plain(b"its space is no number from 0 to 65535"));
        }
    }
    if members.len() > most {
        return Ok(Reason::plain(b"it has a member of another name"));
    }
    Ok(Reason::plain(b"one of its members is written twice"))
}

fn is_space(space: &Value) -> bool {
    match space.as_u64() {
        Some(number) => u16::try_from(number).is_ok(),
        None => false,
    }
}

// Why an object has no bytes under just one of the two names.
fn bytes_reason(
    alloc: Global,
    found: &Value,
    name: &'static str,
    name64: &'static str,
) -> Result<Option<Reason>, AllocError> {
    match (found.get(name), found.get(name64)) {
        (None, None) => Ok(Some(Reason(b"it has no ", name, b""))),
        (Some(_), Some(_)) => Ok(Some(Reason(b"it has a ", name, b" of either kind"))),
        (Some(text), None) if text.as_str().is_some() => Ok(None),
        (Some(_), None) => Ok(Some(Reason(b"its ", name, b" is no text"))),
        (None, Some(text)) if is_base64(alloc, text)? => Ok(None),
        (None, Some(_)) => Ok(Some(Reason(b"its ", name64, b" is no base64"))),
    }
}

fn is_base64(alloc: Global, found: &Value) -> Result<bool, AllocError> {
    let Some(text) = found.as_str() else {
        return Ok(false);
    };
    match STANDARD.decode(alloc, text.as_bytes()) {
        Ok(_) => Ok(true),
        Err(DecodeAllocError::OutOfMemory) => Err(AllocError),
        Err(DecodeAllocError::DecodeError(_)) => Ok(false),
    }
}
