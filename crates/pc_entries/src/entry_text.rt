//! An entry of a part that is kept as its text.
ghost use Rattle.std.specs.Prelude.{◌≡◌, ◌≤◌, ◌+◌, ◌∷◌, ◌++◌, length, take, drop, IfOk, OnOk, option_map};
ghost use Rattle.pc_types.specs.Bytes.{IsBytes};
ghost use Rattle.pc_types.specs.Heads.{head};
ghost use Rattle.pc_types.specs.Limits.{IsKey};
ghost use Rattle.pc_part.specs.Lawful.{HasLimits};
ghost use Rattle.pc_entries.specs.Lent.{IsEntryText, entry_in};
ghost use Rattle.pc_part.specs.Texts.{triple_text};

use crate::lent_entry::LentEntry;
use pc_io::{Format, Tally};
use pc_part::put_entry;
use pc_taken::LentTriple;
use pc_types::{Key, Point, SPACE_BYTES, Triple, Value, head_of, pairs_are_keys};
use std::alloc::{AllocError, Global};
use std::marker::Model;

// The size of the length of a key, in bytes.
const LENGTH_BYTES: usize = 2;

/// An entry of a part, kept as its text in format 02, whose memory can be used for another one. A contract sees the entry.
#[derive(Drop)]
pub struct EntryText {
    text: Vec<u8>,
    // The head of its key.
    head: u64,
    // The end of its key.
    key_end: u16,
    point: u16,
}

impl Model for EntryText {
    ghost use Rattle.pc_types.specs.declared.Triple.{Triple};
    ghost use Rattle.pc_entries.specs.Lent.{IsHead, IsEntryText, entry_in};

    ghost Value = { Triple };

    ghost view = { λ e. entry_in e.text.items e.key_end e.point };

    ghost invariant = { λ e. IsEntryText e.text.items e.key_end e.point × IsHead (entry_in e.text.items e.key_end e.point).key e.head };
}

impl EntryText {
    /// The entry, kept in this memory. It fails only if an allocation fails.
    pub fn of(memory: Vec<u8>, entry: &LentTriple) -> Result<EntryText, AllocError>
        ensures { IfOk result (λ kept. kept ≡ entry.now) }
    {
        let mut text = memory;
        text.clear();
        let mut out = Tally::new(text);
        match put_entry(&mut out, entry) {
            Ok(()) => {
                let key_end = (LENGTH_BYTES + entry.key.as_bytes().len()) as u16;
                let kept = EntryText::of_text(out.into_inner(), key_end, entry.point.0);
                Ok(kept)
            }
            Err(_) => Err(AllocError),
        }
    }

    // The entry of this point with this text, in which its key ends there.
    #[inline(always)]
    fn of_text(text: Vec<u8>, key_end: u16, point: u16) -> EntryText
        requires { IsEntryText text.items key_end point }
        ensures { result ≡ entry_in text.items key_end point }
    {
        let head = head_of(&text[LENGTH_BYTES..usize::from(key_end)]);
        EntryText {
            text,
            head,
            key_end,
            point,
        }
    }

    /// The bytes of its key, as `Key::as_bytes` has them: the space's two, and its own after them.
    #[inline(always)]
    pub fn key(&self) -> &[u8]
        ensures bytes { result.now ≡ self.now.key }
        ensures in_limits { IsKey self.now.key }
    {
        &self.text[LENGTH_BYTES..usize::from(self.key_end)]
    }

    /// The head of its key.
    #[inline(always)]
    pub fn head(&self) -> u64
        ensures head { result ≡ head self.now.key }
        ensures bytes { IsBytes self.now.key }
    {
        self.head
    }

    /// Its point.
    #[inline(always)]
    pub fn point(&self) -> u16
        ensures { result ≡ self.now.point }
    {
        self.point
    }

    /// The content of its key at the point, a value or nothing.
    #[inline(always)]
    pub fn value(&self) -> Option<&[u8]>
        ensures { option_map (λ value. value.now) result ≡ self.now.content }
    {
        let key_end = usize::from(self.key_end);
        if self.text[key_end + 4] == 0 {
            return None;
        }
        Some(&self.text[key_end + 9..])
    }

    /// Its text in format 02.
    #[inline(always)]
    pub fn text(&self) -> &[u8]
        ensures text { result.now ≡ triple_text self.now }
        ensures lawful { HasLimits self.now }
    {
        &self.text
    }

    /// Its memory, in which another one can be kept.
    #[inline(always)]
    pub fn into_memory(self) -> Vec<u8> {
        self.text
    }

    /// The entry as a triple. It fails only if an allocation fails.
    pub fn triple(&self, alloc: Global) -> Result<Triple, AllocError>
        ensures { IfOk result (λ triple. triple ≡ self.now) }
    {
        let key = key_of(alloc, self.key())?;
        let content = content_of(alloc, self.value())?;
        Ok(Triple {
            key,
            point: Point(self.point),
            content,
        })
    }
}

impl<'a> LentEntry<'a> {
    /// The entry, kept in this memory. It fails only if an allocation fails.
    #[inline(always)]
    pub fn keep(&self, memory: Vec<u8>) -> Result<EntryText, AllocError>
        ensures { IfOk result (λ kept. kept ≡ self.now) }
    {
        let text = self.text_in(memory)?;
        let kept = EntryText::of_text(text, self.key_end(), self.point);
        Ok(kept)
    }

    // Its text in format 02, in this memory. It fails only if an allocation fails.
    #[inline(always)]
    fn text_in(&self, memory: Vec<u8>) -> Result<Vec<u8>, AllocError>
        ensures text { IfOk result (λ text. text.items ≡ triple_text self.now) }
        ensures limits { HasLimits self.now }
    {
        let mut text = memory;
        text.clear();
        match self.format {
            Format::First => put_widened(&mut text, self.text)?,
            Format::Second => text.extend_from_slice(self.text)?,
        }
        Ok(text)
    }

    // The end of its key in its text in format 02.
    #[inline(always)]
    fn key_end(&self) -> u16
        ensures { result ≡ 2 + length self.now.key }
    {
        match self.format {
            Format::First => (LENGTH_BYTES + SPACE_BYTES + self.key.len()) as u16,
            Format::Second => (LENGTH_BYTES + self.key.len()) as u16,
        }
    }
}

// Appends the text of an entry in format 01, with space 0 after the length of its key. It fails only if an allocation
// fails.
fn put_widened(text: &mut Vec<u8>, first: &[u8]) -> Result<(), AllocError>
    requires { 2 ≤ length first.now }
    ensures { OnOk result (text.new.items ≡ text.old.items ++ (take 2 first.now ++ (0 ∷ 0 ∷ drop 2 first.now))) }
{
    text.extend_from_slice(&first[..LENGTH_BYTES])?;
    text.extend_from_slice(&[0; SPACE_BYTES])?;
    text.extend_from_slice(&first[LENGTH_BYTES..])
}

// The key of these bytes, the space's two and its own after them. It fails only if an allocation fails.
fn key_of(alloc: Global, bytes: &[u8]) -> Result<Key, AllocError>
    requires { IsKey bytes.now }
    ensures { IfOk result (λ key. key ≡ bytes.now) }
{
    pairs_are_keys();
    let space = u16::from_be_bytes([bytes[0], bytes[1]]);
    match Key::in_space(alloc, space, &bytes[SPACE_BYTES..]) {
        Ok(key) => Ok(key),
        Err(_) => Err(AllocError),
    }
}

// An owned copy of a key's content. It fails only if an allocation fails.
fn content_of(alloc: Global, value: Option<&[u8]>) -> Result<Option<Value>, AllocError>
    ensures { IfOk result (λ content. content ≡ option_map (λ bytes. bytes.now) value.entry) }
{
    let Some(bytes) = value else {
        return Ok(None);
    };
    match Value::new(alloc, bytes) {
        Ok(value) => Ok(Some(value)),
        Err(_) => Err(AllocError),
    }
}
