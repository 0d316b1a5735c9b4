//! Tests of merges, by tables, and compared with the join of files by twos.

use pc_entries::EntryText;
use pc_merge::{Entries, EntryList, MOST_INPUTS, Merge, merge_all};
use pc_part::{Part, join};
use pc_taken::LentTriple;
use pc_types::{Key, Point, Refusal, SPACE_BYTES, Triple, Value};
use std::alloc::Global;
use std::marker::Model;
use std::test::Fail;

// An entry: its key, its point, and what the key had there.
type Row = (&'static [u8], u16, Option<u8>);

// Lists of entries, what their merge gives, and what it then refuses with; nothing, if it ends.
type Case = (&'static [&'static [Row]], &'static [Row], &'static str);

const A: &[u8] = b"a";

const B: &[u8] = b"b";

const LONG: &[u8] = b"the same head, a";

const LONGER: &[u8] = b"the same head, b";

const LAST: &[u8] = b"\xff\xff\xff\xff\xff\xff\xff\xff";

const A1: Row = (A, 1, None);

const A2: Row = (A, 2, Some(1));

const A3: Row = (A, 3, Some(2));

const B1: Row = (B, 1, Some(3));

const B2: Row = (B, 2, Some(1));

const OTHER_B2: Row = (B, 2, Some(2));

const LONG2: Row = (LONG, 2, Some(2));

const LONGER1: Row = (LONGER, 1, Some(1));

const LAST1: Row = (LAST, 1, None);

const CASES: &[Case] = &[
    (&[], &[], ""),
    (&[&[A1, B1]], &[A1, B1], ""),
    (&[&[A2], &[A1, B1]], &[A2, B1], ""),
    (&[&[A2], &[A3], &[A1]], &[A3], ""),
    (&[&[A1], &[A1], &[A1]], &[A1], ""),
    (
        &[&[LAST1], &[LONGER1], &[LONG2], &[]],
        &[LONG2, LONGER1, LAST1],
        "",
    ),
    (&[&[A1, B2], &[OTHER_B2], &[B1]], &[A1], "Conflict"),
    (&[&[A1, LONG2, B1], &[A2]], &[A2], "KeyOrder"),
    (&[&[A1, A2]], &[], "KeyOrder"),
];

fn triple_of(alloc: Global, row: &Row) -> Result<Triple, Refusal> {
    let content = match row.2 {
        Some(byte) => Some(Value::new(alloc, &[byte])?),
        None => None,
    };
    Ok(Triple {
        key: Key::new(alloc, row.0)?,
        point: Point(row.1),
        content,
    })
}

// The triple's entry, kept as its text.
fn kept(alloc: Global, triple: &Triple) -> Result<EntryText, Refusal> {
    let lent = LentTriple {
        key: &triple.key,
        point: triple.point,
        content: &triple.content,
    };
    let entry = EntryText::of(Vec::new(alloc), &lent)?;
    Ok(entry)
}

fn list_of(alloc: Global, rows: &[Row]) -> Result<EntryList, Refusal> {
    let mut entries = Vec::new(alloc);
    for row in rows {
        let triple = triple_of(alloc, row)?;
        entries.push(kept(alloc, &triple)?)?;
    }
    Ok(EntryList::new(entries))
}

fn is_of(entry: &EntryText, row: &Row) -> bool {
    let content = match entry.value() {
        Some(value) => value.first().copied(),
        None => None,
    };
    let own = entry.key().get(SPACE_BYTES..);
    own == Some(row.0) && entry.point() == row.1 && content == row.2
}

// A merge with its inputs.
#[derive(Drop)]
struct Running<E> {
    inputs: Vec<E>,
    merge: Merge,
}

impl<E> Model for Running<E> {
    ghost use Rattle.std.specs.Prelude.{◌≡◌, ℕ, length};

    ghost Value = { ℕ };

    ghost view = { λ r. length r.inputs.items };

    ghost invariant = { λ r. length r.inputs.items ≡ length r.merge.firsts };
}

impl<E: Entries + Drop> Running<E> {
    // The merge is opened; if that was refused, each call for an entry is.
    fn new(alloc: Global, inputs: Vec<E>) -> Result<Running<E>, Refusal> {
        if inputs.len() > MOST_INPUTS {
            return Err(Refusal::Full);
        }
        let mut inputs = inputs;
        let mut merge = Merge::new(alloc, inputs.len())?;
        drop(merge.open(&mut inputs));
        Ok(Running { inputs, merge })
    }

    fn next(&mut self) -> Result<Option<EntryText>, Refusal> {
        self.merge.next(&mut self.inputs)
    }
}

// Whether the next entry is that of the row.
fn gives(merge: &mut Running<EntryList>, row: &Row) -> Result<bool, Refusal> {
    let Some(entry) = merge.next()? else {
        return Ok(false);
    };
    Ok(is_of(&entry, row))
}

// Whether the merge ends, or is refused so.
fn ends(merge: &mut Running<EntryList>, refused: &str) -> bool {
    let answer = merge.next();
    match &answer {
        Ok(entry) => entry.is_none() && refused.is_empty(),
        Err(why) => why.name() == refused,
    }
}

// Whether a merge answers as the case says, and its end or its refusal twice.
fn agrees(alloc: Global, (lists, given, refused): &Case) -> Result<bool, Refusal> {
    let mut inputs = Vec::new(alloc);
    for rows in *lists {
        inputs.push(list_of(alloc, rows)?)?;
    }
    let mut merge = Running::new(alloc, inputs)?;
    for row in *given {
        if !gives(&mut merge, row)? {
            return Ok(false);
        }
    }
    Ok(ends(&mut merge, refused) && ends(&mut merge, refused))
}

#[test]
fn merges_answer_by_the_table(rt: HostRuntime) -> Result<(), Fail> {
    for (number, case) in CASES.iter().enumerate() {
        assert!(rt; agrees(rt.alloc(), case)?, "case {number}");
    }
    Ok(())
}

// A list that is truncated by a failure of its device.
#[derive(Drop)]
struct CutList {
    entries: EntryList,
    left: u8,
    refused: Option<Refusal>,
    failures: u64,
}

impl Entries for CutList {
    ghost use Rattle.std.specs.Prelude.{None};

    ghost coming = { λ _. None };

    ghost standing = { λ list. record { refused = list.refused; failures = list.failures } };

    ghost within = { λ _ _. ⊥ };

    fn next(&mut self, memory: Vec<u8>) -> Result<Option<EntryText>, Refusal> {
        if let Some(why) = self.refused {
            return Err(why);
        }
        if self.left == 0 {
            self.refused = Some(Refusal::Device);
            self.failures = self.failures.saturating_add(1);
            return Err(Refusal::Device);
        }
        self.left -= 1;
        match self.entries.next(memory) {
            Ok(entry) => Ok(entry),
            Err(_) => Ok(None),
        }
    }
}

// Two lists, of which the first is truncated after the given number of entries.
fn cut_lists(alloc: Global, left: u8) -> Result<Vec<CutList>, Refusal> {
    let mut lists = Vec::new(alloc);
    lists.push(CutList {
        entries: list_of(alloc, &[A1, LONG2])?,
        left,
        refused: None,
        failures: 0,
    })?;
    lists.push(CutList {
        entries: list_of(alloc, &[A2, B1])?,
        left: 9,
        refused: None,
        failures: 0,
    })?;
    Ok(lists)
}

// Whether an entry is given, or the end; `None` if it answers that the device has failed.
fn has_given(merge: &mut Running<CutList>) -> Option<bool> {
    let answer = merge.next();
    match &answer {
        Ok(entry) => Some(entry.is_some()),
        Err(Refusal::Device) => None,
        Err(_) => Some(false),
    }
}

// How many entries are given before the device fails, and whether that is answered from then on.
fn count_to_failure(alloc: Global, left: u8) -> Result<(usize, bool), Refusal> {
    let mut merge = Running::new(alloc, cut_lists(alloc, left)?)?;
    let mut count = 0usize;
    for _ in 0..9 {
        if has_given(&mut merge) != Some(true) {
            break;
        }
        count = count.wrapping_add(1);
    }
    let has_failed = has_given(&mut merge).is_none();
    Ok((count, has_failed && has_given(&mut merge).is_none()))
}

#[test]
fn a_failure_in_the_midst_is_answered_from_then_on(rt: HostRuntime) -> Result<(), Fail> {
    assert!(rt; count_to_failure(rt.alloc(), 0)? == (0, true));
    assert!(rt; count_to_failure(rt.alloc(), 1)? == (0, true));
    assert!(rt; count_to_failure(rt.alloc(), 2)? == (2, true));
    assert!(rt; count_to_failure(rt.alloc(), 3)? == (3, false));
    Ok(())
}

// The text of the file of a point: of some forty keys it has some, with a value or a tombstone; a quarter of them in space 0,
// and of those in space 7 two thirds of one head.
fn text_of(alloc: Global, point: u8) -> Result<Vec<u8>, Refusal> {
    let mut text = Vec::from_slice(
        alloc,
        b"PCALCP02\x00\x00\x00\x00\x00\x00\x00\x01\x00\x00\x00\x01",
    )?;
    for _ in 0..2 {
        text.extend_from_slice(&[0, 0, 0, point])?;
    }
    let mut count = 0u8;
    for number in 0..40u8 {
        if (number ^ point) % 3 == 0 {
            continue;
        }
        count = count.wrapping_add(1);
        if number < 20 {
            text.extend_from_slice(&[0, 1, 0, number / 10 * 7, number])?;
        } else {
            text.extend_from_slice(b"\x00\x09\x00\x07one head")?;
            text.push(number)?;
        }
        text.extend_from_slice(&[0, 0, 0, point])?;
        match number & point & 3 {
            0 => text.push(0)?,
            other => text.extend_from_slice(&[1, 0, 0, 0, 1, other])?,
        }
    }
    text.extend_from_slice(&[0, 0, 0, 0, 0, count])?;
    Ok(text)
}

fn entries_of(alloc: Global, part: &Part) -> Result<Vec<Triple>, Refusal> {
    let mut entries = Vec::new(alloc);
    for triple in part.entries() {
        entries.push(triple.copy(alloc)?)?;
    }
    Ok(entries)
}

fn entry_list(alloc: Global, part: &Part) -> Result<EntryList, Refusal> {
    let mut entries = Vec::new(alloc);
    for triple in part.entries() {
        entries.push(EntryText::of(Vec::new(alloc), &triple)?)?;
    }
    Ok(EntryList::new(entries))
}

fn is_same(one: &Triple, other: &Triple) -> bool {
    let content = match (&one.content, &other.content) {
        (Some(value), Some(other)) => value.is(other),
        (None, None) => true,
        _ => false,
    };
    one.key.is(&other.key) && one.point == other.point && content
}

// Whether the merge of the given number of files' entries is their join by twos.
fn is_the_join(alloc: Global, files: u8) -> Result<bool, Refusal> {
    let mut lists = Vec::new(alloc);
    let mut joined = Part::decode(alloc, &text_of(alloc, 1)?)?;
    for point in 1..=files {
        let part = Part::decode(alloc, &text_of(alloc, point)?)?;
        lists.push(entry_list(alloc, &part)?)?;
        joined = join(alloc, &joined, &part)?;
    }
    if lists.len() > MOST_INPUTS {
        return Ok(false);
    }
    let merged = merge_all(alloc, &mut lists)?;
    let joined = entries_of(alloc, &joined)?;
    Ok(
        merged.len() == joined.len()
            && merged
                .iter()
                .zip(&joined)
                .all(|(one, other)| is_same(one, other)),
    )
}

#[test]
fn merges_are_joins_by_twos(rt: HostRuntime) -> Result<(), Fail> {
    for files in [1, 2, 3, 64] {
        assert!(rt; is_the_join(rt.alloc(), files)?);
    }
    Ok(())
}
