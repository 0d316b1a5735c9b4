//! The texts that are printed. They go out in pieces and take no memory, so that no reply is lost to an allocation failure.
ghost use Rattle.std.specs.Prelude.{◌≡◌, ◌<◌, ◌≤◌, ◌+◌, ◌++◌, List, ℕ, IfSome, codes, decimal, length};
ghost use Rattle.arrayvec.specs.ArrayVec.{array_vec_len};
ghost use Rattle.std.specs.List.{flat_map};
ghost use Rattle.std.specs.Char.{digit_char};
ghost use Rattle.std.specs.Fmt.{signed_decimal};
ghost use Rattle.pc_io.specs.Tallies.{Puts};
ghost use Rattle.pc_model.specs.Ranges.{ranges_of};
ghost use Rattle.pc_texts.specs.Texts.{printed_byte, printed_name, printed, printed_space, printed_key, printed_value, phase_name, range_text, ranges_text, refusal_text, reply_text, pair_text, state_head, state_text, hex_byte, hex_line, check_line, file_line, joined_line, collapsed_line};

use arrayvec::ArrayVec;
use itoa::Buffer;
use pc_bases::Base;
use pc_io::Tally;
use pc_lines::is_plain;
use pc_types::{Key, Phase, Point, Refusal, Reply, Value};
use std::io::Write;

// The most bytes that are put together for printing, with at most four for each.
const SOME: usize = 64;

const MOST_PRINTED: usize = 256;

// Lines of pairs are put together in pieces of at most this many bytes.
const PIECE: usize = 65_536;

/// Writes the text of a reply, without the end of its line.
pub fn put_reply<W: Write>(out: &mut Tally<W>, reply: &Reply) -> Result<(), Refusal>
    ensures { Puts W.contents out.old out.new result (reply_text reply.now) }
{
    match reply {
        Reply::Begun(txn) => put_number(out, b"begun ", txn.0),
        Reply::Found(value) => put_named(out, b"= ", value.as_bytes()),
        Reply::Absent => out.put(b"absent"),
        Reply::Ok => out.put(b"ok"),
        Reply::Sum(sum) => put_sum(out, *sum),
        Reply::Wait => out.put(b"wait"),
        Reply::Died => out.put(b"died"),
        Reply::Committed(lsn) => put_number(out, b"committed ", u64::from(lsn.0)),
        Reply::Aborted => out.put(b"aborted"),
        Reply::Phase(phase, point) => put_phase(out, *phase, *point),
        Reply::NotYet(count) => put_number(out, b"not yet ", u64::from(*count)),
        Reply::Took(key, value) => put_taken(out, key, value),
        Reply::NoneLeft => out.put(b"none left"),
        Reply::PartDone(point, file, entries) => put_part(out, *point, file.0, *entries),
        Reply::File(file, points, entries) => {
            put_file(
                out,
                u64::from(file.0),
                points.as_slice(),
                u64::from(*entries),
            )
        },
        Reply::Refused(why) => put_refusal(out, *why),
    }
}

// A word and a number.
fn put_number<W: Write>(out: &mut Tally<W>, word: &[u8], number: u64) -> Result<(), Refusal>
    ensures { Puts W.contents out.old out.new result (word.now ++ decimal number) }
{
    let mut buffer = Buffer::new();
    out.put_all(&[word, buffer.format(number).as_bytes()])
}

// A sum, with a minus if it is below 0.
fn put_sum<W: Write>(out: &mut Tally<W>, sum: i64) -> Result<(), Refusal>
    ensures { Puts W.contents out.old out.new result (codes "sum " ++ signed_decimal sum) }
{
    let mut buffer = Buffer::new();
    out.put_all(&[b"sum ", buffer.format(sum).as_bytes()])
}

// A word and the printed form of some bytes.
fn put_named<W: Write>(out: &mut Tally<W>, word: &[u8], bytes: &[u8]) -> Result<(), Refusal>
    ensures { Puts W.contents out.old out.new result (word.now ++ printed bytes.now) }
{
    out.put(word)?;
    put_printed(out, bytes)
}

fn put_phase<W: Write>(out: &mut Tally<W>, phase: Phase, point: Point) -> Result<(), Refusal>
    ensures { Puts W.contents out.old out.new result (codes "phase " ++ (phase_name phase ++ (codes " " ++ decimal point))) }
{
    let mut buffer = Buffer::new();
    out.put_all(&[
        b"phase ",
        phase_name(phase),
        b" ",
        buffer.format(point.0).as_bytes(),
    ])
}

/// The word of a phase.
pub fn phase_name(phase: Phase) -> &'static [u8]
    ensures { result.now ≡ phase_name phase }
{
    match phase {
        Phase::Rest => b"rest",
        Phase::Prepare => b"prepare",
        Phase::Resolve => b"resolve",
        Phase::Capture => b"capture",
        Phase::Complete => b"complete",
    }
}

fn put_taken<W: Write>(out: &mut Tally<W>, key: &Key, value: &Option<Value>) -> Result<(), Refusal>
    ensures { Puts W.contents out.old out.new result (codes "took " ++ (printed_key key.now ++ (codes " " ++ printed_value value.now))) }
{
    out.put(b"took ")?;
    put_entry(out, key, value)
}

// A key, and what was taken of it.
fn put_entry<W: Write>(out: &mut Tally<W>, key: &Key, value: &Option<Value>) -> Result<(), Refusal>
    ensures { Puts W.contents out.old out.new result (printed_key key.now ++ (codes " " ++ printed_value value.now)) }
{
    put_key(out, key)?;
    match value {
        None => out.put(b" tombstone"),
        Some(value) => put_named(out, b" ", value.as_bytes()),
    }
}

fn put_part<W: Write>(
    out: &mut Tally<W>,
    point: Point,
    file: u32,
    entries: u32,
) -> Result<(), Refusal>
    ensures { Puts W.contents out.old out.new result
        (codes "part " ++ (decimal point ++ (codes " file " ++ (decimal file ++ (codes " entries " ++ decimal entries))))) }
{
    let mut point_text = Buffer::new();
    let mut file_text = Buffer::new();
    let mut entries_text = Buffer::new();
    out.put_all(&[
        b"part ",
        point_text.format(point.0).as_bytes(),
        b" file ",
        file_text.format(file).as_bytes(),
        b" entries ",
        entries_text.format(entries).as_bytes(),
    ])
}

fn put_file<W: Write>(
    out: &mut Tally<W>,
    file: u64,
    points: &[Point],
    entries: u64,
) -> Result<(), Refusal>
    ensures { Puts W.contents out.old out.new result
        (codes "file " ++ (decimal file ++ (codes " points " ++ (ranges_text (ranges_of points.now) ++ (codes " entries " ++ decimal entries))))) }
{
    put_number(out, b"file ", file)?;
    put_points(out, b" points ", points)?;
    put_number(out, b" entries ", entries)
}

// A word and the ranges of points that ascend.
fn put_points<W: Write>(out: &mut Tally<W>, word: &[u8], points: &[Point]) -> Result<(), Refusal>
    ensures { Puts W.contents out.old out.new result (word.now ++ ranges_text (ranges_of points.now)) }
{
    out.put(word)?;
    put_ranges(out, points)
}

// The ranges of points that ascend.
fn put_ranges<W: Write>(out: &mut Tally<W>, points: &[Point]) -> Result<(), Refusal>
    ensures { Puts W.contents out.old out.new result (ranges_text (ranges_of points.now)) }
{
    let Some((first, others)) = points.split_first() else {
        return Ok(());
    };
    let mut low = first.0;
    let mut high = first.0;
    for point in others {
        if u32::from(point.0) != u32::from(high) + 1 {
            put_range(out, low, high, b",")?;
            low = point.0;
        }
        high = point.0;
    }
    put_range(out, low, high, b"")
}

// A range, and what ends it.
fn put_range<W: Write>(out: &mut Tally<W>, low: u16, high: u16, end: &[u8]) -> Result<(), Refusal>
    ensures { Puts W.contents out.old out.new result (range_text (low, high) ++ end.now) }
{
    let mut low_text = Buffer::new();
    let mut high_text = Buffer::new();
    if low == high {
        return out.put_all(&[low_text.format(low).as_bytes(), end]);
    }
    out.put_all(&[
        low_text.format(low).as_bytes(),
        b"-",
        high_text.format(high).as_bytes(),
        end,
    ])
}

/// Writes the line of a joined file: its points, which ascend, and how many entries it has.
pub fn put_joined<W: Write>(
    out: &mut Tally<W>,
    points: &[Point],
    entries: u64,
) -> Result<(), Refusal>
    ensures { Puts W.contents out.old out.new result (joined_line points.now entries) }
{
    put_file_line(out, b"points ", points, entries)
}

/// Writes the line of the file of all points of a run: its points, which ascend, and how many entries it has.
pub fn put_collapsed<W: Write>(
    out: &mut Tally<W>,
    points: &[Point],
    entries: u64,
) -> Result<(), Refusal>
    ensures { Puts W.contents out.old out.new result (collapsed_line points.now entries) }
{
    put_file_line(out, b"collapsed ", points, entries)
}

// A word, the ranges of points that ascend, and how many entries there are, with the end of the line.
fn put_file_line<W: Write>(
    out: &mut Tally<W>,
    word: &[u8],
    points: &[Point],
    entries: u64,
) -> Result<(), Refusal>
    ensures { Puts W.contents out.old out.new result (file_line word.now points.now entries) }
{
    put_points(out, word, points)?;
    put_entries(out, entries)
}

// The number of entries, and the end of the line.
fn put_entries<W: Write>(out: &mut Tally<W>, entries: u64) -> Result<(), Refusal>
    ensures { Puts W.contents out.old out.new result (codes " entries " ++ (decimal entries ++ codes "\n")) }
{
    let mut buffer = Buffer::new();
    out.put_all(&[b" entries ", buffer.format(entries).as_bytes(), b"\n"])
}

fn put_refusal<W: Write>(out: &mut Tally<W>, why: Refusal) -> Result<(), Refusal>
    ensures { Puts W.contents out.old out.new result (codes "refused " ++ refusal_text why) }
{
    out.put(b"refused ")?;
    put_reason(out, why)
}

/// Writes why a call was refused.
pub fn put_reason<W: Write>(out: &mut Tally<W>, why: Refusal) -> Result<(), Refusal>
    ensures { Puts W.contents out.old out.new result (refusal_text why) }
{
    match why {
        Refusal::Gap(point) => put_number(out, b"Gap ", u64::from(point.0)),
        _ => out.put(why.name().as_bytes()),
    }
}

/// Writes a key as it is printed: its space, if it is another than 0, and its own bytes.
pub fn put_key<W: Write>(out: &mut Tally<W>, key: &Key) -> Result<(), Refusal>
    ensures { Puts W.contents out.old out.new result (printed_key key.now) }
{
    put_space(out, key.space())?;
    put_printed(out, key.own_bytes())
}

// Prints the space before a key's own bytes: nothing for space 0.
fn put_space<W: Write>(out: &mut Tally<W>, space: u16) -> Result<(), Refusal>
    ensures { Puts W.contents out.old out.new result (printed_space space) }
{
    if space == 0 {
        return Ok(());
    }
    let mut buffer = Buffer::new();
    out.put_all(&[b"\\s", buffer.format(space).as_bytes(), b":"])
}

/// Writes a key's own bytes or a value as it is printed: no bytes as a hyphen, the hyphen alone as an escape.
pub fn put_printed<W: Write>(out: &mut Tally<W>, bytes: &[u8]) -> Result<(), Refusal>
    ensures { Puts W.contents out.old out.new result (printed bytes.now) }
{
    if bytes.is_empty() {
        return out.put(b"-");
    }
    if bytes == b"-".as_slice() {
        return out.put(b"\\x2d");
    }
    put_bytes(out, bytes)
}

/// Writes a file's name as it is printed: a byte from 0x21 to 0x7E other than `\` as it is, and every other one as `\xHH`, so that no
/// name can look like more than one word of a line, or reach a terminal as anything but letters.
pub fn put_name<W: Write>(out: &mut Tally<W>, name: &[u8]) -> Result<(), Refusal>
    ensures { Puts W.contents out.old out.new result (printed_name name.now) }
{
    put_bytes(out, name)
}

fn put_bytes<W: Write>(out: &mut Tally<W>, bytes: &[u8]) -> Result<(), Refusal>
    ensures { Puts W.contents out.old out.new result (flat_map printed_byte bytes.now) }
{
    let mut rest = bytes;
    while !rest.is_empty() {
        let (some, others) = rest.split_at(rest.len().min(SOME));
        put_some(out, some)?;
        rest = others;
    }
    Ok(())
}

// Writes up to 64 bytes: what is printed of them is put together.
fn put_some<W: Write>(out: &mut Tally<W>, bytes: &[u8]) -> Result<(), Refusal>
    requires { length bytes.now ≤ SOME }
    ensures { Puts W.contents out.old out.new result (flat_map printed_byte bytes.now) }
{
    let mut text: ArrayVec<u8, MOST_PRINTED> = ArrayVec::new();
    for byte in bytes {
        push_byte(&mut text, *byte);
    }
    out.put(text.as_slice())
}

fn push_byte(text: &mut ArrayVec<u8, MOST_PRINTED>, byte: u8)
    requires { array_vec_len text.old + 4 ≤ MOST_PRINTED }
    ensures text { text.new.items ≡ text.old.items ++ printed_byte byte }
    ensures len { array_vec_len text.new ≤ array_vec_len text.old + 4 }
{
    if is_plain(byte) {
        text.push(byte);
        return;
    }
    text.push(b'\\');
    text.push(b'x');
    text.push(hex_digit(byte / 16));
    text.push(hex_digit(byte % 16));
}

fn hex_digit(value: u8) -> u8
    requires { value < 16 }
    ensures { result ≡ digit_char value }
{
    if value < 10 { 48 + value } else { 87 + value }
}

/// Writes the lines of a state: its point and the number of its pairs, and each pair.
pub fn put_state<W: Write>(out: &mut Tally<W>, base: &Base) -> Result<(), Refusal>
    ensures { Puts W.contents out.old out.new result (state_text base.now) }
{
    let pairs = base.pairs();
    put_state_head(out, base.point(), pairs.len() as u32)?;
    put_state_pairs(out, pairs)
}

fn put_state_head<W: Write>(out: &mut Tally<W>, point: Point, count: u32) -> Result<(), Refusal>
    ensures { Puts W.contents out.old out.new result (state_head point count) }
{
    put_number(out, b"state point ", u64::from(point.0))?;
    put_number(out, b" pairs ", u64::from(count))
}

// The end of the line, and a line for each pair.
fn put_state_pairs<W: Write>(out: &mut Tally<W>, pairs: &[(Key, Value)]) -> Result<(), Refusal>
    ensures { Puts W.contents out.old out.new result (codes "\n" ++ flat_map pair_text pairs.now) }
{
    out.put(b"\n")?;
    put_pairs(out, pairs)
}

/// Writes a line for each pair. Lines are put together in pieces of at most 65,536 bytes, and a longer one goes out by itself. It
/// allocates no memory.
pub fn put_pairs<W: Write>(out: &mut Tally<W>, pairs: &[(Key, Value)]) -> Result<(), Refusal>
    ensures { Puts W.contents out.old out.new result (flat_map pair_text pairs.now) }
{
    let mut rest = pairs;
    while !rest.is_empty() {
        let (some, others) = rest.split_at(piece_count(rest));
        put_together(out, some)?;
        rest = others;
    }
    Ok(())
}

// How many of the first pairs are put together: one at least, and no further one whose line may not fit into the piece.
fn piece_count(pairs: &[(Key, Value)]) -> usize
    requires { 0 < length pairs.now }
    ensures some { 0 < result }
    ensures within { result ≤ length pairs.now }
{
    let mut count = 1;
    let mut size = most_printed(&pairs[0]);
    while count < pairs.len() {
        size = size.saturating_add(most_printed(&pairs[count]));
        if size > PIECE {
            return count;
        }
        count += 1;
    }
    count
}

// No fewer bytes than the line of the pair has.
fn most_printed(pair: &(Key, Value)) -> usize {
    let bytes = pair
        .0
        .own_bytes()
        .len()
        .saturating_add(pair.1.as_bytes().len());
    bytes.saturating_mul(4).saturating_add(12)
}

// Writes the lines in one piece if they fit into it, else one by one.
fn put_together<W: Write>(out: &mut Tally<W>, pairs: &[(Key, Value)]) -> Result<(), Refusal>
    ensures { Puts W.contents out.old out.new result (flat_map pair_text pairs.now) }
{
    match lines_of(pairs) {
        Some(lines) => out.put(lines.as_slice()),
        None => put_each(out, pairs),
    }
}

// The lines, if they fit into a piece.
fn lines_of(pairs: &[(Key, Value)]) -> Option<ArrayVec<u8, PIECE>>
    ensures { IfSome result (λ lines. lines.items ≡ flat_map pair_text pairs.now) }
{
    let lines: ArrayVec<u8, PIECE> = ArrayVec::new();
    let mut lines = Tally::new(lines);
    match put_each(&mut lines, pairs) {
        Ok(()) => Some(lines.into_inner()),
        Err(_) => None,
    }
}

fn put_each<W: Write>(out: &mut Tally<W>, pairs: &[(Key, Value)]) -> Result<(), Refusal>
    ensures { Puts W.contents out.old out.new result (flat_map pair_text pairs.now) }
{
    for pair in pairs {
        put_pair(out, pair)?;
    }
    Ok(())
}

fn put_pair<W: Write>(out: &mut Tally<W>, pair: &(Key, Value)) -> Result<(), Refusal>
    ensures { Puts W.contents out.old out.new result (pair_text pair.now) }
{
    put_two(out, &pair.0, &pair.1)?;
    out.put(b"\n")
}

// A key and a value, with a space between them.
fn put_two<W: Write>(out: &mut Tally<W>, key: &Key, value: &Value) -> Result<(), Refusal>
    ensures { Puts W.contents out.old out.new result (printed_key key.now ++ (codes " " ++ printed value.now)) }
{
    put_key(out, key)?;
    put_named(out, b" ", value.as_bytes())
}

/// Writes the bytes of a file by their hexadecimal digits, with the end of the line.
pub fn put_text<W: Write>(out: &mut Tally<W>, bytes: &[u8]) -> Result<(), Refusal>
    ensures { Puts W.contents out.old out.new result (hex_line bytes.now) }
{
    put_hex_words(out, bytes)?;
    out.put(b"\n")
}

fn put_hex_words<W: Write>(out: &mut Tally<W>, bytes: &[u8]) -> Result<(), Refusal>
    ensures { Puts W.contents out.old out.new result (codes "text " ++ flat_map hex_byte bytes.now) }
{
    out.put(b"text ")?;
    put_hex(out, bytes)
}

fn put_hex<W: Write>(out: &mut Tally<W>, bytes: &[u8]) -> Result<(), Refusal>
    ensures { Puts W.contents out.old out.new result (flat_map hex_byte bytes.now) }
{
    let mut rest = bytes;
    while !rest.is_empty() {
        let (some, others) = rest.split_at(rest.len().min(SOME));
        put_some_hex(out, some)?;
        rest = others;
    }
    Ok(())
}

// Writes the digits of up to 64 bytes, put together.
fn put_some_hex<W: Write>(out: &mut Tally<W>, bytes: &[u8]) -> Result<(), Refusal>
    requires { length bytes.now ≤ SOME }
    ensures { Puts W.contents out.old out.new result (flat_map hex_byte bytes.now) }
{
    let mut text: ArrayVec<u8, MOST_PRINTED> = ArrayVec::new();
    for byte in bytes {
        text.push(hex_digit(*byte / 16));
        text.push(hex_digit(*byte % 16));
    }
    out.put(text.as_slice())
}

/// Writes what a check found, with the end of the line.
pub fn put_check<W: Write>(out: &mut Tally<W>, sound: bool) -> Result<(), Refusal>
    ensures { Puts W.contents out.old out.new result (check_line sound) }
{
    if sound {
        out.put(b"check ok\n")
    } else {
        out.put(b"check failed\n")
    }
}
