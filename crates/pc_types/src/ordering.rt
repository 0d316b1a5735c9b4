//! The order of bytes, eight at a time.
ghost use Rattle.std.specs.Prelude.{◌≡◌, ◌+◌, ◌≤◌, length, take, drop};
ghost use Rattle.std.specs.Ordering.{nat_cmp};
ghost use Rattle.std.specs.Cmp.Lexicographic.{slice_cmp};
ghost use Rattle.std.specs.Slice.Scan.{big_endian};

use std::cmp::Ordering;

/// The order of the bytes: by the first place at which they differ, and a proper prefix first. Eight bytes are compared as one
/// number, the highest byte first.
pub(crate) fn order(a: &[u8], b: &[u8]) -> Ordering
    ensures { result ≡ slice_cmp nat_cmp a.now b.now }
{
    let words = a.len().min(b.len()) / 8;
    for place in 0..words {
        let (x, y) = (word_at(a, place * 8), word_at(b, place * 8));
        if x != y {
            return x.cmp(&y);
        }
    }
    order_half(a, b, words * 8)
}

// The order of the bytes from there on; the first four are compared as one number, if both have as many.
fn order_half(a: &[u8], b: &[u8], start: usize) -> Ordering
    requires { (start ≤ length a.now) × (start ≤ length b.now) }
    ensures { result ≡ slice_cmp nat_cmp (drop start a.now) (drop start b.now) }
{
    if a.len().min(b.len()) - start < 4 {
        return order_behind(a, b, start);
    }
    let (x, y) = (half_at(a, start), half_at(b, start));
    if x != y {
        return x.cmp(&y);
    }
    order_behind(a, b, start + 4)
}

// The order of the bytes from there on.
fn order_behind(a: &[u8], b: &[u8], start: usize) -> Ordering
    requires { (start ≤ length a.now) × (start ≤ length b.now) }
    ensures { result ≡ slice_cmp nat_cmp (drop start a.now) (drop start b.now) }
{
    let end = a.len().min(b.len());
    for place in start..end {
        let (x, y) = (a[place], b[place]);
        if x != y {
            return x.cmp(&y);
        }
    }
    a.len().cmp(&b.len())
}

// The number that the eight bytes from there on spell, the highest one first.
fn word_at(bytes: &[u8], start: usize) -> u64
    requires { start + 8 ≤ length bytes.now }
    ensures { result ≡ big_endian 0 (take 8 (drop start bytes.now)) }
{
    u64::from_be_bytes([
        bytes[start],
        bytes[start + 1],
        bytes[start + 2],
        bytes[start + 3],
        bytes[start + 4],
        bytes[start + 5],
        bytes[start + 6],
        bytes[start + 7],
    ])
}

// The number that the four bytes from there on spell, the highest one first.
fn half_at(bytes: &[u8], start: usize) -> u32
    requires { start + 4 ≤ length bytes.now }
    ensures { result ≡ big_endian 0 (take 4 (drop start bytes.now)) }
{
    u32::from_be_bytes([
        bytes[start],
        bytes[start + 1],
        bytes[start + 2],
        bytes[start + 3],
    ])
}
