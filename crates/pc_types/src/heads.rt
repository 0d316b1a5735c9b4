//! The first bytes of a key as one number.
ghost use Rattle.std.specs.Prelude.{◌≡◌, ◌≤◌, ◌<◌, length};
ghost use Rattle.pc_types.specs.Bytes.{IsBytes};
ghost use Rattle.pc_types.specs.Heads.{head, base_256_value};

use crate::limits::SPACE_BYTES;

/// The head of a key, which is given by its space's two bytes and its own after them.
#[inline(always)]
pub fn head_of(key: &[u8]) -> u64
    requires { SPACE_BYTES ≤ length key.now }
    ensures head { result ≡ head key.now }
    ensures bytes { IsBytes key.now }
{
    let space = u16::from_be_bytes([key[0], key[1]]);
    let first = first_eight(&key[SPACE_BYTES..]);
    if space == 0 {
        first / 2
    } else {
        (1 << 63) + (u64::from(space) * (1 << 47) + first / (1 << 17))
    }
}

/// The first eight bytes as one number, the highest first, with zeros after fewer.
#[inline(always)]
pub fn first_eight(bytes: &[u8]) -> u64
    ensures number { result ≡ base_256_value 8 0 bytes.now }
    ensures bytes { IsBytes bytes.now }
{
    if 8 <= bytes.len() {
        return u64::from_be_bytes([
            bytes[0], bytes[1], bytes[2], bytes[3], bytes[4], bytes[5], bytes[6], bytes[7],
        ]);
    }
    first_few(bytes)
}

// The same of fewer than eight.
#[inline(never)]
fn first_few(bytes: &[u8]) -> u64
    requires { length bytes.now < 8 }
    ensures { result ≡ base_256_value 8 0 bytes.now }
{
    match bytes {
        [] => 0,
        [a] => u64::from_be_bytes([*a, 0, 0, 0, 0, 0, 0, 0]),
        [a, b] => u64::from_be_bytes([*a, *b, 0, 0, 0, 0, 0, 0]),
        [a, b, c] => u64::from_be_bytes([*a, *b, *c, 0, 0, 0, 0, 0]),
        [a, b, c, d] => u64::from_be_bytes([*a, *b, *c, *d, 0, 0, 0, 0]),
        [a, b, c, d, e] => u64::from_be_bytes([*a, *b, *c, *d, *e, 0, 0, 0]),
        [a, b, c, d, e, f] => u64::from_be_bytes([*a, *b, *c, *d, *e, *f, 0, 0]),
        [a, b, c, d, e, f, g, ..] => u64::from_be_bytes([*a, *b, *c, *d, *e, *f, *g, 0]),
    }
}
