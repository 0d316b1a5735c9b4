//! Numbers that look like chance, and are the same in each run.

const WORD: [u8; 40] = *b"0123456789 is longer than what is inline";

/// The next number of a walk: the one before times 6,364,136,223,846,793,005 and 1,442,695,040,888,963,407 more, modulo 2^64.
/// Its higher bits look like chance.
pub fn following(seed: u64) -> u64 {
    seed.wrapping_mul(6_364_136_223_846_793_005)
        .wrapping_add(1_442_695_040_888_963_407)
}

/// A number below the bound, 0 if that is 0: the remainder of the 32 bits of the seed from this one on, counted from the
/// lowest.
pub fn drawn(seed: u64, shift: u32, bound: u32) -> u32 {
    let low = ((seed >> (shift % 64)) & 0xffff_ffff) as u32;
    if bound == 0 {
        return 0;
    }
    low % bound
}

/// A value of at most 27 bytes, so that some are longer than what is kept inline.
pub fn drawn_value(seed: u64) -> &'static [u8] {
    let from = drawn(seed, 31, 10) as usize;
    let length = drawn(seed, 35, 28) as usize;
    &WORD[from.min(9)..from.min(9) + length.min(30)]
}
