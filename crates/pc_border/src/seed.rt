//! A seed of two words.
use std::hash::RandomState;
use std::io;
use std::random::RandomSource;

// Bytes in place of random ones: they are read from the first on, and again from there once all are read.
#[derive(Drop)]
struct GivenBytes {
    bytes: [u8; 16],
}

impl RandomSource for GivenBytes {
    fn fill_bytes(&self, room: &mut [u8]) -> io::Result<()> {
        for (place, byte) in room.iter_mut().enumerate() {
            *byte = self.bytes[place % 16];
        }
        Ok(())
    }
}

/// The seed of these words, of which nothing is promised but that it is one.
pub fn seed_of(first: u64, second: u64) -> Option<RandomState> {
    let [a, b, c, d, e, f, g, h] = first.to_be_bytes();
    let [i, j, k, l, m, n, o, p] = second.to_be_bytes();
    let bytes = [a, b, c, d, e, f, g, h, i, j, k, l, m, n, o, p];
    RandomState::new(&GivenBytes { bytes }).ok()
}
