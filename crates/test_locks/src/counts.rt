//! How often which answer was given.

use crate::table::Answer;

const FNV_OFFSET: u64 = 0xcbf2_9ce4_8422_2325;

const FNV_PRIME: u64 = 0x0000_0100_0000_01b3;

/// How many lists there were, how many of their last events came to what, how many transactions waited and at how many slots
/// a slot then had a request, and the checksum.
#[derive(Clone, Copy)]
pub struct LockCounts {
    pub lists: u64,
    pub not_asked: u64,
    pub granted: u64,
    pub queued: u64,
    pub died: u64,
    pub released: u64,
    pub nothing: u64,
    pub not_foretold: u64,
    pub waiting: u64,
    pub standing: u64,
    pub checksum: u64,
}

/// No list.
pub const NO_COUNTS: LockCounts = LockCounts {
    lists: 0,
    not_asked: 0,
    granted: 0,
    queued: 0,
    died: 0,
    released: 0,
    nothing: 0,
    not_foretold: 0,
    waiting: 0,
    standing: 0,
    checksum: FNV_OFFSET,
};

impl LockCounts {
    /// Counts one more list, by the answer to its last event and the requests then.
    pub fn count(&mut self, answer: Answer, standing: u8) {
        self.lists = self.lists.wrapping_add(1);
        let number = self.count_answer(answer);
        self.waiting = self.waiting.wrapping_add(ones_of(standing & 7));
        self.standing = self.standing.wrapping_add(ones_of(standing & 24));
        self.checksum = with_byte(with_byte(self.checksum, number), standing);
    }

    // Counts the answer, and returns its number.
    fn count_answer(&mut self, answer: Answer) -> u8 {
        match answer {
            Answer::NotAsked => {
                self.not_asked = self.not_asked.wrapping_add(1);
                0
            }
            Answer::Granted => {
                self.granted = self.granted.wrapping_add(1);
                1
            }
            Answer::Queued => {
                self.queued = self.queued.wrapping_add(1);
                2
            }
            Answer::Died => {
                self.died = self.died.wrapping_add(1);
                3
            }
            Answer::Released(slot) => {
                self.released = self.released.wrapping_add(1);
                if slot == 0 { 4 } else { 5 }
            }
            Answer::Nothing => {
                self.nothing = self.nothing.wrapping_add(1);
                6
            }
            Answer::NotForetold => {
                self.not_foretold = self.not_foretold.wrapping_add(1);
                7
            }
        }
    }
}

fn ones_of(bits: u8) -> u64 {
    u64::from(bits.count_ones())
}

fn with_byte(checksum: u64, byte: u8) -> u64 {
    (checksum ^ u64::from(byte)).wrapping_mul(FNV_PRIME)
}
