//! How many replies of each kind were given, with a sum over them in their order.

use pc_types::{Phase, Point, Refusal, Reply, Value};
use std::alloc::{AllocError, Global};

/// The kind of a reply; changes of the phase and refusals are of a kind by the phase and by the refusal.
#[derive(Clone, Copy, PartialEq)]
pub enum Kind {
    Begun,
    Found,
    Absent,
    Ok,
    Sum,
    Wait,
    Died,
    Committed,
    Aborted,
    Phase(Phase),
    NotYet,
    Took,
    NoneLeft,
    PartDone,
    File,
    Refused(Refusal),
}

/// The kind of the reply.
pub fn kind_of(reply: &Reply) -> Kind {
    match reply {
        Reply::Begun(_) => Kind::Begun,
        Reply::Found(_) => Kind::Found,
        Reply::Absent => Kind::Absent,
        Reply::Ok => Kind::Ok,
        Reply::Sum(_) => Kind::Sum,
        Reply::Wait => Kind::Wait,
        Reply::Died => Kind::Died,
        Reply::Committed(_) => Kind::Committed,
        Reply::Aborted => Kind::Aborted,
        Reply::Phase(phase, _) => Kind::Phase(*phase),
        Reply::NotYet(_) => Kind::NotYet,
        Reply::Took(_, _) => Kind::Took,
        Reply::NoneLeft => Kind::NoneLeft,
        Reply::PartDone(_, _, _) => Kind::PartDone,
        Reply::File(_, _, _) => Kind::File,
        Reply::Refused(refusal) => Kind::Refused(*refusal),
    }
}

/// How many replies of a kind there were, and their sum.
#[derive(Clone, Copy)]
pub struct SumLine {
    pub kind: Kind,
    pub count: u32,
    pub sum: u64,
}

/// The replies of one run, counted by kind in the order in which the kinds first came, and the checks.
///
/// The sum of a kind begins with 14,695,981,039,346,656,037; for each item of each of its replies, in their order, it
/// becomes (sum xor item) times 1,099,511,628,211, modulo 2^64. The items of a reply are its number among all replies of the
/// run, from 1; then its own numbers, one below 0 with 2^64 more, and a file's points between their count and the count of
/// its entries; then, of its key's own bytes and of its value, the length and the bytes, if a tombstone is 2^64 - 1 in place
/// of a value. A key's space is none of them.
#[derive(Drop)]
pub struct Sums {
    lines: Vec<SumLine>,
    replies: u32,
    checks: u32,
    right: u32,
}

const START: u64 = 14_695_981_039_346_656_037;

const PRIME: u64 = 1_099_511_628_211;

const TOMBSTONE: u64 = u64::MAX;

fn with_item(sum: u64, item: u64) -> u64 {
    (sum ^ item).wrapping_mul(PRIME)
}

// The sum after the length and the bytes.
fn with_bytes(sum: u64, bytes: &[u8]) -> u64 {
    let mut now = with_item(sum, bytes.len() as u64);
    for byte in bytes {
        now = with_item(now, u64::from(*byte));
    }
    now
}

fn with_content(sum: u64, content: &Option<Value>) -> u64 {
    match content {
        Some(value) => with_bytes(sum, value.as_bytes()),
        None => with_item(sum, TOMBSTONE),
    }
}

// The sum after the count of the points and each of them.
fn with_points(sum: u64, points: &[Point]) -> u64 {
    let mut now = with_item(sum, points.len() as u64);
    for point in points {
        now = with_item(now, u64::from(point.0));
    }
    now
}

// The sum after the reply's own numbers, key and value.
fn with_reply(sum: u64, reply: &Reply) -> u64 {
    match reply {
        Reply::Begun(number) => with_item(sum, number.0),
        Reply::Found(value) => with_bytes(sum, value.as_bytes()),
        Reply::Sum(number) => with_item(sum, number.cast_unsigned()),
        Reply::Committed(number) => with_item(sum, u64::from(number.0)),
        Reply::Phase(_, point) => with_item(sum, u64::from(point.0)),
        Reply::NotYet(count) => with_item(sum, u64::from(*count)),
        Reply::Took(key, content) => with_content(with_bytes(sum, key.own_bytes()), content),
        Reply::PartDone(point, number, entries) => {
            let sum = with_item(sum, u64::from(point.0));
            let sum = with_item(sum, u64::from(number.0));
            with_item(sum, u64::from(*entries))
        }
        Reply::File(number, points, entries) => {
            let sum = with_item(sum, u64::from(number.0));
            let sum = with_points(sum, points.as_slice());
            with_item(sum, u64::from(*entries))
        }
        _ => sum,
    }
}

fn empty(kind: Kind) -> SumLine {
    SumLine {
        kind,
        count: 0,
        sum: START,
    }
}

// The line after one more reply, which is of this number.
fn longer(line: SumLine, number: u64, reply: &Reply) -> SumLine {
    SumLine {
        kind: line.kind,
        count: line.count.wrapping_add(1),
        sum: with_reply(with_item(line.sum, number), reply),
    }
}

// Where the kind has its line.
fn place_of(lines: &[SumLine], kind: Kind) -> Option<usize> {
    lines.iter().position(|line| line.kind == kind)
}

impl Sums {
    /// Of no replies.
    pub fn new(alloc: Global) -> Sums {
        Sums {
            lines: Vec::new(alloc),
            replies: 0,
            checks: 0,
            right: 0,
        }
    }

    /// Counts the reply, and adds its items to the sum of its kind.
    pub fn note(&mut self, reply: &Reply) -> Result<(), AllocError> {
        self.replies = self.replies.wrapping_add(1);
        let number = u64::from(self.replies);
        match place_of(&self.lines, kind_of(reply)) {
            Some(i) if i < self.lines.len() => {
                let line = self.lines[i];
                self.lines[i] = longer(line, number, reply);
            }
            _ => self
                .lines
                .push(longer(empty(kind_of(reply)), number, reply))?,
        }
        Ok(())
    }

    /// Counts a check of the store, and whether it found the store correct.
    pub fn note_check(&mut self, is_right: bool) {
        self.checks = self.checks.wrapping_add(1);
        if is_right {
            self.right = self.right.wrapping_add(1);
        }
    }

    /// A line for each kind that came, in the order in which they first came.
    pub fn lines(&self) -> &[SumLine] {
        &self.lines
    }

    /// How many replies there were.
    pub fn replies(&self) -> u32 {
        self.replies
    }

    /// How many checks there were, and how many of them found the store correct.
    pub fn checks(&self) -> (u32, u32) {
        (self.checks, self.right)
    }
}
