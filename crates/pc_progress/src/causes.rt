//! Why transactions were given up.
use pc_types::{MOST_SESSIONS, Point, Refusal, SessionNo};
use std::alloc::{AllocError, Global};
use std::io;
use std::io::Write;
use std::sync::atomic::{AtomicU8, AtomicU64, Ordering};

/// The refusals for which a transaction can be given up, in the order in which they are printed.
const REFUSALS: [Refusal; 30] = [
    Refusal::OutOfMemory,
    Refusal::Full,
    Refusal::KeyLength,
    Refusal::ValueLength,
    Refusal::NoTransaction,
    Refusal::AlreadyBegun,
    Refusal::MustAbort,
    Refusal::WrongPhase,
    Refusal::TooManyWrites,
    Refusal::LogFull,
    Refusal::PointsFull,
    Refusal::NoSession,
    Refusal::NoFile,
    Refusal::OtherRun,
    Refusal::Conflict,
    Refusal::Gap(Point(0)),
    Refusal::ShelfFull,
    Refusal::StillWaiting,
    Refusal::NotNumber,
    Refusal::OutOfRange,
    Refusal::Short,
    Refusal::BadMagic,
    Refusal::BadRanges,
    Refusal::KeyOrder,
    Refusal::BadKind,
    Refusal::BadLength,
    Refusal::Trailing,
    Refusal::NotCovered,
    Refusal::TokenOrder,
    Refusal::Device,
];

/// The word for a transaction that died each time it was begun.
const DIED_NAME: &str = "died";

/// The place of no cause; those of the refusals come after that of a death.
const NO_CAUSE: u8 = 0;

const DEATH: u8 = 1;

const FIRST_REFUSAL: u8 = 2;

/// The number of transactions given up, by the outcome of the last attempt of each.
#[derive(Drop)]
pub struct Causes {
    // By the number of a session: the place of what the transaction has met that it has begun last.
    met: Vec<AtomicU8>,
    died: AtomicU64,
    // By the order of the refusals.
    refused: Vec<AtomicU64>,
}

impl Causes {
    /// Nothing was met.
    pub fn new(alloc: Global) -> Result<Causes, AllocError> {
        let mut met = Vec::new(alloc);
        for _ in 0..=MOST_SESSIONS {
            met.push(AtomicU8::new(NO_CAUSE))?;
        }
        let mut refused = Vec::new(alloc);
        for _ in 0..REFUSALS.len() {
            refused.push(AtomicU64::new(0))?;
        }
        Ok(Causes {
            met,
            died: AtomicU64::new(0),
            refused,
        })
    }

    /// The session begins a transaction, which has met nothing.
    pub fn note_start(&self, session: SessionNo) {
        self.note(session, NO_CAUSE);
    }

    /// The session's transaction has died.
    pub fn note_death(&self, session: SessionNo) {
        self.note(session, DEATH);
    }

    /// The session's transaction was refused for this.
    pub fn note_refusal(&self, session: SessionNo, why: Refusal) {
        let mut place = FIRST_REFUSAL;
        for refusal in &REFUSALS {
            if refusal.name() == why.name() {
                self.note(session, place);
            }
            place = place.saturating_add(1);
        }
    }

    fn note(&self, session: SessionNo, place: u8) {
        if let Some(met) = self.met.get(session.0 as usize) {
            met.store(place, Ordering::SeqCst);
        }
    }

    /// The session's transaction is given up, for what it has met last.
    pub fn give_up(&self, session: SessionNo) {
        let Some(met) = self.met.get(session.0 as usize) else {
            return;
        };
        let place = met.load(Ordering::SeqCst);
        if place == DEATH {
            self.died.fetch_add(1, Ordering::SeqCst);
        } else if let Some(order) = place.checked_sub(FIRST_REFUSAL) {
            if let Some(count) = self.refused.get(usize::from(order)) {
                count.fetch_add(1, Ordering::SeqCst);
            }
        }
    }

    /// Writes a line for each cause for which some transaction was given up.
    pub fn put<W: Write>(&self, out: &mut W) -> io::Result<()> {
        for (refusal, count) in REFUSALS.iter().zip(&self.refused) {
            put_cause(refusal.name(), count, out)?;
        }
        put_cause(DIED_NAME, &self.died, out)
    }
}

fn put_cause<W: Write>(name: &str, count: &AtomicU64, out: &mut W) -> io::Result<()> {
    match count.load(Ordering::SeqCst) {
        0 => Ok(()),
        count => writeln!(out, "given up {name} {count}"),
    }
}
