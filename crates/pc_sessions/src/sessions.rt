//! A set of sessions, as the bits of a number.
ghost use Rattle.std.specs.Prelude.{◌≡◌, ◌↔◌, ◌==◌, ◌||◌, ◌&&◌, not, ℕ, true, false};
ghost use Rattle.pc_sessions.specs.SessionSets.{is_number, bit_of, has_session};

use pc_types::{MOST_SESSIONS, SessionNo};
use std::marker::Model;

/// A set of sessions: a bit for each number, the lowest for session 1.
#[derive(Drop)]
pub struct SessionSet {
    bits: u64,
}

impl Model for SessionSet {
    ghost use Rattle.std.specs.Prelude.{ℕ};

    ghost Value = { ℕ };

    ghost view = { λ s. s.bits };
}

impl SessionSet {
    /// The empty set.
    pub fn new() -> SessionSet
        ensures { result ≡ 0 }
    {
        SessionSet { bits: 0 }
    }

    /// Adds the session; a number that no session has, as 0 or 65, changes nothing.
    pub fn add(&mut self, session: SessionNo)
        ensures { (s : ℕ) → has_session self.new s ≡ (has_session self.old s || (is_number session && (s == session))) }
    {
        self.bits |= bit_of(session);
    }

    /// Takes the session out, if it is there.
    pub fn remove(&mut self, session: SessionNo)
        ensures { (s : ℕ) → has_session self.new s ≡ (has_session self.old s && not (s == session)) }
    {
        self.bits &= !bit_of(session);
    }

    /// Whether the session is there.
    pub fn has(&self, session: SessionNo) -> bool
        ensures { result ≡ has_session self.now session }
    {
        self.bits & bit_of(session) != 0
    }

    /// Whether no session is there.
    pub fn is_empty(&self) -> bool
        ensures bits { result ≡ (self.now == 0) }
        ensures nobody { (result ≡ true) ↔ ((s : ℕ) → has_session self.now s ≡ false) }
    {
        self.bits == 0
    }
}

// The bit of the session; no bit if no session has this number.
fn bit_of(session: SessionNo) -> u64
    ensures { result ≡ bit_of session }
{
    let place = session.0.wrapping_sub(1);
    if place < u32::from(MOST_SESSIONS) {
        1 << place
    } else {
        0
    }
}
