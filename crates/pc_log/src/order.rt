//! The order of a log's tokens: five for each point, from its prepare to its rest, and the points in order from 1 up to
//! 65,535.
ghost use Rattle.std.specs.Prelude.{◌≡◌, ◌≤◌, true};
ghost use Rattle.pc_log.specs.Orders.{comes_next, no_token, token_after};
ghost use Rattle.pc_types.specs.Phases.{same_phase, next_phase, next_point};

use pc_types::{Entry, MOST_POINTS, Phase, Point};

/// The last token of a log's entries so far. It says which token may come next.
#[derive(Clone, Copy)]
pub struct LastToken {
    pub(crate) phase: Phase,
    pub(crate) point: Point,
}

impl LastToken {
    /// There is no token yet: the first cycle is about to begin.
    pub fn none() -> LastToken
        ensures { result ≡ no_token }
    {
        LastToken {
            phase: Phase::Rest,
            point: Point(0),
        }
    }

    // Whether a token of this phase and point comes next.
    pub(crate) fn is_before(self, phase: Phase, point: u32) -> bool
        ensures next { result ≡ comes_next self phase point }
        ensures limit { result ≡ true → point ≤ MOST_POINTS }
    {
        phase.is(phase_after(self.phase))
            && point == point_after(self.phase, self.point)
            && point <= u32::from(MOST_POINTS)
    }

    /// The last token once this entry is appended to the others.
    pub fn after(&self, entry: &Entry) -> LastToken
        ensures { result ≡ token_after self.now entry.now }
    {
        match entry {
            Entry::Commit(_, _) => *self,
            Entry::Token(phase, point) => LastToken {
                phase: *phase,
                point: *point,
            },
        }
    }
}

// The phase that follows in the cycles.
fn phase_after(phase: Phase) -> Phase
    ensures { result ≡ next_phase phase }
{
    match phase {
        Phase::Rest => Phase::Prepare,
        Phase::Prepare => Phase::Resolve,
        Phase::Resolve => Phase::Capture,
        Phase::Capture => Phase::Complete,
        Phase::Complete => Phase::Rest,
    }
}

// The point of the next token: a new one after rest.
fn point_after(phase: Phase, point: Point) -> u32
    ensures { result ≡ next_point phase point }
{
    match phase {
        Phase::Rest => u32::from(point.0) + 1,
        _ => u32::from(point.0),
    }
}
