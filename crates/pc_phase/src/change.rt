//! The changes of a cycle: from which phase to which, and what holds them back.
ghost use Rattle.std.specs.Prelude.{◌≡◌, ◌≤◌, ◌<◌};
ghost use Rattle.pc_phase.specs.Phases.{from_of, to_of, lacks_point, point_after};

use pc_types::{MOST_POINTS, Phase, Point};

/// A change of the phase.
#[derive(Clone, Copy, Debug, PartialEq, Eq)]
pub enum Change {
    /// A cycle begins: from rest to prepare of the next point.
    StartPoint,
    /// The point of consistency: from prepare to resolve, once no transaction of the class Before is active.
    Seal,
    /// From resolve to capture, once none of the class During is active.
    OpenCapture,
    /// From capture to complete, once no key of the point is left to take.
    Done,
    /// The cycle ends: from complete to rest, once none of the class After is active.
    Rest,
}

/// The obstacle to a change.
#[derive(Clone, Copy, Debug, PartialEq, Eq)]
pub enum Held {
    /// The change begins in another phase.
    WrongPhase,
    /// The last point was taken, and there is no next one.
    PointsFull,
    /// The number of transactions still active, or, at Done, of keys left to take; never 0.
    NotYet(u32),
}

impl Change {
    // The phase in which it is allowed.
    pub(crate) fn from_phase(self) -> Phase
        ensures { result ≡ from_of self }
    {
        match self {
            Change::StartPoint => Phase::Rest,
            Change::Seal => Phase::Prepare,
            Change::OpenCapture => Phase::Resolve,
            Change::Done => Phase::Capture,
            Change::Rest => Phase::Complete,
        }
    }

    // The phase to which it leads.
    pub(crate) fn to_phase(self) -> Phase
        ensures { result ≡ to_of self }
    {
        match self {
            Change::StartPoint => Phase::Prepare,
            Change::Seal => Phase::Resolve,
            Change::OpenCapture => Phase::Capture,
            Change::Done => Phase::Complete,
            Change::Rest => Phase::Rest,
        }
    }

    // Whether it begins a point and there is none after this one.
    pub(crate) fn lacks_point(self, point: Point) -> bool
        ensures { result ≡ lacks_point self point }
    {
        match self {
            Change::StartPoint => point.0 == MOST_POINTS,
            _ => false,
        }
    }

    // The point after it: the next one if it begins a point.
    pub(crate) fn point_after(self, point: Point) -> Point
        requires { point_after self point ≤ MOST_POINTS }
        ensures { result ≡ point_after self point }
    {
        match self {
            Change::StartPoint => Point(point.0 + 1),
            _ => point,
        }
    }
}
