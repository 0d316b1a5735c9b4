//! Tests: the table of changes, whole cycles, and the last point.
use pc_phase::{Change, Held, Phases};
use pc_types::{Class, Phase, Point};
use std::test::Fail;

// The changes of a cycle, in order.
const CYCLE: [Change; 5] = [
    Change::StartPoint,
    Change::Seal,
    Change::OpenCapture,
    Change::Done,
    Change::Rest,
];

// A transaction begins, if one more may be active; returns its class.
fn begun(phases: &mut Phases) -> Option<Class> {
    let before = phases.active(Class::Before);
    let during = phases.active(Class::During);
    let after = phases.active(Class::After);
    if before == u32::MAX || during == u32::MAX || after == u32::MAX {
        return None;
    }
    Some(phases.enter())
}

// The given number of changes after the start. If it is busy, a transaction has begun in the phase, and one in the
// phase before.
fn standing(changes: usize, busy: bool) -> Phases {
    let mut phases = Phases::new();
    for (done, change) in CYCLE.iter().enumerate() {
        if busy && done <= changes && changes <= done + 1 {
            begun(&mut phases);
        }
        if done < changes {
            let _ = phases.advance(*change, 0);
        }
    }
    phases
}

// The outcome of the change after the given number of changes. If it is busy, one key is left to take.
fn outcome(changes: usize, busy: bool, change: Change) -> Result<Phase, Held> {
    let mut phases = standing(changes, busy);
    let left = u32::from(busy);
    if let Some(held) = phases.held_back(change, left) {
        return Err(held);
    }
    phases.advance(change, left)?;
    Ok(phases.phase())
}

// What comes of each change.
fn outcomes(changes: usize, busy: bool) -> [Result<Phase, Held>; 5] {
    [
        outcome(changes, busy, Change::StartPoint),
        outcome(changes, busy, Change::Seal),
        outcome(changes, busy, Change::OpenCapture),
        outcome(changes, busy, Change::Done),
        outcome(changes, busy, Change::Rest),
    ]
}

const WRONG: Result<Phase, Held> = Err(Held::WrongPhase);

const LATER: Result<Phase, Held> = Err(Held::NotYet(1));

// Each phase, and what comes of each change in it if no transaction is active and no key left, and if one of each class
// that may be active is, and one key left.
const TABLE: [(Phase, [Result<Phase, Held>; 5], [Result<Phase, Held>; 5]); 5] = [
    (
        Phase::Rest,
        [Ok(Phase::Prepare), WRONG, WRONG, WRONG, WRONG],
        [Ok(Phase::Prepare), WRONG, WRONG, WRONG, WRONG],
    ),
    (
        Phase::Prepare,
        [WRONG, Ok(Phase::Resolve), WRONG, WRONG, WRONG],
        [WRONG, LATER, WRONG, WRONG, WRONG],
    ),
    (
        Phase::Resolve,
        [WRONG, WRONG, Ok(Phase::Capture), WRONG, WRONG],
        [WRONG, WRONG, LATER, WRONG, WRONG],
    ),
    (
        Phase::Capture,
        [WRONG, WRONG, WRONG, Ok(Phase::Complete), WRONG],
        [WRONG, WRONG, WRONG, LATER, WRONG],
    ),
    (
        Phase::Complete,
        [WRONG, WRONG, WRONG, WRONG, Ok(Phase::Rest)],
        [WRONG, WRONG, WRONG, WRONG, LATER],
    ),
];

#[test]
fn table_of_changes(rt: HostRuntime) -> Result<(), Fail> {
    for (changes, (phase, idle, busy)) in TABLE.iter().enumerate() {
        assert_eq!(rt; standing(changes, true).phase(), *phase);
        assert_eq!(rt; outcomes(changes, false), *idle, "after {changes} changes");
        assert_eq!(rt; outcomes(changes, true), *busy, "after {changes} changes");
    }
    Ok(())
}

// Goes once round the cycle, and returns the point of each phase on the way.
fn cycled(phases: &mut Phases) -> Result<[u16; 5], Held> {
    let mut points = [0; 5];
    for (place, change) in CYCLE.iter().enumerate() {
        phases.advance(*change, 0)?;
        points[place] = phases.point().0;
    }
    Ok(points)
}

// Each cycle has the next point, from 1 to 65,535; then no cycle begins.
#[test]
fn cycles_up_to_the_last_point(rt: HostRuntime) -> Result<(), Fail> {
    let mut phases = Phases::new();
    assert_eq!(rt; phases.point(), Point(0));
    for point in 1..=65_535u16 {
        assert_eq!(rt; cycled(&mut phases), Ok([point; 5]));
        assert_eq!(rt; phases.phase(), Phase::Rest);
    }
    assert_eq!(rt;
        phases.advance(Change::StartPoint, 0),
        Err(Held::PointsFull)
    );
    assert_eq!(rt; phases.advance(Change::Seal, 0), Err(Held::WrongPhase));
    assert_eq!(rt; phases.phase(), Phase::Rest);
    assert_eq!(rt; phases.point(), Point(65_535));
    Ok(())
}
