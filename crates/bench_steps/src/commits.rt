//! Commits of one write each, with and without concurrent checkpoints.
ghost use Rattle.std.specs.Prelude.{◌≡◌, ◌<◌, ◌≤◌, ◌^◌, ◌+◌, true, false, IfOk};
ghost use Rattle.bench_steps.specs.Commits.{events_of};

use crate::amounts::Rounds;
use crate::failure::BenchFailure;
use crate::pairs::scattered;
use crate::stepped::{SESSION, ask, step, write};
use pc_bases::Base;
use pc_engine::World;
use pc_types::{Event, Refusal, Reply};
use std::alloc::Global;
use std::hash::RandomState;
use std::rt::Clock;
use std::time::{Duration, Instant};

/// The next event of a checkpointer.
#[derive(Clone, Copy)]
pub enum NextStage {
    /// That a cycle begins.
    Point,
    /// The point of consistency.
    Seal,
    /// That the capture opens.
    Capture,
    /// A key of the point.
    Take,
    /// That the point's part goes on the shelf.
    Done,
    /// That the cycle ends.
    Rest,
}

/// The outcomes of a checkpointer's events.
#[derive(Clone, Copy)]
pub struct CycleProgress {
    pub next: NextStage,
    /// The number of cycles that came to rest.
    pub points: u32,
    /// The number of captured keys.
    pub taken: u32,
    /// The number of changes of the phase put off.
    pub delays: u32,
}

/// The outcome of commits.
#[derive(Clone, Copy)]
pub struct Committed {
    /// The number of transactions committed.
    pub committed: u32,
    /// The checkpointer's progress meanwhile.
    pub asked: CycleProgress,
    /// The time that all of it took.
    pub time: Duration,
}

/// Commits the given number of transactions of one write each, over keys that go round, in a store that has room for just
/// these keys. If points are asked for, the checkpointer asks one event after each commit, each cycle right after the one
/// before, and every event is either one that took a key, one that was put off, or one of a cycle's six others. Otherwise
/// none is asked.
pub fn measure_commits(
    alloc: Global,
    clock: &impl Clock,
    seed: RandomState,
    rounds: Rounds,
) -> Result<Committed, BenchFailure>
    ensures committed { IfOk result (λ done. done.committed ≡ rounds.commits) }
    ensures points { rounds.has_points ≡ true → IfOk result (λ done. events_of done.asked ≡ rounds.commits) }
    ensures none { rounds.has_points ≡ false → IfOk result (λ done. events_of done.asked ≡ 0) }
{
    let mut world = World::new(alloc, Base::start(1, Vec::new(alloc)), 1, rounds.keys, seed)?;
    commit_timed(alloc, clock, &mut world, rounds)
}

// The same in a store that is there.
fn commit_timed(
    alloc: Global,
    clock: &impl Clock,
    world: &mut World,
    rounds: Rounds,
) -> Result<Committed, BenchFailure>
    ensures committed { IfOk result (λ done. done.committed ≡ rounds.commits) }
    ensures points { rounds.has_points ≡ true → IfOk result (λ done. events_of done.asked ≡ rounds.commits) }
    ensures none { rounds.has_points ≡ false → IfOk result (λ done. events_of done.asked ≡ 0) }
{
    let start = Instant::now(clock)?;
    let (committed, asked) = commit_all(alloc, world, rounds)?;
    let time = start.elapsed(clock)?;
    Ok(Committed {
        committed,
        asked,
        time,
    })
}

// Commits the transactions, and counts them and what was asked.
fn commit_all(
    alloc: Global,
    world: &mut World,
    rounds: Rounds,
) -> Result<(u32, CycleProgress), Refusal>
    ensures committed { IfOk result (λ done. done.0 ≡ rounds.commits) }
    ensures points { rounds.has_points ≡ true → IfOk result (λ done. events_of done.1 ≡ rounds.commits) }
    ensures none { rounds.has_points ≡ false → IfOk result (λ done. events_of done.1 ≡ 0) }
{
    let mut committed = 0;
    let mut asked = none_asked();
    for number in 0..rounds.commits {
        commit_one(alloc, world, number % rounds.keys, rounds.is_adding)?;
        committed += 1;
        asked = ask_beside(world, asked, rounds.has_points)?;
    }
    Ok((committed, asked))
}

// A checkpointer that asked nothing yet.
fn none_asked() -> CycleProgress
    ensures { events_of result ≡ 0 }
{
    CycleProgress {
        next: NextStage::Point,
        points: 0,
        taken: 0,
        delays: 0,
    }
}

// One transaction, which writes the key of this number, by a put or by an add.
fn commit_one(
    alloc: Global,
    world: &mut World,
    number: u32,
    is_adding: bool,
) -> Result<(), Refusal> {
    step(world, &Event::Begin(SESSION))?;
    write(alloc, world, scattered(number), is_adding)?;
    match ask(world, &Event::Commit(SESSION))? {
        Reply::Committed(_) => Ok(()),
        _ => Err(Refusal::MustAbort),
    }
}

// Asks the next event if points are asked for.
fn ask_beside(
    world: &mut World,
    asked: CycleProgress,
    has_points: bool,
) -> Result<CycleProgress, Refusal>
    requires room { events_of asked + 1 < 2 ^ 32 }
    ensures points { has_points ≡ true → IfOk result (λ now. events_of now ≡ events_of asked + 1) }
    ensures none { has_points ≡ false → IfOk result (λ now. events_of now ≡ events_of asked) }
    ensures most { IfOk result (λ now. events_of now ≤ events_of asked + 1) }
{
    if has_points {
        ask_next(world, asked)
    } else {
        Ok(asked)
    }
}

// Asks the next event.
fn ask_next(world: &mut World, asked: CycleProgress) -> Result<CycleProgress, Refusal>
    requires room { events_of asked + 1 < 2 ^ 32 }
    ensures { IfOk result (λ now. events_of now ≡ events_of asked + 1) }
{
    let reply = ask(world, &event_at(asked.next))?;
    Ok(match reply {
        Reply::Took(_, _) => with_taken(asked),
        Reply::NotYet(_) => with_delay(asked),
        _ => with_change(asked),
    })
}

// The event of this stage.
fn event_at(stage: NextStage) -> Event {
    match stage {
        NextStage::Point => Event::StartPoint,
        NextStage::Seal => Event::Seal,
        NextStage::Capture => Event::OpenCapture,
        NextStage::Take => Event::Take,
        NextStage::Done => Event::Done,
        NextStage::Rest => Event::Rest,
    }
}

// Once a key was taken.
fn with_taken(asked: CycleProgress) -> CycleProgress
    requires room { events_of asked + 1 < 2 ^ 32 }
    ensures { events_of result ≡ events_of asked + 1 }
{
    CycleProgress {
        taken: asked.taken + 1,
        ..asked
    }
}

// Once a change was put off.
fn with_delay(asked: CycleProgress) -> CycleProgress
    requires room { events_of asked + 1 < 2 ^ 32 }
    ensures { events_of result ≡ events_of asked + 1 }
{
    CycleProgress {
        delays: asked.delays + 1,
        ..asked
    }
}

// Once the phase was changed, or no key was left.
fn with_change(asked: CycleProgress) -> CycleProgress
    requires room { events_of asked + 1 < 2 ^ 32 }
    ensures { events_of result ≡ events_of asked + 1 }
{
    let mut now = asked;
    match asked.next {
        NextStage::Point => now.next = NextStage::Seal,
        NextStage::Seal => now.next = NextStage::Capture,
        NextStage::Capture => now.next = NextStage::Take,
        NextStage::Take => now.next = NextStage::Done,
        NextStage::Done => now.next = NextStage::Rest,
        NextStage::Rest => {
            now.next = NextStage::Point;
            now.points += 1;
        }
    }
    now
}
