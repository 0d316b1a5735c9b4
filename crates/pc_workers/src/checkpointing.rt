//! The checkpointer's loop: it takes points in order.
ghost use Rattle.std.specs.Prelude.{◌≡◌, ◌+◌, None, IfOk, IfErr, IfSome, OnErr};
ghost use Rattle.pc_types.specs.declared.Phase.TheVariants.{Rest, Capture};
ghost use Rattle.pc_types.specs.declared.Reply.TheVariants.{Refused};
ghost use Rattle.pc_model.specs.History.{phase_of, point_of};
ghost use Rattle.pc_board.specs.declared.calls.CallKind.TheVariants.{Publish};
ghost use Rattle.pc_board.specs.Passes.{IsOfBoard, MakesCall};
ghost use Rattle.pc_workers.specs.Checkpointing.{whole_cycle, whole_cycles, point_named, HasReached, HasStood, HasTurned, HasCycled, IsHeldUp, HasPublished, HasBrokenOff, IsFull, Shows};

use crate::desk::Desk;
use crate::pace::Pace;
use pc_board::{Board, BoardPass};
use pc_shared::{Advanced, CheckpointerSeat, Shared, Takes, TakesEnd, Witness, pause};
use pc_tie::StoreName;
use pc_types::{Gate, GatePlace, Phase, Point, Refusal, Reply};
use std::sync::Wait;

/// Why a checkpointer stopped, with a witness of the store's history then, or later.
#[derive(Drop)]
pub struct CheckpointFault<N: StoreName> {
    pub why: Refusal,
    pub seen: Witness<N>,
}

impl<N: StoreName> From<CheckpointFault<N>> for Refusal {
    ghost use Rattle.std.specs.Prelude.{◌≡◌};

    ghost from_gives = { λ stop why. why ≡ stop.why };

    fn from(stop: CheckpointFault<N>) -> Refusal {
        stop.why
    }
}

// The point of the phase that the reply names, if it names one; or the refusal.
fn told(reply: &Reply) -> Result<Option<Point>, Refusal>
    ensures named { IfOk result (λ named. named ≡ point_named reply.now) }
    ensures refused { IfErr result (λ why. reply.now ≡ Refused why) }
{
    match reply {
        Reply::Phase(_, point) => Ok(Some(*point)),
        Reply::PartDone(point, _, _) => Ok(Some(*point)),
        Reply::Refused(why) => Err(*why),
        _ => Ok(None),
    }
}

// Calls once with the event that ends the phase, and gives the point of the phase that the answer names, if it names one; otherwise
// transactions or keys are still in the way.
fn ask_phase<N: StoreName, R: Wait>(
    rt: &R,
    shared: &Shared<N>,
    seat: &mut CheckpointerSeat<N>,
) -> Result<Option<Point>, CheckpointFault<N>>
    ensures waited { IfOk result (λ named. named ≡ None → HasStood N.name.setting seat.old seat.new) }
    ensures turned { IfOk result (λ named. IfSome named (λ point. HasTurned N.name.setting seat.old seat.new × (point ≡ point_of seat.new))) }
    ensures held_up { IfErr result (λ stop. IsHeldUp N.name.setting seat.old seat.new stop.why) }
    ensures shown { IfErr result (λ stop. Shows N.name.setting seat.new stop.why stop.seen) }
{
    let Advanced { reply, seen } = shared.advance_shown(rt, seat);
    let told = told(&reply);
    drop(reply);
    match told {
        Ok(named) => Ok(named),
        Err(why) => Err(CheckpointFault { why, seen }),
    }
}

// Calls with the event that ends the phase until the answer names the next phase, and gives its point; while transactions or keys
// are in the way it waits until the count of changes differs from the one before the call.
fn change_phase<N: StoreName, R: Wait>(
    rt: &R,
    shared: &Shared<N>,
    seat: &mut CheckpointerSeat<N>,
) -> Result<Point, CheckpointFault<N>>
    ensures turned { IfOk result (λ _. HasTurned N.name.setting seat.old seat.new) }
    ensures point { IfOk result (λ point. point ≡ point_of seat.new) }
    ensures held_up { IfErr result (λ stop. IsHeldUp N.name.setting seat.old seat.new stop.why) }
    ensures shown { IfErr result (λ stop. Shows N.name.setting seat.new stop.why stop.seen) }
{
    let mut changes = 0;
    for _ in rt.forever() {
        let named = match ask_phase(rt, shared, seat) {
            Ok(named) => named,
            Err(stop) => return Err(stop),
        };
        if let Some(point) = named {
            return Ok(point);
        }
        changes = shared.until_changed(rt, changes);
    }
    unreachable!()
}

// Enters the phase, which is the next one.
fn enter<N: StoreName, R: Wait, G: Gate>(
    rt: &R,
    desk: &Desk<'_, N, G>,
    seat: &mut CheckpointerSeat<N>,
    phase: Phase,
) -> Result<Point, CheckpointFault<N>>
    ensures turned { IfOk result (λ _. HasTurned N.name.setting seat.old seat.new) }
    ensures point { IfOk result (λ point. point ≡ point_of seat.new) }
    ensures held_up { IfErr result (λ stop. IsHeldUp N.name.setting seat.old seat.new stop.why) }
    ensures shown { IfErr result (λ stop. Shows N.name.setting seat.new stop.why stop.seen) }
{
    desk.gate.pass(GatePlace::Due(phase));
    let point = match change_phase(rt, desk.shared, seat) {
        Ok(point) => point,
        Err(stop) => return Err(stop),
    };
    desk.gate.pass(GatePlace::Entered(phase));
    Ok(point)
}

// How often the checkpointer, when it rests, looks at most at the number of commits: in the pauses between these looks others are
// let run 2,047 times.
const MOST_LOOKS: u32 = 132;

// How often others are let run, at most, between two looks: once before the first, and before each further one twice as often as
// before the one before. On one processor each time may hand over a whole slice of time.
const LONGEST_PAUSE: u32 = 16;

// Rests after a turn, and lets others run meanwhile; then the next turn begins.
fn rest<N: StoreName, R: Wait>(rt: &R, shared: &Shared<N>, pace: &mut Pace) {
    let mut times = 1u32;
    for looks in 1..=MOST_LOOKS {
        pause(times);
        if pace.has_rested(shared.last_entry(rt).number, looks) {
            break;
        }
        times = times.saturating_mul(2).min(LONGEST_PAUSE);
    }
    pace.begin_turn(shared.last_entry(rt).number);
}

// The number of keys that are taken in one turn of the latch, at most: some 10 microseconds' work.
const BATCH: u32 = 32;

// Passes the gate once for each key that was taken.
fn pass_each<G: Gate>(gate: &G, keys: u32) {
    for _ in 0..keys {
        gate.pass(GatePlace::Took);
    }
}

// Takes keys of the point in one turn of the latch, and then passes the gate once for each; whether more may be left.
fn take_batch<N: StoreName, R: Wait, G: Gate>(
    rt: &R,
    desk: &Desk<'_, N, G>,
    seat: &mut CheckpointerSeat<N>,
) -> Result<bool, CheckpointFault<N>>
    requires { phase_of seat.old ≡ Capture }
    ensures stood { IfOk result (λ _. HasStood N.name.setting seat.old seat.new) }
    ensures held_up { IfErr result (λ stop. IsHeldUp N.name.setting seat.old seat.new stop.why) }
    ensures shown { IfErr result (λ stop. Shows N.name.setting seat.new stop.why stop.seen) }
{
    let Takes { keys, end } = desk.shared.take_keys(rt, seat, BATCH);
    pass_each(desk.gate, keys);
    match end {
        TakesEnd::Enough => Ok(true),
        TakesEnd::NoneLeft => Ok(false),
        TakesEnd::Refused(why) => {
            let seen = desk.shared.last_entry_since(rt, seat).seen;
            Err(CheckpointFault { why, seen })
        }
    }
}

// Takes the keys of the point, until none is left, and rests between turns of them.
fn take_keys<N: StoreName, R: Wait, G: Gate>(
    rt: &R,
    desk: &Desk<'_, N, G>,
    seat: &mut CheckpointerSeat<N>,
) -> Result<(), CheckpointFault<N>>
    requires { phase_of seat.old ≡ Capture }
    ensures stood { IfOk result (λ _. HasStood N.name.setting seat.old seat.new) }
    ensures held_up { IfErr result (λ stop. IsHeldUp N.name.setting seat.old seat.new stop.why) }
    ensures shown { IfErr result (λ stop. Shows N.name.setting seat.new stop.why stop.seen) }
{
    let mut pace = Pace::new(desk.shared.last_entry(rt).number);
    for _ in rt.forever() {
        match take_batch(rt, desk, seat) {
            Ok(true) => {}
            Ok(false) => return Ok(()),
            Err(stop) => return Err(stop),
        }
        if pace.take(BATCH) {
            rest(rt, desk.shared, &mut pace);
        }
    }
    unreachable!()
}

// Ends the capture, and publishes the point once its part is on the shelf.
fn complete<N: StoreName, R: Wait, G: Gate>(
    rt: &R,
    desk: &Desk<'_, N, G>,
    seat: &mut CheckpointerSeat<N>,
    board: &Board,
    pass: &mut BoardPass,
) -> Result<(), CheckpointFault<N>>
    requires { IsOfBoard pass.old board.now }
    ensures turned { IfOk result (λ _. HasTurned N.name.setting seat.old seat.new) }
    ensures published { IfOk result (λ _. MakesCall pass.old Publish (point_of seat.new) pass.new) }
    ensures held_up { IfErr result (λ stop. IsHeldUp N.name.setting seat.old seat.new stop.why) }
    ensures shown { IfErr result (λ stop. Shows N.name.setting seat.new stop.why stop.seen) }
    ensures same { OnErr result (pass.new ≡ pass.old) }
{
    let point = match enter(rt, desk, seat, Phase::Complete) {
        Ok(point) => point,
        Err(stop) => return Err(stop),
    };
    board.publish(pass, point);
    Ok(())
}

// Takes one point: a whole cycle, from rest to rest, in which the point is published.
fn take_point<N: StoreName, R: Wait, G: Gate>(
    rt: &R,
    desk: &Desk<'_, N, G>,
    seat: &mut CheckpointerSeat<N>,
    board: &Board,
    pass: &mut BoardPass,
) -> Result<(), CheckpointFault<N>>
    requires board { IsOfBoard pass.old board.now }
    requires rest { phase_of seat.old ≡ Rest }
    ensures reached { IfOk result (λ _. HasReached N.name.setting (whole_cycle (point_of seat.old + 1)) Rest (point_of seat.old + 1) seat.old seat.new) }
    ensures published { IfOk result (λ _. HasPublished (whole_cycle (point_of seat.old + 1)) pass.old pass.new) }
    ensures broken_off { IfErr result (λ stop. HasBrokenOff N.name.setting (whole_cycle (point_of seat.old + 1)) seat.old seat.new pass.old pass.new stop.why) }
    ensures shown { IfErr result (λ stop. Shows N.name.setting seat.new stop.why stop.seen) }
    ensures full { IfErr result (λ stop. IsFull N.name.setting seat.new stop.seen (point_of seat.old + 1) stop.why) }
{
    enter(rt, desk, seat, Phase::Prepare)?;
    enter(rt, desk, seat, Phase::Resolve)?;
    enter(rt, desk, seat, Phase::Capture)?;
    take_keys(rt, desk, seat)?;
    complete(rt, desk, seat, board, pass)?;
    enter(rt, desk, seat, Phase::Rest)?;
    Ok(())
}

/// Takes the given number of points, in order, and returns their number. The phase is rest at first, and the checkpointer's calls
/// then make up that many whole cycles; by the rules of the store each of them takes all keys of its point. It passes the gate
/// before and after each change of the phase, and after each key. It publishes each point with the pass once its part is on the
/// shelf, before it calls for the rest that ends the point's cycle; it makes no other call on the board. The first refusal ends it:
/// one that the store may answer, after some legal history with all that the checkpointer has seen, to the event that ends the
/// phase or to a take: `OutOfMemory`, `LogFull`, `ShelfFull` if the shelf has 65,536 files in the history that the checkpointer has
/// seen, or `PointsFull` if more than 65,535 points are due. It comes with a witness of the store's legal history then, or later,
/// which extends the one that the checkpointer has seen: `LogFull` is returned only if its log has 16,777,216 entries. All that was
/// put on the shelf until then was published. Each point that it takes puts one file on the shelf.
pub fn checkpoint_loop<N: StoreName, R: Wait, G: Gate>(
    rt: &R,
    desk: &Desk<'_, N, G>,
    seat: &mut CheckpointerSeat<N>,
    board: &Board,
    pass: &mut BoardPass,
    points: u32,
) -> Result<u32, CheckpointFault<N>>
    requires board { IsOfBoard pass.old board.now }
    requires rest { phase_of seat.old ≡ Rest }
    ensures points { IfOk result (λ n. n ≡ points) }
    ensures cycled { IfOk result (λ n. HasCycled N.name.setting n seat.old seat.new) }
    ensures published { IfOk result (λ n. HasPublished (whole_cycles (point_of seat.old) n) pass.old pass.new) }
    ensures broken_off { IfErr result (λ stop. HasBrokenOff N.name.setting (whole_cycles (point_of seat.old) points) seat.old seat.new pass.old pass.new stop.why) }
    ensures shown { IfErr result (λ stop. Shows N.name.setting seat.new stop.why stop.seen) }
    ensures full { IfErr result (λ stop. IsFull N.name.setting seat.new stop.seen (point_of seat.old + points) stop.why) }
{
    for _ in 0..points {
        take_point(rt, desk, seat, board, pass)?;
    }
    Ok(points)
}
