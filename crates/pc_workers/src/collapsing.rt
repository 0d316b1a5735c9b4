//! A collapser's loop: it takes the files of points that were published, and joins them while the store is in use.
ghost use Rattle.std.specs.Prelude.{◌≡◌, ◌⊎◌, ◌≤◌, ◌<◌, ◌||◌, ℕ, suc, [], IfErr, IfOk, IfSome, IfNone, MatchOption, vec_capacity, vec_len};
ghost use Rattle.pc_model.specs.Calls.{IsBeginning};
ghost use Rattle.pc_model.specs.Replies.{IsLegalHistory};
ghost use Rattle.pc_model.specs.Sets as set;
ghost use Rattle.pc_board.specs.Calls.{greatest_of};
ghost use Rattle.pc_board.specs.Passes.{IsOfBoard};
ghost use Rattle.pc_latch.specs.Tickets.{IsNoTicket};
ghost use Rattle.pc_workers.specs.Boards.{HasClaimed};
ghost use Rattle.pc_workers.specs.Collapsing.{has_point, HasCollapsed, HasEnded, HasShown, CollapserHasStopped};

use crate::desk::Desk;
use pc_board::{Board, BoardPass};
use pc_shared::{PartTicket, Shared, Witness};
use pc_tie::StoreName;
use pc_types::{FileNo, Gate, GatePlace, Point, Refusal};
use std::sync::Wait;

/// A collapser's share of a run: its number, from 0, which it passes to the gate, and the number of points, from the first on,
/// whose files all collapsers take between them.
#[derive(Clone, Copy)]
pub struct CollapserShare {
    pub number: u8,
    pub points: u32,
}

// The file of the point after the number, once a look shows the point; none if the end had been marked before a look that doesn't
// show it. Between two looks it waits until the phase has changed: a point is published before the rest that ends its cycle.
fn await_file<N: StoreName, R: Wait>(
    rt: &R,
    shared: &Shared<N>,
    board: &Board,
    pass: &mut BoardPass,
    number: u64,
) -> Option<FileNo>
    requires { IsOfBoard pass.old board.now }
    ensures calls { HasClaimed pass.old pass.new [] }
    ensures some { IfSome result (λ file. (file ≡ suc number) × (number < greatest_of pass.new.seen)) }
    ensures none { IfNone result (greatest_of pass.new.seen ≤ number) }
{
    let mut seen = 0;
    for _ in rt.forever() {
        let has_ended = shared.end_mark().is_some();
        let Point(horizon) = board.horizon(pass);
        if number < u64::from(horizon) {
            return Some(FileNo(number as u32 + 1));
        }
        if has_ended {
            return None;
        }
        seen = shared.until_phase(rt, seen);
    }
    unreachable!()
}

// A ticket of the next number's file; none if no more files are taken.
fn next_ticket<N: StoreName, R: Wait>(
    rt: &R,
    shared: &Shared<N>,
    witness: &mut Witness<N>,
    board: &Board,
    pass: &mut BoardPass,
    points: u32,
) -> Result<Option<PartTicket<N>>, Refusal>
    requires { IsOfBoard pass.old board.now }
    ensures ticket { IfOk result (λ next. MatchOption next (HasEnded points pass.old pass.new) (λ ticket. (number : ℕ) × HasShown points pass.old pass.new number × (ticket.points ≡ set.insert set.empty (suc number)))) }
    ensures refused { IfErr result (λ why. (number : ℕ) × HasShown points pass.old pass.new number × IsLegalHistory N.name.setting witness.new × IsNoTicket N.name.setting witness.new (suc number) why) }
    ensures had_seen { IsBeginning witness.old witness.new }
{
    let Some(number) = board.claim(pass) else {
        return Ok(None);
    };
    if number >= u64::from(points) {
        return Ok(None);
    }
    let Some(file) = await_file(rt, shared, board, pass, number) else {
        return Ok(None);
    };
    match shared.take_shown(rt, witness, file) {
        Ok(ticket) => Ok(Some(ticket)),
        Err(why) => Err(why),
    }
}

// Adds the ticket to those that are held, for which there is room: joined to the last of them, if the join isn't refused.
fn take_in<N: StoreName, G: Gate>(
    held: &mut Vec<PartTicket<N>>,
    ticket: PartTicket<N>,
    collapser: u8,
    gate: &G,
)
    requires { vec_len held.old < vec_capacity held.old }
    ensures { (point : ℕ) → has_point held.new.items point ≡ (has_point held.old.items point || set.contains ticket.points point) }
{
    let Some(last) = held.pop() else {
        held.push_reserved(ticket);
        return;
    };
    gate.pass(GatePlace::Pair(collapser));
    match last.join(ticket) {
        Ok(joined) => held.push_reserved(joined),
        Err((_, last, ticket)) => {
            held.push_reserved(last);
            held.push_reserved(ticket);
        }
    }
}

/// Claims numbers with the pass, takes the file of the point after each once that is published, and joins it immediately to the
/// last ticket that it holds; before each join it passes the gate. It ends if a number isn't below the share's `points`, if the end
/// was marked before it looked and the number's point wasn't published, or if the pass can claim no more. It returns the tickets
/// that it holds: none, one, or more if a join was refused; together they have just the points after the claimed numbers but the
/// last. Its errors are `NoFile`, if the store that the witness has then seen has no file of the last number's point, and
/// `OutOfMemory`; the tickets that it held are then dropped.
pub fn collapse_loop<N: StoreName, R: Wait, G: Gate>(
    rt: &R,
    desk: &Desk<'_, N, G>,
    witness: &mut Witness<N>,
    board: &Board,
    pass: &mut BoardPass,
    share: CollapserShare,
) -> Result<Vec<PartTicket<N>>, Refusal>
    requires { IsOfBoard pass.old board.now }
    ensures held { IfOk result (λ tickets. HasCollapsed share.points pass.old pass.new tickets.items) }
    ensures refused { IfErr result (CollapserHasStopped N.name.setting share.points witness.new pass.old pass.new) }
    ensures named { IfErr result (λ why. (why ≡ Refusal.NoFile) ⊎ (why ≡ Refusal.OutOfMemory)) }
    ensures had_seen { IsBeginning witness.old witness.new }
{
    let mut held = Vec::new(desk.alloc);
    for _ in rt.forever() {
        held.reserve(1)?;
        match next_ticket(rt, desk.shared, witness, board, pass, share.points) {
            Ok(Some(ticket)) => take_in(&mut held, ticket, share.number, desk.gate),
            Ok(None) => return Ok(held),
            Err(why) => return Err(why),
        }
    }
    unreachable!()
}
