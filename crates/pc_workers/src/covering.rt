//! The points that the files of tickets have.
ghost use Rattle.std.specs.Prelude.{◌≡◌, ◌≤◌, ◌&&◌, nat_le, length, IfOk, IfErr};
ghost use Rattle.pc_model.specs.Sets as set;
ghost use Rattle.pc_model.specs.Replies.{IsLegalHistory};
ghost use Rattle.pc_part.specs.Parts.{covers};
ghost use Rattle.pc_latch.specs.Cycles.{points_done};
ghost use Rattle.pc_workers.specs.Collapsing.{has_point};
ghost use Rattle.pc_workers.specs.Covering.{HaveOnlyTo, HaveJustTo};

use pc_part::{Part, Range};
use pc_shared::{CheckpointerSeat, PartTicket, Shared};
use pc_tie::StoreName;
use pc_types::{FileNo, Refusal};
use std::sync::Wait;

// Whether the point is in the range.
fn is_within(range: &Range, point: u32) -> bool
    ensures { result ≡ (nat_le range.now.low point && nat_le point range.now.high) }
{
    u32::from(range.low.0) <= point && point <= u32::from(range.high.0)
}

// Whether one of the ranges has the point.
fn is_in_some(ranges: &[Range], point: u32) -> bool
    ensures { result ≡ covers ranges.now point }
{
    ranges.iter().any(|range| is_within(range, point))
}

// Whether the part has the point.
fn covers(part: &Part, point: u32) -> bool
    ensures { result ≡ set.contains part.now.points point }
{
    let own = part.ranges();
    is_in_some(own, point)
}

// Whether one of the tickets' files has the point.
fn has_point<N: StoreName>(tickets: &[PartTicket<N>], point: u32) -> bool
    ensures { result ≡ has_point tickets.now point }
{
    tickets.iter().any(|ticket| covers(ticket.part(), point))
}

/// The tickets, whose files have no points but those from 1 to `points`, followed by one of each such point that none of them has.
/// The checkpointer has seen a legal history in which that many points' parts were put on the shelf. Its only error is
/// `OutOfMemory`; the tickets are then dropped.
pub fn with_missing_points<N: StoreName, R: Wait>(
    rt: &R,
    shared: &Shared<N>,
    seat: &mut CheckpointerSeat<N>,
    held: Vec<PartTicket<N>>,
    points: u32,
) -> Result<Vec<PartTicket<N>>, Refusal>
    requires only { HaveOnlyTo points held.items }
    requires legal { IsLegalHistory N.name.setting seat.old }
    requires done { points ≤ length (points_done seat.old) }
    ensures same { seat.new ≡ seat.old }
    ensures covering { IfOk result (λ tickets. HaveJustTo points tickets.items) }
    ensures memory { IfErr result (λ why. why ≡ Refusal.OutOfMemory) }
{
    let mut tickets = held;
    for others in 0..points {
        let point = others + 1;
        if !has_point(&tickets, point) {
            tickets.push(shared.take_part(rt, seat, FileNo(point))?)?;
        }
    }
    Ok(tickets)
}
