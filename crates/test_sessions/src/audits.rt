//! The tickets' files compared with the log.
use crate::writers::Desk;
use pc_part::Part;
use pc_replay::{CompleteFile, audit};
use pc_shared::{CheckpointerSeat, Closed, PartTicket};
use pc_tie::StoreName;
use pc_types::{FileNo, Refusal, Triple};
use std::alloc::Global;
use std::sync::Wait;

/// A ticket of each point's file, and one of the join of them all.
pub fn take_parts<N: StoreName, R: Wait>(
    desk: &Desk<N, R>,
    seat: &mut CheckpointerSeat<N>,
    points: u32,
) -> Result<Vec<PartTicket<N>>, Refusal> {
    let Desk { rt, alloc, shared } = *desk;
    let mut tickets = Vec::new(alloc);
    if points == 0 {
        return Ok(tickets);
    }
    let mut joined = shared.take_part(rt, seat, FileNo(1))?;
    tickets.push(shared.take_part(rt, seat, FileNo(1))?)?;
    for number in 2..=points {
        tickets.push(shared.take_part(rt, seat, FileNo(number))?)?;
        let next = shared.take_part(rt, seat, FileNo(number))?;
        joined = join_tickets(joined, next)?;
    }
    tickets.push(joined)?;
    Ok(tickets)
}

fn join_tickets<N: StoreName>(
    a: PartTicket<N>,
    b: PartTicket<N>,
) -> Result<PartTicket<N>, Refusal> {
    a.join(b).map_err(|(why, _a, _b)| why)
}

/// How many of the tickets' files are of all points from the first on, if each of these is correct by the log.
pub fn right_files<N: StoreName>(
    alloc: Global,
    closed: &Closed<N>,
) -> Result<Option<usize>, Refusal> {
    let mut files = Vec::new(alloc);
    for ticket in &closed.parts {
        if let Some(file) = complete_file(alloc, ticket.part())? {
            files.push(file)?;
        }
    }
    let log = closed.log().entries(alloc)?;
    let is_right = audit(alloc, closed.base().pairs(), &log, &files)?;
    Ok(is_right.then_some(files.len()))
}

fn complete_file(alloc: Global, part: &Part) -> Result<Option<CompleteFile>, Refusal> {
    let Some(point) = part.complete_to() else {
        return Ok(None);
    };
    let mut triples: Vec<Triple> = Vec::new(alloc);
    for triple in part.entries() {
        triples.push(triple.copy(alloc)?)?;
    }
    Ok(Some(CompleteFile { point, triples }))
}
