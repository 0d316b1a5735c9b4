//! The threads that run a workload on a store: a checkpointer and collapsers, each with a pass of one board, and workers.
ghost use Rattle.std.specs.Prelude.{◌≡◌, ◌+◌, ◌<◌, ◌≤◌, [], All, length, map, IfOk};
ghost use Rattle.pc_types.specs.declared.limits.TheConstants.{MOST_PASSES};
ghost use Rattle.pc_board.specs.Passes.{IsOfBoard};
ghost use Rattle.pc_threads.specs.Hands.{first_numbers};

use crate::clients::Worker;
use crate::points::Checkpointer;
use pc_board::{Board, BoardPass};
use pc_shared::CheckpointerSeat;
use pc_tie::StoreName;
use pc_types::Lsn;
use std::alloc::{AllocError, Global};

/// A board, and a pass of it.
#[derive(Drop)]
pub struct Seat<'a> {
    pub board: &'a Board,
    pub pass: BoardPass,
    ghost ours: { IsOfBoard pass board.now },
}

/// A collapser: its number, from 0, and its seat at the board.
#[derive(Drop)]
pub struct Collapser<'a> {
    pub number: u8,
    pub seat: Seat<'a>,
}

/// A checkpointer that has no seat at a board yet: its seat at the store; the number of transactions that commit from the begin of
/// one point to that of the next; and the folder for the files of points, if there is one.
#[derive(Drop)]
pub struct NewCheckpointer<N: StoreName, D> {
    pub at_store: CheckpointerSeat<N>,
    pub every: u32,
    pub folder: Option<D>,
}

/// The threads that run a workload: the checkpointer, workers with their clients, and collapsers.
#[derive(Drop)]
pub struct Hands<'a, N: StoreName, D> {
    pub checkpointer: Checkpointer<'a, N, D>,
    pub workers: Vec<Worker<N>>,
    pub collapsers: Vec<Collapser<'a>>,
}

// The collapsers, each with a pass of the board, numbered from 0.
fn seat_collapsers<'a>(
    alloc: Global,
    board: &'a Board,
    passes: Vec<BoardPass>,
) -> Result<Vec<Collapser<'a>>, AllocError>
    requires ours { All (λ pass. IsOfBoard pass board.now) passes.items }
    requires few { length passes.items ≤ MOST_PASSES }
    ensures all { IfOk result (λ collapsers. length collapsers.items ≡ length passes.items) }
    ensures numbers { IfOk result (λ collapsers. map (λ collapser. collapser.number) collapsers.items ≡ first_numbers (length collapsers.items)) }
{
    let mut collapsers = Vec::new(alloc);
    let mut number = 0u8;
    for pass in passes {
        let seat = Seat { board, pass };
        collapsers.push(Collapser { number, seat })?;
        number += 1;
    }
    Ok(collapsers)
}

/// The workers; a collapser for each pass but the last one, numbered from 0; and that pass for the checkpointer, which has taken no
/// point yet. Its only error is a failed allocation.
pub fn hands_of<'a, N: StoreName, D: Drop>(
    alloc: Global,
    board: &'a Board,
    passes: Vec<BoardPass>,
    workers: Vec<Worker<N>>,
    checkpointer: NewCheckpointer<N, D>,
) -> Result<Hands<'a, N, D>, AllocError>
    requires some { 0 < length passes.items }
    requires few { length passes.items ≤ MOST_PASSES }
    requires ours { All (λ pass. IsOfBoard pass board.now) passes.items }
    ensures workers { IfOk result (λ hands. hands.workers.items ≡ workers.items) }
    ensures folder { IfOk result (λ hands. (hands.checkpointer.folder ≡ checkpointer.folder) × (hands.checkpointer.written.items ≡ [])) }
    ensures seat { IfOk result (λ hands. hands.checkpointer.at_store ≡ checkpointer.at_store) }
    ensures collapsers { IfOk result (λ hands. length hands.collapsers.items + 1 ≡ length passes.items) }
    ensures numbers { IfOk result (λ hands. map (λ collapser. collapser.number) hands.collapsers.items ≡ first_numbers (length hands.collapsers.items)) }
{
    let mut passes = passes;
    let Some(pass) = passes.pop() else {
        unreachable!();
    };
    let NewCheckpointer {
        at_store,
        every,
        folder,
    } = checkpointer;
    let checkpointer = Checkpointer {
        at_store,
        at_board: Seat { board, pass },
        every,
        counted_from: Lsn(0),
        folder,
        written: Vec::new(alloc),
    };
    let collapsers = seat_collapsers(alloc, board, passes)?;
    Ok(Hands {
        checkpointer,
        workers,
        collapsers,
    })
}
