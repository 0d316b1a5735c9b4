//! The ends of the queue of a slot's requests.
ghost use Rattle.std.specs.Prelude.{◌≡◌};
ghost use Rattle.pc_slots.specs.Words.{end_at, chain_in, with_ends};

use crate::cells::Cell;
use pc_chain::Chain;

// The end, if there is one.
fn end_at(has_end: bool, end: usize) -> Option<usize>
    ensures { result ≡ end_at has_end end }
{
    if has_end { Some(end) } else { None }
}

/// The ends of the queue of the slot's requests, if it has any.
pub fn chain_in(cell: &Cell) -> Chain<usize>
    ensures { result ≡ chain_in cell.now }
{
    Chain::of_ends(
        end_at(cell.has_first, cell.first_request),
        end_at(cell.has_last, cell.last_request),
    )
}

/// Sets the ends of the queue of the slot's requests, and nothing else.
pub fn put_ends(cell: &mut Cell, ends: Chain<usize>)
    ensures chain { chain_in cell.new ≡ ends }
    ensures rest { cell.new ≡ with_ends cell.new cell.old }
{
    let (first, last) = ends.ends();
    cell.has_first = first.is_some();
    cell.has_last = last.is_some();
    cell.first_request = first.unwrap_or(0);
    cell.last_request = last.unwrap_or(0);
}
