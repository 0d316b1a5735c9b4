//! Chains over a vector of links.
ghost use Rattle.std.specs.Prelude.{◌≡◌, ◌≢◌, ◌<◌, ◌≤◌, ℕ, None, IfOk, slice_index_or, vec_len};

use pc_chain::{Chain, Links, Stack};
use std::alloc::{AllocError, Global};
use std::test::Fail;

// A link for each number below its length.
#[derive(Drop)]
struct RowOfLinks {
    links: Vec<Option<usize>>,
}

// Its one word of links.
struct ByRowOfLinks;

impl Links<ByRowOfLinks> for RowOfLinks {
    ghost use Rattle.std.specs.Prelude.{◌<◌, ⊤, None, slice_index_or, vec_len};

    type Id = usize;

    ghost has = { λ row id. id < vec_len row.links };

    ghost next_of = { λ row id. slice_index_or row.links.items id None };

    ghost beside = { λ a b. ⊤ };

    fn next(&self, id: usize) -> Option<usize> {
        self.links[id]
    }

    fn set_next(&mut self, id: usize, next: Option<usize>)
        requires { id < vec_len self.old.links }
        ensures set { slice_index_or self.new.links.items id None ≡ next }
        ensures others { (other : ℕ) → other ≢ id → slice_index_or self.new.links.items other None ≡ slice_index_or self.old.links.items other None }
        ensures has { (other : ℕ) → other < vec_len self.old.links → other < vec_len self.new.links }
    {
        self.links[id] = next;
    }

    ghost beside_same = { λ a. tt };

    ghost beside_then = { λ a b c p q. tt };
}

// A row of links to none.
fn unlinked(alloc: Global, len: usize) -> Result<RowOfLinks, AllocError>
    ensures { IfOk result (λ row. vec_len row.links ≡ len) }
{
    Ok(RowOfLinks {
        links: vec![in alloc; None; len]?,
    })
}

// What two chains over one row give: the id after 0 of the chain 0, 2; and what is taken from the front of that chain, three times,
// once 2 was added again.
fn used(row: &mut RowOfLinks) -> (Option<usize>, [Option<usize>; 3])
    requires { 3 ≤ vec_len row.old.links }
{
    let mut evens = Chain::new();
    let mut odds = Chain::new();
    evens.push_back(row, 0);
    odds.push_back(row, 1);
    evens.push_back(row, 2);
    let behind = evens.unlink_after(row, Some(0));
    evens.push_back(row, 2);
    let first = evens.pop_front(row);
    let second = evens.pop_front(row);
    let third = evens.pop_front(row);
    (behind, [first, second, third])
}

#[test]
fn two_chains_over_one_row(rt: HostRuntime) -> Result<(), Fail> {
    let mut row = unlinked(rt.alloc(), 3)?;
    let (behind, taken) = used(&mut row);
    assert_eq!(rt; behind, Some(2));
    assert_eq!(rt; taken, [Some(0), Some(2), None]);
    Ok(())
}

// The first id of a stack that 0, 1 and 2 came into: immediately, once 1 has left and with it the id after 2, and once 2 has left.
fn stacked(row: &mut RowOfLinks) -> [Option<usize>; 4]
    requires { 3 ≤ vec_len row.old.links }
{
    let mut stack = Stack::new();
    stack.push_front(row, 0);
    stack.push_front(row, 1);
    stack.push_front(row, 2);
    let top = stack.first(&*row);
    stack.unlink(row, 1);
    let left = stack.first(&*row);
    let behind = row.next(2);
    stack.unlink(row, 2);
    [top, left, behind, stack.first(&*row)]
}

#[test]
fn a_stack_over_a_row(rt: HostRuntime) -> Result<(), Fail> {
    let mut row = unlinked(rt.alloc(), 3)?;
    assert_eq!(rt; stacked(&mut row), [Some(2), Some(2), Some(0), Some(0)]);
    Ok(())
}
