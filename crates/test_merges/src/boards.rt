//! The board: claims and points of two passes, of all passes, and by two threads.
ghost use Rattle.pc_board.specs.Passes.{IsOfBoard};

use pc_board::{Board, BoardPass, BoardTotals};
use pc_types::{MOST_PASSES, Point, Refusal};
use std::alloc::Global;
use std::test::*;
use std::thread::{Threads, join};

// Two passes on one thread: claims count together, and a lesser point leaves the horizon.
#[test]
fn two_passes(rt: HostRuntime) -> Result<(), Fail> {
    let (board, mut passes) = Board::new(rt.alloc(), 2)?;
    let mut second = passes.pop().ok_or("no second pass")?;
    let mut first = passes.pop().ok_or("no first pass")?;
    assert!(rt; board.claim(&mut first) == Some(0));
    assert!(rt; board.claim(&mut second) == Some(1));
    board.publish(&mut first, Point(3));
    assert!(rt; board.horizon(&mut second) == Point(3));
    board.publish(&mut second, Point(2));
    assert!(rt; board.horizon(&mut first) == Point(3));
    passes.push(first)?;
    passes.push(second)?;
    let totals = board.close(passes);
    assert!(rt;
        totals
            == BoardTotals {
                claims: 2,
                horizon: Point(3)
            }
    );
    Ok(())
}

// As many passes as there may be, of which one makes calls, up to the last point.
#[test]
fn most_passes(rt: HostRuntime) -> Result<(), Fail> {
    let (board, mut passes) = Board::new(rt.alloc(), MOST_PASSES)?;
    assert!(rt; passes.len() == 65);
    let mut last = passes.pop().ok_or("no pass")?;
    assert!(rt; board.claim(&mut last) == Some(0));
    board.publish(&mut last, Point(65_535));
    let totals = board.close(passes);
    assert!(rt;
        totals
            == BoardTotals {
                claims: 1,
                horizon: Point(65_535)
            }
    );
    Ok(())
}

// The numbers of a thousand claims by one pass.
fn numbers(alloc: Global, board: &Board, mut pass: BoardPass) -> Result<Vec<u64>, Refusal>
    requires { IsOfBoard pass board.now }
{
    let mut numbers = Vec::new(alloc);
    for _ in 0..1000 {
        if let Some(number) = board.claim(&mut pass) {
            numbers.push(number)?;
        }
    }
    Ok(numbers)
}

// What two threads claimed concurrently, in order.
fn claims_beside<R: Threads + Sync>(
    rt: &R,
    alloc: Global,
    board: &Board,
    first: BoardPass,
    second: BoardPass,
) -> Result<Vec<u64>, Refusal>
    requires first { IsOfBoard first board.now }
    requires second { IsOfBoard second board.now }
{
    let (ours, theirs) = join(
        rt,
        move ||
            requires { IsOfBoard first board.now }
        { numbers(alloc, board, first) },
        move ||
            requires { IsOfBoard second board.now }
        { numbers(alloc, board, second) },
    );
    let mut all = ours?;
    all.extend_from_slice(theirs?.as_slice())?;
    all.sort()?;
    Ok(all)
}

// No number is claimed twice, none is left out, and the board counts them all.
#[test]
fn two_threads(rt: HostRuntime) -> Result<(), Fail> {
    let (board, mut passes) = Board::new(rt.alloc(), 2)?;
    let second = passes.pop().ok_or("no second pass")?;
    let first = passes.pop().ok_or("no first pass")?;
    let all = claims_beside(&rt, rt.alloc(), &board, first, second)?;
    let totals = board.close(passes);
    assert!(rt;
        totals
            == BoardTotals {
                claims: 2000,
                horizon: Point(0)
            }
    );
    for (place, number) in all.iter().enumerate() {
        assert!(rt; *number == place as u64);
    }
    assert!(rt; all.len() == 2000);
    Ok(())
}
