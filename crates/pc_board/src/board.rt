//! The board and its passes.
ghost use Rattle.std.specs.Prelude.{◌≡◌, ◌≤◌, ◌↔◌, All, IfErr, IfOk, IfNone, IfSome, IsNone};
ghost use Rattle.pc_board.specs.declared.calls.CallKind.TheVariants.{Claim, Publish, Look};
ghost use Rattle.pc_board.specs.Calls.{NoneAbove};
ghost use Rattle.pc_board.specs.Passes.{IsOfBoard, IsSamePass, MakesCall, IsBoardEnd, new_passes, claims_made};

use crate::rule::{
    CLAIM_COUNT, ClaimStep, DealPass, HORIZON, HandIn, LookStep, OneCallHistory, PublishStep,
};
use crate::sight::PassSight;
use atomic_table::{Seat, Table};
use pc_types::{MOST_CLAIMS, MOST_PASSES, Point, Refusal};
use std::alloc::Global;
use std::marker::Model;

/// A board, on which threads claim numbers and publish points. Each call is made with a pass of the board, and is one atomic
/// step, which takes no memory and no handle to wait with.
#[derive(Drop)]
pub struct Board {
    table: Table<(), PassSight, u8, OneCallHistory, Global>,
}

impl Model for Board {
    ghost use Rattle.std.specs.Prelude.{◌≡◌};
    ghost use Rattle.pc_board.specs.Passes.{Board};

    ghost Value = { Board };

    ghost view = { λ a. record { name = a.table.shared.table_id; passes = a.table.shared.key } };

    ghost invariant = { λ a. (a.table.shared.table_id.words ≡ 2) × (a.table.shared.table_id.slots ≡ 0) };
}

/// The right to make calls on a board, for one thread at a time. Contracts see the number of the pass and the calls that it
/// has seen: all calls of the board up to its own last one.
#[derive(Drop)]
pub struct BoardPass {
    claims: u32,
    seat: Seat<(), PassSight>,
}

impl Model for BoardPass {
    ghost use Rattle.std.specs.Prelude.{◌≡◌, []};
    ghost use Rattle.pc_board.specs.declared.sight.PassSight.TheVariants.{Holder};
    ghost use Rattle.pc_board.specs.Calls.{calls_by, claims_of};
    ghost use Rattle.pc_board.specs.Passes.{Pass};
    ghost use Rattle.pc_board.specs.Rules.{pass_number, seen_of};

    ghost Value = { Pass };

    ghost view = { λ a. record { board = a.seat.table_id; number = pass_number a.seat.me.0; seen = seen_of a.seat.me.0 } };

    ghost invariant = { λ a. (a.seat.me ≡ (Holder (pass_number a.seat.me.0) (seen_of a.seat.me.0), [])) × (a.claims ≡ claims_of (calls_by (pass_number a.seat.me.0) (seen_of a.seat.me.0))) };
}

/// The final totals of a board.
#[derive(Clone, Copy, Debug, PartialEq, Eq)]
pub struct BoardTotals {
    /// The number of numbers claimed: those from 0 to one below it.
    pub claims: u64,
    /// The greatest point that was published, from 1 to 65,535; 0 if none was.
    pub horizon: Point,
}

impl Board {
    /// A board on which nothing was claimed or published, and its passes, numbered from 0, which have seen nothing. There are
    /// 1 to 65 of them. Refuses with `OutOfMemory` alone.
    pub fn new(alloc: Global, passes: u8) -> Result<(Board, Vec<BoardPass>), Refusal>
        requires { (1 ≤ passes) × (passes ≤ MOST_PASSES) }
        ensures board { IfOk result (λ made. made.0.passes ≡ passes) }
        ensures passes { IfOk result (λ made. made.1.items ≡ new_passes made.0.name passes) }
        ensures ours { IfOk result (λ made. All (λ pass. IsOfBoard pass made.0) made.1.items) }
        ensures memory { IfErr result (λ e. e ≡ Refusal.OutOfMemory) }
    {
        let mut all = Vec::with_capacity(alloc, usize::from(passes))?;
        let (table, mut dealer) = Table::of_words(alloc, &[0, 0], &passes)?;
        for _ in 0..passes {
            let seat = table.shared.split_seat::<DealPass>(&mut dealer);
            all.push_reserved(BoardPass { claims: 0, seat });
        }
        Ok((Board { table }, all))
    }

    /// The next number that no pass has claimed, from 0. `None` if and only if this pass has made 4,294,967,295 claims; then
    /// it makes no step, and what it has seen stays.
    pub fn claim(&self, pass: &mut BoardPass) -> Option<u64>
        requires { IsOfBoard pass.old self.now }
        ensures pass { IsSamePass pass.old pass.new }
        ensures limit { IsNone result ↔ (claims_made pass.old ≡ MOST_CLAIMS) }
        ensures none { IfNone result (pass.new ≡ pass.old) }
        ensures some { IfSome result (λ number. MakesCall pass.old Claim number pass.new) }
    {
        if pass.claims == MOST_CLAIMS {
            return None;
        }
        let number = self
            .table
            .shared
            .fetch_add::<ClaimStep>(&mut pass.seat, CLAIM_COUNT, 1);
        pass.claims += 1;
        Some(number)
    }

    /// Publishes the point: from now on no horizon is less.
    pub fn publish(&self, pass: &mut BoardPass, point: Point)
        requires { IsOfBoard pass.old self.now }
        ensures { MakesCall pass.old Publish point pass.new }
    {
        let Point(number) = point;
        let _found = self
            .table
            .shared
            .fetch_max::<PublishStep>(&mut pass.seat, HORIZON, u64::from(number));
    }

    /// The greatest point that any pass has published, 0 if none has. It is no less than each point that this pass has
    /// published or has seen published.
    pub fn horizon(&self, pass: &mut BoardPass) -> Point
        requires { IsOfBoard pass.old self.now }
        ensures call { MakesCall pass.old Look result pass.new }
        ensures seen { NoneAbove pass.old.seen result }
    {
        let found = self.table.shared.load::<LookStep>(&mut pass.seat, HORIZON);
        Point(found as u16)
    }

    /// Ends the board; returns how many numbers were claimed, and the greatest point that was published. The passes handed in
    /// are of this board; what each of them has seen is a prefix of the one history that this is read off.
    pub fn close(self, passes: Vec<BoardPass>) -> BoardTotals
        requires { All (λ pass. IsOfBoard pass self) passes.items }
        ensures { IsBoardEnd self result.claims result.horizon passes.items }
    {
        let Board { table } = self;
        let (_, mut closer) = table.shared.load_new_seat::<HandIn>(CLAIM_COUNT);
        for pass in passes {
            let BoardPass { claims: _, seat } = pass;
            table.shared.join_seat::<HandIn>(&mut closer, seat);
        }
        let closed = table.close_with(closer);
        let claims = closed.word(CLAIM_COUNT);
        let horizon = closed.word(HORIZON);
        closed.free();
        BoardTotals {
            claims,
            horizon: Point(horizon as u16),
        }
    }
}
