//! The word of a store.
ghost use Rattle.std.specs.Prelude.{◌≡◌, [], IfOk, IfErr};

use crate::keeper::{Dealer, deal_first};
use crate::name::StoreName;
use crate::noted::NotedStep;
use crate::rule::OneHistory;
use crate::seats::CheckpointerSeat;
use crate::sight::Sight;
use crate::start::Start;
use atomic_table::{Seat, Table};
use pc_types::Refusal;
use std::alloc::Global;
use std::marker::{Model, PhantomData};

/// A word of no store yet, and its first seat. Contracts see the name that it can be given.
#[derive(Drop)]
pub struct Untied {
    table: Table<NotedStep, Sight, Start, OneHistory, Global>,
    seat: Seat<NotedStep, Sight>,
}

impl Model for Untied {
    ghost use Rattle.std.specs.Prelude.{◌≡◌, []};
    ghost use Rattle.std.specs.Coded.{codes};
    ghost use Rattle.pc_model.specs.Database.{database_code};
    ghost use Rattle.pc_tie.specs.declared.sight.Sight.TheVariants.{Whole};
    ghost use Rattle.pc_tie.specs.Seats.{Name};

    ghost Value = { Name };

    ghost coded = { Prim.hlevel (codes, database_code) };

    ghost view = { λ u. record { table = u.table.shared.table_id; setting = u.table.shared.key } };

    ghost invariant = { λ u. (u.table.shared.table_id.words ≡ 1) × (u.seat.table_id ≡ u.table.shared.table_id) × (u.seat.me ≡ (Whole [] 0 [], [])) };
}

impl Untied {
    /// A new word for a store that starts so. Refuses with `OutOfMemory` alone.
    pub fn new(alloc: Global, start: &Start) -> Result<Untied, Refusal>
        ensures setting { IfOk result (λ u. u.setting ≡ start.now) }
        ensures memory { IfErr result (λ e. e ≡ Refusal.OutOfMemory) }
    {
        let (table, seat) = Table::of_words(alloc, &[0], start)?;
        Ok(Untied { table, seat })
    }

    /// The word under its name, the checkpointer's seat, which has seen nothing, and who deals the others.
    pub fn named<N: StoreName>(self) -> (Tie<N>, CheckpointerSeat<N>, Dealer<N>)
        requires { self ≡ N.name }
        ensures checkpointer { result.1 ≡ [] }
        ensures dealer { result.2 ≡ 0 }
    {
        let Untied { table, seat } = self;
        let tie = Tie {
            table,
            name: PhantomData,
        };
        let (checkpointer, dealer) = deal_first(&tie, seat);
        (tie, checkpointer, dealer)
    }
}

/// The word of a store, by which each seat at it knows the one history of the store, or a prefix of it.
#[derive(Drop)]
pub struct Tie<N: StoreName> {
    pub(crate) table: Table<NotedStep, Sight, Start, OneHistory, Global>,
    name: PhantomData<N>,
    pub(crate) ghost named: { table.shared.table_id ≡ N.name.table },
    pub(crate) ghost one: { table.shared.table_id.words ≡ 1 },
    pub(crate) ghost key: { table.shared.key ≡ N.name.setting },
}
