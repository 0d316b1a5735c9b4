//! How the points of a run are spread over its transactions.
ghost use Rattle.std.specs.Prelude.{◌≡◌, ◌-◌, ◌^◌, min};
ghost use Rattle.std.specs.List.{sum_by};
ghost use Rattle.pc_runs.specs.Pace.{transaction_count, every_of, most_in};

use pc_jobs::{Client, ClientTask};
use pc_types::Items;

// The number of the work's transactions.
fn count_of(work: &ClientTask) -> u32
    ensures { result ≡ transaction_count work.now }
{
    match work {
        ClientTask::Once(_) => 1,
        ClientTask::Fill(fill) => fill.count,
    }
}

// The number of the works' transactions, up to the greatest number of 32 bits.
fn transactions_in(works: &[ClientTask]) -> u32
    ensures { result ≡ min (sum_by transaction_count works.now) (2 ^ 32 - 1) }
{
    let mut count = 0u32;
    for work in works {
        count = count.saturating_add(count_of(work));
    }
    count
}

// The number of the clients' transactions, up to the same limit.
fn transactions_of(clients: &[Client]) -> u32
    ensures { result ≡ min (sum_by most_in clients.now) (2 ^ 32 - 1) }
{
    let mut count = 0u32;
    for client in clients {
        count = count.saturating_add(transactions_in(client.works.as_slice()));
    }
    count
}

/// The number of transactions that commit between two points: `asked`, or those of the clients divided by the points.
pub fn every_of(asked: Option<u32>, points: u32, clients: &Items<Client>) -> u32
    ensures { result ≡ every_of asked points clients.now }
{
    match asked {
        Some(every) => every,
        None => transactions_of(clients.as_slice()) / points.max(1),
    }
}
