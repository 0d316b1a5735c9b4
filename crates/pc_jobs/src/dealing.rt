//! The clients of a workload are dealt to workers.
ghost use Rattle.std.specs.Prelude.{◌≡◌, ◌≤◌, ◌<◌, ◌++◌, [], ◌∷◌, length, replicate, slice_index_or, slice_set, IfOk, OnOk};
ghost use Rattle.pc_jobs.specs.Dealing.{IsDealt};

use crate::works::Client;
use pc_types::Items;
use std::alloc::{AllocError, Global};

// The given number of workers without clients.
fn idle_workers(alloc: Global, count: u8) -> Result<Vec<Items<Client>>, AllocError>
    ensures { IfOk result (λ workers. workers.items ≡ replicate count []) }
{
    let mut workers = Vec::new(alloc);
    for _ in 0..count {
        workers.push(Items::new(alloc))?;
    }
    Ok(workers)
}

// The worker gets the client, after those that it has.
fn give(workers: &mut Vec<Items<Client>>, worker: usize, client: Client) -> Result<(), AllocError>
    requires { worker < length workers.old.items }
    ensures { OnOk result (workers.new.items ≡ slice_set workers.old.items worker (slice_index_or workers.old.items worker [] ++ client ∷ [])) }
{
    workers[worker].push(client)
}

/// Deals the clients to the given number of workers, in turn: the first client to the first worker, and the next one to the
/// next, until all workers have had their turn and it is the first one's again. It fails only if an allocation fails.
pub fn deal(
    alloc: Global,
    workers: u8,
    clients: Items<Client>,
) -> Result<Vec<Items<Client>>, AllocError>
    requires { 1 ≤ workers }
    ensures { IfOk result (λ all. IsDealt workers clients all.items) }
{
    let mut all = idle_workers(alloc, workers)?;
    let mut place = 0u64;
    for client in clients.into_vec() {
        let worker = (place % u64::from(workers)) as usize;
        give(&mut all, worker, client)?;
        place += 1;
    }
    Ok(all)
}
