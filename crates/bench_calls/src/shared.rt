//! Threads that commit transactions of one write each, in a store that they share.
ghost use Rattle.std.specs.Prelude.{◌≡◌, ◌≤◌};

use crate::options::Crowd;
use bench_steps::{key_of, pair_of, scattered};
use pc_bases::Base;
use pc_shared::{Opened, Session, Shared};
use pc_tie::StoreName;
use pc_types::{MOST_KEYS, Refusal};
use std::alloc::Global;
use std::hash::RandomState;
use std::sync::Wait;
use std::sync::atomic::{AtomicU64, Ordering};
use std::thread::{self, Threads};

/// The number of keys that all threads have together.
pub fn capacity_of(crowd: &Crowd) -> u32
    ensures { (1 ≤ result) × (result ≤ MOST_KEYS) }
{
    let keys = u32::from(crowd.threads).saturating_mul(crowd.keys);
    keys.min(MOST_KEYS).max(1)
}

/// A store with a session for each thread, and room for just the keys of all.
pub fn open(alloc: Global, seed: RandomState, crowd: &Crowd) -> Result<Opened, Refusal> {
    let base = Base::start(1, Vec::new(alloc));
    Opened::new(alloc, base, crowd.threads, capacity_of(crowd), seed)
}

// One transaction, which puts the pair of this number, or adds 1 to its key.
fn commit_one<N: StoreName, R: Wait>(
    rt: &R,
    alloc: Global,
    shared: &Shared<N>,
    session: &mut Session<N>,
    number: u32,
    is_adding: bool,
) -> Result<(), Refusal> {
    shared.begin(rt, session)?;
    if is_adding {
        let key = key_of(alloc, scattered(number))?;
        shared.add(rt, session, key, 1)?;
    } else {
        let (key, value) = pair_of(alloc, scattered(number))?;
        shared.put(rt, session, key, value)?;
    }
    shared.commit(rt, session)?;
    Ok(())
}

// A thread's transactions, until one is refused; how many were committed.
fn commit_all<N: StoreName, R: Wait>(
    rt: &R,
    alloc: Global,
    shared: &Shared<N>,
    session: &mut Session<N>,
    crowd: &Crowd,
) -> u64 {
    let first = session.number().0.wrapping_mul(crowd.keys);
    let mut commits = 0u64;
    for count in 0..crowd.commits {
        let number = first.wrapping_add(count % crowd.keys);
        if commit_one(rt, alloc, shared, session, number, crowd.is_adding).is_err() {
            return commits;
        }
        commits = commits.saturating_add(1);
    }
    commits
}

// As many as a store may have sessions.
const MOST_THREADS: usize = 64;

// All threads' transactions; how many were committed.
fn commit_by_all<N: StoreName + Send + Sync, R: Threads + Wait + Sync>(
    rt: &R,
    alloc: Global,
    shared: &Shared<N>,
    sessions: &mut [Session<N>],
    crowd: &Crowd,
) -> u64 {
    let commits = AtomicU64::new(0);
    thread::for_each_mut(
        rt,
        sessions,
        MOST_THREADS,
        &|_, session| {
            let done = commit_all(rt, alloc, shared, session, crowd);
            commits.fetch_add(done, Ordering::SeqCst);
        },
    );
    commits.load(Ordering::SeqCst)
}

/// The transactions of all threads, in the store from its opening on; how many were committed.
pub fn share<N: StoreName + Send + Sync, R: Threads + Wait + Sync>(
    rt: &R,
    alloc: Global,
    opened: Opened,
    crowd: &Crowd,
) -> Result<u64, Refusal>
    requires { opened ≡ N.name }
{
    let (shared, mut sessions, _seat, _pass) = opened.named::<N>()?;
    Ok(commit_by_all(rt, alloc, &shared, &mut sessions, crowd))
}
