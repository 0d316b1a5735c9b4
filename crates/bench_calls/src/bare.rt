//! A bare mutex that threads share.
use crate::options::Crowd;
use std::sync::{Mutex, Wait};
use std::thread::{self, Threads};

// The number of times that a transaction of one put gets the latch.
const LOCKS: u32 = 3;

// A thread's turns: each locks the mutex, adds 1 to what is under it, and unlocks it.
fn count_up<R: Wait>(rt: &R, mutex: &Mutex<u64>, turns: u32) {
    for _ in 0..turns {
        for _ in 0..LOCKS {
            let mut count = mutex.lock(rt);
            *count = count.wrapping_add(1);
        }
    }
}

/// As many turns of each thread as it would commit transactions; how often the mutex was locked.
pub fn lock_by_all<R: Threads + Wait + Sync>(rt: &R, crowd: &Crowd) -> u64 {
    let mutex = Mutex::new(0u64);
    let mut threads = [(); 64];
    let count = usize::from(crowd.threads);
    thread::for_each_mut(
        rt,
        &mut threads[..count],
        count,
        &|_, _| { count_up(rt, &mutex, crowd.commits) },
    );
    mutex.into_inner()
}
