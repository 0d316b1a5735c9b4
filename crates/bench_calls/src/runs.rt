//! Each sub-command's work, and what it prints.
use crate::bare::lock_by_all;
use crate::calls::{Calls, Timed, call_by_one};
use crate::floor::{fill_bare, world_of};
use crate::options::Crowd;
use crate::shared::{open, share};
use bench_steps::{
    BenchFailure, Committed, Cycles, Rounds, TimedCycle, measure_commits, measure_points,
};
use std::hash::RandomState;
use std::io;
use std::marker::Brand;
use std::sync::Wait;
use std::thread::Threads;
use std::time::{Duration, Instant};

/// Goes through cycles, and prints for each how many keys were taken.
pub fn run_points(rt: &HostRuntime, cycles: Cycles, is_timed: bool) -> Result<(), BenchFailure> {
    let done = measure_points(rt.alloc(), rt, RandomState::new(rt)?, cycles)?;
    tell_points(rt, &done, is_timed)?;
    Ok(())
}

fn tell_points(rt: &HostRuntime, done: &[TimedCycle], is_timed: bool) -> io::Result<()> {
    for (i, cycle) in done.iter().enumerate() {
        print!(rt; "point {} taken {}", i + 1, cycle.taken)?;
        if is_timed {
            print!(rt; " seal_ns {}", cycle.sealing.as_nanos())?;
            print!(rt; " take_us {}", cycle.taking.as_micros())?;
            print!(rt; " done_us {}", cycle.finishing.as_micros())?;
        }
        println!(rt; "")?;
    }
    Ok(())
}

/// Commits transactions of one write each, and reports how many, with the points and the keys taken meanwhile.
pub fn run_commits(rt: &HostRuntime, rounds: Rounds, is_timed: bool) -> Result<(), BenchFailure> {
    let seed = RandomState::new(rt)?;
    match measure_commits(rt.alloc(), rt, seed, rounds) {
        Ok(done) => Ok(tell_commits(rt, &done, is_timed)?),
        Err(why) => Err(why),
    }
}

fn tell_commits(rt: &HostRuntime, done: &Committed, is_timed: bool) -> io::Result<()> {
    println!(rt; "committed {}", done.committed)?;
    println!(rt; "points {}", done.asked.points)?;
    println!(rt; "taken {}", done.asked.taken)?;
    if is_timed {
        println!(rt; "commit_us {}", done.time.as_micros())?;
    }
    Ok(())
}

/// Locks a bare mutex by threads, and prints how often.
pub fn run_mutex<H: Threads + Wait + Sync>(
    rt: &HostRuntime,
    threads: &H,
    crowd: &Crowd,
    is_timed: bool,
) -> Result<(), BenchFailure> {
    let start = Instant::now(rt)?;
    let locks = lock_by_all(threads, crowd);
    let time = start.elapsed(rt)?;
    println!(rt; "locked {locks}")?;
    tell_time(rt, time, is_timed)?;
    Ok(())
}

/// Commits transactions by threads that share a store, and prints how many.
pub fn run_shared<H: Threads + Wait + Sync>(
    rt: &HostRuntime,
    threads: &H,
    crowd: &Crowd,
    is_timed: bool,
) -> Result<(), BenchFailure> {
    let opened = open(rt.alloc(), RandomState::new(rt)?, crowd)?;
    let start = Instant::now(rt)?;
    let commits = share::<Brand, _>(threads, rt.alloc(), opened, crowd)?;
    let time = start.elapsed(rt)?;
    tell_committed(rt, commits, time, is_timed)?;
    Ok(())
}

/// Fills a store under a bare mutex by threads, and prints how many transactions were committed.
pub fn run_floor<H: Threads + Wait + Sync>(
    rt: &HostRuntime,
    threads: &H,
    crowd: &Crowd,
    is_timed: bool,
) -> Result<(), BenchFailure> {
    let world = world_of(rt.alloc(), RandomState::new(rt)?, crowd)?;
    let start = Instant::now(rt)?;
    let commits = fill_bare(threads, rt.alloc(), world, crowd);
    let time = start.elapsed(rt)?;
    tell_committed(rt, commits, time, is_timed)?;
    Ok(())
}

/// Makes the calls of a shared store by one thread, and prints how many of each.
pub fn run_calls<H: Threads + Wait + Sync>(
    rt: &HostRuntime,
    threads: &H,
    crowd: &Crowd,
    is_timed: bool,
) -> Result<(), BenchFailure> {
    let opened = open(rt.alloc(), RandomState::new(rt)?, crowd)?;
    let calls = call_by_one::<Brand, _>(threads, rt, opened, crowd)?;
    tell_calls(rt, &calls, is_timed)?;
    Ok(())
}

fn tell_committed(
    rt: &HostRuntime,
    commits: u64,
    time: Duration,
    is_timed: bool,
) -> io::Result<()> {
    println!(rt; "committed {commits}")?;
    tell_time(rt, time, is_timed)
}

fn tell_time(rt: &HostRuntime, time: Duration, is_timed: bool) -> io::Result<()> {
    if is_timed {
        println!(rt; "us {}", time.as_micros())?;
    }
    Ok(())
}

fn tell_calls(rt: &HostRuntime, calls: &Calls, is_timed: bool) -> io::Result<()> {
    tell_call(rt, "begin", calls.begin, is_timed)?;
    tell_call(rt, "put", calls.put, is_timed)?;
    tell_call(rt, "commit", calls.commit, is_timed)?;
    tell_call(rt, "advance", calls.advance, is_timed)?;
    tell_call(rt, "take", calls.take, is_timed)?;
    tell_call(rt, "take_part", calls.take_part, is_timed)?;
    tell_call(rt, "log_next", calls.log_next, is_timed)
}

// A call's count, its mean and its longest time in nanoseconds.
fn tell_call(rt: &HostRuntime, name: &str, timed: Timed, is_timed: bool) -> io::Result<()> {
    print!(rt; "{name} {}", timed.count)?;
    if is_timed {
        let mean = timed.whole / u128::from(timed.count.max(1));
        print!(rt; " mean_ns {mean} longest_ns {}", timed.longest)?;
    }
    println!(rt; "")?;
    Ok(())
}
