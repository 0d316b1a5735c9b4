//! Measures calls of the libraries: each sub-command does a given amount of work, and prints the outcome.
#![tactic(auto)]

mod bare;
mod calls;
mod floor;
mod options;
mod runs;
mod shared;

use bench_steps::BenchFailure;
use options::{Options, USAGE, Work, options_of};
use runs::{run_calls, run_commits, run_floor, run_mutex, run_points, run_shared};
use std::env;
use std::process::ExitCode;
use std::sync::Wait;
use std::thread::Threads;

fn main(rt: HostRuntime) -> ExitCode {
    match run_command(&rt, &rt) {
        Ok(status) => ExitCode::from(status),
        Err(_) => ExitCode::from(1),
    }
}

fn run_command<H: Threads + Wait + Sync>(
    rt: &HostRuntime,
    threads: &H,
) -> Result<u8, BenchFailure> {
    let texts = arguments(rt)?;
    let mut words: Vec<&str> = Vec::new(rt.alloc());
    for text in &texts {
        words.push(text.as_str())?;
    }
    match options_of(&words) {
        Some(options) => run_work(rt, threads, &options),
        None => {
            eprintln!(rt; "{USAGE}")?;
            Ok(2)
        }
    }
}

fn arguments(rt: &HostRuntime) -> Result<Vec<String>, BenchFailure> {
    let mut texts = Vec::new(rt.alloc());
    for text in env::args(rt)? {
        texts.push(text)?;
    }
    Ok(texts)
}

// Does the work and prints the outcome. The status is 1 if a call was refused.
fn run_work<H: Threads + Wait + Sync>(
    rt: &HostRuntime,
    threads: &H,
    options: &Options,
) -> Result<u8, BenchFailure> {
    match measure(rt, threads, options) {
        Ok(()) => Ok(0),
        Err(BenchFailure::System) => Ok(1),
        Err(BenchFailure::Refused(why)) => {
            eprintln!(rt; "bench_calls: {why}")?;
            Ok(1)
        }
    }
}

fn measure<H: Threads + Wait + Sync>(
    rt: &HostRuntime,
    threads: &H,
    options: &Options,
) -> Result<(), BenchFailure> {
    let is_timed = options.is_timed;
    match options.work {
        Work::Points(cycles) => run_points(rt, cycles, is_timed),
        Work::Commits(rounds) => run_commits(rt, rounds, is_timed),
        Work::Shared(crowd) => run_shared(rt, threads, &crowd, is_timed),
        Work::Mutex(crowd) => run_mutex(rt, threads, &crowd, is_timed),
        Work::Floor(crowd) => run_floor(rt, threads, &crowd, is_timed),
        Work::Calls(crowd) => run_calls(rt, threads, &crowd, is_timed),
    }
}
