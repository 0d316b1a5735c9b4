//! Asks stores for crowds of sessions at one key, for keys that come and go, and for a long random walk, and prints how
//! often each kind of reply was given, with sums over them.
#![tactic(auto)]

mod asker;
mod crowds;
mod fresh;
mod walk;

use crowds::{Crowd, sums_of_crowd, sums_one_by_one};
use fresh::sums_of_fresh_keys;
use pc_types::Refusal;
use std::hash::RandomState;
use std::io;
use std::process::ExitCode;
use test_support::{Sums, tell};
use walk::sums_of_walk;

// From the oldest on, from the youngest on, and in two mixed orders.
const STRIDES: [u32; 4] = [1, 63, 27, 45];

// The status is 1 if memory, the output or the draw of a seed failed.
fn main(rt: HostRuntime) -> ExitCode {
    match run(&rt) {
        Ok(()) => ExitCode::from(0),
        Err(_) => ExitCode::from(1),
    }
}

// All stores hash their keys under one seed.
fn run(rt: &HostRuntime) -> io::Result<()> {
    let seed = RandomState::new(rt)?;
    tell_or_fail(rt, "one by one", sums_one_by_one(rt.alloc(), seed))?;
    run_crowds(rt, seed)?;
    tell_or_fail(
        rt,
        "keys that come and go",
        sums_of_fresh_keys(rt.alloc(), seed),
    )?;
    tell_or_fail(rt, "a long walk", sums_of_walk(rt.alloc(), seed))
}

fn run_crowds(rt: &HostRuntime, seed: RandomState) -> io::Result<()> {
    for stride in STRIDES {
        run_crowd(rt, seed, stride, false)?;
        run_crowd(rt, seed, stride, true)?;
    }
    Ok(())
}

fn run_crowd(rt: &HostRuntime, seed: RandomState, stride: u32, is_reading: bool) -> io::Result<()> {
    let most = if is_reading { "read" } else { "write" };
    let name = format!(in rt.alloc(); "in steps of {stride}, most {most}")?;
    let crowd = Crowd { stride, is_reading };
    tell_or_fail(rt, name.as_str(), sums_of_crowd(rt.alloc(), seed, crowd))
}

fn tell_or_fail(rt: &HostRuntime, name: &str, sums: Result<Sums, Refusal>) -> io::Result<()> {
    match sums {
        Ok(sums) => tell(rt, name, &sums),
        Err(_) => Err(io::ErrorKind::Other.into()),
    }
}
