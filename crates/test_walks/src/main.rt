//! Recovers what stores write: the logs of random walks, cut at every place, with each choice of their parts, and compares
//! what is recovered with a slow replay. It prints how much was tried, and how much was recovered correctly.
#![tactic(auto)]

mod cuts;
mod texts;
mod walk;

use cuts::{Found, recover_cuts};
use pc_types::Refusal;
use std::alloc::Global;
use std::hash::RandomState;
use std::io;
use std::process::ExitCode;
use test_support::following;
use texts::texts_of;
use walk::walked;

// The number of walks.
const WALKS: u64 = 200;

// What was tried, and what came of it.
#[derive(Clone, Copy)]
struct Sum {
    entries: usize,
    parts: usize,
    cuts: u64,
    choices: u64,
    right: u64,
}

// What one walk wrote, and what was recovered of it.
#[derive(Clone, Copy)]
struct Told {
    entries: usize,
    parts: usize,
    found: Found,
}

fn main(rt: HostRuntime) -> ExitCode {
    match run_walks(&rt) {
        Ok(status) => ExitCode::from(status),
        Err(_) => ExitCode::from(1),
    }
}

// One walk after the other; all their stores hash keys under one seed. The status is 1 if an allocation failed, or the output
// or the draw of that seed failed.
fn run_walks(rt: &HostRuntime) -> io::Result<u8> {
    let hash_seed = RandomState::new(rt)?;
    let mut sum = Sum {
        entries: 0,
        parts: 0,
        cuts: 0,
        choices: 0,
        right: 0,
    };
    for walk in 0..WALKS {
        let seed = following(following(walk.wrapping_add(20_261_123)));
        match told_of(rt.alloc(), hash_seed, seed) {
            Ok(told) => {
                tell_wrong(rt, walk, told.found)?;
                sum = with(sum, told);
            }
            Err(why) => {
                eprintln!(rt; "test_walks: {}", why.name())?;
                return Ok(1);
            }
        }
    }
    tell(rt, sum)?;
    Ok(0)
}

fn told_of(alloc: Global, hash_seed: RandomState, seed: u64) -> Result<Told, Refusal> {
    let world = walked(alloc, hash_seed, seed)?;
    let texts = texts_of(alloc, &world)?;
    let found = recover_cuts(alloc, &world, &texts)?;
    Ok(Told {
        entries: texts.ends.len(),
        parts: texts.parts.len(),
        found,
    })
}

fn with(sum: Sum, told: Told) -> Sum {
    Sum {
        entries: sum.entries.saturating_add(told.entries),
        parts: sum.parts.saturating_add(told.parts),
        cuts: sum.cuts.saturating_add(told.found.cuts),
        choices: sum.choices.saturating_add(told.found.choices),
        right: sum.right.saturating_add(told.found.right),
    }
}

// Prints what was first not recovered correctly of a walk, if anything.
fn tell_wrong(rt: &HostRuntime, walk: u64, found: Found) -> io::Result<()> {
    match found.wrong {
        Some((length, choice)) => println!(rt;
            "wrong: walk {walk}, {length} bytes, choice {choice}"
        ),
        None => Ok(()),
    }
}

fn tell(rt: &HostRuntime, sum: Sum) -> io::Result<()> {
    println!(rt; "walks {WALKS}")?;
    println!(rt; "entries {}", sum.entries)?;
    println!(rt; "parts {}", sum.parts)?;
    println!(rt; "cuts {}", sum.cuts)?;
    println!(rt; "choices {}", sum.choices)?;
    println!(rt; "recovered right {}", sum.right)
}
