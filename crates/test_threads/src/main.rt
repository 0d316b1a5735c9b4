//! Sessions on threads of their own over one store, with a concurrent checkpointer, collapser and logger: first an example of the
//! library, and then meetings, in which some wait at gates until others have come to theirs. It prints what each of them leaves,
//! which is the same in every run.
#![tactic(auto)]

mod gate;
mod meeting;
mod plans;
mod signs;

use meeting::{Left, meet};
use pc_bases::Base;
use pc_shared::Opened;
use pc_types::{MOST_SESSIONS, Refusal};
use plans::{PLANS, Plan};
use std::alloc::Global;
use std::hash::RandomState;
use std::io::{self, Write};
use std::marker::Brand;
use std::process::ExitCode;
use std::sync::Wait;
use std::thread::Threads;
use test_sessions::{Example, use_store};

// The number of keys that a store has room for.
const CAPACITY: u32 = 8192;

// The number of sessions that the example has.
const EXAMPLE_SESSIONS: u8 = 2;

// The status is 1 if memory, the output or the draw of a seed failed, or in a meeting threads missed one another, a job was given up
// or the logger left something, after which no more meetings are run.
fn main(rt: HostRuntime) -> ExitCode {
    match run(&rt, &rt) {
        Ok(()) => ExitCode::from(0),
        Err(_) => ExitCode::from(1),
    }
}

fn run<H: Threads + Wait + Sync>(rt: &HostRuntime, threads: &H) -> io::Result<()> {
    let seed = RandomState::new(rt)?;
    match run_example(threads, rt.alloc(), seed) {
        Ok(left) => tell_example(rt, &left)?,
        Err(why) => tell_refusal(rt, "example", why)?,
    }
    run_meetings(rt, threads, seed)
}

fn run_example<H: Threads + Wait + Sync>(
    threads: &H,
    alloc: Global,
    seed: RandomState,
) -> Result<Example, Refusal> {
    let opened = open(alloc, EXAMPLE_SESSIONS, seed)?;
    use_store::<Brand, _>(threads, alloc, opened)
}

fn run_meetings<H: Threads + Wait + Sync>(
    rt: &HostRuntime,
    threads: &H,
    seed: RandomState,
) -> io::Result<()> {
    for plan in PLANS {
        match meet_by(threads, rt.alloc(), seed, &plan) {
            Ok(left) => {
                tell(rt, plan.name, &left)?;
                if !left.went_on() {
                    return Err(io::ErrorKind::Other.into());
                }
            }
            Err(why) => tell_refusal(rt, plan.name, why)?,
        }
    }
    Ok(())
}

fn meet_by<H: Threads + Wait + Sync>(
    threads: &H,
    alloc: Global,
    seed: RandomState,
    plan: &Plan,
) -> Result<Left, Refusal> {
    let opened = open(alloc, plan.sessions(), seed)?;
    meet::<Brand, _>(threads, alloc, opened, plan)
}

// An empty store. All hash their keys under one seed.
fn open(alloc: Global, sessions: u8, seed: RandomState) -> Result<Opened, Refusal> {
    if sessions == 0 || MOST_SESSIONS < sessions {
        return Err(Refusal::NoSession);
    }
    let base = Base::start(1, Vec::new(alloc));
    Opened::new(alloc, base, sessions, CAPACITY, seed)
}

fn tell_example(rt: &HostRuntime, left: &Example) -> io::Result<()> {
    let text = format!(in rt.alloc();
        "example: commits {}, receipts {}, entries {}, parts {}, complete to {}, all {}, logged {}\n",
        left.commits,
        left.receipts,
        left.entries,
        left.parts,
        left.complete_to,
        left.all,
        left.is_logged
    )?;
    io::writer(rt).write_all(text.as_bytes())
}

fn tell(rt: &HostRuntime, name: &str, left: &Left) -> io::Result<()> {
    let text = format!(in rt.alloc();
        "{name}: met {}, commits {}, given up {}, receipts {}, reads {}, adds {}, entries {}, tokens {}, logged {}, all {}, written {}, exact {}, right files {:?}\n",
        left.have_met,
        left.commits,
        left.given_up,
        left.receipts,
        left.reads,
        left.adds,
        left.entries,
        left.tokens,
        left.logged,
        left.all,
        left.is_written,
        left.are_exact,
        left.right_files
    )?;
    io::writer(rt).write_all(text.as_bytes())
}

fn tell_refusal(rt: &HostRuntime, name: &str, why: Refusal) -> io::Result<()> {
    let text = format!(in rt.alloc(); "{name}: refused {}\n", why.name())?;
    io::writer(rt).write_all(text.as_bytes())
}
