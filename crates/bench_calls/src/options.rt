//! The command line.
ghost use Rattle.std.specs.Prelude.{◌≤◌, IfSome};
ghost use Rattle.pc_types.specs.declared.limits.TheConstants.{MOST_KEYS, MOST_SESSIONS};

use bench_steps::{Cycles, Rounds};
use pc_types::{MOST_KEYS, MOST_POINTS, MOST_SESSIONS};

/// The measurement.
#[derive(Clone, Copy)]
pub enum Work {
    /// Cycles in each of which all keys are written and taken.
    Points(Cycles),
    /// Commits of one write each, with or without concurrent checkpoints.
    Commits(Rounds),
    /// Transactions of one put each, by threads that share a store.
    Shared(Crowd),
    /// A bare mutex, locked and unlocked three times in place of a transaction.
    Mutex(Crowd),
    /// Fills, as the clients of a run make them, of a store under a bare mutex that keeps nothing for them.
    Floor(Crowd),
    /// The calls of a store that one thread uses, each by itself.
    Calls(Crowd),
}

/// The number of threads, 1 to 64, how many transactions each of them commits, and how many keys it goes round, 1 to
/// 15,000, or for a single thread as many as a store may have; and whether the writes are adds.
#[derive(Clone, Copy)]
pub struct Crowd {
    pub threads: u8,
    pub commits: u32,
    pub keys: u32,
    pub is_adding: bool,
    ghost in_range: { (1 ≤ threads) × (threads ≤ MOST_SESSIONS) × (1 ≤ keys) × (keys ≤ MOST_KEYS) },
}

// The greatest number of keys of each of several threads: 64 threads then have fewer than a store may.
const MOST_OWN_KEYS: u32 = 15_000;

const MOST_COMMITS: u32 = 10_000_000;

/// The program's task.
#[derive(Clone, Copy)]
pub struct Options {
    pub work: Work,
    /// Whether times are printed, which differ from run to run.
    pub is_timed: bool,
}

/// The usage of the program; each number is 1 or more.
pub const USAGE: &str = "usage: bench_calls [--times] points POINTS KEYS
       bench_calls [--times] commits [--adds] [--points] COUNT KEYS
       bench_calls [--times] shared [--adds] THREADS COMMITS KEYS
       bench_calls [--times] mutex THREADS COMMITS KEYS
       bench_calls [--times] floor THREADS COMMITS KEYS
       bench_calls [--times] calls THREADS COMMITS KEYS

points   takes so many points over keys that are all written before each
commits  commits so many transactions of one write each, with --points checkpoints beside them
shared   commits so many transactions of one write on each of the threads, which share a store
mutex    locks a bare mutex three times in the place of each transaction
floor    fills a store under a bare mutex
calls    makes the calls of a shared store by one thread, each by itself
--adds   adds to the keys in place of putting them
--times  tells times too";

/// The task of the program's name and the words after it. `None` if they aren't those of its usage, or a number is out of
/// range.
pub fn options_of(words: &[&str]) -> Option<Options> {
    let words = words.get(1..)?;
    match behind("--times", words) {
        Some(others) => asked(others, true),
        None => asked(words, false),
    }
}

// The words after the flag, if they begin with it.
fn behind<'a>(flag: &str, words: &'a [&'a str]) -> Option<&'a [&'a str]> {
    match words.split_first() {
        Some((first, others)) if *first == flag => Some(others),
        _ => None,
    }
}

fn asked(words: &[&str], is_timed: bool) -> Option<Options> {
    let (name, others) = words.split_first()?;
    let work = work_of(name, others)?;
    Some(Options { work, is_timed })
}

// The work of this name with these words after it.
fn work_of(name: &str, words: &[&str]) -> Option<Work> {
    match name {
        "points" => Some(Work::Points(cycles_of(words)?)),
        "commits" => Some(Work::Commits(commits_of(words)?)),
        "shared" => Some(Work::Shared(shared_of(words)?)),
        "mutex" => Some(Work::Mutex(crowd_of(words, false)?)),
        "floor" => Some(Work::Floor(crowd_of(words, false)?)),
        "calls" => Some(Work::Calls(crowd_of(words, false)?)),
        _ => None,
    }
}

fn cycles_of(words: &[&str]) -> Option<Cycles> {
    if words.len() != 2 {
        return None;
    }
    let points = number_of(words[0], u32::from(MOST_POINTS))?;
    let keys = number_of(words[1], MOST_KEYS)?;
    Some(Cycles {
        points: points as u16,
        keys,
    })
}

fn commits_of(words: &[&str]) -> Option<Rounds> {
    match behind("--adds", words) {
        Some(others) => rounds_beside(others, true),
        None => rounds_beside(words, false),
    }
}

fn rounds_beside(words: &[&str], is_adding: bool) -> Option<Rounds> {
    match behind("--points", words) {
        Some(others) => rounds_of(others, is_adding, true),
        None => rounds_of(words, is_adding, false),
    }
}

fn rounds_of(words: &[&str], is_adding: bool, has_points: bool) -> Option<Rounds> {
    if words.len() != 2 {
        return None;
    }
    let commits = number_of(words[0], MOST_COMMITS)?;
    let keys = number_of(words[1], MOST_KEYS)?;
    Some(Rounds {
        commits,
        keys,
        is_adding,
        has_points,
    })
}

fn shared_of(words: &[&str]) -> Option<Crowd> {
    match behind("--adds", words) {
        Some(others) => crowd_of(others, true),
        None => crowd_of(words, false),
    }
}

// The number of keys that each of `threads` threads may have.
fn most_keys_of(threads: u32) -> u32
    ensures { result ≤ MOST_KEYS }
{
    if threads == 1 {
        MOST_KEYS
    } else {
        MOST_OWN_KEYS
    }
}

fn crowd_of(words: &[&str], is_adding: bool) -> Option<Crowd> {
    if words.len() != 3 {
        return None;
    }
    let threads = number_of(words[0], u32::from(MOST_SESSIONS))?;
    let commits = number_of(words[1], MOST_COMMITS)?;
    let keys = number_of(words[2], most_keys_of(threads))?;
    Some(Crowd {
        threads: threads as u8,
        commits,
        keys,
        is_adding,
    })
}

// The number that the word says, if it is from 1 to the greatest one.
fn number_of(word: &str, most: u32) -> Option<u32>
    ensures { IfSome result (λ number. (1 ≤ number) × (number ≤ most)) }
{
    let number = word.parse::<u32>().ok()?;
    if number < 1 || most < number {
        return None;
    }
    Some(number)
}
