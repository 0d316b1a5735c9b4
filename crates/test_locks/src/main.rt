//! Goes through every short list of requests and releases of locks, and prints how many there are and their outcomes.
//!
//! A list isn't gone on with once its last event was not asked: a transaction that waits only releases, and so does one that
//! died, until it has released all. Of each list the answer to its last event is counted, and who waits then, and at how many
//! slots there is a request. The checksum is FNV-1a of 64 bits over two bytes a list, in the order of the lists: the answer's
//! number (0 not asked, 1 granted, 2 queued, 3 died, 4 and 5 released slot 0 and 1, 6 nothing, 7 not previewed), and the
//! requests then (1, 2 and 4 if the transactions 1, 2 and 3 wait, 8 and 16 if the slots 0 and 1 have a request).
//!
//! Its tests, whose names end in `at_each_refused_growth`, ask again if an allocation failed, and pass whichever growth is
//! refused: `tools/cases/refused_growths.py` runs each of them once for each growth that it asks for, with that growth refused.
#![tactic(auto)]

mod counts;
mod lists;
#[cfg(test)]
mod locks;
mod table;

use counts::LockCounts;
use lists::{ListBounds, counts_of};
use pc_types::Refusal;
use std::io;
use std::process::ExitCode;

fn main(rt: HostRuntime) -> ExitCode {
    match tell_all(&rt) {
        Ok(()) => ExitCode::from(0),
        Err(_) => ExitCode::from(1),
    }
}

// Two transactions at two slots, and three.
fn tell_all(rt: &HostRuntime) -> io::Result<()> {
    let two = ListBounds {
        letters: 10,
        most: 7,
    };
    tell(rt, "two", counts_of(rt.alloc(), two))?;
    let three = ListBounds {
        letters: 15,
        most: 6,
    };
    tell(rt, "three", counts_of(rt.alloc(), three))
}

fn tell(rt: &HostRuntime, name: &str, counts: Result<LockCounts, Refusal>) -> io::Result<()> {
    let Ok(counts) = counts else {
        println!(rt; "== {name}: memory ran out")?;
        return Ok(());
    };
    println!(rt; "== {name} transactions")?;
    println!(rt; "lists {}", counts.lists)?;
    println!(rt; "not asked {}", counts.not_asked)?;
    println!(rt; "granted {}", counts.granted)?;
    println!(rt; "queued {}", counts.queued)?;
    println!(rt; "died {}", counts.died)?;
    println!(rt; "released {}", counts.released)?;
    println!(rt; "nothing {}", counts.nothing)?;
    println!(rt; "not foretold {}", counts.not_foretold)?;
    println!(rt; "waiting {}", counts.waiting)?;
    println!(rt; "standing {}", counts.standing)?;
    println!(rt; "checksum {:016x}", counts.checksum)
}
