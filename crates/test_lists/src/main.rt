//! Goes through every short list of events of one and of two sessions, and prints how often each kind of reply was given,
//! with sums over them.
#![tactic(auto)]

mod families;
mod lists;

use families::{
    ADDING, ADDING_BESIDE, ADDING_FROM_RESOLVE, ALONE, BESIDE, FROM_CAPTURE, FROM_COMPLETE,
    FROM_PREPARE, FROM_RESOLVE, FROM_REST, Family, IN_ONE_ROOM,
};
use lists::sums_of;
use std::hash::RandomState;
use std::io;
use std::process::ExitCode;
use test_support::tell;

const FAMILIES: [Family; 11] = [
    ALONE,
    BESIDE,
    IN_ONE_ROOM,
    FROM_REST,
    FROM_PREPARE,
    FROM_RESOLVE,
    FROM_CAPTURE,
    FROM_COMPLETE,
    ADDING,
    ADDING_BESIDE,
    ADDING_FROM_RESOLVE,
];

// The status is 1 if memory, the output or the draw of a seed failed.
fn main(rt: HostRuntime) -> ExitCode {
    match go_through(&rt) {
        Ok(()) => ExitCode::from(0),
        Err(_) => ExitCode::from(1),
    }
}

fn go_through(rt: &HostRuntime) -> io::Result<()> {
    let seed = RandomState::new(rt)?;
    for family in &FAMILIES {
        match sums_of(rt.alloc(), seed, family) {
            Ok(sums) => tell(rt, family.name, &sums)?,
            Err(_) => return Err(io::ErrorKind::Other.into()),
        }
    }
    Ok(())
}
