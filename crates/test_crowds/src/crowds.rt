//! Sixty-four sessions at one key.

use crate::asker::Asker;
use pc_bases::Base;
use pc_engine::World;
use pc_types::{Refusal, Reply};
use std::alloc::Global;
use std::hash::RandomState;
use test_support::{Ask, Sums};

const WORD: [u8; 64] = [b'w'; 64];

// A value of the given number of bytes.
fn value_of(length: u32) -> &'static [u8] {
    &WORD[..length.min(64) as usize]
}

/// How the sessions come to the key: in steps of the given number of numbers, and whether every third of them writes it and
/// the others read it, or the other way round. What a session writes is as long as its number says.
#[derive(Clone, Copy)]
pub struct Crowd {
    pub stride: u32,
    pub is_reading: bool,
}

fn wish(crowd: Crowd, session: u32) -> Ask<'static> {
    if (session % 3 == 0) != crowd.is_reading {
        Ask::Get(session, b"a")
    } else {
        Ask::Put(session, b"a", value_of(session))
    }
}

fn begin(asker: &mut Asker) -> Result<(), Refusal> {
    for session in 1..=64u32 {
        asker.ask(Ask::Begin(session))?;
    }
    Ok(())
}

// Each comes to the key.
fn come(asker: &mut Asker, crowd: Crowd) -> Result<(), Refusal> {
    for n in 0..64u32 {
        let session = (n.wrapping_mul(crowd.stride) % 64).wrapping_add(1);
        asker.ask(wish(crowd, session))?;
    }
    Ok(())
}

// The session asks again for what it wishes and commits, or aborts if it has died. Whether its transaction has ended.
fn turn(asker: &mut Asker, crowd: Crowd, session: u32) -> Result<bool, Refusal> {
    asker.ask(wish(crowd, session))?;
    match asker.reply(Ask::Commit(session))? {
        Reply::Refused(Refusal::MustAbort) => abort(asker, session),
        Reply::Committed(_) => Ok(true),
        _ => Ok(false),
    }
}

// Whether the session aborts.
fn abort(asker: &mut Asker, session: u32) -> Result<bool, Refusal> {
    let reply = asker.reply(Ask::Abort(session))?;
    Ok(matches!(reply, Reply::Aborted))
}

// Each has a turn. Whether one ends in it.
fn take_turns(asker: &mut Asker, crowd: Crowd) -> Result<bool, Refusal> {
    let mut has_ended = false;
    for session in 1..=64u32 {
        if turn(asker, crowd, session)? {
            has_ended = true;
        }
    }
    Ok(has_ended)
}

// They have turns until none ends in one.
fn end(asker: &mut Asker, crowd: Crowd) -> Result<(), Refusal> {
    for _ in 0..65u32 {
        if !take_turns(asker, crowd)? {
            return Ok(());
        }
    }
    Ok(())
}

/// All begin and come to the key; then each has a turn, until none ends in it. The store is checked at the end. It fails
/// only if an allocation fails. The seed is that of the hashes of the store's keys.
pub fn sums_of_crowd(alloc: Global, seed: RandomState, crowd: Crowd) -> Result<Sums, Refusal> {
    let world = World::new(alloc, Base::start(1, Vec::new(alloc)), 64, 2, seed)?;
    let mut asker = Asker::new(alloc, world);
    go_to_the_end(&mut asker, crowd)?;
    Ok(asker.into_sums())
}

fn go_to_the_end(asker: &mut Asker, crowd: Crowd) -> Result<(), Refusal> {
    begin(asker)?;
    come(asker, crowd)?;
    end(asker, crowd)?;
    asker.check()
}

const ONE_BY_ONE: Crowd = Crowd {
    stride: 1,
    is_reading: false,
};

// The sessions 63, 61, .. 1 each come before the next younger one, 64, 62, .. 2: the first is granted, the others are older
// than all before them and wait, and all of even numbers die.
fn come_in_pairs(asker: &mut Asker) -> Result<(), Refusal> {
    for n in 0..64u32 {
        let session = (63u32.wrapping_sub(n) ^ 1).wrapping_add(1);
        asker.ask(wish(ONE_BY_ONE, session))?;
    }
    Ok(())
}

// All but the one that was granted want to commit, and those that died abort.
fn hold_back(asker: &mut Asker) -> Result<(), Refusal> {
    for session in 1..=64u32 {
        if session != 63 {
            asker.ask(Ask::Commit(session))?;
        }
        if session % 2 == 0 {
            asker.ask(Ask::Abort(session))?;
        }
    }
    Ok(())
}

// The sessions 63, 61, .. 1 ask again in this order and commit, and before the commit the next one asks in vain.
fn go_in_turn(asker: &mut Asker) -> Result<(), Refusal> {
    for n in 0..32u32 {
        let session = 63u32.wrapping_sub(n.wrapping_mul(2));
        asker.ask(wish(ONE_BY_ONE, session))?;
        asker.ask(Ask::Get(session.wrapping_sub(2), b"a"))?;
        asker.ask(Ask::Commit(session))?;
    }
    Ok(())
}

// No session has a transaction open then.
fn commit_all(asker: &mut Asker) -> Result<(), Refusal> {
    for session in 1..=64u32 {
        asker.ask(Ask::Commit(session))?;
    }
    Ok(())
}

const LOOK: [Ask<'static>; 4] = [
    Ask::Begin(64),
    Ask::Get(64, b"a"),
    Ask::Commit(64),
    Ask::StartPoint,
];

// The last one's value is committed.
fn look_back(asker: &mut Asker) -> Result<(), Refusal> {
    for ask in &LOOK {
        asker.ask(*ask)?;
    }
    Ok(())
}

/// Half of the sessions wait for one another and are granted in the order in which they came, in a store with room for one
/// key; the other half dies. The store is checked at the end. It fails only if an allocation fails. The seed is that of the
/// hashes of the store's keys.
pub fn sums_one_by_one(alloc: Global, seed: RandomState) -> Result<Sums, Refusal> {
    let world = World::new(alloc, Base::start(1, Vec::new(alloc)), 64, 1, seed)?;
    let mut asker = Asker::new(alloc, world);
    go_one_by_one(&mut asker)?;
    Ok(asker.into_sums())
}

fn go_one_by_one(asker: &mut Asker) -> Result<(), Refusal> {
    begin(asker)?;
    come_in_pairs(asker)?;
    hold_back(asker)?;
    go_in_turn(asker)?;
    commit_all(asker)?;
    look_back(asker)?;
    asker.check()
}
