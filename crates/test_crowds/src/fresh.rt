//! Keys that come and go, in a store with room for two.

use crate::asker::Asker;
use pc_bases::Base;
use pc_engine::World;
use pc_types::{Refusal, Reply};
use std::alloc::Global;
use std::hash::RandomState;
use test_support::{Ask, Sums};

const ROUNDS: u32 = 1000;

/// In each of 1,000 rounds a key that was never there is put, and removed by the next transaction, and a whole cycle takes all
/// that there is of it. The store is checked at the end. It fails only if an allocation fails. The seed is that of the hashes
/// of the store's keys.
pub fn sums_of_fresh_keys(alloc: Global, seed: RandomState) -> Result<Sums, Refusal> {
    let world = World::new(alloc, Base::start(1, Vec::new(alloc)), 1, 2, seed)?;
    let mut asker = Asker::new(alloc, world);
    for round in 0..ROUNDS {
        come_and_go(&mut asker, &round.to_be_bytes())?;
        take_all(&mut asker)?;
    }
    asker.check()?;
    Ok(asker.into_sums())
}

fn come_and_go(asker: &mut Asker, key: &[u8]) -> Result<(), Refusal> {
    let asks = [
        Ask::Begin(1),
        Ask::Put(1, key, b"here"),
        Ask::Commit(1),
        Ask::Begin(1),
        Ask::Del(1, key),
        Ask::Commit(1),
    ];
    for ask in &asks {
        asker.ask(*ask)?;
    }
    Ok(())
}

fn take_all(asker: &mut Asker) -> Result<(), Refusal> {
    asker.ask(Ask::StartPoint)?;
    asker.ask(Ask::Seal)?;
    asker.ask(Ask::OpenCapture)?;
    for _ in 0..=ROUNDS {
        if let Reply::NoneLeft = asker.reply(Ask::Take)? {
            break;
        }
    }
    asker.ask(Ask::Done)?;
    asker.ask(Ask::Rest)
}
