//! What clients and collapsers do in a store.
ghost use Rattle.pc_board.specs.Passes.{IsOfBoard};

use pc_board::{Board, BoardPass};
use pc_jobs::{Job, Op};
use pc_shared::{CallAnswer, PartTicket, Session, Shared};
use pc_tie::StoreName;
use pc_types::{Gate, Items, Key, OpenGate, Refusal, Value};
use pc_workers::{CollapserShare, client_loop, collapse_loop};
use std::alloc::Global;
use std::sync::Wait;

// The number of transactions that a client commits.
const COMMITS: u64 = 1000;

/// A store, with what calls of it take.
#[derive(Clone, Copy)]
pub struct Desk<'a, N: StoreName, R: Wait> {
    pub rt: &'a R,
    pub alloc: Global,
    pub shared: &'a Shared<N>,
}

impl<'a, N: StoreName, R: Wait> Desk<'a, N, R> {
    /// What a loop of this store works with that passes the gate.
    pub fn with_gate<G: Gate>(&self, gate: &'a G) -> pc_workers::Desk<'a, N, G> {
        pc_workers::Desk {
            alloc: self.alloc,
            shared: self.shared,
            gate,
        }
    }

    /// Commits transactions over one key call by call, each of which reads it and sets it anew; the number of those that were.
    pub fn commit_often(&self, session: &mut Session<N>) -> Result<u64, Refusal> {
        for _ in 0..COMMITS {
            self.commit_one(session)?;
        }
        Ok(COMMITS)
    }

    /// One transaction: the key is read, and set to the byte that follows the one that was found.
    pub fn commit_one(&self, session: &mut Session<N>) -> Result<(), Refusal> {
        let Desk { rt, alloc, shared } = *self;
        shared.begin(rt, session)?;
        let answer = shared.get(rt, session, Key::new(alloc, b"a")?)?;
        let next = next_byte(session, answer);
        let key = Key::new(alloc, b"a")?;
        let value = Value::new(alloc, &[next])?;
        shared.put(rt, session, key, value)?;
        shared.commit(rt, session)?;
        Ok(())
    }

    /// Runs jobs over another key by the client's loop; how many were committed.
    pub fn run_jobs(&self, session: &mut Session<N>) -> Result<u64, Refusal> {
        let mut jobs = Vec::new(self.alloc);
        for _ in 0..COMMITS {
            jobs.push(job_of(self.alloc)?)?;
        }
        let desk = self.with_gate(&OpenGate);
        let ended = client_loop(self.rt, &desk, session, &jobs, None);
        Ok(ended.count.commits)
    }

    /// Marks that nothing more is to come.
    pub fn mark_end(&self) {
        let mut witness = self.shared.witness(self.rt);
        let _marked = self.shared.mark_end(self.rt, &mut witness);
    }

    /// Takes the files of the given number of points as they are published, and joins them.
    pub fn collapse<G: Gate>(
        &self,
        board: &Board,
        pass: &mut BoardPass,
        points: u32,
        gate: &'a G,
    ) -> Result<Vec<PartTicket<N>>, Refusal>
        requires { IsOfBoard pass.old board.now }
    {
        let mut witness = self.shared.witness(self.rt);
        let desk = self.with_gate(gate);
        let share = CollapserShare { number: 0, points };
        collapse_loop(self.rt, &desk, &mut witness, board, pass, share)
    }
}

// The byte that follows the one that was found, or 0.
fn next_byte<N: StoreName>(session: &Session<N>, answer: CallAnswer) -> u8 {
    match session.found() {
        Some(value) if answer == CallAnswer::Found => match value.as_bytes().first() {
            Some(byte) => byte.wrapping_add(1),
            None => 1,
        },
        _ => 0,
    }
}

// A transaction that reads the key, sets it, and removes another one.
fn job_of(alloc: Global) -> Result<Job, Refusal> {
    let mut ops = Vec::new(alloc);
    ops.push(Op::Get(Key::new(alloc, b"b")?))?;
    ops.push(Op::Put(Key::new(alloc, b"b")?, Value::new(alloc, b"1")?))?;
    ops.push(Op::Del(Key::new(alloc, b"c")?))?;
    Ok(Job {
        ops: Items::from_vec(ops),
    })
}
