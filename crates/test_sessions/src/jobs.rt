//! What the clients do.
use pc_jobs::{Job, Op};
use pc_types::{Items, Key, Refusal, Value};
use std::alloc::Global;

/// An operation, as plain data: values that are put are of as many bytes as don't lie inline.
#[derive(Clone, Copy)]
pub enum Ask<'a> {
    Get(&'a [u8]),
    Put(&'a [u8], u8),
    Add(&'a [u8], i64),
}

/// The operations of a transaction.
pub type Asks = &'static [Ask<'static>];

/// What the sessions do, from the first on.
#[derive(Clone, Copy)]
pub enum Work {
    /// Of each session its transactions.
    Listed(&'static [&'static [Asks]]),
    /// The given number of sessions, with the given number of transactions each: one put of a key that no other
    /// transaction has.
    Apart(u8, u16),
    /// The same, of a read and two puts of three of ten keys, in an order that is the transaction's own.
    Crowded(u8, u16),
    /// The same, of a read and two adds.
    Adding(u8, u16),
}

impl Work {
    /// The number of sessions.
    pub fn sessions(&self) -> u8 {
        match *self {
            Work::Listed(sessions) => u8::try_from(sessions.len()).unwrap_or(u8::MAX),
            Work::Apart(sessions, _) => sessions,
            Work::Crowded(sessions, _) | Work::Adding(sessions, _) => sessions,
        }
    }

    /// The jobs of each session; the given number of first ones have none.
    pub fn jobs(&self, alloc: Global, idle: u8) -> Result<Vec<Vec<Job>>, Refusal> {
        let mut all = Vec::new(alloc);
        for _ in 0..idle {
            all.push(Vec::new(alloc))?;
        }
        for session in 0..self.sessions() {
            all.push(self.jobs_of(alloc, session)?)?;
        }
        Ok(all)
    }

    // The jobs of the session at this place.
    fn jobs_of(&self, alloc: Global, session: u8) -> Result<Vec<Job>, Refusal> {
        match *self {
            Work::Listed(sessions) => match sessions.get(usize::from(session)) {
                Some(transactions) => listed(alloc, transactions),
                None => Ok(Vec::new(alloc)),
            },
            Work::Apart(_, count) => made(alloc, session, count, job_apart),
            Work::Crowded(_, count) => made(alloc, session, count, job_in_crowd),
            Work::Adding(_, count) => made(alloc, session, count, adding_job),
        }
    }
}

fn op_of(alloc: Global, ask: &Ask) -> Result<Op, Refusal> {
    Ok(match *ask {
        Ask::Get(key) => Op::Get(Key::new(alloc, key)?),
        Ask::Put(key, byte) => Op::Put(Key::new(alloc, key)?, Value::new(alloc, &[byte; 20])?),
        Ask::Add(key, delta) => Op::Add(Key::new(alloc, key)?, delta),
    })
}

fn job_of(alloc: Global, asks: &[Ask]) -> Result<Job, Refusal> {
    let mut ops = Vec::new(alloc);
    for ask in asks {
        ops.push(op_of(alloc, ask)?)?;
    }
    let ops = Items::from_vec(ops);
    Ok(Job { ops })
}

fn listed(alloc: Global, transactions: &[Asks]) -> Result<Vec<Job>, Refusal> {
    let mut jobs = Vec::new(alloc);
    for asks in transactions {
        jobs.push(job_of(alloc, asks)?)?;
    }
    Ok(jobs)
}

fn made<F: Fn(Global, u8, u16) -> Result<Job, Refusal>>(
    alloc: Global,
    session: u8,
    count: u16,
    job: F,
) -> Result<Vec<Job>, Refusal>
    requires { F.IsAlwaysCallable job }
{
    let mut jobs = Vec::new(alloc);
    for number in 0..count {
        jobs.push(job(alloc, session, number)?)?;
    }
    Ok(jobs)
}

fn job_apart(alloc: Global, session: u8, number: u16) -> Result<Job, Refusal> {
    let [high, low] = number.to_be_bytes();
    job_of(alloc, &[Ask::Put(&[session, high, low], session)])
}

// Three of the ten keys.
fn keys_in_crowd(session: u8, number: u16) -> [[u8; 1]; 3] {
    let own = u16::from(session).wrapping_mul(3).wrapping_add(number);
    [
        digit(own),
        digit(own.wrapping_mul(7).wrapping_add(1)),
        digit(own.wrapping_mul(3).wrapping_add(2)),
    ]
}

fn adding_job(alloc: Global, session: u8, number: u16) -> Result<Job, Refusal> {
    let [first, second, third] = keys_in_crowd(session, number);
    let asks = [
        Ask::Get(&first),
        Ask::Add(&second, i64::from(session)),
        Ask::Add(&third, -1),
    ];
    job_of(alloc, &asks)
}

fn job_in_crowd(alloc: Global, session: u8, number: u16) -> Result<Job, Refusal> {
    let [first, second, third] = keys_in_crowd(session, number);
    let [_, low] = number.to_be_bytes();
    let asks = [
        Ask::Get(&first),
        Ask::Put(&second, session),
        Ask::Put(&third, low),
    ];
    job_of(alloc, &asks)
}

// The last of the number's decimal digits, as it is written.
fn digit(number: u16) -> [u8; 1] {
    let [_, low] = (number % 10).to_be_bytes();
    [low.wrapping_add(b'0')]
}
