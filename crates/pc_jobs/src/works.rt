//! The jobs of a workload's clients.
use crate::prefixes::Prefix;
use pc_types::{Items, Key, SessionNo, Value};

/// An operation of a transaction.
#[derive(Drop)]
pub enum Op {
    /// Reads the key.
    Get(Key),
    /// Sets the key to the value.
    Put(Key, Value),
    /// Removes the key.
    Del(Key),
    /// Adds this to the number that the key has, or to 0 if it has no value.
    Add(Key, i64),
}

/// The operations of one transaction, in order.
#[derive(Drop)]
pub struct Job {
    pub ops: Items<Op>,
}

/// Many transactions, each of which sets one key to the same value. The keys are the prefix with the numbers from 0 after it,
/// in six digits.
#[derive(Drop)]
pub struct Fill {
    pub prefix: Prefix,
    /// How many transactions: in a workload that was read, 1 to 1,000,000.
    pub count: u32,
    pub value: Value,
}

/// A piece of a client's work.
#[derive(Drop)]
pub enum ClientTask {
    /// One transaction.
    Once(Job),
    /// Many transactions, which are made one by one.
    Fill(Fill),
}

/// The jobs of one client, in order, and its session.
#[derive(Drop)]
pub struct Client {
    /// In a workload that was read, 1 to 64, and that of no other client.
    pub session: SessionNo,
    pub works: Items<ClientTask>,
}

/// The jobs of all clients, and the number of points of consistency to take meanwhile.
#[derive(Drop)]
pub struct Workload {
    /// In a workload that was read, 0 to 1,000.
    pub points: u32,
    pub clients: Items<Client>,
}
