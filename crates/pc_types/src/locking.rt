//! Requests of locks: what they ask for, and how they are answered.
use crate::numbers::TxnNo;

/// The lock mode of a request.
#[derive(Clone, Copy, Debug, PartialEq, Eq)]
pub enum Mode {
    /// To read: any number of transactions may at the same time.
    Shared,
    /// To write: no other transaction may read or write.
    Exclusive,
}

/// The outcome of a request.
#[derive(Clone, Copy, Debug, PartialEq, Eq)]
pub enum Outcome {
    /// The lock is held, until the transaction releases it.
    Granted,
    /// The request waits for younger transactions to release their locks.
    Queued,
    /// The transaction has to abort. The request isn't kept.
    Died,
}

/// A transaction's request of a lock.
#[derive(Clone, Copy)]
pub struct Request {
    pub transaction: TxnNo,
    pub mode: Mode,
    /// The lock is held; otherwise the request waits.
    pub granted: bool,
}
