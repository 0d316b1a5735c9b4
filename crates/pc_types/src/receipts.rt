//! A session's receipt of a commit.
use crate::changes::Write;
use crate::keys::Key;
use crate::lists::Items;
use crate::numbers::{Lsn, SessionNo};
use crate::values::Value;

/// The effect of a committed transaction.
#[derive(Drop)]
pub struct Receipt {
    /// The number of its entry in the log; the first entry has number 1.
    pub number: Lsn,
    pub session: SessionNo,
    /// Its reads of keys that it had not written, a value or nothing; of each key the first such read, in their order.
    pub reads: Items<(Key, Option<Value>)>,
    /// Its writes, as its entry in the log has them.
    pub writes: Items<Write>,
}
