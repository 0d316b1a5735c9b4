//! The knowledge of the holder of a seat at the board's two words. No value of these types is made.
use crate::calls::Call;
use std::collections::LinkedList;

/// The view of a pass that was handed in.
pub struct Account {
    pub by: u64,
    pub seen: LinkedList<Call>,
}

/// The knowledge of a seat.
pub enum PassSight {
    /// That of the passes those from this number on are still to be dealt.
    Dealer(u64),
    /// As the pass of this number, the calls up to its last one.
    Holder(u64, LinkedList<Call>),
    /// The views of the passes that were handed in.
    Closer(LinkedList<Account>),
    Nobody,
}
