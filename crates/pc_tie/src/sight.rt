//! The knowledge of the seats at a store's word. No value of these types is made.
use pc_types::Step;
use std::collections::LinkedList;

/// The view of a seat.
pub struct Sitting {
    /// The number of the session; the checkpointer has 0, and a witness 65, which is no session's.
    pub number: u64,
    /// The history that it has seen, the last step first.
    pub seen: LinkedList<Step>,
}

/// The knowledge of a seat.
pub enum Sight {
    /// As the keeper: the whole history, how many seats were dealt, and those that were taken in.
    Whole(LinkedList<Step>, u64, LinkedList<Sitting>),
    /// As the seat of this number: a prefix of the history.
    Front(u64, LinkedList<Step>),
    /// As the seat of this number while it is compared with a witness: the views of both.
    Beside(u64, LinkedList<Step>, LinkedList<Step>),
    Gone,
}
