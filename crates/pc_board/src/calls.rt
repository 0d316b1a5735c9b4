//! The calls of a board, of which contracts speak. No value of these types is made.

/// The request of a call.
pub enum CallKind {
    /// The next number.
    Claim,
    /// That a point be published.
    Publish,
    /// The greatest point that was published.
    Look,
}

/// A call of a pass.
pub struct Call {
    /// The number of the pass.
    pub by: u64,
    pub kind: CallKind,
    /// The number that was claimed, the point that was published, or the point that the look gave.
    pub value: u64,
}
