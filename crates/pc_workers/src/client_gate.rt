//! The gate of clients, which learns why their jobs are given up.
use pc_types::{Gate, OpenGate, Refusal, SessionNo};

/// The gate that a client's loop passes at each of its places; the loop passes it each refusal.
pub trait ClientGate: Gate {
    /// The session's transaction was refused for this reason, and will be given up.
    fn refused(&self, session: SessionNo, why: Refusal);
}

impl ClientGate for OpenGate {
    fn refused(&self, _session: SessionNo, _why: Refusal) {}
}
