//! The words that every crate of the store speaks in: numbers, keys and values, events and replies, receipts, refusals and gates.
#![tactic(auto)]

mod changes;
mod events;
mod gate;
mod heads;
mod keys;
mod laws;
mod limits;
mod lists;
mod locking;
mod numbers;
mod ordering;
mod receipts;
mod refusal;
mod triples;
mod values;

pub use changes::{Change, Write, is_number, number_fits, sum};
pub use events::{Class, Entry, Event, Phase, Reply, Step};
pub use gate::{Gate, GatePlace, OpenGate};
pub use heads::{first_eight, head_of};
pub use keys::Key;
pub use laws::{keys_are_ordered, keys_are_pairs, pairs_are_keys};
pub use limits::{
    MOST_CLAIMS, MOST_COLLAPSERS, MOST_FILE_ENTRIES, MOST_FILES, MOST_KEY_BYTES, MOST_KEYS,
    MOST_LOG_ENTRIES, MOST_PASSES, MOST_POINTS, MOST_SESSIONS, MOST_TRANSACTIONS, MOST_VALUE_BYTES,
    MOST_WORKERS, MOST_WRITES, SPACE_BYTES,
};
pub use lists::Items;
pub use locking::{Mode, Outcome, Request};
pub use numbers::{FileNo, Lsn, Point, SessionNo, SlotId, TxnNo};
pub use receipts::Receipt;
pub use refusal::Refusal;
pub use triples::Triple;
pub use values::{Value, copy_content};
