//! The text of a log: the commits and the changes of the phase, in their order; and what can be read of a text that may have
//! been truncated.
#![tactic(auto)]

mod encoding;
mod laws;
mod order;
pub mod phases;
mod plain;
mod reading;

pub use encoding::{
    ABSENCE, ADD, COMMIT, TOKEN, TOKEN_SIZE, VALUE, commit_size, encode_entry, encode_header,
    encode_log, entry_size, number_bytes, writes_size,
};
pub use laws::{
    cut_logs_are_read, entry_texts_are_read, log_texts_are_read, logs_of_runs_have_texts,
    whole_entries_are_longest,
};
pub use order::LastToken;
pub use plain::read_plain_entry;
pub use reading::{LogText, most_body_bytes, read_entry, read_header, read_log};
