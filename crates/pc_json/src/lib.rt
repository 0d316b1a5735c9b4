//! A pair as one line of JSON, and such a line read back.
//!
//! A line is an object. Its member `key` has the key's own bytes and `value` those of the value, as a text if they are UTF-8;
//! otherwise `key64` or `value64` has them in base64 (RFC 4648, with padding). `space` has the number of the key's space, and is
//! left out if that is 0.
#![tactic(auto)]

mod reading;
mod writing;

pub use reading::{JsonPair, read_json};
pub use writing::json_line;
