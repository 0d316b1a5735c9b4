//! What files and devices give and take: the fields of texts, and readers and writers whose failures are counted.
#![tactic(auto)]

mod fields;
mod formats;
mod tally;

pub use fields::{
    read_bytes, read_content, read_key, read_key_text, read_magic, read_sized_key, read_u16,
    read_u32, read_u64, read_value,
};
pub use formats::Format;
pub use tally::{Tally, read_all};
