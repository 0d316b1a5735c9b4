//! Part files, which checkpoints make: what the keys that a run wrote in some of its points had there. Parts of one run are joined.
#![tactic(auto)]

mod decoding;
mod encoding;
mod joining;
mod laws;
mod part;
mod ranges;
mod uniting;

pub use decoding::{PartHeader, read_header, read_next_entry, read_next_key, read_point};
pub use encoding::{put_end, put_entry, put_head, put_ranges};
pub use joining::join;
pub use laws::{
    conflicts_are_mutual, cut_part_texts_are_short, joins_are_idempotent, joins_associate,
    joins_commute, joins_make_no_conflict, part_texts_are_read, read_parts_are_texts,
    steps_are_local,
};
pub use part::Part;
pub use ranges::{Range, points_in};
pub use uniting::union_ranges;
