//! The texts of replies, states and files, and the names of files; files that may have been opened: their bytes; how a command's
//! output ends, and the report if a command fails.
#![tactic(auto)]

mod file_names;
mod files;
mod output;
mod texts;

pub use file_names::{FileName, part_name};
pub use files::{NamedFile, Unread, read_opened, report, report_words};
pub use output::end_output;
pub use texts::{
    phase_name, put_check, put_collapsed, put_joined, put_key, put_name, put_pairs, put_printed,
    put_reason, put_reply, put_state, put_text,
};
