//! A script's line, and its meaning: an event, a pair of the base, or something to be shown.
#![tactic(auto)]

mod key_words;
mod lines;
mod words;

pub use key_words::{KeyText, key_text_of};
pub use lines::{Line, MOST_WORDS, View, first_words, is_comment, is_value, next_word, read_line};
pub use words::{is_plain, number, signed_number, text_of};
