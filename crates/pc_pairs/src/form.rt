//! How a pair is written on its line.

/// How a pair is written on its line.
#[derive(Clone, Copy, Debug, PartialEq, Eq)]
pub enum Form {
    /// The key's word and the value's, as `recover` prints them, with a space between them.
    Words,
    /// An object of JSON (RFC 8259): `key` and `value` as texts where they are UTF-8, otherwise `key64` and `value64` in base64, and
    /// `space` where the key's space isn't 0.
    Json,
}
