//! The two formats of files.

/// The format of a file. The magic at its front determines it.
#[derive(Clone, Copy, Debug, PartialEq, Eq)]
pub enum Format {
    /// Format 01, whose keys are all of space 0: it has no space of a key. It is read, and no longer written.
    First,
    /// Format 02, which is written: a key's space is between the length and the bytes of its own.
    Second,
}
