//! The limits of the store, each once.

/// The bytes of a key's space, which come before its own.
pub const SPACE_BYTES: usize = 2;

/// The most bytes of a key's own; it has at least one.
pub const MOST_KEY_BYTES: usize = 255;

/// The most bytes of a value.
pub const MOST_VALUE_BYTES: usize = 65_535;

/// The most sessions of a store; it has at least one.
pub const MOST_SESSIONS: u8 = 64;

/// The most keys that a store has room for; it has room for at least one.
pub const MOST_KEYS: u32 = 1_048_576;

/// The most keys that a transaction writes.
pub const MOST_WRITES: usize = 256;

/// The most transactions that a store begins.
pub const MOST_TRANSACTIONS: u64 = 1_099_511_627_776;

/// The most entries of a log.
pub const MOST_LOG_ENTRIES: usize = 16_777_216;

/// The most points of a run, which are numbered from 1.
pub const MOST_POINTS: u16 = 65_535;

/// The most files on a shelf, the list of a store's checkpoint files.
pub const MOST_FILES: usize = 65_536;

/// The most entries of a file.
pub const MOST_FILE_ENTRIES: usize = 4_294_967_295;

/// The most passes of a board, which has at least one: 64 collapsers' and the checkpointer's.
pub const MOST_PASSES: u8 = 65;

/// The most claims that a pass makes. As both are kept no count of a board's claims reaches 2^64.
pub const MOST_CLAIMS: u32 = 4_294_967_295;

/// The most collapsers that join parts; there is at least one.
pub const MOST_COLLAPSERS: u8 = 64;

/// The most workers to which the clients of a run are dealt; there is at least one.
pub const MOST_WORKERS: u8 = 64;
