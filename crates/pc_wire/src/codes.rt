//! The numbers that calls, answers and texts have at the border.

// ---- what a call asks; 0 asks nothing

/// A session begins a transaction.
pub const BEGIN: u32 = 1;
/// A key is read.
pub const GET: u32 = 2;
/// A key is set to a value.
pub const PUT: u32 = 3;
/// A key is removed.
pub const DEL: u32 = 4;
/// A number is added to that of a key.
pub const ADD: u32 = 5;
/// A transaction commits.
pub const COMMIT: u32 = 6;
/// A transaction ends without effect.
pub const ABORT: u32 = 7;
/// The cycle of a point begins.
pub const POINT: u32 = 8;
/// The point of consistency.
pub const SEAL: u32 = 9;
/// The capture of the point begins.
pub const CAPTURE: u32 = 10;
/// A key of the point is taken.
pub const TAKE: u32 = 11;
/// The point's part is made.
pub const DONE: u32 = 12;
/// The cycle ends.
pub const REST: u32 = 13;
/// Two files are joined.
pub const JOIN: u32 = 14;

// ---- what is answered

/// There is no open store that could answer.
pub const CLOSED: u32 = 0;
/// A transaction has begun.
pub const BEGUN: u32 = 1;
/// The key has a value.
pub const FOUND: u32 = 2;
/// The key has no value.
pub const ABSENT: u32 = 3;
/// The write is made.
pub const MADE: u32 = 4;
/// The key has this number now.
pub const SUM: u32 = 5;
/// The request waits.
pub const WAIT: u32 = 6;
/// The request died.
pub const DIED: u32 = 7;
/// The transaction has committed.
pub const COMMITTED: u32 = 8;
/// The transaction is aborted.
pub const ABORTED: u32 = 9;
/// The phase is now this one.
pub const PHASE: u32 = 10;
/// The phase can't change yet.
pub const NOT_YET: u32 = 11;
/// A key was taken that had a value at the point.
pub const TOOK: u32 = 12;
/// A key was taken that had no value at the point.
pub const TOOK_ABSENT: u32 = 13;
/// No key is left to take.
pub const NONE_LEFT: u32 = 14;
/// The point's part is on the shelf.
pub const PART_DONE: u32 = 15;
/// The join is on the shelf.
pub const JOINED: u32 = 16;
/// The call was refused.
pub const REFUSED: u32 = 17;
/// A text is shown.
pub const TEXT: u32 = 18;
/// The given bytes are kept.
pub const GIVEN: u32 = 19;
/// The store was opened.
pub const OPENED: u32 = 20;
/// The store is open already.
pub const OPEN: u32 = 21;

// ---- texts

/// The base's text.
pub const BASE: u32 = 1;
/// The text of a part.
pub const PART: u32 = 2;
/// The log's text; when shown, only its header.
pub const LOG: u32 = 3;
/// The texts of entries of the log.
pub const ENTRIES: u32 = 4;
