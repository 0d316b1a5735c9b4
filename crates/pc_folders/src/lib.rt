//! The folders that commands name: which one is recovered, who owns the folder of a served store, how its store gets pairs, and how
//! files of a run begin.
#![tactic(auto)]

mod agreeing;
mod filling;
mod heads;
mod left;
mod lock;
mod owner;
mod recovered;

pub use agreeing::open_start;
pub use filling::{Filling, fill_store};
pub use heads::{BaseHead, LOG_HEAD, head_log};
pub use left::tell_left;
pub use lock::{FolderLock, HeldOutput};
pub use owner::{Found, Leave, Owned, Unowned, own};
pub use recovered::{Doubt, RecoveredFolder, has_store, is_store_file};
