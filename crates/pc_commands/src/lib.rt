//! The commands that read files: they join parts, recover and check folders, print logs and pairs, and run scripts.
#![tactic(auto)]

mod bad_lines;
mod dumping;
mod joining;
mod logging;
mod parts;
mod recovering;
mod stepping;
mod verifying;

pub use bad_lines::BadPair;
pub use dumping::{dump_folder, form_of};
pub use joining::join_parts;
pub use logging::show_log;
pub use parts::{is_same_file, open_named};
pub use recovering::recover_folder;
pub use stepping::step_script;
pub use verifying::verify_paths;
