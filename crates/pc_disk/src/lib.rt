//! Files and folders of a real file system, by their paths: how they are opened, listed and made, the generations of a folder, the
//! standard streams, and what the system said if one of them could not be had.
#![tactic(auto)]

mod causes;
mod folder;
mod generations;
mod late;
mod making;
mod standard;

pub use causes::{Cause, Causes, Doing, Noted};
pub use folder::{
    BASE, FoundFolder, LOCK, LOG, NO_FILE, PART_END, ReadFolder, is_device, is_run_file, names_in,
    open_folder, path_in, tell_unopened,
};
pub use generations::{GenerationFolders, generation_path};
pub use late::LateFile;
pub use making::{Target, folder_of, sync_folder};
pub use standard::{INPUT, OUTPUT, fill_places, output_before};
