//! A folder of generations is one process's own.
ghost use Rattle.std.specs.Prelude.{◌≡◌, is_some, if◌then◌else◌};

use crate::lock::FolderLock;
use crate::recovered::{Doubt, misplaced};
use pc_disk::{
    Doing, GenerationFolders, LOCK, ReadFolder, folder_of, is_run_file, names_in, path_in,
    sync_folder,
};
use pc_generations::{greatest_generation, latest_generation, lost_generation};
use pc_io::Tally;
use pc_texts::{report, report_words};
use pc_types::Refusal;
use std::alloc::AllocError;
use std::fs;
use std::io::{ErrorKind, Write};

/// Why a folder isn't this process's own.
#[derive(Clone, Copy, Debug, PartialEq, Eq)]
pub enum Unowned {
    /// Another process has it.
    Busy,
    /// It has the files of a run, or a store if one is to be made of another folder.
    NotEmpty,
    /// It has no generation that counts.
    NoStore,
    /// The generation of this number has entries in its log, and no base.
    Damaged(u32),
    /// What has the name of the folder of the generation of this number is none: a file may have been put there, and isn't removed.
    NoFolder(u32),
    /// It can't be used.
    Unusable(Refusal),
    /// Its file `lock` can't be made, opened or locked.
    Unlockable(Refusal),
}

impl Unowned {
    /// Reports it of the folder.
    pub fn tell<E: Write>(
        self,
        dir: ReadFolder<'_>,
        errors: &mut Tally<E>,
    ) -> Result<(), AllocError> {
        let word = match self {
            Unowned::Busy => b"Busy".as_slice(),
            Unowned::NotEmpty => b"NotEmpty",
            Unowned::NoStore => b"NoStore",
            Unowned::Damaged(number) => {
                Doubt::Lost(number).tell(dir, false, errors)?;
                return Ok(());
            }
            Unowned::NoFolder(number) => {
                Doubt::NoFolder(number).tell(dir, false, errors)?;
                return Ok(());
            }
            Unowned::Unusable(why) => why.name().as_bytes(),
            Unowned::Unlockable(why) => {
                let path = path_in(dir.rt.alloc(), dir.path, LOCK)?;
                let _ = report(path.as_bytes(), why, errors);
                return Ok(());
            }
        };
        let _ = report_words(dir.path.as_bytes(), word, errors);
        Ok(())
    }
}

/// What may be done to own a folder.
#[derive(Clone, Copy)]
pub struct Leave {
    /// It is made if there is none, or if it has no generation that counts.
    pub creates: bool,
    /// It may have no generation that counts: a store is made of another folder.
    pub imports: bool,
    /// A generation may have lost its base.
    pub accepts_damage: bool,
}

/// The generations of a folder.
#[derive(Clone, Copy)]
pub struct Found {
    /// The one that counts, if one does.
    pub latest: Option<u32>,
    /// One above it that has entries in its log and no base, if there is one.
    pub lost: Option<u32>,
    /// The greatest number of all.
    greatest: Option<u32>,
}

impl Found {
    /// The number that the next generation follows: that of the one that counts; but a generation that has lost its base stays.
    pub fn last(&self) -> Option<u32>
        ensures { result ≡ (if is_some self.now.lost then self.now.greatest else self.now.latest) }
    {
        if self.lost.is_some() {
            self.greatest
        } else {
            self.latest
        }
    }
}

/// A folder that this process owns as long as this value lives, and its generations.
#[derive(Drop)]
pub struct Owned<'a> {
    pub lock: FolderLock<'a>,
    pub found: Found,
}

/// Takes the folder. If there is none, or none with a generation that counts, it is made if that is asked for. If a store is to be
/// made of another folder, it may have no generation that counts. One that has lost a base is refused, unless damage is accepted. One
/// in which something else has the name of a generation's folder is refused.
pub fn own(dir: ReadFolder<'_>, leave: Leave) -> Result<Owned<'_>, Unowned> {
    if leave.creates {
        make_folder(dir)?;
    } else {
        let before = find(dir)?;
        if before.latest.is_none() && before.lost.is_none() {
            return Err(Unowned::NoStore);
        }
    }
    let lock = FolderLock::take(dir)?;
    let found = find(dir)?;
    if leave.imports && found.latest.is_some() {
        return Err(Unowned::NotEmpty);
    }
    if let Some(number) = found.lost {
        if !leave.accepts_damage {
            return Err(Unowned::Damaged(number));
        }
    }
    if found.latest.is_none() && !leave.creates {
        return Err(Unowned::NoStore);
    }
    Ok(Owned { lock, found })
}

// The generations of the folder, if each has a folder that has the name of one.
fn find(dir: ReadFolder<'_>) -> Result<Found, Unowned> {
    let folders = GenerationFolders { dir };
    match misplaced(&folders) {
        Ok(None) => {}
        Ok(Some(number)) => return Err(Unowned::NoFolder(number)),
        Err(why) => return Err(Unowned::Unusable(why)),
    }
    match find_among(dir, &folders) {
        Ok(found) => Ok(found),
        Err(why) => Err(Unowned::Unusable(why)),
    }
}

fn find_among(dir: ReadFolder<'_>, folders: &GenerationFolders<'_>) -> Result<Found, Refusal> {
    let alloc = dir.rt.alloc();
    let latest = latest_generation(alloc, folders)?;
    let lost = lost_generation(alloc, folders, latest)?;
    let greatest = greatest_generation(alloc, folders)?;
    Ok(Found {
        latest,
        lost,
        greatest,
    })
}

// Makes the folder, if there is none of this path, and brings its name to the disk. One that is there may have no files of a run.
fn make_folder(dir: ReadFolder<'_>) -> Result<(), Unowned> {
    let made = match fs::create_dir(dir.rt, dir.path) {
        Ok(()) => sync_folder(dir.rt, folder_of(dir.path.trim_end_matches('/'))),
        Err(e) => Err(e),
    };
    match made {
        Ok(()) => Ok(()),
        Err(e) if e.kind() == ErrorKind::AlreadyExists => look(dir),
        Err(e) => {
            let why = dir.causes.note_unmade(Doing::Making, dir.path, e);
            Err(Unowned::Unusable(why))
        }
    }
}

// Whether the folder has no files of a run.
fn look(dir: ReadFolder<'_>) -> Result<(), Unowned> {
    let names = match names_in(dir) {
        Ok(names) => names,
        Err(why) => return Err(Unowned::Unusable(why)),
    };
    for name in names.split(|byte| *byte == 0) {
        if is_run_file(name) {
            return Err(Unowned::NotEmpty);
        }
    }
    Ok(())
}
