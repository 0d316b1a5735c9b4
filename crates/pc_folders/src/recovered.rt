//! The folder whose files are recovered if a folder is named: its own, or one in it.
use itoa::Buffer;
use pc_disk::{
    BASE, Doing, GenerationFolders, LOCK, ReadFolder, generation_path, names_in, path_in,
};
use pc_generations::{Generations, latest_generation, lost_generation, number_in};
use pc_io::Tally;
use pc_texts::{put_name, report, report_words};
use pc_types::Refusal;
use std::alloc::AllocError;
use std::fs;
use std::io::{Error, ErrorKind, Write};
use std::string::String;

/// Why a folder that is named may not be the one that is meant.
#[derive(Clone, Copy, Debug, PartialEq, Eq)]
pub enum Doubt {
    /// It has the base of a run, and a store of generations, of which this one counts.
    Mixed(u32),
    /// This generation, above the one that counts, has answered commits in its log, and no base.
    Lost(u32),
    /// What has the name of this generation's folder is none.
    NoFolder(u32),
}

impl Doubt {
    /// Prints what is lacking of the folder of this path, and that nothing is recovered of it, or that it is damaged. A folder that has
    /// lost a base can be recovered all the same if damage is accepted; whether it can.
    pub fn tell<E: Write>(
        self,
        dir: ReadFolder<'_>,
        accepts_damage: bool,
        errors: &mut Tally<E>,
    ) -> Result<bool, AllocError> {
        match self {
            Doubt::Mixed(number) => {
                let store = generation_path(dir, number)?;
                let _ = tell_mixed(dir, store.as_str(), errors);
                Ok(false)
            }
            Doubt::Lost(number) => {
                let folder = generation_path(dir, number)?;
                let base = path_in(dir.rt.alloc(), folder.as_str(), BASE)?;
                let _ = report(base.as_bytes(), Refusal::NoFile, errors);
                if !accepts_damage {
                    let _ = report_words(dir.path.as_bytes(), b"Damaged", errors);
                }
                Ok(accepts_damage)
            }
            Doubt::NoFolder(number) => {
                let path = generation_path(dir, number)?;
                let _ = report(path.as_bytes(), Refusal::Device, errors);
                Ok(false)
            }
        }
    }
}

fn tell_mixed<E: Write>(
    dir: ReadFolder<'_>,
    store: &str,
    errors: &mut Tally<E>,
) -> Result<(), Refusal> {
    report_words(dir.path.as_bytes(), b"Mixed", errors)?;
    errors.put(b"  take ")?;
    put_name(errors, store.as_bytes())?;
    errors.put(b"\n")
}

/// A folder whose files are recovered.
#[derive(Drop)]
pub struct RecoveredFolder {
    /// Its path.
    pub path: String,
    /// The generation whose folder it is, if the folder of a served store was named.
    pub generation: Option<u32>,
    /// Why it may not be the one that is meant, if there is a reason.
    doubt: Option<Doubt>,
}

impl RecoveredFolder {
    /// The folder of this path.
    pub fn of_path(path: String) -> RecoveredFolder {
        RecoveredFolder {
            path,
            generation: None,
            doubt: None,
        }
    }

    /// The folder of this path; if that is the folder of a served store, the folder of the generation that counts. It is an error only
    /// if an allocation failed.
    pub fn find(dir: ReadFolder<'_>) -> Result<RecoveredFolder, AllocError> {
        let generation = latest_in(dir);
        let doubt = doubt_of(dir, generation)?;
        let path = match generation {
            Some(number) => generation_path(dir, number)?,
            None => String::from_str(dir.rt.alloc(), dir.path)?,
        };
        Ok(RecoveredFolder {
            path,
            generation,
            doubt,
        })
    }

    /// Prints the line `generation N` for the recovered generation, if there is one, or why the folder of this path isn't recovered;
    /// whether it is.
    pub fn tell<E: Write>(
        &self,
        dir: ReadFolder<'_>,
        accepts_damage: bool,
        errors: &mut Tally<E>,
    ) -> Result<bool, AllocError> {
        if let Some(doubt) = self.doubt {
            if !doubt.tell(dir, accepts_damage, errors)? {
                return Ok(false);
            }
        }
        if let Some(number) = self.generation {
            let mut buffer = Buffer::new();
            let _ = errors.put_all(&[b"generation ", buffer.format(number).as_bytes(), b"\n"]);
        }
        Ok(true)
    }
}

// The generation that counts, if the folder is that of a served store.
fn latest_in(dir: ReadFolder<'_>) -> Option<u32> {
    match latest_generation(dir.rt.alloc(), &GenerationFolders { dir }) {
        Ok(latest) => latest,
        Err(_) => None,
    }
}

// Why the folder of this path may not be the one that is meant: it has a base beside generations, or what should be the folder of a
// generation is none, or a generation has lost its base.
fn doubt_of(dir: ReadFolder<'_>, latest: Option<u32>) -> Result<Option<Doubt>, AllocError> {
    if has_base(dir)? {
        return Ok(latest.map(|number| Doubt::Mixed(number)));
    }
    let folders = GenerationFolders { dir };
    if let Ok(Some(number)) = misplaced(&folders) {
        return Ok(Some(Doubt::NoFolder(number)));
    }
    match lost_generation(dir.rt.alloc(), &folders, latest) {
        Ok(lost) => Ok(lost.map(|number| Doubt::Lost(number))),
        Err(_) => Ok(None),
    }
}

/// The number of a generation whose folder's name something has that is no folder, and no link that leads nowhere; `None` if there is
/// none such. Why it is none is noted.
pub fn misplaced(folders: &GenerationFolders<'_>) -> Result<Option<u32>, Refusal> {
    let dir = folders.dir;
    for number in &folders.numbers(dir.rt.alloc())? {
        let path = generation_path(dir, *number)?;
        if let Ok(found) = fs::metadata(dir.rt, path.as_str()) {
            if !found.is_dir() {
                let none = Error::from(ErrorKind::NotADirectory);
                dir.causes.note(Doing::Opening, path.as_str(), none);
                return Ok(Some(*number));
            }
        }
    }
    Ok(None)
}

// Whether the folder has a base of its own.
fn has_base(dir: ReadFolder<'_>) -> Result<bool, AllocError> {
    let path = path_in(dir.rt.alloc(), dir.path, BASE)?;
    Ok(fs::exists(dir.rt, path.as_str()).unwrap_or(true))
}

/// Whether the folder of a served store has this: the file that its process holds locked, or the folder of a generation.
pub fn is_store_file(name: &[u8]) -> bool {
    name == LOCK.as_bytes() || number_in(name).is_some()
}

/// Whether the folder is that of a served store, as far as it can be listed.
pub fn has_store(dir: ReadFolder<'_>) -> bool {
    match names_in(dir) {
        Ok(names) => names
            .split(|byte| *byte == 0)
            .any(|name| is_store_file(name)),
        Err(_) => false,
    }
}
