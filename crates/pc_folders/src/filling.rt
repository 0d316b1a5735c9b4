//! A store gets the pairs of a base: its next generation begins with them.
ghost use Rattle.std.specs.Prelude.{◌≡◌};

use crate::left::tell_left;
use crate::owner::{Leave, Owned, own};
use itoa::Buffer;
use pc_bases::Base;
use pc_disk::{
    FoundFolder, GenerationFolders, ReadFolder, generation_path, open_folder, tell_unopened,
};
use pc_io::Tally;
use pc_opening::{Succession, begin_store, merged_base};
use pc_restore::{recover_base, tell_lost};
use pc_texts::{report, report_words};
use pc_types::{MOST_KEYS, Refusal};
use std::io;
use std::io::Write;

/// The status of a filling that failed.
const FAILED: u8 = 1;

/// How many generations are kept before the one that begins.
const KEEP: u32 = 1;

/// The store that gets pairs.
#[derive(Clone, Copy)]
pub struct Filling<'a> {
    /// Its folder.
    pub dir: ReadFolder<'a>,
    /// Whether it may have pairs: those of the same keys are replaced.
    pub merges: bool,
}

/// Begins the next generation of the store, which no process may serve meanwhile, with the pairs of this base, after those that it has;
/// if it has no generation, its first one with this base. Nothing of it changes before. The number of the generation is printed on
/// the error writer, and which older ones can't be removed; or why it didn't begin; the status.
pub fn fill_store<E: Write>(
    filling: Filling<'_>,
    base: Base,
    errors: &mut Tally<E>,
) -> io::Result<u8> {
    let leave = Leave {
        creates: true,
        imports: false,
        accepts_damage: false,
    };
    match own(filling.dir, leave) {
        Ok(owned) => fill(filling, &owned, base, errors),
        Err(why) => {
            why.tell(filling.dir, errors)?;
            Ok(FAILED)
        }
    }
}

// The same of a store that is this process's own.
fn fill<E: Write>(
    filling: Filling<'_>,
    owned: &Owned<'_>,
    base: Base,
    errors: &mut Tally<E>,
) -> io::Result<u8> {
    let filled = match owned.found.latest {
        Some(number) => with_stored(filling, number, base, errors)?,
        None => Some(base),
    };
    match filled {
        Some(base) => begin(filling.dir, owned, &base, errors),
        None => Ok(FAILED),
    }
}

// The pairs of the generation of this number, with those of the base after them; none if there is no such base, which is reported.
fn with_stored<E: Write>(
    filling: Filling<'_>,
    number: u32,
    base: Base,
    errors: &mut Tally<E>,
) -> io::Result<Option<Base>> {
    let dir = filling.dir;
    let path = generation_path(dir, number)?;
    let stored = ReadFolder {
        rt: dir.rt,
        path: path.as_str(),
        causes: dir.causes,
    };
    let FoundFolder { folder, unopened } = open_folder(stored)?;
    tell_unopened(&unopened, errors);
    let stored = match recover_base(dir.rt.alloc(), folder, false, errors) {
        Ok(stored) => stored,
        Err(lost) => {
            tell_lost(path.as_bytes(), &lost, errors);
            return Ok(None);
        }
    };
    if !stored.pairs().is_empty() && !filling.merges {
        let _ = report_words(dir.path.as_bytes(), b"NotEmpty", errors);
        return Ok(None);
    }
    match merged_base(dir.rt.alloc(), stored, base) {
        Ok(merged) => Ok(Some(merged)),
        Err(why) => {
            let _ = report(dir.path.as_bytes(), why, errors);
            Ok(None)
        }
    }
}

// Begins the generation that starts from this base; the status.
fn begin<E: Write>(
    dir: ReadFolder<'_>,
    owned: &Owned<'_>,
    base: &Base,
    errors: &mut Tally<E>,
) -> io::Result<u8> {
    if base.pairs().len() > MOST_KEYS as usize {
        let _ = report(dir.path.as_bytes(), Refusal::Full, errors);
        return Ok(FAILED);
    }
    let succession = Succession {
        latest: owned.found.last(),
        keep: KEEP,
    };
    let mut folders = GenerationFolders { dir };
    let begun = begin_store(dir.rt.alloc(), &mut folders, succession, base);
    if !owned.lock.is_held() {
        let _ = report_words(dir.path.as_bytes(), b"Moved", errors);
        return Ok(FAILED);
    }
    match begun {
        Ok(begun) => {
            let mut number = Buffer::new();
            let number = number.format(begun.generation).as_bytes();
            let _ = errors.put_all(&[b"generation ", number, b"\n"]);
            tell_left(dir, begun, KEEP, errors)?;
            Ok(0)
        }
        Err(why) => {
            let _ = report(dir.path.as_bytes(), why, errors);
            Ok(FAILED)
        }
    }
}
