//! Files by their paths: the part files that a collapse reads, and the one that it makes.
use pc_collapse_files::Maker;
use pc_disk::{Causes, Doing, LateFile, Noted, Target};
use pc_texts::NamedFile;
use pc_types::Refusal;
use std::fs::File;
use std::io::Read;
use std::os::unix::fs::MetadataExt;
use std::string::String;
use std::{fs, io};

/// The number of bytes that a magic has.
const MAGIC: usize = 8;

/// The magics of part files.
const PART_MAGICS: [&[u8]; 2] = [b"PCALCP01", b"PCALCP02"];

// Of no more inputs each stays open while it is read, so that a join is made in the memory of a piece of each. A process may have some
// 1,024 files open.
const MOST_OPEN: usize = 512;

/// The part files of a collapse, by their paths.
#[derive(Clone, Copy)]
pub struct Inputs<'a> {
    pub rt: &'a HostRuntime,
    pub causes: &'a Causes,
    pub paths: &'a [&'a str],
}

// An input, and whether it is a plain file.
#[derive(Drop)]
struct Input<'a> {
    file: NamedFile<LateFile<'a>>,
    is_plain: bool,
}

impl<'a> Inputs<'a> {
    /// Whether one of them has this path.
    pub fn has(&self, path: &str) -> bool {
        self.paths.iter().any(|input| *input == path)
    }

    /// The files. Each is opened when it is first read. If they are many, or one is no plain file, as a pipe, whose writer may wait
    /// until all of it is read, it is read whole before, unless one can't be opened or has the name of the target. It is an error only
    /// if an allocation failed.
    pub fn open(&self, target: &str) -> Result<Vec<NamedFile<LateFile<'a>>>, Refusal> {
        let mut inputs = Vec::new(self.rt.alloc());
        let mut is_read = !self.has(target);
        for path in self.paths {
            let input = self.find(path)?;
            is_read = is_read && input.file.opened.is_ok();
            inputs.push(input)?;
        }
        let is_few = self.paths.len() <= MOST_OPEN;
        let mut files = Vec::new(self.rt.alloc());
        for input in inputs {
            let Input { file, is_plain } = input;
            let is_whole = is_read && !(is_few && is_plain);
            files.push(if is_whole { read_whole(file)? } else { file })?;
        }
        Ok(files)
    }

    // The file, or why it can't be opened. Of a plain file that is tried before it is read, which changes nothing of it; what isn't
    // one, as a pipe, which is gone once it was opened and closed, is opened when it is read alone.
    fn find(&self, path: &str) -> Result<Input<'a>, Refusal> {
        let alloc = self.rt.alloc();
        let name = Vec::from_slice(alloc, path.as_bytes())?;
        let (is_plain, tried) = match fs::metadata(self.rt, path) {
            Ok(found) if found.is_file() => (true, fs::open(self.rt, path).err()),
            Ok(_) => (false, None),
            Err(e) => (false, Some(e)),
        };
        let opened = match tried {
            None => Ok(LateFile::new(self.rt, self.causes, String::from_str(alloc, path)?)),
            Some(e) => Err(self.causes.note_unread(Doing::Opening, path, e)),
        };
        let file = NamedFile { name, opened };
        Ok(Input { file, is_plain })
    }
}

// The file, all of whose bytes are read, if it can be opened.
fn read_whole(file: NamedFile<LateFile<'_>>) -> Result<NamedFile<LateFile<'_>>, Refusal> {
    let NamedFile { name, opened } = file;
    let opened = match opened {
        Ok(late) => Ok(late.read_whole()?),
        Err(why) => Err(why),
    };
    Ok(NamedFile { name, opened })
}

/// The file of this path, open, or why it can't be opened.
pub fn open_named<'a>(
    rt: &HostRuntime,
    causes: &'a Causes,
    path: &str,
) -> Result<Noted<'a, File>, Refusal> {
    let named = String::from_str(rt.alloc(), path)?;
    match fs::open(rt, path) {
        Ok(file) => Ok(Noted::new(file, named, causes)),
        Err(e) => Err(causes.note_unread(Doing::Opening, path, e)),
    }
}

/// Whether both paths lead to one file or folder.
pub fn is_same_file(rt: &HostRuntime, one: &str, other: &str) -> bool {
    match (fs::metadata(rt, one), fs::metadata(rt, other)) {
        (Ok(one), Ok(other)) => one.dev() == other.dev() && one.ino() == other.ino(),
        _ => false,
    }
}

/// Whether a file of this path is there that has bytes and doesn't begin as a part file does: it isn't written over. What is no plain
/// file counts as none.
pub fn is_other_file(rt: &HostRuntime, causes: &Causes, path: &str) -> Result<bool, Refusal> {
    match fs::metadata(rt, path) {
        Ok(found) if found.is_file() && found.len() > 0 => {}
        _ => return Ok(false),
    }
    match magic_of(rt, path) {
        Ok(magic) => Ok(!PART_MAGICS.contains(&magic.as_slice())),
        Err(e) => Err(causes.note_unread(Doing::Reading, path, e)),
    }
}

// The first bytes of a file, as many as a magic has.
fn magic_of(rt: &HostRuntime, path: &str) -> io::Result<Vec<u8>> {
    let mut magic = Vec::new(rt.alloc());
    fs::open(rt, path)?
        .take(MAGIC as u64)
        .read_to_end(&mut magic)?;
    Ok(magic)
}

/// The file that a collapse makes.
#[derive(Drop)]
pub struct JoinedFile<'a> {
    pub target: Target<'a>,
}

// No contract knows the contents of a disk.
impl<'a> Maker<Noted<'a, File>> for JoinedFile<'a> {
    ghost use Rattle.std.specs.Prelude.{⊤};

    ghost stands = { λ file text. ⊤ };

    fn make(&mut self) -> Result<Noted<'a, File>, Refusal> {
        self.target.make()
    }

    fn finish(&mut self, file: Noted<'a, File>) -> Result<(), Refusal> {
        match self.target.finish(&file, true) {
            Ok(()) => Ok(()),
            Err(why) => Err(why),
        }
    }
}
