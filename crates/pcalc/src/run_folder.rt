//! The folder in which a run makes its files: it is claimed before anything else is done, and no other process can claim it.
use pc_disk::{
    BASE, Causes, Doing, LOG, Noted, ReadFolder, Target, is_run_file, names_in, path_in,
    sync_folder,
};
use pc_folders::{BaseHead, LOG_HEAD, head_log, is_store_file};
use pc_runs::{NewFiles, RunFolder, Unusable};
use pc_texts::{FileName, part_name};
use pc_types::Refusal;
use std::alloc::AllocError;
use std::fs::File;
use std::io::{BufWriter, ErrorKind, Write};
use std::string::String;
use std::sync::atomic::{AtomicBool, Ordering};
use std::{fs, io};

// How many bytes of a run's file are kept before they go out.
const ROOM: usize = 65_536;

/// A run's hold on its folder: the log, which it has made there before all else, and which is locked as long as this value lives.
#[derive(Drop)]
pub struct Claim<'a> {
    dir: ReadFolder<'a>,
    // Whether what is written to the folder's files, and the names that they get, is to reach its device.
    is_synced: bool,
    // The log, which this run has made, or why it has not.
    log: Result<ClaimedLog, Unmade>,
    // Whether the log has its header, which comes before the base's name: a folder with a base and a log without one is damaged.
    is_headed: AtomicBool,
    // Whether the base is in the folder: from then on there is something to recover.
    has_begun: AtomicBool,
}

// The log's file, and its path.
#[derive(Drop)]
struct ClaimedLog {
    file: File,
    path: String,
}

impl ClaimedLog {
    // The folder has no log any more.
    fn remove(&self, rt: &HostRuntime) {
        let _ = fs::remove_file(rt, self.path.as_str());
    }
}

// Why a run has not made the log.
#[derive(Drop)]
enum Unmade {
    // The folder has files of a run, or can't be listed.
    Unusable(Unusable),
    // The log can't be made.
    Failed(Refusal),
}

impl<'a> Claim<'a> {
    /// Claims the folder for a run: makes the log, if there is none, and no other file of a run. It is an error only if an
    /// allocation failed.
    pub fn new(dir: ReadFolder<'a>, is_synced: bool) -> Result<Claim<'a>, AllocError> {
        let log = claim_folder(dir)?;
        Ok(Claim {
            dir,
            is_synced,
            log,
            is_headed: AtomicBool::new(false),
            has_begun: AtomicBool::new(false),
        })
    }

    /// The folder, for the files of the run, or why it can't be used. It is an error only if an allocation failed.
    pub fn folder<'b>(&'b self) -> Result<RunFolder<NewFolder<'b>>, AllocError> {
        let name = Vec::from_slice(self.dir.rt.alloc(), self.dir.path.as_bytes())?;
        let files = match &self.log {
            Err(Unmade::Unusable(why)) => Err(*why),
            _ => Ok(NewFolder {
                claim: self,
                made: None,
            }),
        };
        Ok(RunFolder { name, files })
    }

    /// The run has ended. If it ended before its base was in the folder, the folder is left as it was.
    pub fn end(self) {
        if self.has_begun.load(Ordering::SeqCst) {
            return;
        }
        if let Ok(log) = &self.log {
            log.remove(self.dir.rt);
        }
    }

    /// The log gets the header of the run of this number, unless it has one. If the folder is synced, it reaches the device.
    pub fn head_log(&self, run: u64) -> Result<(), Refusal> {
        let log = match &self.log {
            Ok(log) => log,
            Err(Unmade::Failed(why)) => return Err(*why),
            Err(Unmade::Unusable(_)) => return Err(Refusal::Device),
        };
        if self.is_headed.swap(true, Ordering::SeqCst) {
            return Ok(());
        }
        let alloc = self.dir.rt.alloc();
        let path = String::from_str(alloc, log.path.as_str())?;
        let Ok(file) = log.file.try_clone() else {
            return Err(Refusal::Device);
        };
        let mut file = Noted::new(file, path, self.dir.causes);
        head_log(alloc, &mut file, run, self.is_synced)
    }
}

// Makes the log and locks it, if the folder has no file of a run.
fn claim_folder(dir: ReadFolder<'_>) -> Result<Result<ClaimedLog, Unmade>, AllocError> {
    if let Err(why) = look(dir, false) {
        return Ok(Err(Unmade::Unusable(why)));
    }
    let path = path_in(dir.rt.alloc(), dir.path, LOG)?;
    let file = match File::create_new(dir.rt, path.as_str()) {
        Ok(file) => file,
        Err(e) if e.kind() == ErrorKind::AlreadyExists => {
            return Ok(Err(Unmade::Unusable(Unusable::NotEmpty)));
        }
        Err(e) => {
            let why = dir.causes.note_unmade(Doing::Making, path.as_str(), e);
            return Ok(Err(Unmade::Failed(why)));
        }
    };
    // A file system may have no locks: the file's name is a hold too.
    let _ = file.try_lock();
    let log = ClaimedLog { file, path };
    if let Err(why) = look(dir, true) {
        log.remove(dir.rt);
        return Ok(Err(Unmade::Unusable(why)));
    }
    Ok(Ok(log))
}

// Whether the folder can be used: it can be listed, and has no file of a run but its log, if that is this run's own, and none of a
// served store.
fn look(dir: ReadFolder<'_>, has_log: bool) -> Result<(), Unusable> {
    let names = match names_in(dir) {
        Ok(names) => names,
        Err(why) => return Err(Unusable::Unlisted(why)),
    };
    for name in names.split(|byte| *byte == 0) {
        let is_own = has_log && name == LOG.as_bytes();
        if is_store_file(name) || is_run_file(name) && !is_own {
            return Err(Unusable::NotEmpty);
        }
    }
    Ok(())
}

/// A folder in which a run makes its files. If it is dropped, what isn't whole of them goes.
pub struct NewFolder<'a> {
    claim: &'a Claim<'a>,
    // The file that is made just now, if it is made apart.
    made: Option<Target<'a>>,
}

impl Drop for NewFolder<'_> {
    fn drop(self) {
        let NewFolder { claim: _, made } = self;
        if let Some(target) = made {
            let mut target = target;
            target.discard();
        }
    }
}

impl<'a> NewFolder<'a> {
    // The path of the file once it is whole.
    fn path_of(&self, name: &FileName) -> Result<String, Refusal> {
        let claim = self.claim;
        let dir = claim.dir;
        let alloc = dir.rt.alloc();
        let path = match name {
            FileName::Base => path_in(alloc, dir.path, BASE)?,
            FileName::Log => path_in(alloc, dir.path, LOG)?,
            FileName::Part(point) => {
                let bytes = part_name(*point);
                let Ok(name) = str::from_utf8(&bytes) else {
                    return Err(Refusal::Device);
                };
                path_in(alloc, dir.path, name)?
            }
        };
        Ok(path)
    }

    // The log, which was made when the folder was claimed.
    fn claimed_log(&self) -> io::Result<File> {
        let claim = self.claim;
        match &claim.log {
            Ok(log) => {
                if claim.is_synced {
                    sync_folder(claim.dir.rt, claim.dir.path)?;
                }
                log.file.try_clone()
            }
            Err(_) => Err(io::Error::from(ErrorKind::Other)),
        }
    }

    fn make_log(&self, path: String) -> Result<Noted<'a, File>, Refusal> {
        let claim = self.claim;
        if let Err(Unmade::Failed(why)) = &claim.log {
            return Err(*why);
        }
        match self.claimed_log() {
            Ok(file) => Ok(Noted::new(file, path, claim.dir.causes)),
            Err(e) => {
                let causes = claim.dir.causes;
                Err(causes.note_unmade(Doing::Making, path.as_str(), e))
            }
        }
    }

    fn make_apart(&mut self, path: String) -> Result<Noted<'a, File>, Refusal> {
        let claim = self.claim;
        let dir = claim.dir;
        let mut target = Target::new(dir.rt, dir.causes, path);
        let file = target.make()?;
        self.made = Some(target);
        Ok(file)
    }
}

// No contract knows the contents of a disk.
impl<'a> NewFiles<RunFile<'a>> for NewFolder<'a> {
    ghost use Rattle.std.specs.Prelude.{⊤, None};

    ghost holds = { λ folder name text. ⊤ };

    ghost refuses = { λ folder name why. ⊤ };

    ghost blank = { None };

    fn make(&mut self, name: &FileName) -> Result<RunFile<'a>, Refusal> {
        let path = self.path_of(name)?;
        let claim = self.claim;
        let mut there = 0;
        let file = match name {
            FileName::Log => {
                if claim.is_headed.swap(true, Ordering::SeqCst) {
                    there = LOG_HEAD;
                }
                self.make_log(path)?
            }
            _ => self.make_apart(path)?,
        };
        // A base is written once, and all else rests on it.
        let is_synced = claim.is_synced || matches!(name, FileName::Base);
        match BufWriter::with_capacity(claim.dir.rt.alloc(), ROOM, file) {
            Ok(kept) => Ok(RunFile {
                kept,
                is_synced,
                there,
                head: BaseHead::new(),
            }),
            Err(_) => Err(Refusal::OutOfMemory),
        }
    }

    fn finish(&mut self, name: &FileName, file: RunFile<'a>) -> Result<(), Refusal> {
        let Some(target) = &mut self.made else {
            return Ok(());
        };
        if matches!(name, FileName::Log) {
            return Ok(());
        }
        let RunFile {
            kept,
            is_synced,
            head,
            ..
        } = file;
        if matches!(name, FileName::Base) {
            let claim = self.claim;
            claim.head_log(head.run())?;
        }
        target.finish(kept.get_ref(), is_synced)?;
        self.made = None;
        if matches!(name, FileName::Base) {
            let claim = self.claim;
            claim.has_begun.store(true, Ordering::SeqCst);
        }
        Ok(())
    }
}

/// A file of a run.
#[derive(Drop)]
pub struct RunFile<'a> {
    kept: BufWriter<Noted<'a, File>>,
    // Whether what was written reaches the device if it is flushed.
    is_synced: bool,
    // How many of the bytes that are written first are in the file already: those of a log's header.
    there: usize,
    // Its head, if it is a base.
    head: BaseHead,
}

impl<'a> Write for RunFile<'a> {
    fn write(&mut self, buf: &[u8]) -> io::Result<usize> {
        if self.there > 0 {
            let count = self.there.min(buf.len());
            self.there -= count;
            return Ok(count);
        }
        let count = self.kept.write(buf)?;
        self.head.note(&buf[..count]);
        Ok(count)
    }

    fn flush(&mut self) -> io::Result<()> {
        self.kept.flush()?;
        if self.is_synced {
            self.kept.get_ref().sync()
        } else {
            Ok(())
        }
    }
}
