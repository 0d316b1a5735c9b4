//! The files of points of a store that is served, on the disk.
use pc_disk::{Noted, ReadFolder, Target, path_in};
use pc_folders::FolderLock;
use pc_io::Tally;
use pc_part::Part;
use pc_server::PointFiles;
use pc_texts::part_name;
use pc_types::{Point, Refusal};
use std::fs::File;
use std::io::{BufWriter, Write};

/// The number of bytes of a file written at a time.
const ROOM: usize = 65_536;

/// The folder of a generation, in which each point has a file, which has its name once it is whole.
#[derive(Drop)]
pub struct DiskPoints<'a> {
    pub dir: ReadFolder<'a>,
    /// By which the folder of the store is this process's own.
    pub lock: &'a FolderLock<'a>,
    /// The folder's path.
    pub folder: &'a str,
    /// Whether to sync a file to the disk before it gets its name.
    pub is_synced: bool,
}

impl<'a> DiskPoints<'a> {
    // Writes the file of this point under its name, if the folder is still this process's own.
    fn write(&self, point: Point, file: &Part) -> Result<(), Refusal> {
        if !self.lock.is_held() {
            return Err(Refusal::Device);
        }
        let alloc = self.dir.rt.alloc();
        let bytes = part_name(point);
        // A name of letters and digits is UTF-8.
        let path = path_in(alloc, self.folder, str::from_utf8(&bytes).unwrap_or(""))?;
        let mut target = Target::new(self.dir.rt, self.dir.causes, path);
        let written = self.fill(&mut target, file);
        target.discard();
        written
    }

    fn fill(&self, target: &mut Target<'a>, file: &Part) -> Result<(), Refusal> {
        let made = target.make()?;
        let kept = match BufWriter::with_capacity(self.dir.rt.alloc(), ROOM, made) {
            Ok(kept) => kept,
            Err(_) => return Err(Refusal::OutOfMemory),
        };
        let mut out = Tally::new(kept);
        file.encode(&mut out)?;
        let mut kept = out.into_inner();
        match kept.flush() {
            Ok(()) => target.finish(kept.get_ref(), self.is_synced),
            Err(_) => Err(Refusal::Device),
        }
    }
}

// No contract knows the contents of a disk.
impl<'a> PointFiles for DiskPoints<'a> {
    ghost use Rattle.std.specs.Prelude.{⊤};

    ghost holds = { λ points point text. ⊤ };

    fn keep(&mut self, file: &Part) -> Result<(), Refusal> {
        match file.ranges().first() {
            Some(range) => self.write(range.low, file),
            None => Err(Refusal::NoFile),
        }
    }
}
