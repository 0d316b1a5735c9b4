//! The place of the damage in a file of a collapse or of a folder.
use crate::explaining::{Lines, Served, bytes_of};
use crate::meanings::meaning_of;
use itoa::Buffer;
use pc_bases::Base;
use pc_disk::{
    BASE, Causes, FoundFolder, LOG, PART_END, ReadFolder, names_in, open_folder, path_in,
};
use pc_faults::{TextKind, locate};
use pc_generations::{MOST_GENERATIONS, number_in};
use pc_io::Tally;
use pc_log::read_log;
use pc_part::{Part, join};
use pc_restore::{RecoveryMode, run_recover};
use pc_texts::put_name;
use pc_types::Refusal;

/// A search for the file whose fault was reported by this word.
#[derive(Clone, Copy)]
pub struct Damage<'a> {
    pub rt: &'a HostRuntime,
    pub causes: &'a Causes,
    pub word: &'a [u8],
}

impl<'a> Damage<'a> {
    /// Describes the first part with the fault, or the first that can't be joined with those before it; whether there is one.
    pub fn put_of_parts(&self, paths: &[&str], lines: &mut Lines) -> Result<bool, Refusal> {
        let mut joined: Option<Part> = None;
        for path in paths {
            let Some(part) = self.part_of(path, lines)? else {
                return Ok(true);
            };
            joined = match joined {
                None => Some(part),
                Some(before) => match join(self.rt.alloc(), &before, &part) {
                    Ok(both) => Some(both),
                    Err(why) if why.name().as_bytes() == self.word => {
                        self.put_fault(path, None, lines)?;
                        return Ok(true);
                    }
                    Err(why) => return Err(why),
                },
            };
        }
        Ok(false)
    }

    // The part of this path; `None` if its fault was reported.
    fn part_of(&self, path: &str, lines: &mut Lines) -> Result<Option<Part>, Refusal> {
        let bytes = self.bytes_of(path)?;
        match Part::decode(self.rt.alloc(), &bytes) {
            Ok(part) => Ok(Some(part)),
            Err(why) if why.name().as_bytes() == self.word => {
                self.put_text_fault(TextKind::Part, path, &bytes, lines)?;
                Ok(None)
            }
            Err(why) => Err(why),
        }
    }

    fn bytes_of(&self, path: &str) -> Result<Vec<u8>, Refusal> {
        match bytes_of(self.rt, self.causes, path) {
            Some(bytes) => Ok(bytes),
            None => Err(Refusal::Device),
        }
    }

    /// Describes the base of the folder, if it has the fault, and the files next to it, or else the log; whether one has the fault.
    pub fn put_of_folder(&self, dir: &str, lines: &mut Lines) -> Result<bool, Refusal> {
        let alloc = self.rt.alloc();
        let path = path_in(alloc, dir, BASE)?;
        let bytes = self.bytes_of(path.as_str())?;
        if let Some(why) = Base::decode(alloc, &bytes).err() {
            if why.name().as_bytes() != self.word {
                return Err(why);
            }
            self.put_text_fault(TextKind::Base, path.as_str(), &bytes, lines)?;
            self.put_beside(dir, lines)?;
            return Ok(true);
        }
        let path = path_in(alloc, dir, LOG)?;
        let bytes = self.bytes_of(path.as_str())?;
        let has_fault = match read_log(alloc, &bytes).err() {
            None => self.word == b"OtherRun".as_slice(),
            Some(why) => why.name().as_bytes() == self.word,
        };
        if has_fault {
            self.put_fault(path.as_str(), None, lines)?;
        }
        Ok(has_fault)
    }

    /// Prints why the next generation of the store can't begin, if it is refused with `Full`; whether it is: its folder has the last
    /// one, or it has more pairs than there is room for, or else its run has the greatest number.
    pub fn put_of_store(&self, store: Served<'_>, lines: &mut Lines) -> Result<bool, Refusal> {
        if self.word != b"Full".as_slice() {
            return Ok(false);
        }
        if self.has_last_generation(store.dir)? {
            lines.put(
                b"  no generation follows the last one, 9999999: go on in another folder, by --create --import ",
            )?;
            put_name(lines, store.dir.as_bytes())?;
            lines.put(b"\n")?;
            return Ok(true);
        }
        match self.pairs_of(store.from)? {
            Some(pairs) if number_of(&pairs) <= u64::from(store.capacity) => {
                lines.put(b"  no run follows the last one, 18446744073709551615\n")?;
                Ok(true)
            }
            _ => self.put_of_start(store.from, store.capacity, lines),
        }
    }

    // Whether the folder of a served store has the last generation that there is.
    fn has_last_generation(&self, dir: &str) -> Result<bool, Refusal> {
        let folder = ReadFolder {
            rt: self.rt,
            path: dir,
            causes: self.causes,
        };
        let names = names_in(folder)?;
        Ok(
            names
                .split(|byte| *byte == 0)
                .any(|name| number_in(name) == Some(MOST_GENERATIONS)),
        )
    }

    /// Prints how many pairs are recovered from the folder, from which a run starts, and for how many keys its store has room, if
    /// the run is refused for that; whether it is.
    pub fn put_of_start(
        &self,
        dir: &str,
        capacity: u32,
        lines: &mut Lines,
    ) -> Result<bool, Refusal> {
        let Some(pairs) = self.pairs_of(dir)? else {
            return Ok(false);
        };
        let mut buffer = Buffer::new();
        lines.put(b"  ")?;
        put_name(lines, dir.as_bytes())?;
        lines.put_all(&[b" is recovered to ", &pairs, b" pairs, and --capacity is "])?;
        lines.put_all(&[buffer.format(capacity).as_bytes(), b"\n"])?;
        Ok(true)
    }

    // The number of the pairs recovered from the folder, in digits, if the fault may be that they are too many.
    fn pairs_of(&self, dir: &str) -> Result<Option<Vec<u8>>, Refusal> {
        if self.word != b"Full".as_slice() {
            return Ok(None);
        }
        let alloc = self.rt.alloc();
        let FoundFolder { folder, .. } = open_folder(ReadFolder {
            rt: self.rt,
            path: dir,
            causes: self.causes,
        })?;
        let mut out = Tally::new(Vec::new(alloc));
        let mut errors = Tally::new(Vec::new(alloc));
        let mode = RecoveryMode {
            is_strict: false,
            has_pairs: false,
        };
        run_recover(alloc, dir, folder, mode, &mut out, &mut errors);
        let text = out.into_inner();
        for line in text.split(|byte| *byte == b'\n') {
            if let Some(digits) = line.strip_prefix(b"pairs ") {
                return Ok(Some(Vec::from_slice(alloc, digits)?));
            }
        }
        Ok(None)
    }

    // The files next to a damaged base.
    fn put_beside(&self, dir: &str, lines: &mut Lines) -> Result<(), Refusal> {
        let folder = ReadFolder {
            rt: self.rt,
            path: dir,
            causes: self.causes,
        };
        let names = names_in(folder)?;
        for name in names.split(|byte| *byte == 0) {
            if name == LOG.as_bytes() || name.ends_with(PART_END) {
                lines.put(b"  beside it stands ")?;
                put_name(lines, name)?;
                lines.put(b"\n")?;
            }
        }
        Ok(())
    }

    // Describes the fault of a text, and its place.
    fn put_text_fault(
        &self,
        kind: TextKind,
        path: &str,
        bytes: &[u8],
        lines: &mut Lines,
    ) -> Result<(), Refusal> {
        match locate(self.rt.alloc(), kind, bytes)? {
            Some(fault) => self.put_fault(path, Some(fault.bytes), lines),
            None => Ok(()),
        }
    }

    // The line of a fault of the file, and, if it is known, with which byte it is seen.
    fn put_fault(
        &self,
        path: &str,
        bytes: Option<usize>,
        lines: &mut Lines,
    ) -> Result<(), Refusal> {
        lines.put(b"  reading ")?;
        put_name(lines, path.as_bytes())?;
        if let Some(bytes) = bytes {
            let mut buffer = Buffer::new();
            lines.put_all(&[b", byte ", buffer.format(bytes).as_bytes()])?;
        }
        let meaning = meaning_of(self.word).unwrap_or(self.word);
        lines.put_all(&[b": ", meaning, b"\n"])
    }
}

// The number that these digits write.
fn number_of(digits: &[u8]) -> u64 {
    let mut number = 0u64;
    for digit in digits {
        let value = u64::from(digit.saturating_sub(b'0'));
        number = number.saturating_mul(10).saturating_add(value);
    }
    number
}
