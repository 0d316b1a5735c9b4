//! The destination of a served store's log.
use std::io;

/// A device that a log is appended to. Contracts see what was written to it, and of that what comes back whatever is killed, or, if
/// `sync` reaches the disk, whatever fails; nothing is said of a device of which that isn't known.
pub trait LogDevice {
    ghost use Rattle.std.specs.Prelude.{◌≡◌, ℕ, List, Option, IfOk, OnOk, OnErr};
    ghost use Rattle.std.specs.Io.KnownBytes.{Appends};
    ghost use Rattle.pc_io.specs.Counted.{AppendsBeginning};
    ghost use Rattle.pc_turn.specs.Devices.{Grows};

    // All that was written.
    ghost written: { Self → Option (List ℕ) };

    // The bytes that come back at the least.
    ghost kept: { Self → Option (List ℕ) };

    /// Writes the bytes after what was written. On an error a prefix of them was.
    fn append(&mut self, bytes: &[u8]) -> io::Result<()>
        ensures whole { OnOk result (Appends (written self.old) (written self.new) bytes.now) }
        ensures part { OnErr result (AppendsBeginning (written self.old) (written self.new) bytes.now) }
        ensures kept { Grows (kept self.old) (kept self.new) };

    /// All that was written is kept.
    fn sync(&mut self) -> io::Result<()>
        ensures same { written self.new ≡ written self.old }
        ensures all { OnOk result (kept self.new ≡ written self.new) }
        ensures kept { Grows (kept self.old) (kept self.new) };
}
