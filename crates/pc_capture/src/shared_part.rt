//! Parts that are shared by reference count.
ghost use Rattle.std.specs.Prelude.{◌≡◌, ◌≤◌, [], length, IfOk, IfErr, OnOk, OnErr};
ghost use Rattle.pc_model.specs.Sets as set;
ghost use Rattle.pc_model.specs.Files.{triples_taken};
ghost use Rattle.pc_part.specs.Parts.{IsWithinLimit};

use pc_part::Part;
use pc_taken::Taken;
use pc_types::{Point, Refusal};
use std::alloc::Global;
use std::marker::Model;
use std::sync::Arc;

/// An owner of a part that others may own too, in any threads: at most 9,223,372,036,854,775,807 of one part. The part
/// goes with its last owner. A contract sees the part's file.
#[derive(Drop)]
pub struct SharedPart {
    part: Arc<Part>,
}

impl Model for SharedPart {
    ghost use Rattle.std.specs.Arc.{arc_value};
    ghost use Rattle.pc_model.specs.Files.{File};
    ghost use Rattle.pc_part.specs.Parts.{file_code};

    ghost Value = { File };

    ghost coded = { file_code };

    ghost view = { λ s. arc_value s.part };
}

impl SharedPart {
    /// The part, with one owner. Refuses with `OutOfMemory` alone; the part is let go then, so whoever may have to ask
    /// again keeps what it was made of.
    pub fn new(alloc: Global, part: Part) -> Result<SharedPart, Refusal>
        ensures part { IfOk result (λ shared. shared ≡ part) }
        ensures memory { IfErr result (λ e. e ≡ Refusal.OutOfMemory) }
    {
        match Arc::new(alloc, part) {
            Ok(part) => Ok(SharedPart { part }),
            Err(_) => Err(Refusal::OutOfMemory),
        }
    }

    /// The part of the point, made of its captured entries, with one owner, and the number of its entries: the captured entries
    /// become the part's in place, and nothing is left of them where they were. So it takes constant time, however many keys
    /// were taken. It is at most as much as a file may have. All memory is allocated before anything is moved. Refuses with
    /// `OutOfMemory` alone; the captured entries are then as they were.
    pub fn of_taken(
        alloc: Global,
        run: u64,
        point: Point,
        taken: &mut Taken,
    ) -> Result<(SharedPart, u32), Refusal>
        requires point { 1 ≤ point }
        requires limit { IsWithinLimit taken.old }
        ensures part { IfOk result (λ made. made.0 ≡ record { run = run; points = set.insert set.empty point; triples = triples_taken point taken.old }) }
        ensures count { IfOk result (λ made. made.1 ≡ length taken.old) }
        ensures moved { OnOk result (taken.new ≡ []) }
        ensures kept { OnErr result (taken.new ≡ taken.old) }
        ensures memory { IfErr result (λ e. e ≡ Refusal.OutOfMemory) }
    {
        let part = Part::empty(alloc, run, point)?;
        let mut shared = SharedPart::new(alloc, part)?;
        let Some(part) = Arc::get_mut(&mut shared.part) else {
            return Err(Refusal::OutOfMemory);
        };
        let count = taken.len() as u32;
        part.take_over(point, taken.move_out());
        Ok((shared, count))
    }

    /// One more owner of the same part. It takes constant time and no memory, and copies nothing. Refuses with `OutOfMemory`
    /// alone, which here means the greatest number of owners.
    pub fn again(&self) -> Result<SharedPart, Refusal>
        ensures same { IfOk result (λ shared. shared ≡ self.now) }
        ensures owners { IfErr result (λ e. e ≡ Refusal.OutOfMemory) }
    {
        match Arc::try_clone(&self.part) {
            Ok(part) => Ok(SharedPart { part }),
            Err(_) => Err(Refusal::OutOfMemory),
        }
    }

    /// The part.
    pub fn part(&self) -> &Part
        ensures { result.now ≡ self.now }
    {
        &*self.part
    }
}
