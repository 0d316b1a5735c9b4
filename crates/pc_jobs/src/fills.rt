//! The transactions of a fill, made one by one in one place.
ghost use Rattle.std.specs.Prelude.{◌≡◌, ◌⊎◌, ◌<◌, ◌+◌, length, IfErr, OnErr, OnOk};
ghost use Rattle.pc_types.specs.declared.limits.TheConstants.{SPACE_BYTES};
ghost use Rattle.pc_jobs.specs.Jobs.{job_of, fill_key};

use crate::works::{Fill, Job, Op};
use pc_types::{Items, Key, Refusal};
use std::alloc::Global;
use std::marker::Model;

/// A transaction of one operation, which is made anew, in its place, for each transaction of a fill. Contracts see the transaction
/// that it is now.
#[derive(Drop)]
pub struct FillJob {
    job: Job,
}

impl Model for FillJob {
    ghost use Rattle.std.specs.Prelude.{◌≡◌, length};
    ghost use Rattle.pc_jobs.specs.declared.works.Job.{Job};

    ghost Value = { Job };

    ghost view = { λ f. f.job };

    ghost invariant = { λ f. length f.job.ops ≡ 1 };
}

impl FillJob {
    /// A transaction of one operation, whichever, until it is made a fill's. Refuses only with `OutOfMemory`.
    pub fn new(alloc: Global) -> Result<FillJob, Refusal>
        ensures { IfErr result (λ e. e ≡ Refusal.OutOfMemory) }
    {
        let key = Key::new(alloc, b"-")?;
        let mut ops = Items::new(alloc);
        ops.push(Op::Get(key))?;
        Ok(FillJob { job: Job { ops } })
    }

    /// Makes it the fill's transaction of this number: one put, of the fill's value under its prefix with the number after it, of
    /// which the last six decimal digits are written, zeros first. Refuses only with `OutOfMemory`, and only if the key has more
    /// than 16 bytes of its own, or the value more than 16; then it stays as it was.
    pub fn set(&mut self, alloc: Global, fill: &Fill, number: u32) -> Result<(), Refusal>
        ensures job { OnOk result (self.new ≡ job_of fill.now number) }
        ensures same { OnErr result (self.new ≡ self.old) }
        ensures refusals { IfErr result (λ e. (e ≡ Refusal.OutOfMemory) × ((SPACE_BYTES + 16 < length (fill_key fill.now number)) ⊎ (16 < length fill.now.value))) }
    {
        let key = fill.prefix.key(alloc, number)?;
        let value = fill.value.copy(alloc)?;
        self.job.ops.set(0, Op::Put(key, value));
        Ok(())
    }

    /// The transaction that it is now.
    pub fn as_job(&self) -> &Job
        ensures { result.now ≡ self.now }
    {
        &self.job
    }
}
