//! Why a run failed.
ghost use Rattle.std.specs.Prelude.{◌≡◌};
ghost use Rattle.pc_types.specs.declared.refusal.Refusal.TheVariants.{OutOfMemory};

use pc_io::Tally;
use pc_texts::FileName;
use pc_types::Refusal;
use std::alloc::{AllocError, AllocFailed};

/// Why a run failed.
#[derive(Drop)]
pub enum ThreadsFault<F> {
    /// An allocation failed, or another call was refused.
    Refused(Refusal),
    /// The file can't be made, or can't be made whole, and the folder refuses it for this reason.
    Unmade(FileName, Refusal),
    /// The device failed in a call of this file, which has counted the failure.
    Failed(Tally<F>),
    /// A thread can't be started.
    NoThread,
}

impl<F> From<Refusal> for ThreadsFault<F> {
    ghost use Rattle.pc_threads.specs.declared.fault.ThreadsFault.TheVariants.{Refused};

    ghost from_gives = { λ why fault. fault ≡ Refused why };

    fn from(why: Refusal) -> ThreadsFault<F> {
        ThreadsFault::Refused(why)
    }
}

impl<F> From<AllocError> for ThreadsFault<F> {
    ghost use Rattle.pc_threads.specs.declared.fault.ThreadsFault.TheVariants.{Refused};

    ghost from_gives = { λ _ fault. fault ≡ Refused OutOfMemory };

    fn from(_e: AllocError) -> ThreadsFault<F> {
        ThreadsFault::Refused(Refusal::OutOfMemory)
    }
}

impl<F, T: Drop> From<AllocFailed<T>> for ThreadsFault<F> {
    ghost use Rattle.pc_threads.specs.declared.fault.ThreadsFault.TheVariants.{Refused};

    ghost from_gives = { λ _ fault. fault ≡ Refused OutOfMemory };

    fn from(_e: AllocFailed<T>) -> ThreadsFault<F> {
        ThreadsFault::Refused(Refusal::OutOfMemory)
    }
}
