//! Why the threads of a run stop before its end.
ghost use Rattle.std.specs.Prelude.{◌≡◌};
ghost use Rattle.pc_threads.specs.Faults.{stop_of};

use crate::clients::Ran;
use crate::fault::ThreadsFault;
use crate::points::{FullLog, PointsFault};
use pc_tie::StoreName;
use pc_types::Refusal;
use std::alloc::{AllocError, AllocFailed};

/// Why the threads of a run have stopped before its end: the log has no place left for the tokens of a point, after the clients have
/// run; a client has found the end of the log before its own; or another fault.
#[derive(Drop)]
pub enum ThreadsStop<N: StoreName, F> {
    LogFull(FullLog<N>, Ran<N>),
    LogEnded,
    Other(ThreadsFault<F>),
}

// Why the clients of a worker have stopped: `Device` if one of them has found the end of the log before its own.
#[derive(Clone, Copy)]
pub(crate) struct WorkersStop {
    pub(crate) why: Refusal,
}

impl From<Refusal> for WorkersStop {
    ghost use Rattle.std.specs.Prelude.{◌≡◌};

    ghost from_gives = { λ why stop. stop ≡ record { why = why } };

    fn from(why: Refusal) -> WorkersStop {
        WorkersStop { why }
    }
}

impl<N: StoreName, F> From<WorkersStop> for ThreadsStop<N, F> {
    ghost use Rattle.std.specs.Prelude.{◌≡◌};
    ghost use Rattle.pc_threads.specs.Faults.{stop_of_workers};

    ghost from_gives = { λ given stop. stop ≡ stop_of_workers given.why };

    fn from(given: WorkersStop) -> ThreadsStop<N, F> {
        match given.why {
            Refusal::Device => ThreadsStop::LogEnded,
            why => ThreadsStop::Other(ThreadsFault::Refused(why)),
        }
    }
}

impl<N: StoreName, F> ThreadsStop<N, F> {
    // The points are not all taken for this cause, and these clients have run.
    pub(crate) fn with_clients(fault: PointsFault<N, F>, ran: Ran<N>) -> ThreadsStop<N, F>
        ensures { result ≡ stop_of fault ran }
    {
        match fault {
            PointsFault::LogFull(full) => ThreadsStop::LogFull(full, ran),
            PointsFault::Other(why) => ThreadsStop::Other(why),
        }
    }
}

impl<N: StoreName, F> From<ThreadsFault<F>> for ThreadsStop<N, F> {
    ghost use Rattle.std.specs.Prelude.{◌≡◌};
    ghost use Rattle.pc_threads.specs.declared.stop.ThreadsStop.TheVariants.{Other};

    ghost from_gives = { λ why stop. stop ≡ Other why };

    fn from(why: ThreadsFault<F>) -> ThreadsStop<N, F> {
        ThreadsStop::Other(why)
    }
}

impl<N: StoreName, F> From<Refusal> for ThreadsStop<N, F> {
    ghost use Rattle.std.specs.Prelude.{◌≡◌};
    ghost use Rattle.pc_threads.specs.declared.fault.ThreadsFault.TheVariants.{Refused};
    ghost use Rattle.pc_threads.specs.declared.stop.ThreadsStop.TheVariants.{Other};

    ghost from_gives = { λ why stop. stop ≡ Other (Refused why) };

    fn from(why: Refusal) -> ThreadsStop<N, F> {
        ThreadsStop::Other(ThreadsFault::Refused(why))
    }
}

impl<N: StoreName, F> From<AllocError> for ThreadsStop<N, F> {
    ghost use Rattle.std.specs.Prelude.{◌≡◌};
    ghost use Rattle.pc_types.specs.declared.refusal.Refusal.TheVariants.{OutOfMemory};
    ghost use Rattle.pc_threads.specs.declared.fault.ThreadsFault.TheVariants.{Refused};
    ghost use Rattle.pc_threads.specs.declared.stop.ThreadsStop.TheVariants.{Other};

    ghost from_gives = { λ _ stop. stop ≡ Other (Refused OutOfMemory) };

    fn from(e: AllocError) -> ThreadsStop<N, F> {
        ThreadsStop::Other(ThreadsFault::from(e))
    }
}

impl<N: StoreName, F, T: Drop> From<AllocFailed<T>> for ThreadsStop<N, F> {
    ghost use Rattle.std.specs.Prelude.{◌≡◌};
    ghost use Rattle.pc_types.specs.declared.refusal.Refusal.TheVariants.{OutOfMemory};
    ghost use Rattle.pc_threads.specs.declared.fault.ThreadsFault.TheVariants.{Refused};
    ghost use Rattle.pc_threads.specs.declared.stop.ThreadsStop.TheVariants.{Other};

    ghost from_gives = { λ _ stop. stop ≡ Other (Refused OutOfMemory) };

    fn from(e: AllocFailed<T>) -> ThreadsStop<N, F> {
        ThreadsStop::Other(ThreadsFault::from(e))
    }
}
