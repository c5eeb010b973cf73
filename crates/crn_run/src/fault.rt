//! Why the policies' runs have no result.
ghost use Rattle.std.specs.Prelude.{◌≡◌, false, IfSome, IfNone};
ghost use Rattle.crn_run.specs.Faults.{found_end, run_fault_number};
ghost use Rattle.crn_run.specs.Inner.Ends.{is_short, IsEarlyEnd};

use crate::refusal::Refusal;
use crate::worker::PolicyEnd;
use std::alloc::AllocError;
use std::error::Error;
use std::fmt;
use std::thread::SpawnError;

/// Why [`run_all`](crate::run_all) has no result.
///
/// `Memory` is returned before any thread starts, so no other fault holds then. If an early end was found and a gate answered
/// false, `Thread` is returned: the fault with the least number. The program's messages name the faults by words and not by
/// these numbers.
#[derive(Clone, Copy, Debug, PartialEq, Eq)]
pub enum RunFault {
    /// 1: a thread failed to start, or a policy's reader found the end of the ring before block `upto`.
    Thread(ThreadFault),
    /// 2: a gate answered false.
    Gate,
    /// 90: an allocation failed, before any thread was started. It carries the allocator's error.
    Memory(AllocError),
}

impl RunFault {
    /// Returns the number of the fault: 1 for a thread, 2 for a gate, 90 for out of memory.
    pub fn number(&self) -> u8
        ensures { result ≡ run_fault_number self.now }
    {
        match self {
            RunFault::Thread(_) => 1,
            RunFault::Gate => 2,
            RunFault::Memory(_) => 90,
        }
    }
}

impl fmt::Display for RunFault {
    fn fmt<W: fmt::Write>(&self, f: &mut fmt::Formatter<W>) -> fmt::Result {
        f.write_str(match self {
            RunFault::Thread(_) => "a thread was refused",
            RunFault::Gate => "a gate has held a policy",
            RunFault::Memory(_) => "out of memory",
        })
    }
}

impl Error for RunFault {}

impl From<AllocError> for RunFault {
    ghost use Rattle.crn_run.specs.declared.fault.RunFault.TheVariants.{Memory};

    ghost from_gives = { λ e f. f ≡ Memory e };

    fn from(refused: AllocError) -> RunFault {
        RunFault::Memory(refused)
    }
}

/// What kept a policy from running up to the ring's total: a thread that failed to start, or an end of the ring before its total.
/// Its field is private. It is made from the error of `spawn`, of which it keeps the evidence and not the closure, or in this
/// crate from the end of a policy's run.
#[derive(Clone, Copy, Debug, PartialEq, Eq)]
pub struct ThreadFault {
    cause: Cause,
}

// What a fault of a thread was made from.
#[derive(Clone, Copy, Debug, PartialEq, Eq)]
enum Cause {
    // The error of `spawn`.
    Refused(Refusal),
    // The end of a run whose reader found the end of the ring before this block.
    Ended(u64),
}

impl ThreadFault {
    /// Returns the block before which a policy's reader found the end of the ring, and `None` if a thread failed to start.
    pub fn ended(&self) -> Option<u64>
        ensures { result ≡ found_end self.now.cause }
    {
        match self.cause {
            Cause::Refused(_) => None,
            Cause::Ended(published) => Some(published),
        }
    }

    /// Returns the fault of a policy's run that found the end of the ring early, and `None` for each other end.
    pub(crate) fn of_end(end: &PolicyEnd) -> Option<ThreadFault>
        ensures early { IfSome result (λ t. IsEarlyEnd t end.now) }
        ensures whole { IfNone result (is_short end.now ≡ false) }
    {
        match end {
            PolicyEnd::Short {
                published,
                state: _,
                reader: _,
            } => Some(ThreadFault {
                cause: Cause::Ended(*published),
            }),
            _ => None,
        }
    }
}

impl From<ThreadFault> for RunFault {
    ghost use Rattle.crn_run.specs.declared.fault.RunFault.TheVariants.{Thread};

    ghost from_gives = { λ e f. f ≡ Thread e };

    fn from(fault: ThreadFault) -> RunFault {
        RunFault::Thread(fault)
    }
}

impl<F: Drop> From<SpawnError<F>> for ThreadFault {
    ghost use Rattle.std.specs.Prelude.{None};

    ghost from_gives = { λ _ f. found_end f.cause ≡ None };

    fn from(refused: SpawnError<F>) -> ThreadFault {
        ThreadFault {
            cause: Cause::Refused(Refusal::of(refused)),
        }
    }
}
