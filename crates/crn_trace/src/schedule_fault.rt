//! Why a text is refused as a schedule.

ghost use Rattle.std.specs.Prelude.{◌≡◌};
ghost use Rattle.crn_trace.specs.Schedule as spec;

use std::alloc::AllocError;

/// Why no schedule was read. A line that is refused comes before a reader that is refused, wherever they stand.
#[derive(Clone, Copy, Debug, PartialEq, Eq)]
pub enum ScheduleFault {
    /// 1: a line is none of `p`, `e`, and `r` or `l` with a number from 0 to 4,294,967,295 in decimal, in the one
    /// spelling that it has. An empty line is none of them.
    Line,
    /// 2: a reader's number is not below the number of readers.
    Reader,
    /// 90: an allocation failed. It says nothing about the text.
    Memory(AllocError),
}

impl ScheduleFault {
    /// Returns the number of the fault: 1 for a line, 2 for a reader, 90 if an allocation failed.
    pub fn number(&self) -> u8
        ensures { result ≡ spec.schedule_fault_number self.now }
    {
        match self {
            ScheduleFault::Line => 1,
            ScheduleFault::Reader => 2,
            ScheduleFault::Memory(_) => 90,
        }
    }
}

impl From<AllocError> for ScheduleFault {
    ghost use Rattle.std.specs.Prelude.{◌≡◌};
    ghost use Rattle.crn_trace.specs.declared.schedule_fault.ScheduleFault.TheVariants.{Memory};

    ghost from_gives = { λ e f. f ≡ Memory e };

    fn from(refused: AllocError) -> ScheduleFault {
        ScheduleFault::Memory(refused)
    }
}
