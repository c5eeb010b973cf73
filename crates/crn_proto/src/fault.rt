//! The faults of a ring that is not opened.
ghost use Rattle.std.specs.Prelude.{◌≡◌};
ghost use Rattle.crn_proto.specs.Opening.{open_fault_number};

use std::alloc::AllocError;

/// Why a ring is not opened. If several faults hold, the first of them is returned.
#[derive(Clone, Copy, Debug, PartialEq, Eq)]
pub enum RingFault {
    /// The size is no power of two from 1 to [`SLOT_LIMIT`](crn_limits::SLOT_LIMIT).
    Size,
    /// The number of readers is not from 1 to [`POLICY_LIMIT`](crn_limits::POLICY_LIMIT).
    Readers,
    /// The stream's total is over [`BLOCK_LIMIT`](crn_limits::BLOCK_LIMIT), or its first block is over its total.
    Stream,
    /// An allocation failed. Returned only if no other fault holds.
    Memory(AllocError),
}

impl RingFault {
    /// Returns the number of the fault: 1 for the size, 2 for the readers, 3 for the stream, 90 for out of memory.
    pub fn number(self) -> u8
        ensures { result ≡ open_fault_number self }
    {
        match self {
            RingFault::Size => 1,
            RingFault::Readers => 2,
            RingFault::Stream => 3,
            RingFault::Memory(_) => 90,
        }
    }
}

impl From<AllocError> for RingFault {
    ghost use Rattle.std.specs.Prelude.{◌≡◌};
    ghost use Rattle.crn_proto.specs.declared.fault.RingFault.TheVariants.{Memory};

    ghost from_gives = { λ e f. f ≡ Memory e };

    fn from(refused: AllocError) -> RingFault {
        RingFault::Memory(refused)
    }
}
