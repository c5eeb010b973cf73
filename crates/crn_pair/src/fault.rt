//! The faults of two lists of costs.
ghost use Rattle.std.specs.Prelude.{◌≡◌};
ghost use Rattle.crn_pair.specs.Refused.{costs_fault_number};

use std::error::Error;
use std::fmt;

/// Why two lists of costs are not compared. If several faults hold, the one with the least number is returned.
#[derive(Clone, Copy, Debug, PartialEq, Eq)]
pub enum PairFault {
    /// The lists have different lengths.
    Lengths = 1,
    /// The lists are empty.
    Empty = 2,
    /// The lists have more than [`REPLICATION_LIMIT`](crn_limits::REPLICATION_LIMIT) entries.
    TooMany = 3,
    /// An entry is over [`COST_LIMIT`](crate::COST_LIMIT).
    Entry = 4,
}

impl PairFault {
    /// Returns the number of the fault: 1 for the lengths, 2 for empty lists, 3 for too many entries, 4 for an entry.
    pub fn number(&self) -> u8
        ensures { result ≡ costs_fault_number self.now }
    {
        *self as u8
    }
}

impl fmt::Display for PairFault {
    fn fmt<W: fmt::Write>(&self, f: &mut fmt::Formatter<W>) -> fmt::Result {
        f.write_str(match self {
            PairFault::Lengths => "the lists of costs differ in length",
            PairFault::Empty => "there are no costs",
            PairFault::TooMany => "there are more than 256 costs",
            PairFault::Entry => "a cost is over 230000000000000",
        })
    }
}

impl Error for PairFault {}
