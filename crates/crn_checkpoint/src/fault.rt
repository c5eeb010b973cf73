//! Why `read_checkpoint` and `migrate_checkpoint` refuse a text.

ghost use Rattle.std.specs.Prelude.{◌≡◌};
ghost use Rattle.crn_checkpoint.specs.Faults as spec;

use crn_draw::DrawFault;
use crn_stock::RestoreFault;
use std::alloc::AllocError;

// The numbers of the faults that both calls can return.
const NO_CHECKPOINT: u8 = 1;

const OUT_OF_MEMORY: u8 = 90;

/// Why no checkpoint was read.
#[derive(Clone, Copy, Debug, PartialEq, Eq)]
pub enum CheckpointFault {
    /// 1: the text is not a valid checkpoint in version 1 or 2: it is not spelt as one, byte for byte, or one of its
    /// amounts is out of range.
    NoCheckpoint,
    /// 2: the text is a checkpoint of another scenario: its key, periods, replications, initial stock, cost rates,
    /// demands, lead times, returns or policies differ. The ring's size is not compared.
    OtherScenario,
    /// 4: the text is a checkpoint of this scenario in version 1, which [`migrate_checkpoint`](crate::migrate_checkpoint)
    /// takes.
    OldVersion,
    /// 90: an allocation failed, which says nothing about the text.
    Memory(AllocError),
}

impl CheckpointFault {
    /// Returns the number of the fault: 1, 2, 4 or 90, as its variants say.
    pub fn number(&self) -> u8
        ensures { result ≡ spec.checkpoint_fault_number self.now }
    {
        match self {
            CheckpointFault::NoCheckpoint => NO_CHECKPOINT,
            CheckpointFault::OtherScenario => 2,
            CheckpointFault::OldVersion => 4,
            CheckpointFault::Memory(_) => OUT_OF_MEMORY,
        }
    }
}

/// Why no checkpoint was migrated.
#[derive(Clone, Copy, Debug, PartialEq, Eq)]
pub enum MigrateFault {
    /// 1: the text is not a valid checkpoint, as in [`CheckpointFault::NoCheckpoint`].
    NoCheckpoint,
    /// 5: the text is a checkpoint in version 2 already.
    NewVersion,
    /// 90: an allocation failed, which says nothing about the text.
    Memory(AllocError),
}

impl MigrateFault {
    /// Returns the number of the fault: 1, 5 or 90, as its variants say.
    pub fn number(&self) -> u8
        ensures { result ≡ spec.migration_fault_number self.now }
    {
        match self {
            MigrateFault::NoCheckpoint => NO_CHECKPOINT,
            MigrateFault::NewVersion => 5,
            MigrateFault::Memory(_) => OUT_OF_MEMORY,
        }
    }
}

/// Why nothing was read: what the faults of both calls share.
#[derive(Clone, Copy, Debug, PartialEq, Eq)]
pub(crate) enum Unread {
    NoCheckpoint,
    Memory(AllocError),
}

impl From<Unread> for CheckpointFault {
    ghost use Rattle.std.specs.Prelude.{◌≡◌};
    ghost use Rattle.crn_checkpoint.specs.Faults.{reading_fault};

    ghost from_gives = { λ unread fault. fault ≡ reading_fault unread };

    fn from(unread: Unread) -> CheckpointFault {
        match unread {
            Unread::NoCheckpoint => CheckpointFault::NoCheckpoint,
            Unread::Memory(refused) => CheckpointFault::Memory(refused),
        }
    }
}

impl From<Unread> for MigrateFault {
    ghost use Rattle.std.specs.Prelude.{◌≡◌};
    ghost use Rattle.crn_checkpoint.specs.Faults.{migration_fault};

    ghost from_gives = { λ unread fault. fault ≡ migration_fault unread };

    fn from(unread: Unread) -> MigrateFault {
        match unread {
            Unread::NoCheckpoint => MigrateFault::NoCheckpoint,
            Unread::Memory(refused) => MigrateFault::Memory(refused),
        }
    }
}

impl From<AllocError> for MigrateFault {
    ghost use Rattle.std.specs.Prelude.{◌≡◌};
    ghost use Rattle.crn_checkpoint.specs.declared.fault.MigrateFault.TheVariants.{Memory};

    ghost from_gives = { λ e f. f ≡ Memory e };

    fn from(refused: AllocError) -> MigrateFault {
        MigrateFault::Memory(refused)
    }
}

impl From<AllocError> for Unread {
    ghost use Rattle.std.specs.Prelude.{◌≡◌};
    ghost use Rattle.crn_checkpoint.specs.declared.fault.Unread.TheVariants.{Memory};

    ghost from_gives = { λ e f. f ≡ Memory e };

    fn from(refused: AllocError) -> Unread {
        Unread::Memory(refused)
    }
}

// A list without a valid draw is in no checkpoint.
impl From<DrawFault> for Unread {
    ghost use Rattle.std.specs.Prelude.{◌≡◌};
    ghost use Rattle.crn_checkpoint.specs.Faults.{undrawn};

    ghost from_gives = { λ fault unread. unread ≡ undrawn fault };

    fn from(fault: DrawFault) -> Unread {
        match fault {
            DrawFault::Memory(refused) => Unread::Memory(refused),
            _ => Unread::NoCheckpoint,
        }
    }
}

// A state out of its ranges is in no checkpoint.
impl From<RestoreFault> for Unread {
    ghost use Rattle.std.specs.Prelude.{◌≡◌};
    ghost use Rattle.crn_checkpoint.specs.Faults.{unrestored};

    ghost from_gives = { λ fault unread. unread ≡ unrestored fault };

    fn from(fault: RestoreFault) -> Unread {
        match fault {
            RestoreFault::Range => Unread::NoCheckpoint,
            RestoreFault::Memory(refused) => Unread::Memory(refused),
        }
    }
}
