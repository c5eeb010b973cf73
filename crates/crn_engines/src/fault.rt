//! Why a command failed, with the line and the status of each fault.
ghost use Rattle.std.specs.Prelude.{◌≡◌};
ghost use Rattle.crn_engines.specs.Commands.{status_of};

use crate::input::ReadFault;
use crate::output::WriteFault;
use crn_checkpoint::{CheckpointFault, MigrateFault};
use crn_command_line::CommandLineFault;
use crn_proto::RingFault;
use crn_run::{RunFault, ThreadFault};
use crn_scenario::ScenarioFault;
use crn_trace::ScheduleFault;
use std::alloc::AllocError;
use thiserror::Error;

/// Why a command failed. Its text is the line that the program prints on standard error.
///
/// Every engine returns it, each one only the variants that its docstring names. Nothing was written before any of them but
/// `Writing`. A fault that the system causes carries the value that reported it, or for a thread the evidence of it.
#[derive(Clone, Copy, Debug, Drop, Error)]
pub enum Fault {
    /// The command line is invalid, there is no ring with these numbers, or a leg is longer than the run.
    #[error("crnsim: command line")]
    CommandLine,
    /// The input is not a scenario: it breaks this rule and none with a lower number.
    #[error("crnsim: scenario {}", .0.number())]
    Scenario(ScenarioFault),
    /// The text is not a checkpoint of the scenario in the present version.
    #[error("crnsim: checkpoint {}", .0.number())]
    Checkpoint(CheckpointFault),
    /// The text is not a checkpoint of version 1, so it cannot be migrated.
    #[error("crnsim: checkpoint {}", .0.number())]
    Migration(MigrateFault),
    /// The input is not a schedule for the ring.
    #[error("crnsim: schedule {}", .0.number())]
    Schedule(ScheduleFault),
    /// A file was not opened, a read failed for whatever cause, or an input is over [`INPUT_LIMIT`](crate::INPUT_LIMIT) bytes.
    #[error("crnsim: reading")]
    Reading(ReadFault),
    /// A write failed or took no byte. A prefix of the output, which may be empty, was written.
    #[error("crnsim: writing")]
    Writing(WriteFault),
    /// A thread failed to start, or a policy's reader found the end of the ring early.
    #[error("crnsim: thread")]
    Thread(ThreadFault),
    /// A gate returned false. The program's own gates never do, so no engine returns it.
    #[error("crnsim: gate")]
    Gate,
    /// An allocation failed.
    #[error("crnsim: memory")]
    Memory(AllocError),
}

impl Fault {
    /// Returns the status that the program ends with, 2 to 7. `crnsim help` lists them.
    pub fn status(&self) -> u8
        ensures { result ≡ status_of self.now }
    {
        match self {
            Fault::CommandLine => 2,
            Fault::Scenario(_) => 3,
            Fault::Checkpoint(_) | Fault::Migration(_) | Fault::Schedule(_) => 4,
            Fault::Reading(_) | Fault::Writing(_) => 5,
            Fault::Thread(_) | Fault::Gate => 6,
            Fault::Memory(_) => 7,
        }
    }
}

impl From<AllocError> for Fault {
    ghost use Rattle.crn_engines.specs.declared.fault.Fault.TheVariants.{Memory};

    ghost from_gives = { λ e f. f ≡ Memory e };

    fn from(refused: AllocError) -> Fault {
        Self::Memory(refused)
    }
}

impl From<WriteFault> for Fault {
    ghost use Rattle.crn_engines.specs.declared.fault.Fault.TheVariants.{Writing};

    ghost from_gives = { λ e f. f ≡ Writing e };

    fn from(fault: WriteFault) -> Fault {
        Fault::Writing(fault)
    }
}

impl From<ScenarioFault> for Fault {
    ghost use Rattle.crn_scenario.specs.declared.scenario_fault.ScenarioFault.TheVariants.{Memory};
    ghost use Rattle.crn_engines.specs.declared.fault.Fault.TheVariants.{Scenario};
    ghost use Rattle.crn_engines.specs.Commands.{HandsOn};

    ghost from_gives = { λ e f. HandsOn Memory Scenario e f };

    fn from(fault: ScenarioFault) -> Fault {
        match fault {
            ScenarioFault::Memory(refused) => Fault::Memory(refused),
            _ => Fault::Scenario(fault),
        }
    }
}

impl From<CheckpointFault> for Fault {
    ghost use Rattle.crn_checkpoint.specs.declared.fault.CheckpointFault.TheVariants.{Memory};
    ghost use Rattle.crn_engines.specs.declared.fault.Fault.TheVariants.{Checkpoint};
    ghost use Rattle.crn_engines.specs.Commands.{HandsOn};

    ghost from_gives = { λ e f. HandsOn Memory Checkpoint e f };

    fn from(fault: CheckpointFault) -> Fault {
        match fault {
            CheckpointFault::Memory(refused) => Fault::Memory(refused),
            _ => Fault::Checkpoint(fault),
        }
    }
}

impl From<MigrateFault> for Fault {
    ghost use Rattle.crn_checkpoint.specs.declared.fault.MigrateFault.TheVariants.{Memory};
    ghost use Rattle.crn_engines.specs.declared.fault.Fault.TheVariants.{Migration};
    ghost use Rattle.crn_engines.specs.Commands.{HandsOn};

    ghost from_gives = { λ e f. HandsOn Memory Migration e f };

    fn from(fault: MigrateFault) -> Fault {
        match fault {
            MigrateFault::Memory(refused) => Fault::Memory(refused),
            _ => Fault::Migration(fault),
        }
    }
}

impl From<ScheduleFault> for Fault {
    ghost use Rattle.crn_trace.specs.declared.schedule_fault.ScheduleFault.TheVariants.{Memory};
    ghost use Rattle.crn_engines.specs.declared.fault.Fault.TheVariants.{Schedule};
    ghost use Rattle.crn_engines.specs.Commands.{HandsOn};

    ghost from_gives = { λ e f. HandsOn Memory Schedule e f };

    fn from(fault: ScheduleFault) -> Fault {
        match fault {
            ScheduleFault::Memory(refused) => Fault::Memory(refused),
            _ => Fault::Schedule(fault),
        }
    }
}

impl From<RunFault> for Fault {
    ghost use Rattle.crn_engines.specs.Commands.{fault_of_run};

    ghost from_gives = { λ e f. f ≡ fault_of_run e };

    fn from(fault: RunFault) -> Fault {
        match fault {
            RunFault::Thread(fault) => Fault::Thread(fault),
            RunFault::Gate => Fault::Gate,
            RunFault::Memory(refused) => Fault::Memory(refused),
        }
    }
}

impl From<RingFault> for Fault {
    ghost use Rattle.crn_engines.specs.Commands.{fault_of_ring};

    ghost from_gives = { λ e f. f ≡ fault_of_ring e };

    fn from(fault: RingFault) -> Fault {
        match fault {
            RingFault::Memory(refused) => Fault::Memory(refused),
            RingFault::Size | RingFault::Readers | RingFault::Stream => Fault::CommandLine,
        }
    }
}

impl From<CommandLineFault> for Fault {
    ghost use Rattle.crn_engines.specs.Commands.{fault_of_words};

    ghost from_gives = { λ e f. f ≡ fault_of_words e };

    fn from(fault: CommandLineFault) -> Fault {
        match fault {
            CommandLineFault::Words => Fault::CommandLine,
            CommandLineFault::Memory(refused) => Fault::Memory(refused),
        }
    }
}
