//! Why the words of the command line are refused.
ghost use Rattle.std.specs.Prelude.{◌≡◌};

use std::alloc::AllocError;

/// Why the words of the command line are refused.
#[derive(Clone, Copy, Debug, PartialEq, Eq)]
pub enum CommandLineFault {
    /// The words are no command, or one of them is misspelt or outside its type.
    Words,
    /// An allocation failed. It says nothing about the words.
    Memory(AllocError),
}

impl From<AllocError> for CommandLineFault {
    ghost use Rattle.crn_command_line.specs.declared.fault.CommandLineFault.TheVariants.{Memory};

    ghost from_gives = { λ e f. f ≡ Memory e };

    fn from(refused: AllocError) -> CommandLineFault {
        CommandLineFault::Memory(refused)
    }
}
