//! Checkpoints of a run as texts. They are written in version 2; texts in version 1 are migrated to it.
//!
//! A text is parsed leniently, row by row, into a scenario and the states of its policies. These are validated and
//! written again, and the text is accepted only if the result is byte for byte the input. So no grammar has to be
//! proved, and every checkpoint has one spelling.
//!
//! `read` and `write` have a file each for the rows of a scenario and for those of a policy.
#![tactic(auto)]

mod fault;
mod migrate;
mod read;
mod version;
mod write;

pub use fault::{CheckpointFault, MigrateFault};
pub use migrate::migrate_checkpoint;
pub use read::read_checkpoint;
pub use write::write_checkpoint;
