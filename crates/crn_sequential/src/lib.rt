//! Where the policies of a scenario stand between two blocks, and a run of all of them on one thread.
#![tactic(auto)]

mod checkpoint;
mod plain;

pub use checkpoint::Checkpoint;
pub use plain::run_plain;
