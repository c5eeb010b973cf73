//! The program's engines over any reader and writer: a scenario's report, its checkpoint at a block, the report from a
//! checkpoint on, an old checkpoint in the new version, the trace of a schedule, and the words of a block. A command of the
//! command line is answered by its engine.
#![tactic(auto)]

mod block_words;
mod commands;
mod fault;
mod input;
mod lanes;
mod legs;
mod migration;
mod output;
mod replay;
mod resumption;
mod simulation;
mod steps;

pub use block_words::write_words;
pub use commands::{answer_command, read_words};
pub use fault::Fault;
pub use input::{INPUT_LIMIT, ReadFault};
pub use lanes::simulate_lanes;
pub use legs::leg;
pub use migration::migrate;
pub use output::WriteFault;
pub use replay::replay_run;
pub use resumption::resume;
pub use simulation::simulate;
