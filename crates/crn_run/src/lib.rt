//! The runs of a scenario's policies over the blocks of its stream, with one thread for each policy. A run is that of
//! one policy.
#![tactic(auto)]

mod batch;
mod fault;
mod feeding;
mod gate;
mod jobs;
pub mod laws;
mod pausing;
mod prepared;
mod refusal;
mod run;
mod taken;
mod threads;
mod waiting;
mod worker;

pub use crn_sequential::{Checkpoint, run_plain};
pub use fault::{RunFault, ThreadFault};
pub use feeding::feed;
pub use gate::{Gate, OpenGate};
pub use run::{Finished, run_all};
pub use worker::{PolicyEnd, run_policy};
