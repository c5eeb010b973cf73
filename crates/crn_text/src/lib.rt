//! The texts of crnsim in one place: scenarios, reports, checkpoints, schedules, traces and the words of a block. Each
//! call is defined in the crate of its text, and re-exported here.
#![tactic(auto)]

pub use crn_checkpoint::{
    CheckpointFault, MigrateFault, migrate_checkpoint, read_checkpoint, write_checkpoint,
};
pub use crn_report::report;
pub use crn_scenario::{ScenarioFault, read_scenario};
pub use crn_trace::{ScheduleFault, read_schedule, trace_text, words_text};
