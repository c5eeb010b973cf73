//! Scenarios of crnsim, read from TOML, with each refusal by its number.
#![tactic(auto)]

mod faults;
mod fields;
mod read;
mod scenario;
mod scenario_fault;
mod tree;

pub use read::read_scenario;
pub use scenario_fault::ScenarioFault;
