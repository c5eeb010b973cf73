//! Four short callers of these crates, to be copied. Each has the contract that follows from theirs, and a test.
#![tactic(auto)]

pub mod blocks;
pub mod checkpoint;
pub mod report;
pub mod ring;
pub mod taken;
#[cfg(test)]
mod tests;
