//! The report of a run as CSV: each policy's cost and how it differs from the first policy's.
#![tactic(auto)]

pub mod laws;
mod report_text;

pub use report_text::report;
