//! A run of all policies on one thread, side by side: each draw is made once, and each step of a period is one loop over
//! the policies.
#![tactic(auto)]

mod arithmetic;
mod drawn;
mod group;
mod lanes;
mod load;
mod run;
mod unload;

pub use run::run_lanes;
