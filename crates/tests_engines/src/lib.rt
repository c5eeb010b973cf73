//! Tests of what only calls show of the texts and the engines: rows, numbers of the command line, faults, and where public
//! names are. What the program shows is tested from outside, by tests/program and tests/hostile.
#![tactic(auto)]

#[cfg(test)]
mod faults;
#[cfg(test)]
mod names;
#[cfg(test)]
mod numbers;
#[cfg(test)]
mod rows;
