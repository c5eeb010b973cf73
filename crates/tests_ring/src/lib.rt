//! Tests of `crn_proto`, `crn_ring` and `crn_run`, by their public calls alone. A test is proved too, and here it is proved
//! without proving the tested crate again.
#![tactic(auto)]

#[cfg(test)]
mod proto;
#[cfg(test)]
mod ring;
#[cfg(test)]
mod rings;
#[cfg(test)]
mod run;
