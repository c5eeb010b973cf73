//! Tests of `crn_cipher`, `crn_draw`, `crn_pair`, `crn_stock`, `crn_sequential` and `crn_lanes`, by their public calls alone.
//! A test is proved too, and here it is proved without proving the tested crate again. `scenarios` and `words` also serve the
//! tests of the crates above.
#![tactic(auto)]

#[cfg(test)]
mod cipher;
#[cfg(test)]
mod draw;
#[cfg(test)]
mod pair;
pub mod scenarios;
#[cfg(test)]
mod sequential;
#[cfg(test)]
mod stock;
pub mod words;
