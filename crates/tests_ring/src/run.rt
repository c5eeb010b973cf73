//! Runs of policies on threads, with costs worked out by hand from the model's rules, and what no clause says: that the
//! policies run at the same time, on blocks that their readers took, and that each fault is returned.

mod ends;
mod gates;
mod refusals;
mod runs;
mod scenarios;
