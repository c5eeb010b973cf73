//! Exact fractions and paired differences for the comparison of policies.
#![tactic(auto)]

mod common_divisor;
mod compare;
mod fault;
mod fraction;
pub mod laws;
mod pair;

pub use compare::COST_LIMIT;
pub use fault::PairFault;
pub use fraction::Fraction;
pub use pair::Pair;
