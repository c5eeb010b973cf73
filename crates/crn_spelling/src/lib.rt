//! How values are spelt in texts: words of 64 bits in hexadecimal, the names of policies, and numbers in decimal.
#![tactic(auto)]

pub mod decimal;
pub mod hex;
pub mod names;
