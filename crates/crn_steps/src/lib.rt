//! The steps on the words of a running ring: eight functions, each one sequentially consistent load or store of one word.
//! Nothing else touches these words. The kinds of step are in `plays`, and a further step needs a further kind there.
//!
//! What is proved: between any two steps of any threads, the words and what each actor knows are lawful (the rule of
//! `specs/Holds`). Each step is the move of its kind in the ring of `crn_proto`, and every run of that ring shows a
//! broadcast ([`laws::steps_are_a_run`]).
#![tactic(auto)]

mod closing;
pub mod laws;
mod plays;
mod shared_words;
mod steps;
mod view;

pub use closing::Closing;
pub use shared_words::{Place, SharedWords};
pub use view::{Role, View};
