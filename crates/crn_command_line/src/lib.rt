//! The words of the command line, read with `clap`, and the program's help.
#![tactic(auto)]

mod commands;
mod fault;
mod help;
mod words;

pub use commands::Command;
pub use fault::CommandLineFault;
pub use words::read_words;
