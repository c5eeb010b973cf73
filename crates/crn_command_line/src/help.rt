//! The texts of the program's help, in lines of at most 80 characters.

use std::alloc::{AllocError, Global};
use std::fmt::Write;

pub(crate) const ABOUT: &str =
    "Compares (s,S) inventory policies by common random numbers: every policy meets
the very same demands and delivery times, and the report has whole costs and
exact differences.";

const INTRODUCTION: &str =
    "Without a command it runs a scenario, as by `run`: it reads TOML of version 1
or 2 on standard input and writes CSV on standard output.

Example:
  crnsim < examples/two_policies.toml > report.csv
";

/// The exit statuses, with what each one means.
const STATUSES: [(u8, &str); 7] = [
    (0, "all is written"),
    (
        2,
        "these words are refused, or the block asked for is over the total",
    ),
    (
        3,
        "the input is refused as a scenario, by the rule of this number",
    ),
    (
        4,
        "FILE is refused as a checkpoint, or the input as a schedule",
    ),
    (
        5,
        "a read or a write failed, or an input is over 1,048,576 bytes",
    ),
    (6, "a thread was refused"),
    (7, "a request for memory was refused"),
];

/// The rules of a scenario. A scenario that breaks several is refused for the first of them, by its place in this list,
/// which counts from 1: it is the number of the `ScenarioFault`.
const RULES: [&str; 13] = [
    "it is a TOML document, in UTF-8",
    "`version` is 1 or 2",
    "no table has a key that is not of the version",
    "no table lacks a key",
    "each value is of its kind: number, text, list or table",
    "each number is within its range, and `key` is four texts of 16 digits
      0-9a-f",
    "each list of values has as many weights",
    "values rise",
    "the weights of a list are 1 to 65,536 in all",
    "`s` is at most `S`",
    "names are 1 to 16 of A-Z a-z 0-9 _ - and differ",
    "`ring` is a power of two from 1 to 1,024",
    "there are 1 to 16 policies",
];

/// Returns the part of the program's help below the options: an example, the exit statuses and the rules of a scenario.
///
/// # Errors
///
/// `AllocError` if an allocation fails.
pub(crate) fn after_help(alloc: Global) -> Result<String, AllocError> {
    let mut text = String::from_str(alloc, INTRODUCTION)?;
    text.push_str("\nExit status; where it is not 0 a line on standard error says why:\n")?;
    for (status, meaning) in &STATUSES {
        writeln!(text, "{status:3}  {meaning}")?;
    }
    text.push_str("\nRules of a scenario, of which the first that is broken is told:\n")?;
    for (place, rule) in RULES.iter().enumerate() {
        writeln!(text, "{:4}  {rule}", place + 1)?;
    }
    text.push_str("\ndocs/FORMATS.md says what each key means, docs/GUIDE.md what to do with it.")?;
    Ok(text)
}
