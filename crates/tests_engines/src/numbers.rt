//! Numbers of the command line that no ring and no run has. The program answers them as it answers words that are no
//! command.

use crn_command_line::{Command, CommandLineFault, read_words};
use std::alloc::AllocError;

fn command(rt: &HostRuntime, words: &[&str]) -> Result<Command, CommandLineFault> {
    let mut list = Vec::new(rt.alloc());
    for word in words {
        let text = word.to_string(rt.alloc())?;
        list.push(text).map_err(AllocError::from)?;
    }
    read_words(rt.alloc(), list.as_slice())
}

// The numbers of a replay, or that of a leg; None for words that are neither.
fn numbers_of(rt: &HostRuntime, words: &[&str]) -> Option<(u64, u32, u64)> {
    match command(rt, words) {
        Ok(
            Command::Replay {
                size,
                readers,
                total,
            },
        ) => Some((size, readers, total)),
        Ok(Command::Leg { n }) => Some((n, 0, 0)),
        _ => None,
    }
}

const MOST: &str = "18446744073709551615";

const ONE_MORE: &str = "18446744073709551616";

// Words, and the numbers that they have.
static NUMBERS: [(&[&str], Option<(u64, u32, u64)>); 14] = [
    (&["replay", "3", "1", "1"], Some((3, 1, 1))),
    (&["replay", "2", "257", "0"], Some((2, 257, 0))),
    (&["replay", "2", "65537", "0"], Some((2, 65_537, 0))),
    (&["replay", "2", "4294967295", "0"], Some((2, u32::MAX, 0))),
    (&["replay", "2", "4294967296", "0"], None),
    (&["replay", "2", "4294967297", "0"], None),
    (
        &["replay", MOST, "0", "4294967296"],
        Some((u64::MAX, 0, 4_294_967_296)),
    ),
    (&["replay", ONE_MORE, "1", "0"], None),
    (&["replay", "2", "1", ONE_MORE], None),
    (
        &["leg", "9999999999999999999"],
        Some((9_999_999_999_999_999_999, 0, 0)),
    ),
    (&["leg", MOST], Some((u64::MAX, 0, 0))),
    (&["leg", ONE_MORE], None),
    (&["leg", "99999999999999999999"], None),
    (&["leg", "100000000000000000000"], None),
];

#[test]
fn numbers_that_nothing_has(rt: HostRuntime) {
    for (words, numbers) in NUMBERS {
        assert_eq!(rt; numbers_of(&rt, words), numbers, "{words:?}");
    }
}
