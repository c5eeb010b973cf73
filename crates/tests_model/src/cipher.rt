//! The cipher and its blocks against words of Random123.

mod vectors;

use crate::words::{BLOCK_VECTORS, NAMES_AND_COUNTERS, ONES_BLOCK, words_by_stream};
use crn_cipher::{STREAMS, block, threefry, unthreefry};
use vectors::VECTORS;

// The words of a line, of 16 hexadecimal digits each: four of the key, four of the counter and four of the output. None
// if they are more than twelve; what is missing is 0.
fn words_in(line: &str) -> Option<[u64; 12]> {
    let mut words = [0; 12];
    for (i, digits) in line.split_whitespace().enumerate() {
        let word = u64::from_str_radix(digits, 16).ok()?;
        *words.get_mut(i)? = word;
    }
    Some(words)
}

// The words of the block and the stream of a counter, if a block has words at that counter.
fn in_block(key: [u64; 4], ctr: [u64; 4]) -> Option<[u64; 4]> {
    let [number, second, 0, 0] = ctr else {
        return None;
    };
    for (stream, (_, counter)) in STREAMS.iter().zip(NAMES_AND_COUNTERS) {
        if second == *counter {
            return Some(*block(key, number).words(*stream));
        }
    }
    None
}

// How many blocks have a line's output at its counter, 0 or 1. None if the cipher, its inverse or the block has other words.
fn blocks_with(line: &str) -> Option<u32> {
    let [k0, k1, k2, k3, c0, c1, c2, c3, o0, o1, o2, o3] = words_in(line)?;
    let (key, ctr, out) = ([k0, k1, k2, k3], [c0, c1, c2, c3], [o0, o1, o2, o3]);
    if threefry(key, ctr) != out || unthreefry(key, out) != ctr {
        return None;
    }
    match in_block(key, ctr) {
        None => Some(0),
        Some(held) if held == out => Some(1),
        Some(_) => None,
    }
}

// The numbers of lines and of blocks with their outputs, or the first line that is not computed.
fn lines_and_blocks(text: &str) -> Result<(u32, u32), &str> {
    let mut lines = 0u32;
    let mut blocks = 0u32;
    for line in text.lines() {
        match blocks_with(line) {
            Some(count) => blocks = blocks.wrapping_add(count),
            None => return Err(line),
        }
        lines = lines.wrapping_add(1);
    }
    Ok((lines, blocks))
}

#[test]
fn outputs_of_random123(rt: HostRuntime) {
    assert_eq!(rt; lines_and_blocks(VECTORS), Ok((188, 0)));
    let of_blocks = STREAMS.len() as u32 * 4;
    assert_eq!(rt; lines_and_blocks(BLOCK_VECTORS), Ok((of_blocks, of_blocks)));
}

#[test]
fn words_of_each_stream(rt: HostRuntime) {
    assert_eq!(rt; words_by_stream(&block([u64::MAX; 4], 0)), Some(ONES_BLOCK));
    assert_eq!(rt; NAMES_AND_COUNTERS.len(), STREAMS.len());
    for (stream, (name, counter)) in STREAMS.iter().zip(NAMES_AND_COUNTERS) {
        assert_eq!(rt; (stream.name(), stream.counter()), (*name, *counter));
    }
}
