//! Draws and their faults, with values worked out by hand. `vectors` has those of an independent program.

mod vectors;

use crate::scenarios::first_other_line;
use crn_draw::{DrawFault, Weights};
use std::alloc::{AllocError, Global};
use std::test::Fail;

// Values with weights, and words with the item that each draws.
struct Example {
    values: &'static [u32],
    weights: &'static [u32],
    draws: &'static [(u64, u32)],
}

static EXAMPLES: [Example; 8] = [
    // Places 0, 2, 1 and 5 of 1, 2, 2, 3, 3, 4.
    Example {
        values: &[1, 2, 3, 4],
        weights: &[1, 2, 2, 1],
        draws: &[
            (0x0921_8ebd_e6c8_5537, 1),
            (0x5594_1f52_66d8_6105, 2),
            (0x4bd2_5e16_2824_34dc, 2),
            (0xee29_ec84_6bd2_e40b, 4),
        ],
    },
    Example {
        values: &[7],
        weights: &[1],
        draws: &[(0, 7), (u64::MAX, 7)],
    },
    // The last word of the first of 65,536 places, and the first of the next.
    Example {
        values: &[0, 10_000],
        weights: &[1, 65_535],
        draws: &[((1 << 48) - 1, 0), (1 << 48, 10_000), (u64::MAX, 10_000)],
    },
    Example {
        values: &[1, 2, 3],
        weights: &[1, 0, 1],
        draws: &[((1 << 63) - 1, 1), (1 << 63, 3)],
    },
    Example {
        values: &[1, 2],
        weights: &[0, 1],
        draws: &[(0, 2)],
    },
    Example {
        values: &[1, 2, 3],
        weights: &[1, 1, 1],
        draws: &[
            (6_148_914_691_236_517_205, 1),
            (6_148_914_691_236_517_206, 2),
        ],
    },
    // 0 in the first four tenths, 5 in the last one.
    Example {
        values: &[0, 1, 2, 5],
        weights: &[4, 3, 2, 1],
        draws: &[
            (0, 0),
            (7_378_697_629_483_820_646, 0),
            (7_378_697_629_483_820_647, 1),
            (16_602_069_666_338_596_454, 2),
            (16_602_069_666_338_596_455, 5),
            (u64::MAX, 5),
        ],
    },
    // The largest value that a draw can have.
    Example {
        values: &[0, u32::MAX - 1, u32::MAX],
        weights: &[1, 1, 2],
        draws: &[
            ((1 << 62) - 1, 0),
            (1 << 62, u32::MAX - 1),
            ((1 << 63) - 1, u32::MAX - 1),
            (1 << 63, u32::MAX),
            (u64::MAX, u32::MAX),
        ],
    },
];

// The first word that draws another item.
fn first_other(weights: &Weights, draws: &[(u64, u32)]) -> Option<u64> {
    for (word, item) in draws {
        if weights.pick(*word) != *item {
            return Some(*word);
        }
    }
    None
}

fn first_other_of(alloc: Global, example: &Example) -> Result<Option<u64>, DrawFault> {
    let weights = Weights::new(alloc, example.values, example.weights)?;
    Ok(first_other(&weights, example.draws))
}

#[test]
fn items_of_examples(rt: HostRuntime) -> Result<(), Fail> {
    for example in &EXAMPLES {
        let other = first_other_of(rt.alloc(), example)?;
        assert_eq!(rt; other, None);
    }
    Ok(())
}

fn has_parts(weights: &Weights, total: u64, values: &[u32], shares: &[u32]) -> bool {
    weights.total() == total && weights.values() == values && weights.weights() == shares
}

#[test]
fn parts(rt: HostRuntime) -> Result<(), Fail> {
    let weights = Weights::new(rt.alloc(), &[1, 2, 5], &[1, 0, 3])?;
    assert!(rt; has_parts(&weights, 4, &[1, 2, 5], &[1, 0, 3]));
    Ok(())
}

// Values and weights, and the fault that rejects them.
static REFUSALS: [(&[u32], &[u32], DrawFault); 9] = [
    (&[], &[], DrawFault::Empty),
    (&[], &[1], DrawFault::Empty),
    (&[1], &[1, 2], DrawFault::Lengths),
    (&[2, 1], &[1], DrawFault::Lengths),
    (&[2, 2], &[1, 1], DrawFault::Order),
    (&[2, 1], &[0, 0], DrawFault::Order),
    (&[5], &[0], DrawFault::Total),
    (&[5], &[65_537], DrawFault::Total),
    (&[5, 6], &[u32::MAX, u32::MAX], DrawFault::Total),
];

#[test]
fn refusals(rt: HostRuntime) {
    for (values, weights, fault) in &REFUSALS {
        let answer = Weights::new(rt.alloc(), values, weights);
        assert_eq!(rt; answer.map(|_| ()), Err(*fault));
    }
}

// The faults, with their numbers and their lines.
static FAULTS: [(DrawFault, u8, &str); 5] = [
    (DrawFault::Empty, 1, "there are no values"),
    (
        DrawFault::Lengths,
        2,
        "there are not as many weights as values",
    ),
    (DrawFault::Order, 3, "the values do not rise strictly"),
    (
        DrawFault::Total,
        4,
        "the sum of the weights is 0 or over 65536",
    ),
    (DrawFault::Memory(AllocError), 90, "out of memory"),
];

#[test]
fn numbers_and_lines_of_faults(rt: HostRuntime) -> Result<(), Fail> {
    assert_eq!(rt;
        first_other_line(rt.alloc(), &FAULTS, DrawFault::number)?,
        None
    );
    Ok(())
}

// The first `count` multiples of 3.
fn multiples(alloc: Global, count: u32) -> Result<Vec<u32>, AllocError> {
    let mut values = Vec::new(alloc);
    for k in 0..count {
        values.push(k.wrapping_mul(3))?;
    }
    Ok(values)
}

// `count` weights: the first 65,536 are 1, the others 0.
fn ones_and_zeros(alloc: Global, count: u32) -> Result<Vec<u32>, AllocError> {
    let mut weights = Vec::new(alloc);
    for k in 0..count {
        weights.push(u32::from(k < 65_536))?;
    }
    Ok(weights)
}

fn threes(alloc: Global, count: u32) -> Result<Weights, Fail> {
    let values = multiples(alloc, count)?;
    let weights = ones_and_zeros(alloc, count)?;
    Ok(Weights::new(alloc, &values, &weights)?)
}

// The number of values, and the items in the middle and at the end of their spread-out list.
static SIZES: [(u32, u32, u32); 7] = [
    (1, 0, 0),
    (2, 3, 3),
    (20, 30, 57),
    (1_001, 1_500, 3_000),
    (10_001, 15_000, 30_000),
    (65_536, 98_304, 196_605),
    (100_000, 98_304, 196_605),
];

// The number of values and of weights, their sum, and the first, middle and last items.
fn sizes_and_items(weights: &Weights) -> (usize, usize, u64, [u32; 3]) {
    (
        weights.values().len(),
        weights.weights().len(),
        weights.total(),
        [
            weights.pick(0),
            weights.pick(1 << 63),
            weights.pick(u64::MAX),
        ],
    )
}

fn sizes_of_threes(alloc: Global, count: u32) -> Result<(usize, usize, u64, [u32; 3]), Fail> {
    let weights = threes(alloc, count)?;
    Ok(sizes_and_items(&weights))
}

// With enough memory no number of values fails.
#[test]
fn lists_of_every_size(rt: HostRuntime) -> Result<(), Fail> {
    for (count, middle, last) in &SIZES {
        let found = sizes_of_threes(rt.alloc(), *count)?;
        let length = *count as usize;
        let total = u64::from(*count).min(65_536);
        assert_eq!(rt; found, (length, length, total, [0, *middle, *last]));
    }
    Ok(())
}
