//! Paired differences and their faults, with values worked out by hand. `vectors` has those of an independent program whose
//! costs are over all that a run comes to; tests/program/pairs.csv has the others.

mod vectors;

use crate::scenarios::first_other_line;
use crn_pair::{Fraction, Pair, PairFault};
use std::test::Fail;

// Fractions, and their lowest terms.
static FRACTIONS: [((i128, u64), (i128, u64)); 8] = [
    ((-6, 4), (-3, 2)),
    ((0, 9), (0, 1)),
    ((6, 3), (2, 1)),
    ((i128::MIN, 1), (i128::MIN, 1)),
    ((222, 4), (111, 2)),
    ((359, 4), (359, 4)),
    ((137, 1), (137, 1)),
    ((-12, 2), (-6, 1)),
];

// Whether a fraction has these lowest terms.
fn has_terms((num, den): (i128, u64), lowest: (i128, u64)) -> bool {
    if den == 0 {
        return false;
    }
    let made = Fraction::new(num, den);
    (made.num, made.den) == lowest
}

// The first fraction that is not made in its lowest terms.
fn first_other() -> Option<(i128, u64)> {
    for (fraction, lowest) in &FRACTIONS {
        if !has_terms(*fraction, *lowest) {
            return Some(*fraction);
        }
    }
    None
}

#[test]
fn lowest_terms(rt: HostRuntime) {
    assert_eq!(rt; first_other(), None);
}

// The figures of a pair; a fraction is its numerator and its denominator.
#[derive(Clone, Copy)]
struct Figures {
    total: i128,
    mean: (i128, u64),
    variance: Option<(i128, u64)>,
    covariance: Option<(i128, u64)>,
}

fn terms(fraction: Option<Fraction>) -> Option<(i128, u64)> {
    match fraction {
        Some(fraction) => Some((fraction.num, fraction.den)),
        None => None,
    }
}

// The name of the first figure of two lists of costs that is another.
fn other_figure(a: &[u64], b: &[u64], figures: &Figures) -> Option<&'static str> {
    let Ok(pair) = Pair::of(a, b) else {
        return Some("no pair");
    };
    let mean = pair.mean_diff();
    if pair.diff_total() != figures.total {
        return Some("the total");
    }
    if (mean.num, mean.den) != figures.mean {
        return Some("the mean");
    }
    if terms(pair.var_of_mean()) != figures.variance {
        return Some("the variance");
    }
    if terms(pair.covariance()) != figures.covariance {
        return Some("the covariance");
    }
    None
}

#[test]
fn three_replications(rt: HostRuntime) {
    let figures = Figures {
        total: 9,
        mean: (3, 1),
        variance: Some((7, 1)),
        covariance: Some((-1, 2)),
    };
    assert_eq!(rt; other_figure(&[3, 5, 10], &[1, 6, 2], &figures), None);
}

// Half of the replications at one end of the range, the others at the other end: with the limit L the
// sum over pairs is 128 * 128 * (2 L)^2.
#[test]
fn the_widest_spread(rt: HostRuntime) {
    let mut a = [0; 256];
    let mut b = [230_000_000_000_000; 256];
    for r in 0..128usize {
        a[r] = 230_000_000_000_000;
        b[r] = 0;
    }
    let figures = Figures {
        total: 0,
        mean: (0, 1),
        variance: Some((10_580_000_000_000_000_000_000_000_000, 51)),
        covariance: Some((-677_120_000_000_000_000_000_000_000_000, 51)),
    };
    assert_eq!(rt; other_figure(&a, &b, &figures), None);
}

const MANY: [u64; 257] = [0; 257];

const HIGH: [u64; 1] = [230_000_000_000_001];

// Costs of two policies, and the fault that rejects them.
static REFUSALS: [(&[u64], &[u64], PairFault); 7] = [
    (&[1], &[], PairFault::Lengths),
    (&MANY, &[0], PairFault::Lengths),
    (&HIGH, &[], PairFault::Lengths),
    (&[], &[], PairFault::Empty),
    (&MANY, &MANY, PairFault::TooMany),
    (&HIGH, &[0], PairFault::Entry),
    (&[0], &HIGH, PairFault::Entry),
];

#[test]
fn refused_lists(rt: HostRuntime) {
    for (a, b, fault) in &REFUSALS {
        assert_eq!(rt; Pair::of(a, b), Err(*fault));
    }
}

// The faults, with their numbers and their lines.
static FAULTS: [(PairFault, u8, &str); 4] = [
    (PairFault::Lengths, 1, "the lists of costs differ in length"),
    (PairFault::Empty, 2, "there are no costs"),
    (PairFault::TooMany, 3, "there are more than 256 costs"),
    (PairFault::Entry, 4, "a cost is over 230000000000000"),
];

#[test]
fn numbers_and_lines_of_faults(rt: HostRuntime) -> Result<(), Fail> {
    assert_eq!(rt;
        first_other_line(rt.alloc(), &FAULTS, PairFault::number)?,
        None
    );
    Ok(())
}
