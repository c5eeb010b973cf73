//! The list that a draw is made from, as its runs of equal values, and the search in them.

ghost use Rattle.std.specs.Prelude.{◌≡◌, ℕ, ◌≤◌, ◌<◌, IfOk, length, sum};
ghost use Rattle.crn_draw.specs.Spread.{place_of};
ghost use Rattle.crn_draw.specs.Inner.Runs.{runs_from, start_at, IsBracket, StandsAtPlace, StartsRise};
ghost use Rattle.crn_draw.specs.declared.weights.TheConstants.{TOTAL_LIMIT};

use std::alloc::{AllocError, Global};

/// A value, and the place at which its run begins: the sum of the weights before it.
#[derive(Clone, Copy)]
pub struct Run {
    pub start: u32,
    pub value: u32,
}

/// Returns the place of a word among `total` places. Allocates nothing.
///
/// # Asks
///
/// `total` is at most `TOTAL_LIMIT`.
#[inline(always)]
pub fn place_at(word: u64, total: u64) -> u32
    requires { total ≤ TOTAL_LIMIT }
    ensures { result ≡ place_of word total }
{
    ((u128::from(word) * u128::from(total)) >> 64) as u32
}

/// Returns the runs of the values. A value with the weight 0 has none.
///
/// # Asks
///
/// There are as many weights as values, and their sum is at most `TOTAL_LIMIT`.
///
/// # Errors
///
/// `AllocError` if an allocation fails.
pub fn runs_of(alloc: Global, values: &[u32], weights: &[u32]) -> Result<Vec<Run>, AllocError>
    requires same_length { length values.now ≡ length weights.now }
    requires total { sum weights.now ≤ TOTAL_LIMIT }
    ensures { IfOk result (λ v. v.items ≡ runs_from 0 values.now weights.now) }
{
    let mut runs = Vec::new(alloc);
    let mut start = 0;
    for i in 0..values.len() {
        let value = values[i];
        if weights[i] > 0 {
            runs.push(Run { start, value })?;
        }
        start += weights[i];
    }
    Ok(runs)
}

/// Returns the index of the last run that begins at `place` or before, sought onward from the run at `from`. Allocates
/// nothing.
///
/// # Asks
///
/// The run at `from` is there and begins at `place` or before; the runs begin one after another.
pub fn index_of(runs: &[Run], from: usize, place: u32) -> usize
    requires inside { from < length runs.now }
    requires begun { start_at runs.now from ≤ place }
    requires rising { StartsRise runs.now }
    ensures found { IsBracket runs.now place place result result }
    ensures onward { from ≤ result }
{
    let mut index = from;
    while index + 1 < runs.len() && runs[index + 1].start <= place {
        index += 1;
    }
    index
}

/// Returns the value at `place`: a search by halves. Allocates nothing.
///
/// # Asks
///
/// The place lies in one of the runs from `first` to `last`; the runs begin one after another.
pub fn value_at(runs: &[Run], first: u16, last: u16, place: u32) -> u32
    requires bracket { IsBracket runs.now place place first last }
    requires rising { StartsRise runs.now }
    ensures { StandsAtPlace runs.now place result }
{
    let mut first = first;
    let mut last = last;
    while first < last {
        let middle = last - (last - first) / 2;
        if runs[middle as usize].start <= place {
            first = middle;
        } else {
            last = middle - 1;
        }
    }
    runs[first as usize].value
}
