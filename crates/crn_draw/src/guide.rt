//! The guide to the search for a draw: what the leading bits of a word leave to be searched.

ghost use Rattle.std.specs.Prelude.{◌≡◌, ℕ, ◌≤◌, ◌<◌, ◌^◌, IfOk, length, slice_index};
ghost use Rattle.crn_draw.specs.Spread.{place_of};
ghost use Rattle.crn_draw.specs.Inner.Runs.{start_at, IsBracket, StandsAtPlace, StartsRise};
ghost use Rattle.crn_draw.specs.Inner.Guide.{IsEntry, IsGuide};
ghost use Rattle.crn_draw.specs.declared.weights.TheConstants.{TOTAL_LIMIT};

use crate::runs::{Run, index_of, place_at, value_at};
use std::alloc::{AllocError, Global};

// How many bits of a word the guide leaves to the search.
const REST_BITS: u32 = 54;

// How many words share their leading bits.
const BUCKET_WORDS: u64 = 1 << 54;

// How many numbers the leading bits can be.
const BUCKETS: u64 = 1024;

// The mark of words that have to be searched for. A value that equals it is searched for like the others.
const SEVERAL: u32 = u32::MAX;

// The indices of the first and the last run that hold the places of words, both included.
#[derive(Clone, Copy)]
struct Bracket {
    first: u16,
    last: u16,
}

/// What the words with the same leading bits draw, at the index that these bits are. The brackets stand apart, so that
/// the entries, which are read for each word, take little room.
#[derive(Drop)]
pub struct Guide {
    // The value that all these words draw, or `SEVERAL`.
    entries: Vec<u32>,
    // The runs to search if the entry is `SEVERAL`.
    brackets: Vec<Bracket>,
}

// Returns the entry of words whose places lie in the runs from `first` to `last`.
fn entry_of(runs: &[Run], first: usize, last: usize) -> u32
    requires { last < length runs.now }
    ensures { (low high : ℕ) → IsBracket runs.now low high first last → IsEntry runs.now low high result }
{
    if first == last {
        runs[first].value
    } else {
        SEVERAL
    }
}

/// Returns the entry and the bracket of each number of leading bits, found in one walk over the runs of `total` places.
///
/// # Asks
///
/// There are 1 to `TOTAL_LIMIT` runs, the first of which begins at 0 and each other one after the one before; `total` is at
/// most `TOTAL_LIMIT`.
///
/// # Errors
///
/// `AllocError` if an allocation fails.
pub fn guide_of(alloc: Global, runs: &[Run], total: u64) -> Result<Guide, AllocError>
    requires some { 0 < length runs.now }
    requires few { length runs.now ≤ TOTAL_LIMIT }
    requires first { start_at runs.now 0 ≡ 0 }
    requires rising { StartsRise runs.now }
    requires total { total ≤ TOTAL_LIMIT }
    ensures { IfOk result (IsGuide runs.now total) }
{
    let mut entries = Vec::with_capacity(alloc, BUCKETS as usize)?;
    let mut brackets = Vec::with_capacity(alloc, BUCKETS as usize)?;
    let mut last = 0;
    for bits in 0..BUCKETS {
        let word = bits * BUCKET_WORDS;
        let first = index_of(runs, last, place_at(word, total));
        last = index_of(runs, first, place_at(word + (BUCKET_WORDS - 1), total));
        entries.push(entry_of(runs, first, last))?;
        brackets.push(Bracket {
            first: first as u16,
            last: last as u16,
        })?;
    }
    Ok(Guide { entries, brackets })
}

/// Returns the value at the place of word k. Allocates nothing. The words are given as they stand in memory, so that a
/// draw without a search keeps no word for it.
///
/// # Asks
///
/// There is a word k. The guide is that of these runs, which begin one after another, and of `total` places, at most
/// `TOTAL_LIMIT`.
#[inline(always)]
pub fn draw(runs: &[Run], guide: &Guide, total: u64, words: &[u64], k: usize) -> u32
    requires rising { StartsRise runs.now }
    requires total { total ≤ TOTAL_LIMIT }
    requires guide { IsGuide runs.now total guide.now }
    requires word { k < length words.now }
    ensures value { StandsAtPlace runs.now (place_of (slice_index words.now k) total) result }
    ensures word { slice_index words.now k < 2 ^ 64 }
{
    let value = guide.entries[(words[k] >> REST_BITS) as usize];
    if value != SEVERAL {
        return value;
    }
    searched(runs, guide, total, words, k)
}

// Returns the value at the place of word k, found by a search of its bracket.
#[inline(never)]
fn searched(runs: &[Run], guide: &Guide, total: u64, words: &[u64], k: usize) -> u32
    requires rising { StartsRise runs.now }
    requires total { total ≤ TOTAL_LIMIT }
    requires guide { IsGuide runs.now total guide.now }
    requires word { k < length words.now }
    ensures { StandsAtPlace runs.now (place_of (slice_index words.now k) total) result }
{
    let word = words[k];
    let Bracket { first, last } = guide.brackets[(word >> REST_BITS) as usize];
    value_at(runs, first, last, place_at(word, total))
}
