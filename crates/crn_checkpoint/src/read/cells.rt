//! Rows and fields by their places.
//!
//! There are none past the end. Fields are parsed leniently: one that is not spelt as in a checkpoint gives some value.

ghost use Rattle.std.specs.Prelude.{◌≡◌, ℕ, ℤ, List, ◌<◌, ◌^◌, [], IfOk, All, decimal, drop, map, slice_index_or, take, unsigned_abs};
ghost use Rattle.std.specs.Fmt.{signed_decimal};
ghost use Rattle.std.specs.Str.{IsUtf8};
ghost use Rattle.crn_checkpoint.specs.Inner.Cells.{cell};

use crn_rows::Row;
use std::alloc::{AllocError, Global};

/// Returns the rows after the first `count`.
pub(crate) fn after(rows: &[Row], count: usize) -> &[Row]
    ensures { result.now ≡ drop count rows.now }
{
    if count < rows.len() {
        &rows[count..]
    } else {
        &[]
    }
}

/// Returns the first `count` rows.
pub(crate) fn prefix(rows: &[Row], count: usize) -> &[Row]
    ensures { result.now ≡ take count rows.now }
{
    if count < rows.len() {
        &rows[..count]
    } else {
        rows
    }
}

/// Returns the first `count` rows, and those after them.
pub(crate) fn split(rows: &[Row], count: usize) -> (&[Row], &[Row])
    ensures first { result.0.now ≡ take count rows.now }
    ensures rest { result.1.now ≡ drop count rows.now }
{
    (prefix(rows, count), after(rows, count))
}

/// Returns the number at a place.
pub(crate) fn natural_in(rows: &[Row], row: usize, place: usize) -> u64
    ensures { (n : ℕ) → n < 2 ^ 64 → cell rows.now row place ≡ decimal n → result ≡ n }
{
    if row < rows.len() {
        rows[row].natural(place)
    } else {
        0
    }
}

/// Returns the number with a sign at a place.
pub(crate) fn integer_in(rows: &[Row], row: usize, place: usize) -> i64
    ensures { (z : ℤ) → unsigned_abs z < 2 ^ 63 → cell rows.now row place ≡ signed_decimal z → result ≡ z }
{
    if row < rows.len() {
        rows[row].integer(place)
    } else {
        0
    }
}

/// Returns the field at a place as a text.
pub(crate) fn text_in(rows: &[Row], row: usize, place: usize) -> &str
    ensures { IsUtf8 (cell rows.now row place) → result.now ≡ cell rows.now row place }
{
    if row < rows.len() {
        rows[row].text(place)
    } else {
        ""
    }
}

/// Returns the number that each row has at a place.
pub(crate) fn column(alloc: Global, rows: &[Row], place: usize) -> Result<Vec<u64>, AllocError>
    ensures { (xs : List ℕ) → All (λ x. x < 2 ^ 64) xs → map (λ r. slice_index_or r place []) rows.now ≡ map decimal xs → IfOk result (λ v. v.items ≡ xs) }
{
    let mut found = Vec::new(alloc);
    for row in rows {
        found.push(row.natural(place))?;
    }
    Ok(found)
}

// Returns the same numbers in 32 bits. Nothing is claimed about a larger one.
fn narrowed(alloc: Global, numbers: &[u64]) -> Result<Vec<u32>, AllocError>
    ensures { All (λ x. x < 2 ^ 32) numbers.now → IfOk result (λ v. v.items ≡ numbers.now) }
{
    let mut narrow = Vec::new(alloc);
    for number in numbers {
        narrow.push((*number).min(u64::from(u32::MAX)) as u32)?;
    }
    Ok(narrow)
}

/// Returns the number of 32 bits that each row has at a place.
pub(crate) fn small_column(
    alloc: Global,
    rows: &[Row],
    place: usize,
) -> Result<Vec<u32>, AllocError>
    ensures { (xs : List ℕ) → All (λ x. x < 2 ^ 32) xs → map (λ r. slice_index_or r place []) rows.now ≡ map decimal xs → IfOk result (λ v. v.items ≡ xs) }
{
    let numbers = column(alloc, rows, place)?;
    narrowed(alloc, numbers.as_slice())
}
