//! Writes single rows.

ghost use Rattle.std.specs.Prelude.{◌≡◌, ◌++◌, IfOk, true};
ghost use Rattle.crn_rows.specs.Plain.{is_plain};
ghost use Rattle.crn_rows.specs.Rows.{row_text};
ghost use Rattle.crn_checkpoint.specs.CheckpointText as spec;

use crn_rows::Sheet;
use itoa::Buffer;
use std::alloc::AllocError;

/// Returns the sheet with a row of four numbers under a name.
#[tactic(auto, using(crate::proofs::Rows::numbers_plain))]
pub(crate) fn with_numbers_row(
    sheet: Sheet,
    name: &[u8],
    first: u64,
    second: u64,
    third: u64,
    fourth: u64,
) -> Result<Sheet, AllocError>
    requires { is_plain name.now ≡ true }
    ensures { IfOk result (λ after. after ≡ sheet ++ row_text (spec.numbers_row name.now first second third fourth)) }
{
    let mut a = Buffer::new();
    let mut b = Buffer::new();
    let mut c = Buffer::new();
    let mut d = Buffer::new();
    sheet.with_row(&[
        name,
        a.format(first).as_bytes(),
        b.format(second).as_bytes(),
        c.format(third).as_bytes(),
        d.format(fourth).as_bytes(),
    ])
}

/// Returns the sheet with a row of two numbers under a name.
#[tactic(auto, using(crate::proofs::Rows::pair_plain))]
pub(crate) fn with_pair_row(
    sheet: Sheet,
    name: &[u8],
    first: u64,
    second: u64,
) -> Result<Sheet, AllocError>
    requires { is_plain name.now ≡ true }
    ensures { IfOk result (λ after. after ≡ sheet ++ row_text (spec.pair_row name.now first second)) }
{
    let mut a = Buffer::new();
    let mut b = Buffer::new();
    sheet.with_row(&[
        name,
        a.format(first).as_bytes(),
        b.format(second).as_bytes(),
        b"-",
        b"-",
    ])
}

/// Returns the sheet with the row that ends a checkpoint.
pub(crate) fn with_end_row(sheet: Sheet) -> Result<Sheet, AllocError>
    ensures { IfOk result (λ after. after ≡ sheet ++ row_text spec.end_row) }
{
    sheet.with_row(&[b"end", b"-", b"-", b"-", b"-"])
}
