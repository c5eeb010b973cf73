//! Reads the rows of a text.

ghost use Rattle.std.specs.Prelude.{◌≡◌, ℕ, List, IfOk, map, true};
ghost use Rattle.csv.specs.Reading.{AreRecords, default_config, strip_bom};
ghost use Rattle.csv.specs.declared.parser.State.TheVariants as st;
ghost use Rattle.crn_rows.specs.Plain.{are_rows};
ghost use Rattle.crn_rows.specs.Rows.{rows_text};

use crate::refusal::read_refusal_of;
use crate::row::Row;
use csv::ReaderBuilder;
use std::alloc::{AllocError, Global};

// Reads every record of a text.
fn records(alloc: Global, text: &[u8]) -> Result<Vec<Row>, AllocError>
    ensures { IfOk result (λ v. AreRecords default_config st.StartRecord (strip_bom text.now) v.items) }
{
    let reader = ReaderBuilder::new()
        .has_headers(false)
        .flexible(true)
        .from_reader(alloc, text);
    let mut rows = Vec::new(alloc);
    for row in reader.into_byte_records() {
        rows.push(Row::from_record(row.map_err(read_refusal_of)?))?;
    }
    Ok(rows)
}

/// Returns the rows of a text, with any number of fields each. Quotes are removed and empty lines skipped.
///
/// If the text consists of rows of plain fields, as a [`Sheet`](crate::Sheet) writes them, it returns just these rows.
///
/// # Errors
///
/// `AllocError` if an allocation fails.
pub fn read_rows(alloc: Global, text: &[u8]) -> Result<Vec<Row>, AllocError>
    ensures { (rows : List (List (List ℕ))) → are_rows rows ≡ true → text.now ≡ rows_text rows → IfOk result (λ v. v.items ≡ rows) }
{
    records(alloc, text)
}
