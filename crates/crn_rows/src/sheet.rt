//! A text of rows as it is written.

ghost use Rattle.std.specs.Prelude.{◌≡◌, ◌++◌, [], IfOk, map, true};
ghost use Rattle.crn_rows.specs.Plain.{is_row};
ghost use Rattle.crn_rows.specs.Rows.{row_text};

use crate::refusal::refusal_of;
use csv::{Writer, WriterBuilder};
use std::alloc::{AllocError, Global};

/// A text of rows with one row after another, which contracts see as its bytes.
///
/// The rows are written with `csv` and its defaults: fields are separated by commas, and each row ends with a line feed.
/// Rows may have different numbers of fields.
#[derive(Drop)]
pub struct Sheet {
    writer: Writer<Vec<u8>>,
}

impl std::marker::Model for Sheet {
    ghost use Rattle.std.specs.Prelude.{ℕ, List, ◌++◌};
    ghost use Rattle.csv.specs.Writing.{writer_under, writer_pending};
    ghost use Rattle.crn_rows.specs.Inner.Plain.{IsBetweenRows};

    ghost Value = { List ℕ };

    ghost view = { λ s. (writer_under s.writer).items ++ writer_pending s.writer };

    ghost invariant = { λ s. IsBetweenRows s.writer };
}

impl Sheet {
    /// Returns a text without a row. Allocates nothing.
    pub fn new(alloc: Global) -> Sheet
        ensures { result ≡ [] }
    {
        // Flexible: a row of another length than the first is no error.
        Sheet {
            writer: WriterBuilder::new()
                .flexible(true)
                .from_writer(Vec::new(alloc)),
        }
    }

    /// Returns the text with one more row.
    ///
    /// # Asks
    ///
    /// The row has two or more fields, each of whose bytes is from 45 to 127.
    ///
    /// # Errors
    ///
    /// `AllocError` if an allocation fails. The text is then lost.
    pub fn with_row(self, fields: &[&[u8]]) -> Result<Sheet, AllocError>
        requires { is_row (map (λ f. f.now) fields.now) ≡ true }
        ensures { IfOk result (λ sheet. sheet ≡ self ++ row_text (map (λ f. f.now) fields.now)) }
    {
        let Sheet { mut writer } = self;
        writer.write_fields(fields).map_err(refusal_of)?;
        Ok(Sheet { writer })
    }

    /// Returns the bytes of the text.
    ///
    /// # Errors
    ///
    /// `AllocError` if an allocation fails.
    pub fn into_text(self) -> Result<Vec<u8>, AllocError>
        ensures { IfOk result (λ text. text.items ≡ self) }
    {
        let Sheet { writer } = self;
        match writer.into_inner() {
            Ok(text) => Ok(text),
            Err(failed) => Err(refusal_of(failed.into_error())),
        }
    }
}
