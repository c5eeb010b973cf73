//! A row as it was read.

ghost use Rattle.std.specs.Prelude.{◌≡◌, ◌<◌, ◌^◌, ℕ, ℤ, [], decimal, slice_index_or, unsigned_abs};
ghost use Rattle.std.specs.Fmt.{signed_decimal};
ghost use Rattle.std.specs.Str.{IsUtf8};
ghost use Rattle.csv.specs.Records.{fields_of};

use csv::ByteRecord;
use std::str;

/// A row of fields, which contracts see as the list of their bytes.
///
/// Its methods return a value for every place and every field. They parse leniently: what they return is claimed only for
/// a field that is spelt as this project writes it. So a caller writes the text again and compares.
#[derive(Drop)]
pub struct Row {
    inner: ByteRecord,
}

impl std::marker::Model for Row {
    ghost use Rattle.std.specs.Prelude.{ℕ, List};
    ghost use Rattle.csv.specs.Records.{fields_of};

    ghost Value = { List (List ℕ) };

    ghost view = { λ r. fields_of r.inner };
}

impl Row {
    /// Returns the row of a record of `csv`.
    pub(crate) fn from_record(inner: ByteRecord) -> Row
        ensures { result ≡ fields_of inner }
    {
        Row { inner }
    }

    /// Returns the field at a place, counted from 0, and no bytes if the row has none there.
    pub fn field(&self, place: usize) -> &[u8]
        ensures { result.now ≡ slice_index_or self.now place [] }
    {
        match self.inner.get(place) {
            Some(field) => field,
            None => &[],
        }
    }

    /// Returns the field at a place as a text, and an empty one if it is not UTF-8.
    pub fn text(&self, place: usize) -> &str
        ensures { IsUtf8 (slice_index_or self.now place []) → result.now ≡ slice_index_or self.now place [] }
    {
        str::from_utf8(self.field(place)).unwrap_or("")
    }

    /// Returns the number that the field at a place spells in decimal. What it is for any other field is open.
    pub fn natural(&self, place: usize) -> u64
        ensures { (n : ℕ) → n < 2 ^ 64 → slice_index_or self.now place [] ≡ decimal n → result ≡ n }
    {
        match self.text(place).parse::<u64>() {
            Ok(number) => number,
            Err(_) => 0,
        }
    }

    /// Returns the number, perhaps below 0, that the field at a place spells in decimal. What it is for any other field
    /// is open.
    pub fn integer(&self, place: usize) -> i64
        ensures { (z : ℤ) → unsigned_abs z < 2 ^ 63 → slice_index_or self.now place [] ≡ signed_decimal z → result ≡ z }
    {
        match self.text(place).parse::<i64>() {
            Ok(number) => number,
            Err(_) => 0,
        }
    }
}
