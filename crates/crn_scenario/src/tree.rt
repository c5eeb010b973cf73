//! Looks into a document's tree.

ghost use Rattle.std.specs.Prelude.{◌≡◌, map, option_map, option_copied, IfOk};
ghost use Rattle.toml.specs.Data.{get_member};
ghost use Rattle.toml.specs.View.{view, table_view, array_view};
ghost use Rattle.crn_scenario.specs.Tree as spec;

use toml::value::Array;
use toml::{Table, Value};

/// Returns the value at a key.
pub fn member_at<'a>(table: &'a Table, key: &str) -> Option<&'a Value>
    ensures { option_map (λ x. view x.now) result ≡ get_member key.now (table_view table.now) }
{
    table.get(key)
}

/// Returns the whole number at a key, if the value there is one.
pub fn integer_at(table: &Table, key: &str) -> Option<i64>
    ensures { result ≡ spec.integer_at key.now (table_view table.now) }
{
    member_at(table, key)?.as_integer()
}

/// Returns a number without its sign, and 0 if there is none. In a tree without a fault no number has a minus.
pub fn natural(number: Option<i64>) -> u64
    ensures { result ≡ spec.natural number }
{
    number.unwrap_or(0).unsigned_abs()
}

/// Returns the text at a key, if the value there is one.
pub fn text_at<'a>(table: &'a Table, key: &str) -> Option<&'a str>
    ensures { option_copied result ≡ spec.text_at key.now (table_view table.now) }
{
    member_at(table, key)?.as_str()
}

/// Returns the array at a key, if the value there is one.
pub fn array_at<'a>(table: &'a Table, key: &str) -> Option<&'a Array>
    ensures { option_map (λ a. array_view a.now) result ≡ spec.array_at key.now (table_view table.now) }
{
    member_at(table, key)?.as_array()
}

/// Returns the table at a key, if the value there is one.
pub fn table_at<'a>(table: &'a Table, key: &str) -> Option<&'a Table>
    ensures { option_map (λ t. table_view t.now) result ≡ spec.table_at key.now (table_view table.now) }
{
    member_at(table, key)?.as_table()
}

/// Returns how many entries an array has.
pub fn count_items(array: &Array) -> usize
    ensures { result ≡ spec.count_items (array_view array.now) }
{
    array.len()
}

/// Returns whether each entry is a whole number.
pub fn are_integers(array: &Array) -> bool
    ensures { result ≡ spec.are_integers (array_view array.now) }
{
    'items: for item in array {
        if !item.is_integer() {
            return false;
        }
    }
    true
}

/// Returns whether each entry is a text.
pub fn are_texts(array: &Array) -> bool
    ensures { result ≡ spec.are_texts (array_view array.now) }
{
    'items: for item in array {
        if !item.is_str() {
            return false;
        }
    }
    true
}

/// Returns whether each entry is a table.
pub fn are_tables(array: &Array) -> bool
    ensures { result ≡ spec.are_tables (array_view array.now) }
{
    'items: for item in array {
        if !item.is_table() {
            return false;
        }
    }
    true
}
