//! Rows of CSV whose fields need no quotes: `csv` writes them as they are, and they are read back leniently.
#![tactic(auto)]

mod reading;
mod refusal;
mod row;
mod sheet;

pub use reading::read_rows;
pub use row::Row;
pub use sheet::Sheet;
