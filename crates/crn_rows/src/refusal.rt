//! Failed allocations that errors of `csv` report.

ghost use Rattle.std.specs.Prelude.{◌≡◌, true};
ghost use Rattle.csv.specs.Reading.{error_kind, stops_reader};

use csv::{Error, ErrorKind};
use std::alloc::AllocError;

/// Returns the failed allocation that an error of a writer into memory reports, if rows may differ in length.
///
/// The contracts of `csv` do not say what such an error is. That it reports nothing else is believed.
pub(crate) fn refusal_of(_error: Error) -> AllocError {
    AllocError
}

/// Returns the failed allocation that an error of a reader of memory reports.
///
/// By the contracts of `csv` the error is neither about fields nor about lengths: an allocation failed, or a read of the
/// memory. That such a read does not fail is believed.
pub(crate) fn read_refusal_of(error: Error) -> AllocError
    requires { stops_reader (error_kind error) ≡ true }
{
    match error.kind() {
        ErrorKind::OutOfMemory | ErrorKind::Io(_) => refusal_of(error),
        _ => unreachable!(),
    }
}
