//! The evidence that a thread failed to start.

use std::thread::SpawnError;

/// The evidence that a thread failed to start. Its field is private, so only [`Refusal::of`] makes one.
#[derive(Clone, Copy, Debug, PartialEq, Eq)]
pub(crate) struct Refusal {
    of_error: (),
}

impl Refusal {
    /// Returns the evidence in the error that `spawn` returned. The error has nothing but the closure, which is dropped.
    pub(crate) fn of<F: Drop>(_refused: SpawnError<F>) -> Refusal {
        Refusal { of_error: () }
    }
}
