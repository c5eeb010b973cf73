//! The cursors of a ring that is closed.
use crn_limits::POLICY_LIMIT;

/// The result of `Ring::close`: the cursors of a ring at its end.
#[derive(Clone, Copy, Debug, PartialEq, Eq)]
pub struct Closing {
    /// The number of the block that would have been published next.
    pub published: u64,
    /// Whether the end is marked.
    pub ended: bool,
    /// For each reader the number of the block that it would have taken next, or [`LEFT`](crn_proto::LEFT) if it has
    /// left. Entries past the readers are 0.
    pub cursors: [u64; POLICY_LIMIT as usize],
}
