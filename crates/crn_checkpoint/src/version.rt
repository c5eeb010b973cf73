//! The versions of a checkpoint's text.

ghost use Rattle.std.specs.Prelude.{◌≡◌};
ghost use Rattle.crn_checkpoint.specs.CheckpointText.{version_number};

/// A version of a checkpoint's text. The first has no returns, and is written only to be compared with.
#[derive(Clone, Copy, Debug, PartialEq, Eq)]
pub(crate) enum Version {
    First,
    Second,
}

impl Version {
    /// Returns the number of the version: 1 or 2.
    pub(crate) fn number(self) -> u64
        ensures { result ≡ version_number self }
    {
        match self {
            Version::First => 1,
            Version::Second => 2,
        }
    }
}
