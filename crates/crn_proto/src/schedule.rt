//! Schedules, which name the actor of each step. A step is one load or one store of one word.

/// Whose step is next.
#[derive(Clone, Copy, Debug, PartialEq, Eq)]
pub enum Actor {
    /// The producer, on its way to the next block or to the end of the stream.
    Producer,
    /// The producer, as it ends the stream early.
    Finish,
    /// The reader of this number, on its way to the next block.
    Reader(u32),
    /// The reader of this number, as it leaves.
    Leave(u32),
}

/// The kind of a step: of the producer, or of a reader.
#[derive(Clone, Copy, Debug, PartialEq, Eq)]
pub enum Kind {
    /// The producer loads a reader's cursor.
    P1,
    /// The producer stores a word of a block into its slot.
    P2,
    /// The producer stores the ring cursor: it publishes, or ends the stream.
    P3,
    /// A reader loads the ring cursor.
    R1,
    /// A reader loads a word of a block from its slot.
    R2,
    /// A reader stores its own cursor: it has taken a block, or leaves.
    R3,
}

/// One load or store of one word.
#[derive(Clone, Copy, Debug, PartialEq, Eq)]
pub struct Step {
    /// What kind of step it is.
    pub kind: Kind,
    /// The number of the word that is loaded or stored.
    pub word: u64,
    /// The value that is loaded or stored.
    pub value: u64,
}
