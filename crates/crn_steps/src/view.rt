//! What a seat knows of a ring. No value of these types is made: they are used only in contracts and proofs.
use crn_proto::{ProducerPart, ReaderPart, RingSpec};

/// The kind of actor whose seat a view is of.
pub enum Role {
    /// The producer's. While the ring is being opened, the readers from `number` on wait in it too.
    Producer,
    /// That of reader `number`.
    Reader,
}

/// What a seat knows: the ring, the actor, and the actor's part of the ring's state.
pub struct View {
    /// The ring, as it was opened.
    pub spec: RingSpec,
    /// Whose part it is.
    pub role: Role,
    /// The reader's number; in the producer's view the number of the first reader that waits in its seat.
    pub number: u32,
    /// The producer's part. A reader's view has one too, which no rule mentions.
    pub producer: ProducerPart,
    /// The reader's part; in the producer's view that of each reader that waits in it.
    pub reader: ReaderPart,
    /// How many readers' cursors the producer has loaded in turn that let the next block in.
    pub passed: u32,
    /// Whether the reader has loaded the ring cursor and has taken nothing since.
    pub looked: bool,
}
