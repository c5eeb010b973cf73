//! What each actor of a ring knows. No value of these types is made: they are used only in contracts and proofs.

use std::collections::LinkedList;

/// What the producer of a ring knows.
pub struct ProducerPart {
    /// The number of the next block to publish.
    pub published: u64,
    /// Whether it has stored the end mark.
    pub ended: bool,
    /// The words stored since the ring cursor was last stored.
    pub stored: u64,
    /// The value last loaded from each reader's cursor, and the first block's number before any load.
    pub gates: LinkedList<u64>,
    /// Each load of a reader's cursor, in order: the reader and the value.
    pub loads: LinkedList<(u32, u64)>,
    /// The loads and stores that it has made.
    pub steps: u64,
}

/// What a reader of a ring knows.
pub struct ReaderPart {
    /// The number of the next block to take.
    pub taken: u64,
    /// How far blocks were published when it last loaded the ring cursor.
    pub seen: u64,
    /// Whether that load showed the end mark, with all blocks taken.
    pub seen_end: bool,
    /// Whether it has left.
    pub left: bool,
    /// The words read since its own cursor was last stored.
    pub read: LinkedList<u64>,
    /// The loads and stores that it has made.
    pub steps: u64,
}

/// What one actor knows: the producer, or the reader of a number.
pub enum Part {
    /// The producer's part.
    OfProducer(ProducerPart),
    /// The part of the reader of this number.
    OfReader(u32, ReaderPart),
}
