//! The results of the calls of a producer, of a reader and of a ring.
use crn_cipher::Block;

/// The result of [`try_publish`](crate::Producer::try_publish).
#[derive(Clone, Copy, Debug, PartialEq, Eq)]
pub enum Publish {
    /// The block is published.
    Done,
    /// Nothing is published: when this call loaded its cursor, reader `reader` had not taken block `taken`, which is in
    /// the slot that the block needs. It is the first such reader, by number.
    Full {
        /// The reader's number.
        reader: u32,
        /// The number of the block that it takes next.
        taken: u64,
    },
}

/// The result of [`publish_batch`](crate::Producer::publish_batch).
#[derive(Clone, Copy, Debug, PartialEq, Eq)]
pub enum PublishMany {
    /// The first of the blocks are published.
    Done {
        /// How many, at least one.
        count: usize,
    },
    /// Nothing is published, as in [`Publish::Full`].
    Full {
        /// The reader's number.
        reader: u32,
        /// The number of the block that it takes next.
        taken: u64,
    },
}

/// The result of [`try_take`](crate::Reader::try_take).
#[derive(Clone, Copy, Debug, PartialEq, Eq)]
pub enum Take {
    /// The next block.
    Got(Block),
    /// No block: all published blocks were taken before. More may come.
    Empty {
        /// The number of the block that would be taken next.
        published: u64,
    },
    /// No block: all published blocks were taken before, and no more will come.
    Ended {
        /// The number of the block that would have been taken next.
        published: u64,
    },
}

/// The result of [`take_batch`](crate::Reader::take_batch).
#[derive(Clone, Copy, Debug, PartialEq, Eq)]
pub enum Batch {
    /// The next blocks, at the start of the slice that was passed.
    Got {
        /// How many, at least one.
        count: usize,
    },
    /// As [`Take::Empty`].
    Empty {
        /// The number of the block that would be taken next.
        published: u64,
    },
    /// As [`Take::Ended`].
    Ended {
        /// The number of the block that would have been taken next.
        published: u64,
    },
}
