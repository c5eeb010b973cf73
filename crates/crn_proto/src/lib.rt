//! A broadcast ring of stream blocks, as data: one producer stores blocks into slots that are used again and again,
//! and each reader takes every block, in order. It has the ring's words, what each actor knows, a machine that takes
//! one load or store at a time, and the laws of every schedule. Nothing here runs in threads.
//!
//! Source: Thompson, Farley, Barker, Gee and Stewart, "Disruptor: High performance alternative to bounded queues for
//! exchanging data between concurrent threads", LMAX 2011: a ring allocated in advance, one cursor of the producer,
//! a count of each consumer, and a producer that waits for the slowest of them.
#![tactic(auto)]

mod actor_parts;
mod fault;
pub mod laws;
mod machine;
mod schedule;
mod spec;

pub use actor_parts::{Part, ProducerPart, ReaderPart};
pub use fault::RingFault;
pub use machine::{Machine, replay};
pub use schedule::{Actor, Kind, Step};
pub use spec::RingSpec;

/// What a reader's cursor holds once the reader has left. It is above every count of blocks.
pub const LEFT: u64 = 1 << 63;
