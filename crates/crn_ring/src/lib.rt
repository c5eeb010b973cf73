//! A broadcast ring of block words. One producer publishes the blocks of a stream in order. Each of several readers
//! takes all of them, on its own thread, until the end is marked.
//!
//! The threads share one table of words: the ring cursor, a cursor for each reader, and `size` slots of
//! [`BLOCK_WORDS`](crn_cipher::BLOCK_WORDS) words. Block `n` is stored in slot `n mod size`. A slot is reused once each
//! reader has taken its block or left. Every step of a thread is one sequentially consistent load or store of one word,
//! by one of the eight functions of `crn_steps`, and this crate can touch a word by no other. There are no locks. No call
//! after [`Ring::open`] allocates, and none waits: if there is no room, or no block, the call says so and the caller tries
//! again.
//!
//! What is proved: between any two steps of any threads, the words and what each actor knows are lawful (the rule of
//! `crn_steps`). Each step is the move of its kind in the ring of `crn_proto`, and every run of that ring shows a
//! broadcast ([`laws::steps_are_a_run`]). So what a reader gets are the blocks from `first` on, each once and in order.
//! By each step its actor goes on, so the ring cannot stick. Nothing is claimed about fairness.
//!
//! Source: Thompson, Farley, Barker, Gee and Stewart, "Disruptor: High performance alternative to bounded queues for
//! exchanging data between concurrent threads", LMAX, 2011.
#![tactic(auto)]

mod answers;
mod blocks;
mod producer;
mod reader;
mod ring;
mod room;

pub use answers::{Batch, Publish, PublishMany, Take};
pub use crn_steps::{Closing, laws};
pub use producer::Producer;
pub use reader::{LeftReader, Reader};
pub use ring::Ring;
