//! Threefry4x64 with 20 rounds, a random number generator that computes each block of its stream from
//! a key and a counter, and the blocks that a simulation draws from.
//!
//! Source: Salmon, Moraes, Dror and Shaw, "Parallel Random Numbers: As Easy as 1, 2, 3", SC 2011.
#![tactic(auto)]

ghost use Rattle.std.specs.Prelude.{◌≡◌, ◌+◌, ◌≤◌, ◌^◌, length};
ghost use Rattle.crn_cipher.specs.Following.{FollowOn};

mod cipher;
pub mod laws;
mod rounds;
mod rounds_undone;
mod stream;

pub use cipher::{threefry, unthreefry};
pub use stream::{Block, Stream, StreamId};

/// The words of one stream in a block: one word for each of four periods.
pub const STREAM_WORDS: u32 = 4;

/// The streams of a block, in the order in which their words stand in it.
pub const STREAMS: [Stream; 3] = [Stream::Demand, Stream::Lead, Stream::Returns];

/// The words of a block, over all its streams.
pub const BLOCK_WORDS: usize = 12;

/// Returns block `n` of the stream of `key`, for every `n`: for each stream the cipher's words at the counter
/// `(n, c, 0, 0)`, where `c` is the stream's own. Allocates nothing.
#[inline(always)]
pub fn block(key: [u64; 4], n: u64) -> Block
    ensures key { result.key ≡ key }
    ensures number { result.number ≡ n }
{
    Block {
        key,
        number: n,
        demand: threefry(key, [n, Stream::Demand.counter(), 0, 0]),
        lead: threefry(key, [n, Stream::Lead.counter(), 0, 0]),
        returns: threefry(key, [n, Stream::Returns.counter(), 0, 0]),
    }
}

/// Sets the first `count` of the blocks to those of `key` from block `n` on. Allocates nothing.
///
/// # Asks
///
/// There are so many places, and each block has a number below 2^64.
pub fn fill_blocks(key: [u64; 4], n: u64, blocks: &mut [Block], count: usize)
    requires room { count ≤ length blocks.old }
    requires numbers { n + count ≤ 2 ^ 64 }
    ensures length { length blocks.new ≡ length blocks.old }
    ensures blocks { FollowOn key n count blocks.new }
{
    // As in `block`, which as a call would keep the processor from two blocks at once.
    for k in 0..count {
        let number = n + k as u64;
        blocks[k] = Block {
            key,
            number,
            demand: threefry(key, [number, Stream::Demand.counter(), 0, 0]),
            lead: threefry(key, [number, Stream::Lead.counter(), 0, 0]),
            returns: threefry(key, [number, Stream::Returns.counter(), 0, 0]),
        };
    }
}
