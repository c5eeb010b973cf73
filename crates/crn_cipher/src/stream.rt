//! The streams of random words and their blocks.
ghost use Rattle.std.specs.Prelude.{◌≡◌, ◌<◌};
ghost use Rattle.crn_cipher.specs.Blocks.{StreamWords, BlockWords, block_word, counter_of, name_of};
ghost use Rattle.crn_cipher.specs.declared.stream.Stream.TheVariants as stream;

use crate::{BLOCK_WORDS, STREAM_WORDS};

/// A stream of random words within the blocks of a key, by what is drawn from it.
#[derive(Clone, Copy, Debug, PartialEq, Eq)]
pub enum Stream {
    /// The demands of the periods.
    Demand,
    /// The lead times of orders placed in the periods.
    Lead,
    /// The items that customers return in the periods.
    Returns,
}

impl Stream {
    /// Returns the second word of the cipher's counters for the stream: 0, 1 or 2.
    #[inline(always)]
    pub fn counter(self) -> u64
        ensures { result ≡ counter_of self }
    {
        match self {
            Stream::Demand => 0,
            Stream::Lead => 1,
            Stream::Returns => 2,
        }
    }

    /// Returns the name of the stream in texts.
    pub fn name(self) -> &'static str
        ensures { result.now ≡ name_of self }
    {
        match self {
            Stream::Demand => "demand",
            Stream::Lead => "lead",
            Stream::Returns => "returns",
        }
    }
}

/// One block of the stream of a key, made by [`block`](crate::block). Its type keeps that the words of each stream
/// are the cipher's at `number`, so a block can't hold any other words.
#[derive(Clone, Copy, Debug, PartialEq, Eq)]
pub struct Block {
    /// The key of the stream.
    pub key: [u64; 4],
    /// The block's number in the stream, from 0 on.
    pub number: u64,
    /// The words from which the demands of four periods are drawn.
    pub demand: [u64; 4],
    /// The words from which the lead times of the same periods are drawn.
    pub lead: [u64; 4],
    /// The words from which the returned items of the same periods are drawn.
    pub returns: [u64; 4],
    pub ghost demand_words: { demand ≡ StreamWords key number stream.Demand },
    pub ghost lead_words: { lead ≡ StreamWords key number stream.Lead },
    pub ghost returns_words: { returns ≡ StreamWords key number stream.Returns },
}

impl Block {
    /// Returns the words of a stream in the block. Allocates nothing.
    #[inline(always)]
    pub fn words(&self, stream: Stream) -> &[u64; 4]
        ensures { result.now ≡ StreamWords self.now.key self.now.number stream }
    {
        match stream {
            Stream::Demand => &self.demand,
            Stream::Lead => &self.lead,
            Stream::Returns => &self.returns,
        }
    }

    /// Returns word `i` of the block, stream after stream in the order of [`STREAMS`](crate::STREAMS). Allocates nothing.
    ///
    /// # Asks
    ///
    /// `i` is below [`BLOCK_WORDS`].
    #[inline(always)]
    #[tactic(auto, using(crate::proofs::Blocks::word_of_demand, crate::proofs::Blocks::word_of_lead, crate::proofs::Blocks::word_of_returns))]
    pub fn word(&self, i: usize) -> u64
        requires { i < BLOCK_WORDS }
        ensures { result ≡ block_word self.now.key self.now.number i }
    {
        let words = STREAM_WORDS as usize;
        if i < words {
            self.demand[i]
        } else if i < 2 * words {
            self.lead[i - words]
        } else {
            self.returns[i - 2 * words]
        }
    }

    /// Returns the block `number` of the stream of `key`, from its words in order as they were stored somewhere. It
    /// computes no word. Allocates nothing.
    ///
    /// # Asks
    ///
    /// The words are those of that block.
    #[inline(always)]
    #[tactic(auto, using(crate::proofs::Blocks::demand_of, crate::proofs::Blocks::lead_of, crate::proofs::Blocks::returns_of))]
    pub fn from_words(key: [u64; 4], number: u64, words: [u64; BLOCK_WORDS]) -> Block
        requires { words ≡ BlockWords key number }
        ensures key { result.key ≡ key }
        ensures number { result.number ≡ number }
    {
        let [d0, d1, d2, d3, l0, l1, l2, l3, r0, r1, r2, r3] = words;
        Block {
            key,
            number,
            demand: [d0, d1, d2, d3],
            lead: [l0, l1, l2, l3],
            returns: [r0, r1, r2, r3],
        }
    }
}

/// The blocks `first` to `total - 1` of the stream of `key`.
#[derive(Clone, Copy, Debug, PartialEq, Eq)]
pub struct StreamId {
    /// The key of the stream.
    pub key: [u64; 4],
    /// The number of the first block.
    pub first: u64,
    /// The number of the block that would follow the last.
    pub total: u64,
}
