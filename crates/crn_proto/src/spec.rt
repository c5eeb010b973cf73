//! A ring as its caller asks for it, and whether there can be such a ring.
ghost use Rattle.std.specs.Prelude.{◌≡◌, length, IfOk, IfErr, OnErr};
ghost use Rattle.crn_proto.specs.Ring.{open_words, word_count};
ghost use Rattle.crn_proto.specs.Opening.{CanOpen, RefusesRing};

use crate::RingFault;
use crn_cipher::{BLOCK_WORDS, StreamId};
use crn_limits::{BLOCK_LIMIT, POLICY_LIMIT, is_ring_size};
use std::alloc::{AllocError, Global};

/// A ring: how many slots it has, how many readers, and the stream whose blocks it carries.
#[derive(Clone, Copy, Debug, PartialEq, Eq)]
pub struct RingSpec {
    /// The slots, each of which holds one block: a power of two from 1 to [`SLOT_LIMIT`](crn_limits::SLOT_LIMIT).
    pub size: u64,
    /// The readers, each of which takes every block: from 1 to [`POLICY_LIMIT`].
    pub readers: u32,
    /// The blocks that the ring carries: a total of at most [`BLOCK_LIMIT`], and a first block of at most the total.
    pub id: StreamId,
}

impl RingSpec {
    /// Checks that there can be such a ring. Allocates nothing.
    ///
    /// # Errors
    ///
    /// The first of these faults that holds:
    /// - [`RingFault::Size`]: the size is no power of two from 1 to [`SLOT_LIMIT`](crn_limits::SLOT_LIMIT);
    /// - [`RingFault::Readers`]: the number of readers is not from 1 to [`POLICY_LIMIT`];
    /// - [`RingFault::Stream`]: the total is over [`BLOCK_LIMIT`], or the first block is over the total.
    pub fn judge(&self) -> Result<(), RingFault>
        ensures valid { IfOk result (λ _. CanOpen self.now) }
        ensures refused { IfErr result (λ f. RefusesRing self.now f) }
        ensures needed { OnErr result (¬ CanOpen self.now) }
    {
        if !is_ring_size(self.size) {
            return Err(RingFault::Size);
        }
        if self.readers == 0 || self.readers > POLICY_LIMIT {
            return Err(RingFault::Readers);
        }
        if self.id.total > BLOCK_LIMIT || self.id.first > self.id.total {
            return Err(RingFault::Stream);
        }
        Ok(())
    }

    /// Returns the words of the ring before any step: its cursors stand at the first block, and its slots hold zeros.
    ///
    /// # Asks
    ///
    /// [`judge`](RingSpec::judge) finds no fault.
    ///
    /// # Errors
    ///
    /// `AllocError` if an allocation fails.
    pub fn opening_words(&self, alloc: Global) -> Result<Vec<u64>, AllocError>
        requires { CanOpen self.now }
        ensures words { IfOk result (λ words. words.items ≡ open_words self.now) }
        ensures count { IfOk result (λ words. length words.items ≡ word_count self.now) }
    {
        let cursors = 1 + self.readers as usize;
        let mut words = vec![in alloc; 2 * self.id.first; 1]?;
        words.resize(cursors, self.id.first)?;
        words.resize(cursors + BLOCK_WORDS * self.size as usize, 0)?;
        Ok(words)
    }
}
