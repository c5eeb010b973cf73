//! The blocks that a policy's thread takes from its ring.
ghost use Rattle.std.specs.Prelude.{◌≡◌, ◌≤◌, length};
ghost use Rattle.crn_run.specs.declared.batch.TheConstants.{BATCH};

use crate::batch::{BATCH, room};
use crn_cipher::Block;
use crn_ring::{Batch, Reader, Ring};

/// The places into which a policy's reader takes blocks. Only the reader's calls write them. The blocks that its last call has
/// taken stand first.
#[derive(Drop)]
pub(crate) struct Places {
    blocks: [Block; BATCH],
    // How many blocks the last call has taken.
    count: usize,
    ghost places: { length blocks ≡ BATCH },
    ghost within: { count ≤ BATCH },
}

/// A block that a policy's reader has taken. Only [`Places::taken`] makes it, and only for a block of the last call.
#[derive(Drop)]
pub(crate) struct Taken<'a> {
    block: &'a Block,
}

impl Places {
    ghost use Rattle.std.specs.Prelude.{◌<◌, false, Some, slice_get};
    ghost use Rattle.crn_ring.specs.Calls.{AfterBatch, AfterShown, IsReaderOf, reader_number, reader_part, spec_of};
    ghost use Rattle.crn_run.specs.Inner.Taken.{taken_in};

    /// Returns places into which no block is taken yet.
    pub(crate) fn new() -> Places
        ensures { result.count ≡ 0 }
    {
        Places {
            blocks: room(),
            count: 0,
        }
    }

    /// Takes all blocks that fit of those that the reader's last look at the ring has shown. Returns their number.
    #[inline(always)]
    pub(crate) fn take_shown(&mut self, ring: &Ring, reader: &mut Reader) -> usize
        requires reader { IsReaderOf ring.now reader.old }
        ensures reader { IsReaderOf ring.now reader.new × (reader_number reader.new ≡ reader_number reader.old) }
        ensures answer { AfterShown (spec_of ring.now) (reader_part reader.old) (reader_part reader.new) self.old.blocks self.new.blocks result }
        ensures count { self.new.count ≡ result }
        ensures within { (reader_part reader.new).taken ≤ (spec_of ring.now).id.total }
    {
        self.count = reader.take_shown(ring, &mut self.blocks);
        self.count
    }

    /// Looks at the ring and takes all published blocks that fit.
    #[inline(always)]
    pub(crate) fn take_batch(&mut self, ring: &Ring, reader: &mut Reader) -> Batch
        requires reader { IsReaderOf ring.now reader.old × ((reader_part reader.old).seen_end ≡ false) }
        ensures reader { IsReaderOf ring.now reader.new × (reader_number reader.new ≡ reader_number reader.old) }
        ensures answer { AfterBatch (spec_of ring.now) (reader_part reader.old) (reader_part reader.new) self.old.blocks self.new.blocks result }
        ensures count { self.new.count ≡ taken_in result }
        ensures within { (reader_part reader.new).taken ≤ (spec_of ring.now).id.total }
    {
        let batch = reader.take_batch(ring, &mut self.blocks);
        self.count = if let Batch::Got { count } = batch {
            count
        } else {
            0
        };
        batch
    }

    /// Returns how many blocks the last call has taken.
    #[inline(always)]
    pub(crate) fn count(&self) -> usize
        ensures { result ≡ self.now.count }
    {
        self.count
    }

    /// Returns the block at a place below that count.
    #[inline(always)]
    pub(crate) fn taken<'a>(&'a self, place: usize) -> Taken<'a>
        requires { place < self.now.count }
        ensures { slice_get self.now.blocks place ≡ Some result.block.now }
    {
        Taken {
            block: &self.blocks[place],
        }
    }
}

impl<'a> Taken<'a> {
    /// Returns the block.
    #[inline(always)]
    pub(crate) fn block(&self) -> &'a Block
        ensures { result.now ≡ self.now.block.now }
    {
        self.block
    }
}
