//! The producer of a ring.
ghost use Rattle.std.specs.Prelude.{◌≡◌, ◌≤◌};
ghost use Rattle.crn_ring.specs.Gates.{Remembers};
ghost use Rattle.crn_steps.specs.Holds.{HasProducer};
ghost use Rattle.crn_steps.specs.Seats.{passed_in, producer_in, spec_in, view_of};

use crate::answers::{Publish, PublishMany};
use crate::ring::Ring;
use crate::room::Room;
use crn_cipher::{BLOCK_WORDS, Block};
use crn_steps::Place;

/// The producer of a ring: it publishes the blocks of the ring's stream in order, and then marks the end. A ring has one,
/// which may run on its own thread.
///
/// It remembers the least count that it last loaded from the readers' cursors, and loads them again only if that count
/// leaves too little room. Source: Thompson, Farley, Barker, Gee and Stewart, "Disruptor", LMAX, 2011 (gating
/// sequences).
#[derive(Drop)]
pub struct Producer {
    pub(crate) seat: Place,
    pub(crate) published: u64,
    pub(crate) ended: bool,
    pub(crate) least: u64,
    pub ghost role: { HasProducer (view_of seat) },
    pub ghost counts: { published ≡ (producer_in seat).published },
    pub ghost ends: { ended ≡ (producer_in seat).ended },
    pub ghost rests: { (producer_in seat).stored ≡ 0 },
    pub ghost looks: { passed_in seat ≡ 0 },
    pub ghost within: { published ≤ (spec_in seat).id.total },
    pub ghost remembers: { Remembers (spec_in seat).size published (spec_in seat).readers (producer_in seat).gates least },
}

impl Producer {
    ghost use Rattle.std.specs.Prelude.{◌+◌, ◌-◌, ◌*◌, ◌<◌, true, false, length};
    ghost use Rattle.crn_cipher.specs.Following.{FollowOn};
    ghost use Rattle.crn_proto.specs.Ring.{Finish, producer_after};
    ghost use Rattle.crn_proto.specs.Chains.{ProducerReaches};
    ghost use Rattle.crn_ring.specs.Gates.{HaveRoom};
    ghost use Rattle.crn_ring.specs.Calls.{AfterPublish, AfterPublishMany, IsProducerOf, producer_part, producer_spec, spec_of};

    /// Returns the number of the block that it publishes next, at most the ring's total.
    #[inline(always)]
    pub fn published(&self) -> u64
        ensures part { result ≡ (producer_part self.now).published }
        ensures within { result ≤ (producer_spec self.now).id.total }
    {
        self.published
    }

    /// Returns whether the end is marked.
    #[inline(always)]
    pub fn ended(&self) -> bool
        ensures { result ≡ (producer_part self.now).ended }
    {
        self.ended
    }

    /// Publishes the next block if every reader that has not left has room for it.
    ///
    /// Returns [`Publish::Done`]. If there is no room, it stores nothing and returns [`Publish::Full`] with the first
    /// reader, by number, that this call found without room. If the remembered count leaves room, no reader's cursor is
    /// loaded. Allocates nothing, never waits, and makes at most `readers + BLOCK_WORDS + 1` loads and stores.
    ///
    /// Source: Thompson, Farley, Barker, Gee and Stewart, "Disruptor", LMAX, 2011.
    ///
    /// # Asks
    ///
    /// This is the ring's producer, and the end is not marked. The block is the next one, of the ring's key and below its
    /// total.
    pub fn try_publish(&mut self, ring: &Ring, block: &Block) -> Publish
        requires ring { IsProducerOf ring.now self.old }
        requires running { (producer_part self.old).ended ≡ false }
        requires block { (block.now.number ≡ (producer_part self.old).published) × (block.now.number < (spec_of ring.now).id.total) × (block.now.key ≡ (spec_of ring.now).id.key) }
        ensures ring { IsProducerOf ring.now self.new }
        ensures moves { ProducerReaches (spec_of ring.now) (producer_part self.old) ((spec_of ring.now).readers + BLOCK_WORDS + 1) (producer_part self.new) }
        ensures steps { (producer_part self.new).steps ≤ (producer_part self.old).steps + (spec_of ring.now).readers + BLOCK_WORDS + 1 }
        ensures answer { AfterPublish (spec_of ring.now) (producer_part self.old) (producer_part self.new) result }
        ensures quiet { HaveRoom (spec_of ring.now) (producer_part self.old) 1 → (producer_part self.new).loads ≡ (producer_part self.old).loads }
        ensures within { (producer_part self.new).published ≤ (spec_of ring.now).id.total }
    {
        match self.publish_batch(ring, &[*block]) {
            PublishMany::Done { count: _ } => Publish::Done,
            PublishMany::Full { reader, taken } => Publish::Full { reader, taken },
        }
    }

    /// Publishes as many of the blocks as every reader that has not left has room for, by one store of the ring cursor.
    ///
    /// Returns [`PublishMany::Done`] with the number published. It is less than `blocks.len()` only if a cursor that this
    /// call loaded leaves room for no more. If there is no room at all, it returns [`PublishMany::Full`] as
    /// [`try_publish`](Producer::try_publish) does. Allocates nothing, never waits, and makes at most
    /// `readers + BLOCK_WORDS * count + 1` loads and stores.
    ///
    /// # Asks
    ///
    /// This is the ring's producer, and the end is not marked. `blocks` is not empty and has the next blocks in order, of
    /// the ring's key and below its total.
    pub fn publish_batch(&mut self, ring: &Ring, blocks: &[Block]) -> PublishMany
        requires ring { IsProducerOf ring.now self.old }
        requires running { (producer_part self.old).ended ≡ false }
        requires blocks { (0 < length blocks.now) × ((producer_part self.old).published + length blocks.now ≤ (spec_of ring.now).id.total) × FollowOn (spec_of ring.now).id.key (producer_part self.old).published (length blocks.now) blocks.now }
        ensures ring { IsProducerOf ring.now self.new }
        ensures moves { ProducerReaches (spec_of ring.now) (producer_part self.old) ((spec_of ring.now).readers + BLOCK_WORDS * ((producer_part self.new).published - (producer_part self.old).published) + 1) (producer_part self.new) }
        ensures steps { (producer_part self.new).steps ≤ (producer_part self.old).steps + (spec_of ring.now).readers + BLOCK_WORDS * ((producer_part self.new).published - (producer_part self.old).published) + 1 }
        ensures answer { AfterPublishMany (spec_of ring.now) (producer_part self.old) (producer_part self.new) (length blocks.now) result }
        ensures quiet { HaveRoom (spec_of ring.now) (producer_part self.old) (length blocks.now) → (producer_part self.new).loads ≡ (producer_part self.old).loads }
        ensures within { (producer_part self.new).published ≤ (spec_of ring.now).id.total }
    {
        let most = blocks.len();
        match ring.find_room(&mut self.seat, self.published, &mut self.least, most) {
            Room::Full { reader, taken } => PublishMany::Full { reader, taken },
            Room::Blocks(count) => {
                ring.store_rows(&mut self.seat, blocks, count);
                self.published += count as u64;
                ring.words
                    .publish_upto(&mut self.seat, self.published, count);
                PublishMany::Done { count }
            }
        }
    }

    /// Marks the end after the blocks published so far, by one store. No block follows it. Allocates nothing and never
    /// waits.
    ///
    /// # Asks
    ///
    /// This is the ring's producer, and the end is not marked.
    pub fn finish(&mut self, ring: &Ring)
        requires ring { IsProducerOf ring.now self.old }
        requires running { (producer_part self.old).ended ≡ false }
        ensures ring { IsProducerOf ring.now self.new }
        ensures moves { ProducerReaches (spec_of ring.now) (producer_part self.old) 1 (producer_part self.new) }
        ensures one_store { producer_part self.new ≡ producer_after (producer_part self.old) Finish 0 }
        ensures published { (producer_part self.new).published ≡ (producer_part self.old).published }
        ensures ended { (producer_part self.new).ended ≡ true }
    {
        ring.words.store_end(&mut self.seat, self.published);
        self.ended = true;
    }
}
