//! The producer's side of the policies' runs.
ghost use Rattle.std.specs.Prelude.{◌≡◌, ℕ, ◌+◌, ◌-◌, ◌<◌, ◌≤◌, true, false, length, min, slice_get, Some};
ghost use Rattle.crn_cipher.specs.declared.stream.Block.{Block};
ghost use Rattle.crn_cipher.specs.Following.{FollowOn};
ghost use Rattle.crn_ring.specs.Calls.{IsProducerOf, producer_part, spec_of};
ghost use Rattle.crn_ring.specs.Gates.{HaveRoom};
ghost use Rattle.crn_ring.specs.Parts.{PublishesOnce};
ghost use Rattle.crn_run.specs.Feeding.{AfterOffer, Feeds, OffersAll, PublishesBatch};

use crate::batch::{BATCH, room};
use crate::waiting::Waiting;
use crn_cipher::{Block, fill_blocks};
use crn_ring::{Producer, PublishMany, Ring};
use std::sync::Wait;

/// Publishes all blocks of the ring's stream that are not published yet, in batches of at most 16, and then marks the end. If
/// the ring is full it waits and tries again. It returns only if each reader takes its blocks or leaves. Allocates nothing.
///
/// Source: Thompson, Farley, Barker, Gee and Stewart, "Disruptor: High performance alternative to bounded queues for
/// exchanging data between concurrent threads", LMAX, 2011.
///
/// # Asks
///
/// `producer` is the ring's, and the end is not marked.
#[tactic(auto, using(crate::proofs::Batches::none_yet, crate::proofs::Batches::one_more, crate::proofs::Batches::all_fed))]
pub fn feed<R: Wait>(rt: &R, ring: &Ring, producer: &mut Producer)
    requires of { IsProducerOf ring.now producer.old }
    requires running { (producer_part producer.old).ended ≡ false }
    ensures of { IsProducerOf ring.now producer.new }
    ensures published { (producer_part producer.new).published ≡ (spec_of ring.now).id.total }
    ensures ended { (producer_part producer.new).ended ≡ true }
    ensures batches { Feeds (spec_of ring.now) (producer_part producer.old) (producer_part producer.new) }
{
    let total = ring.spec().id.total;
    let mut room = room();
    let mut waiting = Waiting::new(&*producer);
    for _ in rt.forever() {
        if producer.published() == total {
            producer.finish(ring);
            return;
        }
        publish_batch(rt, ring, producer, &mut room, &mut waiting);
    }
    unreachable!()
}

// Publishes the next 16 blocks, or all that are left if these are fewer, by one store of the ring cursor if there is room for
// them all.
fn publish_batch<R: Wait>(
    rt: &R,
    ring: &Ring,
    producer: &mut Producer,
    room: &mut [Block],
    waiting: &mut Waiting<Producer>,
)
    requires of { IsProducerOf ring.now producer.old }
    requires running { (producer_part producer.old).ended ≡ false }
    requires left { (producer_part producer.old).published < (spec_of ring.now).id.total }
    requires room { length room.old ≡ BATCH }
    ensures of { IsProducerOf ring.now producer.new }
    ensures room { length room.new ≡ BATCH }
    ensures batch { PublishesBatch (spec_of ring.now) (producer_part producer.old) waiting.old.counted (producer_part producer.new) waiting.new.counted }
{
    let id = ring.spec().id;
    let n = producer.published();
    let count = BATCH.min((id.total - n) as usize);
    fill_blocks(id.key, n, room, count);
    publish_all(rt, ring, producer, &room[..count], waiting);
}

// Publishes these blocks, which are the next ones, by one store of the ring cursor if there is room for them all. If the ring
// is full it waits and tries again.
fn publish_all<R: Wait>(
    rt: &R,
    ring: &Ring,
    producer: &mut Producer,
    blocks: &[Block],
    waiting: &mut Waiting<Producer>,
)
    requires of { IsProducerOf ring.now producer.old }
    requires running { (producer_part producer.old).ended ≡ false }
    requires blocks { ((producer_part producer.old).published + length blocks.now ≤ (spec_of ring.now).id.total) × FollowOn (spec_of ring.now).id.key (producer_part producer.old).published (length blocks.now) blocks.now }
    requires some { 0 < length blocks.now }
    ensures of { IsProducerOf ring.now producer.new }
    ensures running { (producer_part producer.new).ended ≡ false }
    ensures published { (producer_part producer.new).published ≡ (producer_part producer.old).published + length blocks.now }
    ensures once { HaveRoom (spec_of ring.now) (producer_part producer.old) (length blocks.now) → PublishesOnce (spec_of ring.now) (producer_part producer.old) (producer_part producer.new) (length blocks.now) }
    ensures looks { (count : ℕ) × OffersAll count (spec_of ring.now) ((producer_part producer.old).published + length blocks.now) (producer_part producer.old) waiting.old.counted (producer_part producer.new) waiting.new.counted }
{
    let mut start = 0;
    for _ in rt.forever() {
        if start == blocks.len() {
            return;
        }
        match publish_or_wait(rt, ring, producer, &blocks[start..], waiting) {
            PublishMany::Done { count } => start += count,
            PublishMany::Full {
                reader: _,
                taken: _,
            } => {}
        }
    }
    unreachable!()
}

// Publishes as many of these blocks, which are the next ones, as there is room for. If its look at the ring shows no room for
// the first, it waits before it returns.
#[inline(always)]
fn publish_or_wait<R: Wait>(
    rt: &R,
    ring: &Ring,
    producer: &mut Producer,
    blocks: &[Block],
    waiting: &mut Waiting<Producer>,
) -> PublishMany
    requires of { IsProducerOf ring.now producer.old }
    requires running { (producer_part producer.old).ended ≡ false }
    requires blocks { (0 < length blocks.now) × ((producer_part producer.old).published + length blocks.now ≤ (spec_of ring.now).id.total) × FollowOn (spec_of ring.now).id.key (producer_part producer.old).published (length blocks.now) blocks.now }
    ensures of { IsProducerOf ring.now producer.new }
    ensures answer { AfterOffer (spec_of ring.now) (length blocks.now) (producer_part producer.old) waiting.old.counted (producer_part producer.new) waiting.new.counted result }
    ensures quiet { HaveRoom (spec_of ring.now) (producer_part producer.old) (length blocks.now) → (producer_part producer.new).loads ≡ (producer_part producer.old).loads }
{
    waiting.before_look(&*producer);
    let published = producer.publish_batch(ring, blocks);
    if let PublishMany::Full {
        reader: _,
        taken: _,
    } = published
    {
        waiting.wait_for_slot(rt, ring, producer);
    }
    published
}
