//! A producer and two readers, each on its own thread. Each reader gets the very blocks of the key, in order.

ghost use Rattle.std.specs.Prelude.{◌≡◌, false, true};
ghost use Rattle.crn_ring.specs.Calls.{IsProducerOf, IsReaderOf, producer_part, reader_part, spec_of};

use super::loops::drain;
use crate::rings::open_two;
use crn_cipher::block;
use crn_ring::{Producer, Publish, Reader, Ring, Take};
use crn_run::feed;
use crossbeam_utils::Backoff;
use std::alloc::Global;
use std::sync::Wait;
use std::thread;
use std::thread::Threads;

// How blocks are published and taken.
#[derive(Clone, Copy)]
enum Pace {
    OneByOne,
    ByBatches,
}

// Publishes all blocks one by one, and then the end.
fn feed_one_by_one<R: Wait>(rt: &R, ring: &Ring, producer: &mut Producer)
    requires of { IsProducerOf ring.now producer.old }
    requires running { (producer_part producer.old).ended ≡ false }
    ensures all { (producer_part producer.new).published ≡ (spec_of ring.now).id.total }
    ensures ended { (producer_part producer.new).ended ≡ true }
{
    let id = ring.spec().id;
    let backoff = Backoff::new();
    for _ in rt.forever() {
        let n = producer.published();
        if n == id.total {
            producer.finish(ring);
            return;
        }
        match producer.try_publish(ring, &block(id.key, n)) {
            Publish::Done => backoff.reset(),
            Publish::Full {
                reader: _,
                taken: _,
            } => backoff.snooze(),
        }
    }
    unreachable!()
}

// Takes blocks one by one up to the end. Answers how many were the key's own.
fn drain_one_by_one<R: Wait>(rt: &R, ring: &Ring, reader: &mut Reader) -> u64
    requires of { IsReaderOf ring.now reader.old }
    requires running { (reader_part reader.old).seen_end ≡ false }
    ensures ended { (reader_part reader.new).seen_end ≡ true }
{
    let key = ring.spec().id.key;
    let backoff = Backoff::new();
    let mut right = 0u64;
    for _ in rt.forever() {
        let n = reader.taken();
        match reader.try_take(ring) {
            Take::Got(b) => {
                if b == block(key, n) {
                    right = right.wrapping_add(1);
                }
                backoff.reset();
            }
            Take::Empty { published: _ } => backoff.snooze(),
            Take::Ended { published: _ } => return right,
        }
    }
    unreachable!()
}

// A reader's number, how many blocks it has taken at the end, and how many of these were the key's own.
type Read = (u32, u64, u64);

// Takes all blocks up to the end, at this pace.
fn drain_by<R: Wait>(rt: &R, ring: &Ring, mut reader: Reader, pace: Pace) -> Read
    requires of { IsReaderOf ring.now reader }
    requires running { (reader_part reader).seen_end ≡ false }
{
    let right = match pace {
        Pace::OneByOne => drain_one_by_one(rt, ring, &mut reader),
        Pace::ByBatches => drain(rt, ring, &mut reader),
    };
    (reader.number(), reader.taken(), right)
}

// Publishes all blocks and then the end. Answers how many are published.
fn feed_by<R: Wait>(rt: &R, ring: &Ring, mut producer: Producer, pace: Pace) -> u64
    requires of { IsProducerOf ring.now producer }
    requires running { (producer_part producer).ended ≡ false }
{
    match pace {
        Pace::OneByOne => feed_one_by_one(rt, ring, &mut producer),
        Pace::ByBatches => feed(rt, ring, &mut producer),
    }
    producer.published()
}

// Takes all blocks by both readers, each on its own thread.
fn drain_both<R: Threads + Wait + Sync>(
    rt: &R,
    ring: &Ring,
    a: Reader,
    b: Reader,
    pace: Pace,
) -> (Read, Read)
    requires first { IsReaderOf ring.now a × ((reader_part a).seen_end ≡ false) }
    requires second { IsReaderOf ring.now b × ((reader_part b).seen_end ≡ false) }
{
    thread::join(
        rt,
        move ||
            requires { IsReaderOf ring.now a × ((reader_part a).seen_end ≡ false) }
        { drain_by(rt, ring, a, pace) },
        move ||
            requires { IsReaderOf ring.now b × ((reader_part b).seen_end ≡ false) }
        { drain_by(rt, ring, b, pace) },
    )
}

// Publishes all blocks on one thread while both readers take them.
fn run<R: Threads + Wait + Sync>(
    rt: &R,
    ring: &Ring,
    producer: Producer,
    a: Reader,
    b: Reader,
    pace: Pace,
) -> (u64, (Read, Read))
    requires producer { IsProducerOf ring.now producer × ((producer_part producer).ended ≡ false) }
    requires first { IsReaderOf ring.now a × ((reader_part a).seen_end ≡ false) }
    requires second { IsReaderOf ring.now b × ((reader_part b).seen_end ≡ false) }
{
    thread::join(
        rt,
        move ||
            requires { IsProducerOf ring.now producer × ((producer_part producer).ended ≡ false) }
        { feed_by(rt, ring, producer, pace) },
        move ||
            requires { (IsReaderOf ring.now a × ((reader_part a).seen_end ≡ false)) × (IsReaderOf ring.now b × ((reader_part b).seen_end ≡ false)) }
        { drain_both(rt, ring, a, b, pace) },
    )
}

// Whether both readers of a ring of this size get all blocks of the zero key below `total`, and no more.
fn all_arrive<R: Threads + Wait + Sync>(
    rt: &R,
    alloc: Global,
    size: u64,
    total: u64,
    pace: Pace,
) -> bool {
    match open_two(alloc, size, total) {
        None => false,
        Some((ring, producer, a, b)) => {
            let reads = ((0, total, total), (1, total, total));
            run(rt, &ring, producer, a, b, pace) == (total, reads)
        }
    }
}

#[test]
fn two_readers_get_every_block_one_by_one(rt: HostRuntime) {
    for size in [2, 64] {
        assert!(rt;
            all_arrive(&rt, rt.alloc(), size, 4_096, Pace::OneByOne),
            "size {size}"
        );
    }
}

#[test]
fn two_readers_get_every_block_by_batches(rt: HostRuntime) {
    for size in [1, 2, 64, 1_024] {
        assert!(rt;
            all_arrive(&rt, rt.alloc(), size, 65_536, Pace::ByBatches),
            "size {size}"
        );
    }
}
