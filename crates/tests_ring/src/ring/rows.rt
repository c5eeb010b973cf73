//! Calls of one thread in a row, with all answers worked out by hand. The words of blocks are Random123's.

use crate::rings::{One, Two, Which, ring_of};
use crn_cipher::Block;
use crn_proto::{LEFT, RingFault, RingSpec};
use crn_ring::{Closing, Publish, Reader, Ring, Take};
use std::alloc::Global;
use tests_model::words::{ZERO_BLOCK, words_by_stream};

// The first block of a ring of one slot, as it is taken.
fn first_block(alloc: Global) -> Option<Block> {
    let mut one = One::open(alloc, 1, 1)?;
    match (one.publishes(0), one.take()) {
        (true, Some(Take::Got(arrived))) => Some(arrived),
        _ => None,
    }
}

#[test]
fn the_words_of_every_stream_arrive(rt: HostRuntime) {
    let Some(arrived) = first_block(rt.alloc()) else {
        panic!(rt; "no block")
    };
    assert_eq!(rt; words_by_stream(&arrived), Some(ZERO_BLOCK));
}

// Passes two blocks through one slot, and returns whether each answer was right.
fn waits_for_both(two: &mut Two) -> bool {
    let full = Publish::Full {
        reader: 1,
        taken: 0,
    };
    two.publishes(0)
        && two.takes(Which::First, 0)
        && two.publish() == Some(full)
        && two.takes(Which::Second, 0)
        && two.publishes(1)
}

// The same of a ring of one slot; false also if it is not opened.
fn one_slot_waits(alloc: Global) -> bool {
    match Two::open(alloc, 1, 2) {
        None => false,
        Some(mut two) => waits_for_both(&mut two),
    }
}

#[test]
fn a_ring_of_one_slot_waits_for_both_readers(rt: HostRuntime) {
    assert!(rt; one_slot_waits(rt.alloc()));
}

// Publishes five blocks on two slots and takes the first three, and returns whether each answer was right.
fn fills_two_slots(one: &mut One) -> bool {
    let full = Publish::Full {
        reader: 0,
        taken: 0,
    };
    one.publishes(0)
        && one.publishes(1)
        && one.publish() == Some(full)
        && one.takes(0)
        && one.publishes(2)
        && one.takes(1)
        && one.takes(2)
        && one.publishes(3)
        && one.publishes(4)
}

// Marks the end after five blocks, takes the last two and the end, and returns whether each answer was right.
fn ends_at_five(one: &mut One) -> bool {
    one.finish();
    one.producer.ended()
        && one.producer.published() == 5
        && one.takes(3)
        && one.takes(4)
        && !one.reader.ended()
        && one.take() == Some(Take::Ended { published: 5 })
        && one.reader.ended()
        && one.reader.taken() == 5
}

// Whether both are so of a ring of two slots.
fn two_slots_carry(alloc: Global) -> bool {
    match One::open(alloc, 2, 5) {
        None => false,
        Some(mut one) => fills_two_slots(&mut one) && ends_at_five(&mut one),
    }
}

#[test]
fn two_slots_carry_five_blocks(rt: HostRuntime) {
    assert!(rt; two_slots_carry(rt.alloc()));
}

// What is taken from a ring of one block before and after its end is marked with nothing published.
fn taken_from_nothing(alloc: Global) -> Option<[Take; 2]> {
    let mut one = One::open(alloc, 1, 1)?;
    let before = one.take()?;
    one.finish();
    Some([before, one.take()?])
}

#[test]
fn a_ring_that_ends_empty(rt: HostRuntime) {
    let (empty, ended) = (Take::Empty { published: 0 }, Take::Ended { published: 0 });
    assert_eq!(rt; taken_from_nothing(rt.alloc()), Some([empty, ended]));
}

// Whether reader 0 of two gets three blocks over one slot, if reader 1 leaves at once.
fn passes_without_second(alloc: Global) -> bool {
    match Two::open(alloc, 1, 3) {
        Some(two) if two.second.number() == 1 => two.without_second().passes(0, 3),
        _ => false,
    }
}

#[test]
fn one_reader_leaves_at_once(rt: HostRuntime) {
    assert!(rt; passes_without_second(rt.alloc()));
}

// The fault that rejects a ring of the zero key.
fn refusal(alloc: Global, size: u64, readers: u32, total: u64) -> Option<RingFault> {
    Ring::open(alloc, ring_of([0; 4], size, readers, total)).err()
}

// Sizes, readers and totals, and the fault that rejects their ring.
static REFUSALS: [(u64, u32, u64, Option<RingFault>); 10] = [
    (3, 1, 4, Some(RingFault::Size)),
    (0, 1, 4, Some(RingFault::Size)),
    (2_048, 1, 4, Some(RingFault::Size)),
    (2, 0, 4, Some(RingFault::Readers)),
    (2, 17, 4, Some(RingFault::Readers)),
    (3, 17, 4, Some(RingFault::Size)),
    (2, 17, 65_537, Some(RingFault::Readers)),
    (2, 2, 65_537, Some(RingFault::Stream)),
    (1_024, 16, 65_536, None),
    (2, 2, 4_097, None),
];

#[test]
fn rings_that_are_not_opened(rt: HostRuntime) {
    for (size, readers, total, fault) in &REFUSALS {
        assert_eq!(rt; refusal(rt.alloc(), *size, *readers, *total), *fault);
    }
}

#[test]
fn a_first_block_past_the_total(rt: HostRuntime) {
    let mut spec = ring_of([0; 4], 2, 2, 4);
    spec.id.first = 5;
    assert_eq!(rt; Ring::open(rt.alloc(), spec).err(), Some(RingFault::Stream));
}

// Whether the readers are numbered from 0 on, have taken the blocks below n and have not seen the end.
fn stand_at(readers: &[Reader], n: u64) -> bool {
    for (r, reader) in readers.iter().enumerate() {
        if reader.number() as usize != r || reader.taken() != n || reader.ended() {
            return false;
        }
    }
    true
}

// The description of a ring of this description, and whether its producer and its three readers stand at block 7.
fn opened(alloc: Global, spec: RingSpec) -> Result<(RingSpec, bool), RingFault> {
    let (ring, producer, readers) = Ring::open(alloc, spec)?;
    let stands = producer.published() == 7 && !producer.ended();
    Ok((
        ring.spec(),
        stands && readers.len() == 3 && stand_at(readers.as_slice(), 7),
    ))
}

#[test]
fn a_ring_is_opened_as_given(rt: HostRuntime) {
    let mut spec = ring_of([0; 4], 4, 3, 9);
    spec.id.first = 7;
    assert_eq!(rt; opened(rt.alloc(), spec), Ok((spec, true)));
}

// It also passes if an allocation fails: tests/hostile runs it that way.
#[test]
fn a_refused_request_is_answered(rt: HostRuntime) {
    if let Some(fault) = refusal(rt.alloc(), 4, 3, 9) {
        assert!(rt; matches!(fault, RingFault::Memory(_)));
    }
}

// Fills a ring of two slots from which only the second reader takes, and returns whether each answer was right.
fn first_holds_two_slots(two: &mut Two) -> bool {
    let full = Publish::Full {
        reader: 0,
        taken: 0,
    };
    two.publishes(0)
        && two.publishes(1)
        && two.takes(Which::Second, 0)
        && two.publish() == Some(full)
}

// Publishes block 2, takes the last two blocks and the end, and returns whether each answer was right.
fn ends_at_three(one: &mut One) -> bool {
    let passes = one.publishes(2) && one.takes(1) && one.takes(2);
    one.finish();
    passes && one.take() == Some(Take::Ended { published: 3 })
}

// What the ring is closed with after that, if each answer was right.
fn closes_at_three(mut one: One) -> Option<Closing> {
    if !ends_at_three(&mut one) {
        return None;
    }
    Some(one.close())
}

// The same of a ring of two slots from which reader 0 leaves while it holds both.
fn closes_without_first(alloc: Global) -> Option<Closing> {
    let mut two = Two::open(alloc, 2, 3)?;
    if !first_holds_two_slots(&mut two) {
        return None;
    }
    closes_at_three(two.without_first())
}

#[test]
fn a_reader_that_leaves_gates_no_more(rt: HostRuntime) {
    let closing = Closing {
        published: 3,
        ended: true,
        cursors: [LEFT, 3, 0, 0, 0, 0, 0, 0, 0, 0, 0, 0, 0, 0, 0, 0],
    };
    assert_eq!(rt; closes_without_first(rt.alloc()), Some(closing));
}

// What a ring of four slots is closed with if reader 0 leaves once it has taken three blocks and seen the end.
fn closes_after_the_end(alloc: Global) -> Option<Closing> {
    let mut two = Two::open(alloc, 4, 3)?;
    if !two.passes(3) {
        return None;
    }
    two.finish();
    match two.take(Which::First) {
        Some(Take::Ended { published: 3 }) => Some(two.without_first().close()),
        _ => None,
    }
}

#[test]
fn a_reader_leaves_after_the_end(rt: HostRuntime) {
    let closing = Closing {
        published: 3,
        ended: true,
        cursors: [LEFT, 3, 0, 0, 0, 0, 0, 0, 0, 0, 0, 0, 0, 0, 0, 0],
    };
    assert_eq!(rt; closes_after_the_end(rt.alloc()), Some(closing));
}

// Publishes three blocks, which reader 1 takes while reader 0 takes one, and returns whether each answer was right.
fn stand_apart(two: &mut Two) -> bool {
    for n in 0..3 {
        if !two.publishes(n) || !two.takes(Which::Second, n) {
            return false;
        }
    }
    two.takes(Which::First, 0)
}

// What a ring of four slots is closed with after that.
fn closes_early(alloc: Global) -> Option<Closing> {
    let mut two = Two::open(alloc, 4, 4)?;
    if !stand_apart(&mut two) {
        return None;
    }
    Some(two.close())
}

// The end is not marked, and the readers stand at blocks 1 and 3.
#[test]
fn a_ring_that_is_closed_early(rt: HostRuntime) {
    let closing = Closing {
        published: 3,
        ended: false,
        cursors: [1, 3, 0, 0, 0, 0, 0, 0, 0, 0, 0, 0, 0, 0, 0, 0],
    };
    assert_eq!(rt; closes_early(rt.alloc()), Some(closing));
}

// The count at which the reader sees the end of five blocks, from block k on; None if a block can't be published or taken.
fn ends_from(mut one: One, k: u64) -> Option<u64> {
    if !one.passes(k, 5) {
        return None;
    }
    one.finish();
    match one.take() {
        Some(Take::Ended { published }) => Some(published),
        _ => None,
    }
}

// The same of reader 0 on a ring of one slot, if reader 1 leaves once it has taken k blocks.
fn taken_beside(alloc: Global, k: u64) -> Option<u64> {
    let mut two = Two::open(alloc, 1, 5)?;
    if !two.passes(k) {
        return None;
    }
    ends_from(two.without_second(), k)
}

#[test]
fn a_reader_leaves_after_any_block(rt: HostRuntime) {
    for k in 0..6u64 {
        assert_eq!(rt; taken_beside(rt.alloc(), k), Some(5), "leaves after {k}");
    }
}
