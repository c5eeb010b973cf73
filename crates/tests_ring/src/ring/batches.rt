//! Calls by batches, with all answers worked out by hand.

ghost use Rattle.std.specs.Prelude.{◌≡◌, ◌+◌, ◌<◌, ◌≤◌, ℕ, length, slice_get, Some};
ghost use Rattle.crn_cipher.specs.declared.stream.Block.{Block};

use crate::rings::One;
use crn_cipher::{Block, block};
use crn_ring::{Batch, PublishMany};
use std::alloc::Global;

// Makes the first `count` of the blocks those of the key from block n on.
fn fill(key: [u64; 4], n: u64, blocks: &mut [Block], count: usize)
    requires room { (count ≤ length blocks.old) × (n + count ≤ 65536) }
    ensures blocks { (j : ℕ) (b : Block) → j < count → slice_get blocks.new j ≡ Some b → (b.key ≡ key) × (b.number ≡ n + j) }
{
    for k in 0..count {
        blocks[k] = block(key, n + k as u64);
    }
}

// Publishes a batch of `count` blocks from n on; None if these are not the next blocks, or if `count` is out of range.
fn publish_from(one: &mut One, n: u64, count: usize) -> Option<PublishMany> {
    let id = one.ring.spec().id;
    let next = one.producer.published();
    if one.producer.ended() || next != n {
        return None;
    }
    if count == 0 || count > 10 || id.total - n < count as u64 {
        return None;
    }
    let mut blocks = [block(id.key, 0); 10];
    fill(id.key, n, &mut blocks, count);
    Some(one.producer.publish_batch(&one.ring, &blocks[..count]))
}

// Takes a batch, unless the reader has seen the end.
fn take_into(one: &mut One, out: &mut [Block]) -> Option<Batch> {
    if one.reader.ended() || out.is_empty() {
        return None;
    }
    Some(one.reader.take_batch(&one.ring, out))
}

// Whether these are the blocks of the zero key from n on.
fn are_blocks(blocks: &[Block], n: u64) -> bool {
    for (k, b) in blocks.iter().enumerate() {
        if *b != block([0; 4], n.wrapping_add(k as u64)) {
            return false;
        }
    }
    true
}

// Publishes four of six blocks and takes three of them, and returns whether each answer was right.
fn begins(one: &mut One, three: &mut [Block; 3]) -> bool {
    publish_from(one, 0, 6) == Some(PublishMany::Done { count: 4 })
        && take_into(one, three) == Some(Batch::Got { count: 3 })
        && are_blocks(three, 0)
}

// Publishes three more blocks and takes four, which leave the rest of `ten` as it was, and returns whether each answer was
// right.
fn goes_on(one: &mut One, ten: &mut [Block; 10], mark: Block) -> bool {
    publish_from(one, 4, 6) == Some(PublishMany::Done { count: 3 })
        && take_into(one, ten) == Some(Batch::Got { count: 4 })
        && are_blocks(&ten[..4], 3)
        && ten[4..] == [mark; 6]
}

// Takes nothing, then marks the end and takes it, and returns whether each answer was right.
fn ends(one: &mut One, three: &mut [Block; 3], ten: &mut [Block; 10]) -> bool {
    let is_empty = take_into(one, ten) == Some(Batch::Empty { published: 7 });
    one.finish();
    is_empty && take_into(one, three) == Some(Batch::Ended { published: 7 })
}

// Makes these calls on a ring, and returns whether the blocks that were taken stay as they were at the end too.
fn shares_four_slots(one: &mut One) -> bool {
    let mark = block([7; 4], 99);
    let mut three = [mark; 3];
    let mut ten = [mark; 10];
    begins(one, &mut three)
        && goes_on(one, &mut ten, mark)
        && ends(one, &mut three, &mut ten)
        && are_blocks(&three, 0)
        && are_blocks(&ten[..4], 3)
}

// The same of a ring of four slots; false also if it is not opened.
fn four_slots_are_shared(alloc: Global) -> bool {
    match One::open(alloc, 4, 10) {
        None => false,
        Some(mut one) => shares_four_slots(&mut one),
    }
}

#[test]
fn batches_share_four_slots(rt: HostRuntime) {
    assert!(rt; four_slots_are_shared(rt.alloc()));
}

// Publishes a batch of two blocks on one slot, and then one block, and returns whether each answer was right.
fn fills_one_slot(one: &mut One) -> bool {
    let full = PublishMany::Full {
        reader: 0,
        taken: 0,
    };
    publish_from(one, 0, 2) == Some(PublishMany::Done { count: 1 })
        && publish_from(one, 1, 1) == Some(full)
        && one.producer.published() == 1
        && one.reader.taken() == 0
}

// The same of a ring of one slot; false also if it is not opened.
fn one_slot_is_filled(alloc: Global) -> bool {
    match One::open(alloc, 1, 2) {
        None => false,
        Some(mut one) => fills_one_slot(&mut one),
    }
}

#[test]
fn a_batch_for_one_slot(rt: HostRuntime) {
    assert!(rt; one_slot_is_filled(rt.alloc()));
}

// Takes what the last look has shown into the first `places` of ten, and returns how many blocks that are. None if they are
// not those from n on, or if a place after them was written to.
fn shown(one: &mut One, places: usize, n: u64) -> Option<usize>
    requires { places ≤ 10 }
{
    let mark = block([7; 4], 99);
    let mut ten = [mark; 10];
    let count = one.reader.take_shown(&one.ring, &mut ten[..places]);
    let rest = ten.iter().skip(count).all(|b| *b == mark);
    if rest && are_blocks(&ten[..count], n) {
        Some(count)
    } else {
        None
    }
}

// Takes nothing before the first look, then one block by a look, and two of the three others that it has shown. Returns
// whether each answer was right.
fn looks_once(one: &mut One) -> bool {
    publish_from(one, 0, 6) == Some(PublishMany::Done { count: 4 })
        && shown(one, 10, 0) == Some(0)
        && one.takes(0)
        && shown(one, 0, 1) == Some(0)
        && shown(one, 2, 1) == Some(2)
        && one.reader.taken() == 3
}

// Publishes three more blocks into the slots that are free by then. They are not among those shown before a look at them,
// which takes two of them. Returns whether each answer was right.
fn looks_again(one: &mut One, two: &mut [Block; 2]) -> bool {
    publish_from(one, 4, 6) == Some(PublishMany::Done { count: 3 })
        && shown(one, 10, 3) == Some(1)
        && shown(one, 10, 4) == Some(0)
        && take_into(one, two) == Some(Batch::Got { count: 2 })
        && are_blocks(two, 4)
        && shown(one, 10, 6) == Some(1)
}

// Marks the end, which only a look shows, and takes nothing before and after it. Returns whether each answer was right.
fn sees_the_end(one: &mut One, two: &mut [Block; 2]) -> bool {
    one.finish();
    let is_none = shown(one, 10, 7) == Some(0) && !one.reader.ended();
    is_none
        && take_into(one, two) == Some(Batch::Ended { published: 7 })
        && shown(one, 10, 7) == Some(0)
        && one.reader.ended()
}

// Makes these calls on a ring of four slots; false also if it is not opened.
fn shown_blocks_are_taken(alloc: Global) -> bool {
    let mut two = [block([7; 4], 99); 2];
    match One::open(alloc, 4, 10) {
        None => false,
        Some(mut one) => {
            looks_once(&mut one)
                && looks_again(&mut one, &mut two)
                && sees_the_end(&mut one, &mut two)
        }
    }
}

#[test]
fn a_reader_takes_what_its_last_look_has_shown(rt: HostRuntime) {
    assert!(rt; shown_blocks_are_taken(rt.alloc()));
}
