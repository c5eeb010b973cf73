//! The loop of a caller that takes by batches of 16.

ghost use Rattle.std.specs.Prelude.{◌≡◌, false, true};
ghost use Rattle.crn_ring.specs.Calls.{IsReaderOf, reader_part};

use crn_cipher::{Block, block};
use crn_ring::{Batch, Reader, Ring};
use crossbeam_utils::Backoff;
use std::sync::Wait;

const BATCH: usize = 16;

// A consumer that is to be given the blocks of a key from `next` on, in order. It counts those that it was given so.
#[derive(Clone, Copy)]
struct Consumer {
    key: [u64; 4],
    next: u64,
    right: u64,
}

impl Consumer {
    fn consume(&mut self, blocks: &[Block]) {
        for b in blocks {
            if *b == block(self.key, self.next) {
                self.right = self.right.wrapping_add(1);
            }
            self.next = self.next.wrapping_add(1);
        }
    }
}

// Takes all blocks up to the end, and hands each in its turn to a consumer. Answers how many were the key's own.
pub(crate) fn drain<R: Wait>(rt: &R, ring: &Ring, reader: &mut Reader) -> u64
    requires of { IsReaderOf ring.now reader.old }
    requires running { (reader_part reader.old).seen_end ≡ false }
    ensures ended { (reader_part reader.new).seen_end ≡ true }
{
    let key = ring.spec().id.key;
    let backoff = Backoff::new();
    let mut consumer = Consumer {
        key,
        next: reader.taken(),
        right: 0,
    };
    let mut blocks = [block([0; 4], 0); BATCH];
    for _ in rt.forever() {
        match reader.take_batch(ring, &mut blocks) {
            Batch::Got { count } => {
                consumer.consume(&blocks[..count]);
                backoff.reset();
            }
            Batch::Empty { published: _ } => backoff.snooze(),
            Batch::Ended { published: _ } => return consumer.right,
        }
    }
    unreachable!()
}
