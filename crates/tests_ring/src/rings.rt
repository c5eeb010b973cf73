//! Rings of the zero key, with their producer and readers, for tests that make all calls on one thread.

ghost use Rattle.std.specs.Prelude.{◌≡◌, ◌∷◌, [], false, IfSome};
ghost use Rattle.crn_proto.specs.Ring.{open_reader};
ghost use Rattle.crn_ring.specs.Calls.{AllFresh, IsProducerOf, IsReaderOf, producer_part, reader_part, spec_of};

use crn_cipher::{StreamId, block};
use crn_proto::RingSpec;
use crn_ring::{Closing, Producer, Publish, Reader, Ring, Take};
use std::alloc::Global;

// The description of a ring that carries the blocks of a key from 0 on.
pub(crate) fn ring_of(key: [u64; 4], size: u64, readers: u32, total: u64) -> RingSpec
    ensures size { result.size ≡ size }
    ensures readers { result.readers ≡ readers }
    ensures id { (result.id.key ≡ key) × (result.id.first ≡ 0) × (result.id.total ≡ total) }
{
    RingSpec {
        size,
        readers,
        id: StreamId {
            key,
            first: 0,
            total,
        },
    }
}

// Opens a ring of the zero key.
pub(crate) fn open(
    alloc: Global,
    size: u64,
    readers: u32,
    total: u64,
) -> Option<(Ring, Producer, Vec<Reader>)>
    ensures spec { IfSome result (λ r. ((spec_of r.0).id.key ≡ 0 ∷ 0 ∷ 0 ∷ 0 ∷ []) × ((spec_of r.0).id.total ≡ total) × ((spec_of r.0).id.first ≡ 0)) }
    ensures producer { IfSome result (λ r. IsProducerOf r.0 r.1 × ((producer_part r.1).ended ≡ false)) }
    ensures readers { IfSome result (λ r. AllFresh r.0 r.2.items) }
{
    Ring::open(alloc, ring_of([0; 4], size, readers, total)).ok()
}

// Removes the last reader from a ring's readers as they were opened.
pub(crate) fn last_of(ring: &Ring, readers: &mut Vec<Reader>) -> Option<Reader>
    requires { AllFresh ring.now readers.old.items }
    ensures rest { AllFresh ring.now readers.new.items }
    ensures last { IfSome result (λ x. IsReaderOf ring.now x × (reader_part x ≡ open_reader (spec_of ring.now))) }
    ensures running { IfSome result (λ x. (reader_part x).seen_end ≡ false) }
{
    match readers.pop() {
        None => None,
        Some(reader) => Some(reader),
    }
}

// Opens a ring of the zero key with readers 0 and 1.
pub(crate) fn open_two(
    alloc: Global,
    size: u64,
    total: u64,
) -> Option<(Ring, Producer, Reader, Reader)>
    ensures producer { IfSome result (λ x. IsProducerOf x.0 x.1 × ((producer_part x.1).ended ≡ false)) }
    ensures first { IfSome result (λ x. IsReaderOf x.0 x.2 × ((reader_part x.2).seen_end ≡ false)) }
    ensures second { IfSome result (λ x. IsReaderOf x.0 x.3 × ((reader_part x.3).seen_end ≡ false)) }
{
    match open(alloc, size, 2, total) {
        None => None,
        Some((ring, producer, mut readers)) => {
            match (last_of(&ring, &mut readers), last_of(&ring, &mut readers)) {
                (Some(second), Some(first)) => Some((ring, producer, first, second)),
                _ => None,
            }
        }
    }
}

// Publishes the next block, unless the end is marked or the total is reached.
pub(crate) fn publish_next(ring: &Ring, producer: &mut Producer) -> Option<Publish>
    requires { IsProducerOf ring.now producer.old }
    ensures { IsProducerOf ring.now producer.new }
{
    let id = ring.spec().id;
    let n = producer.published();
    if producer.ended() || n >= id.total {
        return None;
    }
    Some(producer.try_publish(ring, &block(id.key, n)))
}

// Marks the end, unless it is marked.
pub(crate) fn finish(ring: &Ring, producer: &mut Producer)
    requires { IsProducerOf ring.now producer.old }
    ensures { IsProducerOf ring.now producer.new }
{
    if !producer.ended() {
        producer.finish(ring);
    }
}

// Takes the next block, unless the reader has seen the end.
fn take_next(ring: &Ring, reader: &mut Reader) -> Option<Take>
    requires { IsReaderOf ring.now reader.old }
    ensures { IsReaderOf ring.now reader.new }
{
    if reader.ended() {
        return None;
    }
    Some(reader.try_take(ring))
}

// A ring with one reader. Tests hold it as one value, since a proof takes longer the more values a function owns.
#[derive(Drop)]
pub(crate) struct One {
    pub(crate) ring: Ring,
    pub(crate) producer: Producer,
    pub(crate) reader: Reader,
    ghost producer_of: { IsProducerOf ring producer },
    ghost reader_of: { IsReaderOf ring reader },
}

impl One {
    pub(crate) fn open(alloc: Global, size: u64, total: u64) -> Option<One> {
        match open(alloc, size, 1, total) {
            None => None,
            Some((ring, producer, mut readers)) => match last_of(&ring, &mut readers) {
                None => None,
                Some(reader) => Some(One {
                    ring,
                    producer,
                    reader,
                }),
            },
        }
    }

    pub(crate) fn publish(&mut self) -> Option<Publish> {
        publish_next(&self.ring, &mut self.producer)
    }

    // Whether the next block is block n and can be published.
    pub(crate) fn publishes(&mut self, n: u64) -> bool {
        self.producer.published() == n && self.publish() == Some(Publish::Done)
    }

    pub(crate) fn take(&mut self) -> Option<Take> {
        take_next(&self.ring, &mut self.reader)
    }

    // Whether the reader can take block n of the zero key.
    pub(crate) fn takes(&mut self, n: u64) -> bool {
        match self.take() {
            Some(Take::Got(b)) => {
                b == block([0; 4], n) && self.reader.taken() == n.wrapping_add(1)
            }
            _ => false,
        }
    }

    // Whether the blocks from `first` on and below `upto` can be published and taken one by one.
    pub(crate) fn passes(&mut self, first: u64, upto: u64) -> bool {
        for n in first..upto {
            if !self.publishes(n) || !self.takes(n) {
                return false;
            }
        }
        true
    }

    pub(crate) fn finish(&mut self) {
        finish(&self.ring, &mut self.producer);
    }

    pub(crate) fn close(self) -> Closing {
        let One {
            ring,
            producer,
            reader: _,
        } = self;
        ring.close(producer)
    }
}

// A ring with readers 0 and 1.
#[derive(Drop)]
pub(crate) struct Two {
    pub(crate) ring: Ring,
    pub(crate) producer: Producer,
    pub(crate) first: Reader,
    pub(crate) second: Reader,
    ghost producer_of: { IsProducerOf ring producer },
    ghost first_of: { IsReaderOf ring first },
    ghost second_of: { IsReaderOf ring second },
}

// Which of two readers.
#[derive(Clone, Copy)]
pub(crate) enum Which {
    First,
    Second,
}

impl Two {
    pub(crate) fn open(alloc: Global, size: u64, total: u64) -> Option<Two> {
        match open_two(alloc, size, total) {
            None => None,
            Some((ring, producer, first, second)) => Some(Two {
                ring,
                producer,
                first,
                second,
            }),
        }
    }

    pub(crate) fn publish(&mut self) -> Option<Publish> {
        publish_next(&self.ring, &mut self.producer)
    }

    // Whether the next block is block n and can be published.
    pub(crate) fn publishes(&mut self, n: u64) -> bool {
        self.producer.published() == n && self.publish() == Some(Publish::Done)
    }

    pub(crate) fn take(&mut self, which: Which) -> Option<Take> {
        match which {
            Which::First => take_next(&self.ring, &mut self.first),
            Which::Second => take_next(&self.ring, &mut self.second),
        }
    }

    fn taken(&self, which: Which) -> u64 {
        match which {
            Which::First => self.first.taken(),
            Which::Second => self.second.taken(),
        }
    }

    // Whether a reader can take block n of the zero key.
    pub(crate) fn takes(&mut self, which: Which, n: u64) -> bool {
        match self.take(which) {
            Some(Take::Got(b)) => b == block([0; 4], n) && self.taken(which) == n.wrapping_add(1),
            _ => false,
        }
    }

    // Whether the blocks below `upto` can be published and taken by both readers one by one.
    pub(crate) fn passes(&mut self, upto: u64) -> bool {
        for n in 0..upto {
            if !self.publishes(n) || !self.takes(Which::First, n) || !self.takes(Which::Second, n) {
                return false;
            }
        }
        true
    }

    pub(crate) fn finish(&mut self) {
        finish(&self.ring, &mut self.producer);
    }

    // The ring with its second reader, once the first has left.
    pub(crate) fn without_first(self) -> One {
        let Two {
            ring,
            producer,
            first,
            second,
        } = self;
        first.leave(&ring);
        One {
            ring,
            producer,
            reader: second,
        }
    }

    // The ring with its first reader, once the second has left.
    pub(crate) fn without_second(self) -> One {
        let Two {
            ring,
            producer,
            first,
            second,
        } = self;
        second.leave(&ring);
        One {
            ring,
            producer,
            reader: first,
        }
    }

    pub(crate) fn close(self) -> Closing {
        let Two {
            ring,
            producer,
            first: _,
            second: _,
        } = self;
        ring.close(producer)
    }
}
