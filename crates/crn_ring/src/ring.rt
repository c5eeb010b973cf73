//! A ring: the words that all actors share, and how a ring is opened and closed.
ghost use Rattle.std.specs.Prelude.{◌≡◌, ◌≤◌};

use crate::producer::Producer;
use crate::reader::Reader;
use crn_proto::{RingFault, RingSpec};
use crn_steps::{Closing, Place, SharedWords};
use std::alloc::{AllocError, Global};

/// A ring of `size` slots, which one producer and `readers` readers share by reference, each on its own thread.
///
/// It has only the words. What each actor knows is kept by the [`Producer`](crate::Producer) and the
/// [`Reader`](crate::Reader)s. All their calls take the ring, and it must be the one that they were opened with.
///
/// Source: Thompson, Farley, Barker, Gee and Stewart, "Disruptor", LMAX, 2011.
#[derive(Drop)]
pub struct Ring {
    pub(crate) words: SharedWords,
}

impl Ring {
    ghost use Rattle.std.specs.Prelude.{[], length, vec_capacity, IfOk, IfErr};
    ghost use Rattle.crn_proto.specs.Opening.{CanOpen, RefusesRing};
    ghost use Rattle.crn_steps.specs.Holds.{opened};
    ghost use Rattle.crn_steps.specs.Seats.{view_of};
    ghost use Rattle.crn_ring.specs.Calls.{AllFresh, IsOpened, IsProducerOf, producer_part, spec_of};
    ghost use Rattle.crn_steps.specs.Closes.{Closes};

    /// Opens an empty ring. Returns it with its producer and its readers, in order of their numbers. All of them begin at
    /// block `spec.id.first`. No other call of this crate allocates.
    ///
    /// # Errors
    ///
    /// The fault that [`RingSpec::judge`] finds, or else [`RingFault::Memory`] if an allocation fails. Then nothing is
    /// kept.
    pub fn open(alloc: Global, spec: RingSpec) -> Result<(Ring, Producer, Vec<Reader>), RingFault>
        ensures refused { IfErr result (λ f. RefusesRing spec f) }
        ensures opened { IfOk result (λ r. IsOpened spec r.0 r.1 r.2.items) }
        ensures valid { IfOk result (λ r. CanOpen spec) }
    {
        spec.judge()?;
        Ok(Ring::with_actors(alloc, spec)?)
    }

    // Opens a ring whose spec was judged, with all its actors.
    fn with_actors(
        alloc: Global,
        spec: RingSpec,
    ) -> Result<(Ring, Producer, Vec<Reader>), AllocError>
        requires { CanOpen spec }
        ensures { IfOk result (λ r. IsOpened spec r.0 r.1 r.2.items) }
    {
        let readers = Vec::with_capacity(alloc, spec.readers as usize)?;
        let (words, seat) = SharedWords::open(alloc, spec)?;
        let ring = Ring { words };
        let (seat, readers) = ring.cut_all(seat, readers);
        let first = ring.words.spec.id.first;
        let producer = Producer {
            seat,
            published: first,
            ended: false,
            least: first,
        };
        Ok((ring, producer, readers))
    }

    // Cuts a seat for each reader off the first seat. What is left of that is the producer's.
    fn cut_all(&self, mut seat: Place, mut readers: Vec<Reader>) -> (Place, Vec<Reader>)
        requires own { seat.table_id ≡ self.now.words.table.shared.table_id }
        requires first { view_of seat ≡ opened self.now.words.spec 0 }
        requires room { (readers.items ≡ []) × (self.now.words.spec.readers ≤ vec_capacity readers) }
        ensures own { result.0.table_id ≡ self.now.words.table.shared.table_id }
        ensures producer { view_of result.0 ≡ opened self.now.words.spec self.now.words.spec.readers }
        ensures readers { (length result.1.items ≡ self.now.words.spec.readers) × AllFresh self.now result.1.items }
    {
        for r in 0..self.words.spec.readers {
            let cut = self.words.cut_reader(&mut seat);
            readers.push_reserved(Reader {
                seat: cut,
                number: r,
                taken: self.words.spec.id.first,
                seen: self.words.spec.id.first,
                ended: false,
            });
        }
        (seat, readers)
    }

    /// Returns the size, the number of readers and the stream that the ring was opened with.
    #[inline(always)]
    pub fn spec(&self) -> RingSpec
        ensures { result ≡ spec_of self.now }
    {
        self.words.spec
    }

    /// Closes the ring, frees its memory and returns its cursors.
    ///
    /// [`Closing::published`] and [`Closing::ended`] are what the producer knows. The contract says of the readers' cursors
    /// that they are the words of a state in which the rule holds and the producer knows this. So each is
    /// [`LEFT`](crn_proto::LEFT) or at most [`Closing::published`], and not below what the producer last loaded of it.
    /// Allocates nothing and never waits.
    ///
    /// # Asks
    ///
    /// This is the ring's producer.
    pub fn close(self, producer: Producer) -> Closing
        requires { IsProducerOf self producer }
        ensures { Closes (spec_of self) (producer_part producer) result }
    {
        let Ring { words } = self;
        let Producer {
            seat,
            published: _,
            ended: _,
            least: _,
        } = producer;
        words.close(seat)
    }
}
