//! A reader of a ring.
ghost use Rattle.std.specs.Prelude.{◌≡◌, ◌≤◌, ◌<◌, [], false, true};
ghost use Rattle.crn_steps.specs.Holds.{HasReader};
ghost use Rattle.crn_steps.specs.Seats.{looked_in, reader_in, spec_in, view_of};

use crate::answers::{Batch, Take};
use crate::ring::Ring;
use crn_cipher::{BLOCK_WORDS, Block};
use crn_steps::Place;

/// A reader of a ring: it takes every block that the producer publishes, in order, and then sees the end. Each reader of a
/// ring may run on its own thread.
#[derive(Drop)]
pub struct Reader {
    pub(crate) seat: Place,
    pub(crate) number: u32,
    pub(crate) taken: u64,
    pub(crate) seen: u64,
    pub(crate) ended: bool,
    pub ghost role: { HasReader (view_of seat) },
    pub ghost numbered: { number ≡ (view_of seat).number },
    pub ghost counts: { taken ≡ (reader_in seat).taken },
    pub ghost saw: { seen ≡ (reader_in seat).seen },
    pub ghost ahead: { taken ≤ seen },
    pub ghost ends: { ended ≡ (reader_in seat).seen_end },
    pub ghost rests: { (reader_in seat).read ≡ [] },
    pub ghost here: { (reader_in seat).left ≡ false },
    pub ghost below: { number < (spec_in seat).readers },
    pub ghost within: { taken ≤ (spec_in seat).id.total },
    pub ghost seen_within: { seen ≤ (spec_in seat).id.total },
    pub ghost looks: { looked_in seat ≡ true → seen ≤ taken },
}

/// A reader that has left its ring: it has stored [`LEFT`](crn_proto::LEFT) in its cursor. It has no calls.
#[derive(Drop)]
pub struct LeftReader {
    pub(crate) seat: Place,
    pub ghost role: { HasReader (view_of seat) },
    pub ghost left: { (reader_in seat).left ≡ true },
}

impl Reader {
    ghost use Rattle.std.specs.Prelude.{◌+◌, ◌-◌, ◌*◌, length};
    ghost use Rattle.crn_proto.specs.Chains.{ReaderReaches};
    ghost use Rattle.crn_ring.specs.Calls.{AfterBatch, AfterShown, AfterTake, HasLeft, IsReaderOf, left_part, reader_number, reader_part, reader_spec, spec_of};

    /// Returns the number of this reader, from 0 and below the ring's number of readers.
    #[inline(always)]
    pub fn number(&self) -> u32
        ensures part { result ≡ reader_number self.now }
        ensures within { result < (reader_spec self.now).readers }
    {
        self.number
    }

    /// Returns the number of the block that it takes next, at most the ring's total.
    #[inline(always)]
    pub fn taken(&self) -> u64
        ensures part { result ≡ (reader_part self.now).taken }
        ensures within { result ≤ (reader_spec self.now).id.total }
    {
        self.taken
    }

    /// Returns whether it has seen the end.
    #[inline(always)]
    pub fn ended(&self) -> bool
        ensures { result ≡ (reader_part self.now).seen_end }
    {
        self.ended
    }

    /// Takes the next block if there is one.
    ///
    /// Returns [`Take::Got`] with the block. If this call's load of the ring cursor shows no further block, it returns
    /// [`Take::Ended`] if that load shows the end, and else [`Take::Empty`]. Allocates nothing, never waits, and makes at
    /// most `BLOCK_WORDS + 2` loads and stores.
    ///
    /// Source: Thompson, Farley, Barker, Gee and Stewart, "Disruptor", LMAX, 2011.
    ///
    /// # Asks
    ///
    /// This is a reader of the ring, and it has not seen the end.
    pub fn try_take(&mut self, ring: &Ring) -> Take
        requires ring { IsReaderOf ring.now self.old }
        requires running { (reader_part self.old).seen_end ≡ false }
        ensures ring { IsReaderOf ring.now self.new × (reader_number self.new ≡ reader_number self.old) }
        ensures moves { ReaderReaches (reader_part self.old) (BLOCK_WORDS + 2) (reader_part self.new) }
        ensures steps { (reader_part self.new).steps ≤ (reader_part self.old).steps + BLOCK_WORDS + 2 }
        ensures answer { AfterTake (spec_of ring.now) (reader_part self.old) (reader_part self.new) result }
        ensures within { (reader_part self.new).taken ≤ (spec_of ring.now).id.total }
    {
        let number = self.taken;
        let cursor = ring.words.load_cursor(&mut self.seat);
        let published = cursor / 2;
        self.seen = published;
        self.ended = cursor == 2 * number + 1;
        if self.ended {
            return Take::Ended { published };
        }
        if published == number {
            return Take::Empty { published };
        }
        let words = ring.load_row(&mut self.seat, number);
        self.taken += 1;
        ring.words
            .store_taken(&mut self.seat, self.number, self.taken, 1);
        Take::Got(Block::from_words(ring.words.spec.id.key, number, words))
    }

    /// Takes all published blocks that fit into `out` and frees their slots by one store. They stand at the start of
    /// `out`, in order; the rest of it stays as it was.
    ///
    /// Returns [`Batch::Got`] with their number. If there is none, it returns [`Batch::Empty`] or [`Batch::Ended`] as
    /// [`try_take`](Reader::try_take) does, and `out` stays as it was. Allocates nothing, never waits, and makes at most
    /// `BLOCK_WORDS * count + 2` loads and stores.
    ///
    /// # Asks
    ///
    /// This is a reader of the ring, it has not seen the end, and `out` is not empty.
    pub fn take_batch(&mut self, ring: &Ring, out: &mut [Block]) -> Batch
        requires ring { IsReaderOf ring.now self.old }
        requires running { (reader_part self.old).seen_end ≡ false }
        requires places { 0 < length out.old }
        ensures ring { IsReaderOf ring.now self.new × (reader_number self.new ≡ reader_number self.old) }
        ensures moves { ReaderReaches (reader_part self.old) (BLOCK_WORDS * ((reader_part self.new).taken - (reader_part self.old).taken) + 2) (reader_part self.new) }
        ensures steps { (reader_part self.new).steps ≤ (reader_part self.old).steps + BLOCK_WORDS * ((reader_part self.new).taken - (reader_part self.old).taken) + 2 }
        ensures answer { AfterBatch (spec_of ring.now) (reader_part self.old) (reader_part self.new) out.old out.new result }
        ensures within { (reader_part self.new).taken ≤ (spec_of ring.now).id.total }
    {
        let cursor = ring.words.load_cursor(&mut self.seat);
        let published = cursor / 2;
        self.seen = published;
        self.ended = cursor == 2 * self.taken + 1;
        if self.ended {
            return Batch::Ended { published };
        }
        if published == self.taken {
            return Batch::Empty { published };
        }
        let count = ring.take_seen(&mut self.seat, self.number, self.taken, published, out);
        self.taken += count as u64;
        Batch::Got { count }
    }

    /// Takes all blocks that fit into `out` of those that the last load of the ring cursor has shown, as
    /// [`take_batch`](Reader::take_batch) does, without a load of it. Returns their number, 0 if none is left or `out` is
    /// empty. Allocates nothing, never waits, and makes at most `BLOCK_WORDS * count + 1` loads and stores.
    ///
    /// # Asks
    ///
    /// This is a reader of the ring.
    pub fn take_shown(&mut self, ring: &Ring, out: &mut [Block]) -> usize
        requires ring { IsReaderOf ring.now self.old }
        ensures ring { IsReaderOf ring.now self.new × (reader_number self.new ≡ reader_number self.old) }
        ensures moves { ReaderReaches (reader_part self.old) (BLOCK_WORDS * result + 1) (reader_part self.new) }
        ensures steps { (reader_part self.new).steps ≤ (reader_part self.old).steps + BLOCK_WORDS * result + 1 }
        ensures answer { AfterShown (spec_of ring.now) (reader_part self.old) (reader_part self.new) out.old out.new result }
        ensures within { (reader_part self.new).taken ≤ (spec_of ring.now).id.total }
    {
        let more = ring.take_seen(&mut self.seat, self.number, self.taken, self.seen, out);
        self.taken += more as u64;
        more
    }

    /// Leaves the ring by one store; after it the producer no longer waits for this reader. Allocates nothing and never
    /// waits. Its contract says nothing of that store; that of [`into_left`](Reader::into_left) does.
    ///
    /// # Asks
    ///
    /// This is a reader of the ring.
    pub fn leave(self, ring: &Ring)
        requires { IsReaderOf ring.now self }
    {
        drop(self.into_left(ring));
    }

    /// Leaves the ring as [`leave`](Reader::leave) does, and returns what shows contracts that the reader has left.
    ///
    /// # Asks
    ///
    /// This is a reader of the ring.
    pub fn into_left(self, ring: &Ring) -> LeftReader
        requires { IsReaderOf ring.now self }
        ensures left { HasLeft ring.now (reader_number self) result }
        ensures moves { ReaderReaches (reader_part self) 1 (left_part result) }
    {
        let Reader {
            mut seat,
            number,
            taken: _,
            seen: _,
            ended: _,
        } = self;
        ring.words.store_left(&mut seat, number);
        LeftReader { seat }
    }
}
