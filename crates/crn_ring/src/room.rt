//! How the producer looks for room: it loads the readers' cursors, which are its gates.
ghost use Rattle.std.specs.Prelude.{◌≡◌, ◌≢◌, ◌+◌, ◌<◌, ◌≤◌, true, false};
ghost use Rattle.crn_proto.specs.Ring.{left_mark};
ghost use Rattle.crn_ring.specs.Gates.{Passes};

use crate::ring::Ring;
use crn_proto::LEFT;
use crn_steps::Place;

/// What the gates show of one block.
#[derive(Clone, Copy)]
pub(crate) enum Gauge {
    /// This reader has no room for it.
    Full { reader: u32, taken: u64 },
    /// All have room. The least count among them, or `LEFT` if all readers have left.
    Least(u64),
}

/// For how many blocks there is room.
#[derive(Clone, Copy)]
pub(crate) enum Room {
    /// For this many, at least one.
    Blocks(usize),
    /// For none: this reader takes block `taken` next.
    Full { reader: u32, taken: u64 },
}

// Returns whether a gate of this count lets block n into a ring of this size: its reader has left, or has taken block
// `n - size`.
#[inline(always)]
fn lets_in(count: u64, n: u64, size: u64) -> bool
    requires known { count ≢ left_mark → count ≤ n }
    requires small { n < left_mark }
    ensures passes { result ≡ true → Passes size n count }
    ensures full { result ≡ false → (count ≢ left_mark) × (count + size ≤ n) }
{
    count == LEFT || n - count < size
}

impl Ring {
    ghost use Rattle.crn_proto.specs.Chains.{ProducerReaches};
    ghost use Rattle.crn_ring.specs.Gates.{HaveRoom, Remembers};
    ghost use Rattle.crn_steps.specs.Holds.{HasProducer};
    ghost use Rattle.crn_steps.specs.Seats.{passed_in, producer_in, spec_in, view_of};
    ghost use Rattle.crn_steps.specs.Places.{IsProducerSeat, SameSeat};
    ghost use Rattle.crn_ring.specs.Inner.Rooms.{Finds, Gauges, HasPassed};

    // Loads the gates in order, up to the first that has no room for block n.
    pub(crate) fn gauge(&self, seat: &mut Place, n: u64) -> Gauge
        requires own { IsProducerSeat self.now.words seat.old }
        requires at { ((producer_in seat.old).ended ≡ false) × ((producer_in seat.old).published ≡ n) × (n < self.now.words.spec.id.total) }
        requires rests { ((producer_in seat.old).stored ≡ 0) × (passed_in seat.old ≡ 0) }
        ensures own { SameSeat seat.old seat.new }
        ensures moved { ProducerReaches self.now.words.spec (producer_in seat.old) self.now.words.spec.readers (producer_in seat.new) }
        ensures view { Gauges self.now.words.spec n (view_of seat.old) (view_of seat.new) result }
    {
        let size = self.words.spec.size;
        let mut least = LEFT;
        for r in 0..self.words.spec.readers {
            let count = self.words.load_gate(seat, r);
            if !lets_in(count, n, size) {
                return Gauge::Full {
                    reader: r,
                    taken: count,
                };
            }
            least = least.min(count);
        }
        Gauge::Least(least)
    }

    // Looks for room for the next m blocks, from n on. `least` is the count that the producer remembers: the gates are loaded
    // only if it leaves too little room for all of them.
    pub(crate) fn find_room(&self, seat: &mut Place, n: u64, least: &mut u64, m: usize) -> Room
        requires own { IsProducerSeat self.now.words seat.old }
        requires at { ((producer_in seat.old).ended ≡ false) × ((producer_in seat.old).published ≡ n) }
        requires rests { ((producer_in seat.old).stored ≡ 0) × (passed_in seat.old ≡ 0) }
        requires blocks { (0 < m) × (n + m ≤ self.now.words.spec.id.total) }
        requires remembers { Remembers self.now.words.spec.size n self.now.words.spec.readers (producer_in seat.old).gates least.old }
        ensures own { SameSeat seat.old seat.new }
        ensures mine { HasProducer (view_of seat.new) × (spec_in seat.new ≡ spec_in seat.old) }
        ensures moved { ProducerReaches self.now.words.spec (producer_in seat.old) self.now.words.spec.readers (producer_in seat.new) }
        ensures found { Finds self.now.words.spec (producer_in seat.old) (producer_in seat.new) m result }
        ensures passed { HasPassed self.now.words.spec.readers (passed_in seat.new) result }
        ensures remembers { Remembers self.now.words.spec.size n self.now.words.spec.readers (producer_in seat.new).gates least.new }
        ensures quiet { HaveRoom self.now.words.spec (producer_in seat.old) m → (producer_in seat.new).loads ≡ (producer_in seat.old).loads }
    {
        if n + m as u64 <= *least + self.words.spec.size {
            return Room::Blocks(m);
        }
        match self.gauge(seat, n) {
            Gauge::Full { reader, taken } => {
                *least = taken;
                Room::Full { reader, taken }
            }
            Gauge::Least(count) => {
                *least = count;
                let free = count + self.words.spec.size - n;
                Room::Blocks(m.min(free as usize))
            }
        }
    }
}
